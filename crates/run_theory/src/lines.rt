// What the laws are about.
ghost use Rattle.std.specs.Prelude.{ℕ, List};

/// Lines that ran while histories grew, as contracts speak of them: who sees histories sees their entries, each entry
/// stands under the number of the caller that made it, a line makes entries, and it finds something in what was seen.
pub trait Lines {
    /// All histories, as they were seen at some time.
    type Seen;
    /// Which history.
    type History;
    /// What a history is a list of.
    type Entry;
    /// What a line came to.
    type Line;

    /// What stands in each history.
    ghost content: { Self.Seen → Self.History → List Self.Entry };

    /// What is seen later.
    ghost grown: { Self.Seen → Self.Seen → Type 0 };

    /// The number that an entry stands under.
    ghost under: { Self.Entry → ℕ };

    /// What a line under a number makes in each history.
    ghost makes: { ℕ → Self.Line → (Self.History → List Self.Entry) → Type 0 };

    /// What a line under a number found in histories, from one length of each to another.
    ghost finds: { Self.Seen → (Self.History → ℕ) → (Self.History → ℕ) → ℕ → Self.Line → Type 0 };
}
