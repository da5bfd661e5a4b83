// How high an operation is done.
ghost use Rattle.std.specs.Prelude.{◌≡◌};
ghost use Rattle.typed_trees.specs.Levels as spec;

/// How high an operation is done: each leaf does it for its own rows, each zone for those of its leaves,
/// or the root for all.
#[derive(Clone, Copy, PartialEq, Eq)]
pub enum Level {
    Leaf,
    Zone,
    Root,
}

impl Level {
    /// The higher of two levels.
    pub fn higher(self, other: Level) -> Level
        ensures level { result ≡ spec.higher_level self other }
    {
        match self {
            Level::Leaf => other,
            Level::Zone => match other {
                Level::Root => Level::Root,
                _ => Level::Zone,
            },
            Level::Root => Level::Root,
        }
    }
}
