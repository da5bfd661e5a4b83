// What is held of rows is enough of them.
ghost use Rattle.std.specs.Prelude.{◌≡◌, ◌≤ℤ◌, ◌++◌, ◌∷◌, [], ℕ, ℤ, pos, true, List, Result, IsPermutation};
ghost use Rattle.mon_value.specs.LeafHistories.{IsSource};
ghost use Rattle.mon_value.specs.declared.refusals.Refusal.{Refusal};
ghost use Rattle.mon_value.specs.declared.rows.Row.{Row};
ghost use Rattle.mon_value.specs.declared.tables.Table.{Table};
ghost use Rattle.typed_trees.specs.Meaning.{load, meaning};
ghost use Rattle.typed_trees.specs.Nodes.{TypedTree};
ghost use Rattle.typed_trees.specs.Soundness.{IsTyped};
ghost use Rattle.mon_meaning.specs.Central.{IsAnswer};
ghost use Rattle.mon_meaning.specs.declared.meter.OverLimit.{OverLimit};
ghost use Rattle.standing_incr.specs.HeldRows.{held_of};
ghost use Rattle.mon_meaning.specs.Incremental.{is_incremental};

/// What is held of rows at a moment means the same as all of them, at that moment and at each later one, and is as much
/// work, so it has the same answers. What is held later of what was held is what is held of all, and what is held of
/// the held rows and one more is what is held of all and it.
pub fn held_rows_are_enough()
    ensures meaning { (typed : TypedTree) (rows : List Row) (moment later : ℤ)
        → is_incremental typed.tree ≡ true → IsTyped typed rows → IsSource rows → pos 0 ≤ℤ moment → moment ≤ℤ later
        → IsPermutation (meaning typed (held_of typed moment rows) later) (meaning typed rows later) }
    ensures load { (typed : TypedTree) (rows : List Row) (moment later : ℤ)
        → is_incremental typed.tree ≡ true → IsTyped typed rows → IsSource rows → pos 0 ≤ℤ moment → moment ≤ℤ later
        → load typed (held_of typed moment rows) later ≡ load typed rows later }
    ensures answer { (typed : TypedTree) (rows : List Row) (moment later : ℤ) (limit : ℕ)
        (answer : Result Table (Refusal OverLimit))
        → is_incremental typed.tree ≡ true → IsTyped typed rows → IsSource rows → pos 0 ≤ℤ moment → moment ≤ℤ later
        → IsAnswer typed (held_of typed moment rows) later limit answer → IsAnswer typed rows later limit answer }
    ensures again { (typed : TypedTree) (rows : List Row) (moment later : ℤ) → moment ≤ℤ later
        → held_of typed later (held_of typed moment rows) ≡ held_of typed later rows }
    ensures more { (typed : TypedTree) (rows : List Row) (row : Row) (moment : ℤ)
        → held_of typed moment (held_of typed moment rows ++ row ∷ []) ≡ held_of typed moment (rows ++ row ∷ []) }
    ensures typed { (typed : TypedTree) (rows : List Row) (moment : ℤ)
        → IsTyped typed rows → IsTyped typed (held_of typed moment rows) }
    ensures source { (typed : TypedTree) (rows : List Row) (moment : ℤ)
        → IsSource rows → IsSource (held_of typed moment rows) }
{}
