// Rows that come before their time.
ghost use Rattle.std.specs.Prelude.{◌≡◌, ◌≤ℤ◌, ◌++◌, ◌∷◌, [], ℤ, pos, true, int_lt, List, IsPermutation};
ghost use Rattle.mon_value.specs.Grids.{EndsRise};
ghost use Rattle.mon_value.specs.LeafHistories.{points_of};
ghost use Rattle.mon_value.specs.declared.rows.Row.{Row};
ghost use Rattle.mon_value.specs.declared.rows.SeriesKey.{SeriesKey};
ghost use Rattle.typed_trees.specs.Meaning.{load, meaning};
ghost use Rattle.typed_trees.specs.Nodes.{TypedTree};
ghost use Rattle.typed_trees.specs.Soundness.{IsTyped};
ghost use Rattle.mon_meaning.specs.Incremental.{is_one_path};

/// A row that ends after the moment changes neither what a query means at it nor how much work that is, where nothing is
/// joined or united and the ends of each series rise.
pub fn later_rows_change_nothing()
    ensures meaning { (typed : TypedTree) (rows : List Row) (row : Row) (moment : ℤ) → is_one_path typed.tree ≡ true
        → IsTyped typed rows → pos 0 ≤ℤ moment → int_lt moment row.point.end ≡ true
        → ((key : SeriesKey) → EndsRise (points_of key rows))
        → ((key : SeriesKey) → EndsRise (points_of key (rows ++ row ∷ [])))
        → IsPermutation (meaning typed (rows ++ row ∷ []) moment) (meaning typed rows moment) }
    ensures load { (typed : TypedTree) (rows : List Row) (row : Row) (moment : ℤ) → is_one_path typed.tree ≡ true
        → IsTyped typed rows → pos 0 ≤ℤ moment → int_lt moment row.point.end ≡ true
        → ((key : SeriesKey) → EndsRise (points_of key rows))
        → ((key : SeriesKey) → EndsRise (points_of key (rows ++ row ∷ [])))
        → load typed (rows ++ row ∷ []) moment ≡ load typed rows moment }
{}
