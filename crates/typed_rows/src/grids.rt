// The times of a query that has a type.
ghost use Rattle.std.specs.Prelude.{◌≡◌, ℕ, ℤ, pos, ◌≤ℤ◌, List, Ok};
ghost use Rattle.mon_schema.specs.Names.{SchemaLists};
ghost use Rattle.mon_value.specs.Grids.{IsLawfulGrid};
ghost use Rattle.mql_ast.specs.Grammar.{Spells};
ghost use Rattle.mql_ast.specs.Trees.{PipeTree};
ghost use Rattle.typed_trees.specs.Times.{HasDurations};
ghost use Rattle.typed_trees.specs.Meaning.{grid_of};
ghost use Rattle.typed_trees.specs.Nodes.{TypedTree};
ghost use Rattle.typed_trees.specs.Typing.{typing};

/// A query that a text spells names only durations of at least a second and not too long. A query of such durations
/// that has a type has a lawful grid, at whatever moment it is asked: it has at most as many times as a table may have.
pub fn typed_grids_are_lawful()
    ensures durations { (query : PipeTree) (text : List ℕ) → Spells query text → HasDurations query }
    ensures grid { (held : SchemaLists) (query : PipeTree) (typed : TypedTree) (moment : ℤ) → HasDurations query
        → typing held query ≡ Ok typed → pos 0 ≤ℤ moment → IsLawfulGrid (grid_of typed moment) }
{}
