// What holds of every typed query.
ghost use Rattle.std.specs.Prelude.{◌≡◌, ◌≤◌, ◌≤ℤ◌, ℕ, ℤ, pos, true, List, length, Ok};
ghost use Rattle.std.specs.List.{AllByRecursion};
ghost use Rattle.mon_value.specs.declared.grids.Grid.{Grid};
ghost use Rattle.mon_value.specs.declared.rows.Row.{Row};
ghost use Rattle.mon_schema.specs.Fits.{fits, AreMetricsHeld};
ghost use Rattle.mon_schema.specs.Names.{SchemaLists};
ghost use Rattle.mql_ast.specs.Grammar.{Spells};
ghost use Rattle.mql_ast.specs.Trees.{PipeTree};
ghost use Rattle.typed_trees.specs.Meaning.{load_of, grid_of, rows_meant};
ghost use Rattle.typed_trees.specs.Nodes.{NodeTree, TypedTree, columns_of};
ghost use Rattle.typed_trees.specs.Soundness.{AreNarrow, IsEvaluable, IsTyped, WidthsHold};
ghost use Rattle.typed_trees.specs.Typing.{typing};

/// No table has more rows than the load of its part of a query, so a bound on the load bounds every table.
pub fn tables_are_within_loads()
    ensures rows { (grid : Grid) (tree : NodeTree) (rows : List Row)
        → length (rows_meant grid tree rows) ≤ load_of grid tree rows }
{}

/// A text's query that has a type over schemas that rows fit is one of which the laws below speak.
pub fn spelled_queries_are_typed()
    ensures typed { (held : SchemaLists) (query : PipeTree) (text : List ℕ) (typed : TypedTree) (rows : List Row)
        → AreMetricsHeld held.metrics → Spells query text → typing held query ≡ Ok typed
        → AllByRecursion (λ row. fits held row ≡ true) rows → IsTyped typed rows }
{}

/// The rows of a typed query are of its columns' types. At each time each cell is within its column's bits, and so is
/// the sum of a column, where the load is within the rows that a table may have. No column has more than 126 bits, so
/// no sum leaves 128.
pub fn widths_hold()
    ensures narrow { (typed : TypedTree) (rows : List Row) → IsTyped typed rows → AreNarrow (columns_of typed.tree) }
    ensures widths { (typed : TypedTree) (rows : List Row) (moment : ℤ) → WidthsHold typed rows moment }
{}

/// What flows into each operation of a typed query meets what the operation asks of it.
pub fn tables_can_be_made()
    ensures inputs { (typed : TypedTree) (rows : List Row) (moment : ℤ) → IsTyped typed rows → pos 0 ≤ℤ moment
        → IsEvaluable (grid_of typed moment) typed.tree rows }
{}
