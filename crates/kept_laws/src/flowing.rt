// Rows on their way from an alignment to where they are grouped.
ghost use Rattle.std.specs.Prelude.{◌≡◌, ◌≤◌, ◌++◌, ◌∷◌, [], List, length};
ghost use Rattle.mon_value.specs.declared.tables.TimedRow.{TimedRow};
ghost use Rattle.typed_trees.specs.Nodes.{NodeTree};
ghost use Rattle.mon_meaning.specs.Operations.{operation_rows};
ghost use Rattle.kept_laws.specs.Flowing.{WorksByRow};

/// An operation that works row by row makes of the rows of two lists what it makes of each list, and of one row at most
/// one.
pub fn rows_flow_one_by_one()
    ensures apart { (tree : NodeTree) (rows others : List TimedRow) → WorksByRow tree
        → operation_rows tree (rows ++ others) []
        ≡ operation_rows tree rows [] ++ operation_rows tree others [] }
    ensures few { (tree : NodeTree) (row : TimedRow) → WorksByRow tree
        → length (operation_rows tree (row ∷ []) []) ≤ 1 }
{}
