// The rows of one series beside those of all others.
ghost use Rattle.std.specs.Prelude.{◌≡◌, ◌+◌, ◌++◌, List, IsPermutation};
ghost use Rattle.mon_value.specs.LeafHistories.{rows_of};
ghost use Rattle.mon_value.specs.declared.aligners.Aligner.{Aligner};
ghost use Rattle.mon_value.specs.declared.grids.Grid.{Grid};
ghost use Rattle.mon_value.specs.declared.rows.Row.{Row};
ghost use Rattle.mon_value.specs.declared.rows.SeriesKey.{SeriesKey};
ghost use Rattle.typed_trees.specs.Meaning.{load_of, rows_meant};
ghost use Rattle.typed_trees.specs.Nodes as node;
ghost use Rattle.typed_trees.specs.Nodes.{NodeTree};
ghost use Rattle.typed_trees.specs.declared.nodes.NodeInfo.{NodeInfo};
ghost use Rattle.kept_exchanges.specs.Apart.{other_rows};

/// An alignment of rows has those of one series and, beside them, those of all others: so whatever comes to a series
/// leaves the others'. Its load is that of both.
pub fn series_stand_apart()
    ensures meaning { (grid : Grid) (info : NodeInfo) (by : Aligner) (input : NodeTree) (key : SeriesKey) (rows : List Row)
        → IsPermutation (rows_meant grid (node.Align info by input) rows)
        (rows_meant grid (node.Align info by input) (rows_of key rows)
        ++ rows_meant grid (node.Align info by input) (other_rows key rows)) }
    ensures load { (grid : Grid) (info : NodeInfo) (by : Aligner) (input : NodeTree) (key : SeriesKey) (rows : List Row)
        → load_of grid (node.Align info by input) rows
        ≡ load_of grid (node.Align info by input) (rows_of key rows)
        + load_of grid (node.Align info by input) (other_rows key rows) }
{}
