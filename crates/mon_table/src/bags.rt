// Laws of tables as bags of rows.
ghost use Rattle.std.specs.Prelude.{List, ℕ};
ghost use Rattle.mon_table.specs.Bags.{JoinsAlike, PrintsAlike, UnionsAlike, UnionsCommute};
ghost use Rattle.mon_value.specs.declared.columns.Column.{Column};
ghost use Rattle.mon_value.specs.declared.tables.TimedRow.{TimedRow};

/// Tables with the same rows, in whatever order they come, have joins with the same rows.
pub fn equal_bags_join_alike()
    ensures alike { (lefts rights : List Column) (rows rows' others others' : List TimedRow)
        → JoinsAlike lefts rights rows rows' others others' }
{}

/// Tables with the same rows, in whatever order they come, have unions with the same rows, whichever of the
/// two comes first.
pub fn equal_bags_unite_alike()
    ensures alike { (columns : List Column) (rows rows' others others' : List TimedRow)
        → UnionsAlike columns rows rows' others others' }
    ensures commute { (columns : List Column) (rows others : List TimedRow) → UnionsCommute columns rows others }
{}

/// Tables with the same rows, in whatever order they come, print the same text.
pub fn equal_bags_print_alike()
    ensures alike { (names : List (List ℕ)) (rows others : List TimedRow) → PrintsAlike names rows others }
{}
