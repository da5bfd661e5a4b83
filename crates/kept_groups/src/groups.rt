// Groups that keep up with their rows.
ghost use Rattle.std.specs.Prelude.{◌≡◌, ◌≤◌, ℕ, ◌∷◌, List, IfSome, IsTrue};
ghost use Rattle.std.specs.Map.{lookup};
ghost use Rattle.indexmap.specs.IndexMap.{spare};
ghost use Rattle.mon_value.specs.Same.{same_row};
ghost use Rattle.mon_value.specs.declared.columns.Column.{Column};
ghost use Rattle.mon_value.specs.declared.tables.TimedRow.{TimedRow};
ghost use Rattle.kept_groups.specs.Trades.{AreGroupsOver, AreTold, CanTrade};

use crate::told::are_told;
use crate::trades::trade_parts;
use insertion_map::InsertionMap;
use mon_fold::AggregateParts;
use mon_value::{Aggregate, TimedRow};

/// Whether the parts of a group tell what they are with one row in the place of another. There are no such parts where the
/// group isn't there.
pub(crate) fn is_told_group(
    groups: &InsertionMap<TimedRow, AggregateParts>,
    with: &[Aggregate],
    key: &TimedRow,
    gone: &TimedRow,
    come: &TimedRow,
) -> bool
    ensures { IsTrue result
        → IfSome (lookup (same_row key.now) groups.now.entries) (AreTold with.now gone.now come.now) }
{
    match groups.get(key) {
        Some(parts) => are_told(with, gone, come, parts.as_slice()),
        None => true,
    }
}

/// Puts a row in the place of another of the same group. No memory is taken.
pub(crate) fn trade_rows(
    groups: &mut InsertionMap<TimedRow, AggregateParts>,
    with: &[Aggregate],
    key: &TimedRow,
    gone: &TimedRow,
    come: &TimedRow,
)
    requires can { (columns : List Column) × (by : List ℕ) × (rest : List TimedRow)
        × CanTrade columns by with.now rest groups.old.entries key.now gone.now come.now }
    ensures traded { (columns : List Column) (by : List ℕ) (rest : List TimedRow)
        → CanTrade columns by with.now rest groups.old.entries key.now gone.now come.now
        → AreGroupsOver by with.now (come.now ∷ rest) groups.new.entries }
    ensures room { spare groups.old ≤ spare groups.new }
{
    match groups.get_mut(key) {
        Some(parts) => trade_parts(with, gone, come, parts),
        None => {}
    }
}
