// Rows that come to groups, or take the place of others there.
ghost use Rattle.std.specs.Prelude.{◌≡◌, ◌≤◌, ◌<◌, ◌+◌, ◌++◌, ◌∷◌, [], ℕ, List, length, IfOk, IfSome, IsNone, IsTrue};
ghost use Rattle.std.specs.Map.{lookup};
ghost use Rattle.indexmap.specs.IndexMap.{spare};
ghost use Rattle.mon_value.specs.Groups.{group_key};
ghost use Rattle.mon_value.specs.Same.{same_row};
ghost use Rattle.mon_value.specs.declared.aggregates.Aggregate.{Aggregate};
ghost use Rattle.mon_value.specs.declared.columns.Column.{Column};
ghost use Rattle.mon_value.specs.declared.tables.TimedRow.{TimedRow};
ghost use Rattle.mon_fold.specs.PartialGroups.{CanTakeGroup, PartialGroup, parts_over, with_group};
ghost use Rattle.kept_groups.specs.Changes.{CanChange, IsChange, comes};
ghost use Rattle.kept_groups.specs.Trades.{AreGroupsOver, AreTold, CanTrade};

use crate::groups::{is_told_group, trade_rows};
use insertion_map::InsertionMap;
use mon_fold::{AggregateParts, group_of_row, put_group};
use mon_value::{Aggregate, OutOfMemory, TimedRow};
use std::alloc::Global;

/// A row that comes to the group of a key, in the place of another or beside the others. Where it takes no other's place
/// its parts are those of the row.
#[derive(Drop)]
pub struct Change {
    pub key: TimedRow,
    pub gone: Option<TimedRow>,
    pub come: TimedRow,
    pub parts: AggregateParts,
}

/// The change of a row that comes, where it can be made in place: the one that goes is of the same group, and each part of
/// the group tells what it is without that row. A least or a greatest number that goes tells nothing of the others, unless
/// one comes that is no greater or no less.
pub fn change_of(
    alloc: Global,
    by: &[u32],
    with: &[Aggregate],
    groups: &InsertionMap<TimedRow, AggregateParts>,
    gone: Option<TimedRow>,
    come: TimedRow,
) -> Result<Option<Change>, OutOfMemory>
    ensures made { IfOk result (λ found. IfSome found (IsChange by.now with.now groups.now.entries)) }
    ensures gone { IfOk result (λ found. IfSome found (λ change. change.gone ≡ gone)) }
    ensures come { IfOk result (λ found. IfSome found (λ change. change.come ≡ come)) }
{
    let (key, parts) = group_of_row(alloc, by, with, &come)?;
    if can_go(alloc, by, with, groups, &key, &gone, &come)? {
        Ok(Some(change_with(key, gone, come, parts)))
    } else {
        Ok(None)
    }
}

// Whether a row, if there is one, is of the group of a key, whose parts tell what they are with another in its place.
fn can_go(
    alloc: Global,
    by: &[u32],
    with: &[Aggregate],
    groups: &InsertionMap<TimedRow, AggregateParts>,
    key: &TimedRow,
    gone: &Option<TimedRow>,
    come: &TimedRow,
) -> Result<bool, OutOfMemory>
    ensures { IfOk result (λ can. IsTrue can → IfSome gone.now (λ row. (group_key by.now row ≡ key.now)
        × IfSome (lookup (same_row key.now) groups.now.entries) (AreTold with.now row come.now))) }
{
    match gone {
        Some(row) => Ok(
            is_of_group(alloc, by, key, row)? && is_told_group(groups, with, key, row, come),
        ),
        None => Ok(true),
    }
}

// Whether a row is of the group of a key.
fn is_of_group(
    alloc: Global,
    by: &[u32],
    key: &TimedRow,
    row: &TimedRow,
) -> Result<bool, OutOfMemory>
    ensures { IfOk result (λ same. IsTrue same → group_key by.now row.now ≡ key.now) }
{
    let (own, _) = group_of_row(alloc, by, &[], row)?;
    Ok(is_row(&own, key))
}

// Whether two rows are the same.
fn is_row(a: &TimedRow, b: &TimedRow) -> bool
    ensures { IsTrue result → a.now ≡ b.now }
{
    a == b
}

// A change by its parts.
#[tactic(auto, using(crate::proofs::ChangeLemmas::change_is))]
fn change_with(
    key: TimedRow,
    gone: Option<TimedRow>,
    come: TimedRow,
    parts: AggregateParts,
) -> Change
    ensures made { (by : List ℕ) (with : List Aggregate) (groups : List PartialGroup)
        → key ≡ group_key by come → parts ≡ parts_over with (come ∷ [])
        → IfSome gone (λ row. (group_key by row ≡ key) × IfSome (lookup (same_row key) groups) (AreTold with row come))
        → IsChange by with groups result }
    ensures gone { result.gone ≡ gone }
    ensures come { result.come ≡ come }
{
    Change {
        key,
        gone,
        come,
        parts,
    }
}

/// Makes changes of different groups. There is room for those that are new, so no memory is taken. A change costs the same
/// however many rows and groups there are.
pub fn change_groups(
    groups: &mut InsertionMap<TimedRow, AggregateParts>,
    with: &[Aggregate],
    changes: Vec<Change>,
)
    requires room { length changes.items ≤ spare groups.old }
    requires can { (columns : List Column) × (by : List ℕ) × (rest : List TimedRow)
        × CanChange columns by with.now rest changes.items groups.old.entries }
    ensures changed { (columns : List Column) (by : List ℕ) (rest : List TimedRow)
        → CanChange columns by with.now rest changes.items groups.old.entries
        → AreGroupsOver by with.now (comes changes.items ++ rest) groups.new.entries }
{
    for change in changes {
        change_group(groups, with, change);
    }
}

// Makes a change.
fn change_group(
    groups: &mut InsertionMap<TimedRow, AggregateParts>,
    with: &[Aggregate],
    change: Change,
)
    requires room { 0 < spare groups.old }
    requires trade { IfSome change.gone (λ gone. (columns : List Column) × (by : List ℕ) × (rest : List TimedRow)
        × CanTrade columns by with.now rest groups.old.entries change.key gone change.come) }
    requires put { IsNone change.gone → CanTakeGroup groups.old.entries (change.key, change.parts) }
    ensures traded { IfSome change.gone (λ gone. (columns : List Column) (by : List ℕ) (rest : List TimedRow)
        → CanTrade columns by with.now rest groups.old.entries change.key gone change.come
        → AreGroupsOver by with.now (change.come ∷ rest) groups.new.entries) }
    ensures put { IsNone change.gone
        → groups.new.entries ≡ with_group groups.old.entries (change.key, change.parts) }
    ensures room { spare groups.old ≤ spare groups.new + 1 }
{
    let Change {
        key,
        gone,
        come,
        parts,
    } = change;
    match gone {
        Some(gone) => trade_rows(groups, with, &key, &gone, &come),
        None => put_group(groups, key, parts),
    }
}
