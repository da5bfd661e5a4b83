// Partial groups that are written one by one.
ghost use Rattle.std.specs.Prelude.{◌≡◌, ◌≤◌, ◌<◌, ◌+◌, [], ◌∷◌, IfOk};
ghost use Rattle.indexmap.specs.IndexMap.{spare};
ghost use Rattle.mon_value.specs.Groups.{group_key};
ghost use Rattle.mon_fold.specs.PartialGroups.{CanTakeGroup, PartialGroup, parts_over, with_group};

use crate::aggregate_parts::{AggregateParts, merge_lists, parts_of_row};
use crate::groups::{Parts, add_at};
use crate::merging::add_group;
use insertion_map::InsertionMap;
use mon_value::{Aggregate, AggregateKind, Cells, Columns, ListOf, OutOfMemory, TimedRow, Value};
use std::alloc::Global;

/// Partial groups with the map that has them, so that room for more can be made before any of them is written.
#[derive(Drop)]
pub struct OpenGroups {
    pub columns: Columns,
    pub kinds: ListOf<AggregateKind>,
    pub groups: InsertionMap<TimedRow, AggregateParts>,
}

impl OpenGroups {
    /// The groups closed again. No memory is taken.
    pub fn close(self) -> Parts
        ensures columns { result.columns ≡ self.columns }
        ensures kinds { result.kinds ≡ self.kinds }
        ensures groups { result.groups ≡ self.groups.entries }
    {
        let OpenGroups {
            columns,
            kinds,
            groups,
        } = self;
        Parts::of_groups(columns, kinds, groups)
    }
}

/// Puts a group into the one of its key, or else to the end, where there is room. No memory is taken.
pub fn put_group(
    groups: &mut InsertionMap<TimedRow, AggregateParts>,
    key: TimedRow,
    parts: AggregateParts,
)
    requires can { CanTakeGroup groups.old.entries (key, parts) }
    requires room { 0 < spare groups.old }
    ensures put { groups.new.entries ≡ with_group groups.old.entries (key, parts) }
    ensures room { spare groups.old ≤ spare groups.new + 1 }
{
    match groups.get_mut(&key) {
        Some(kept) => merge_lists(kept, &parts),
        None => add_group(groups, Some((key, parts))),
    }
}

/// The group of one row: its key with the parts that stand for the row.
pub fn group_of_row(
    alloc: Global,
    by: &[u32],
    with: &[Aggregate],
    row: &TimedRow,
) -> Result<(TimedRow, AggregateParts), OutOfMemory>
    ensures { let group : PartialGroup = (group_key by.now row.now, parts_over with.now (row.now ∷ [])) in
        IfOk result (λ made. made ≡ group) }
{
    let key = key_of_row(alloc, by, row)?;
    Ok((key, parts_of_row(alloc, with, row)?))
}

// The time and the grouping cells of a row.
fn key_of_row(alloc: Global, by: &[u32], row: &TimedRow) -> Result<TimedRow, OutOfMemory>
    ensures { IfOk result (λ key. key ≡ group_key by.now row.now) }
{
    let mut cells = Cells::new(alloc);
    add_at::<Value>(alloc, &mut cells, row.cells.as_slice(), by)?;
    Ok(TimedRow {
        time: row.time,
        cells,
    })
}
