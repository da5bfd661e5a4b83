// Rows put into their groups one after another.
ghost use Rattle.std.specs.Prelude.{◌≡◌, ◌++◌, [], ◌∷◌, slice_get, IfOk, OnOk};
ghost use Rattle.std.specs.Option.{option_copied};
ghost use Rattle.mon_value.specs.Groups.{CanGroup, group_key};
ghost use Rattle.mon_fold.specs.GroupKeys.{cell_at, cells_seen, key_row, owned_groups};
ghost use Rattle.mon_fold.specs.PartialGroups.{CanTakeGroup, PartialGroup, partial_groups, parts_over, with_group};

use crate::aggregate_parts::{AggregateParts, add_row, parts_of_row};
use insertion_map::InsertionMap;
use mon_value::{Aggregate, Cells, OutOfMemory, Table, TimedRow, TryCopy, Value};
use std::alloc::Global;

/// What tells the group of a row, borrowed from it: its time and its grouping cells.
#[derive(PartialEq, Eq, Hash, Drop)]
pub(crate) struct GroupKey<'a> {
    time: i64,
    cells: Vec<&'a Value>,
}

impl<'a> GroupKey<'a> {
    // A key that is yet to be set.
    fn new(alloc: Global) -> GroupKey<'a> {
        GroupKey {
            time: 0,
            cells: Vec::new(alloc),
        }
    }

    // Makes it the key of a row. What memory it has serves again.
    fn set(&mut self, row: &'a TimedRow, by: &[u32]) -> Result<(), OutOfMemory>
        ensures { OnOk result (key_row self.new ≡ group_key by.now row.now) }
    {
        self.time = row.time;
        self.cells.clear();
        for place in by {
            add_cell(&mut self.cells, row, *place)?;
        }
        Ok(())
    }

    // Another key of the same cells.
    fn copy(&self, alloc: Global) -> Result<GroupKey<'a>, OutOfMemory>
        ensures { IfOk result (λ copied. key_row copied ≡ key_row self.now) }
    {
        Ok(GroupKey {
            time: self.time,
            cells: Vec::from_slice(alloc, self.cells.as_slice())?,
        })
    }

    // The key with cells of its own.
    fn to_row(&self, alloc: Global) -> Result<TimedRow, OutOfMemory>
        ensures { IfOk result (λ row. row ≡ key_row self.now) }
    {
        let mut cells = Cells::new(alloc);
        for cell in &self.cells {
            cells.push((*cell).copy(alloc)?)?;
        }
        Ok(TimedRow {
            time: self.time,
            cells,
        })
    }
}

// Adds the cell at a place, if there is one.
fn add_cell<'a>(
    cells: &mut Vec<&'a Value>,
    row: &'a TimedRow,
    place: u32,
) -> Result<(), OutOfMemory>
    ensures { OnOk result (cells_seen cells.new.items ≡ cells_seen cells.old.items ++ cell_at row.now.cells place) }
{
    if let Some(cell) = row_cell(row, place) {
        cells.push(cell)?;
    }
    Ok(())
}

// The cell at a place.
fn row_cell(row: &TimedRow, place: u32) -> Option<&Value>
    ensures { option_copied result ≡ slice_get row.now.cells place }
{
    row.cells.as_slice().get(place as usize)
}

/// The partial groups of a table's rows. A row of a group that is there takes no memory.
pub(crate) fn groups_of(
    alloc: Global,
    t: &Table,
    by: &[u32],
    with: &[Aggregate],
) -> Result<InsertionMap<TimedRow, AggregateParts>, OutOfMemory>
    requires { CanGroup t.now.columns by.now with.now t.now.rows }
    ensures { IfOk result (λ groups. groups.entries ≡ partial_groups by.now with.now t.now.rows) }
{
    let mut groups = InsertionMap::new(alloc);
    let mut key = GroupKey::new(alloc);
    for row in t.rows.as_slice() {
        key.set(row, by)?;
        put_row(alloc, &mut groups, with, &key, row)?;
    }
    groups_with_rows(alloc, groups)
}

// Puts a row into the group of its key, or into one of its own at the end.
fn put_row<'a>(
    alloc: Global,
    groups: &mut InsertionMap<GroupKey<'a>, AggregateParts>,
    with: &[Aggregate],
    key: &GroupKey<'a>,
    row: &TimedRow,
) -> Result<(), OutOfMemory>
    requires { CanTakeGroup (owned_groups groups.old.entries) (key_row key.now, parts_over with.now (row.now ∷ [])) }
    ensures { let group : PartialGroup = (key_row key.now, parts_over with.now (row.now ∷ [])) in
        OnOk result (owned_groups groups.new.entries ≡ with_group (owned_groups groups.old.entries) group) }
{
    match groups.get_mut(key) {
        Some(kept) => {
            add_row(with, row, kept);
            Ok(())
        }
        None => {
            let parts = parts_of_row(alloc, with, row)?;
            groups.insert(key.copy(alloc)?, parts)?;
            Ok(())
        }
    }
}

// The groups, by keys that have cells of their own.
fn groups_with_rows(
    alloc: Global,
    groups: InsertionMap<GroupKey<'_>, AggregateParts>,
) -> Result<InsertionMap<TimedRow, AggregateParts>, OutOfMemory>
    ensures { IfOk result (λ owned. owned.entries ≡ owned_groups groups.entry.entries) }
{
    let mut owned = InsertionMap::with_capacity(alloc, groups.len())?;
    for (key, parts) in groups.into_entries() {
        owned.insert(key.to_row(alloc)?, parts)?;
    }
    Ok(owned)
}
