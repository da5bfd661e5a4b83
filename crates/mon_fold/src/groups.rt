// Rows in groups, and groups from several places together.
ghost use Rattle.std.specs.Prelude.{◌≡◌, ◌≤◌, ◌++◌, length, map, slice_get, List, ℕ, IfOk, OnOk, OnErr};
ghost use Rattle.std.specs.List.{filter_map};
ghost use Rattle.mon_value.specs.Groups.{CanGroup, group_rows};
ghost use Rattle.mon_value.specs.Values.{greatest_sum};
ghost use Rattle.mon_value.specs.declared.aggregates.Aggregate.{Aggregate};
ghost use Rattle.mon_value.specs.declared.columns.Column.{Column};
ghost use Rattle.mon_value.specs.declared.tables.TimedRow.{TimedRow};
ghost use Rattle.mon_fold.specs.PartialGroups.{CanMergeGroups, column_made, columns_made, count_column, group_columns};
ghost use Rattle.mon_fold.specs.PartialGroups.{merged_groups, partial_groups, part_finished, parts_of, row_finished};

use crate::aggregate_parts::{AggregateParts, finish_part};
use crate::grouping::groups_of;
use crate::merging::{copied_groups, new_groups, put_groups};
use crate::open_groups::OpenGroups;
use insertion_map::InsertionMap;
use mon_value::{
    Aggregate, AggregateKind, Aggregates, Cells, Column, Columns, ListOf, OutOfMemory, Positions,
    ROW_BITS, Shared, Table, Text, TimedRow, TimedRows, TryCopy, ValueType,
};
use std::alloc::Global;
use std::marker::Model;

/// Groups of rows whose aggregates are kept as parts, so that groups from several places can be merged
/// before they are finished. Each group has the time and the grouping cells of its rows. Groups stand in
/// the order of their first rows.
#[derive(Drop)]
pub struct Parts {
    columns: Columns,
    kinds: ListOf<AggregateKind>,
    groups: InsertionMap<TimedRow, AggregateParts>,
}

impl Model for Parts {
    ghost use Rattle.mon_fold.specs.PartialGroups.{GroupsSoFar};

    ghost Value = { GroupsSoFar };

    ghost view = { λ parts. record { columns = parts.columns; kinds = parts.kinds; groups = parts.groups.entries } };
}

impl Parts {
    /// How many groups there are.
    pub fn len(&self) -> usize
        ensures count { result ≡ length self.now.groups }
    {
        self.groups.len()
    }

    /// The groups with the map that has them, to be written. No memory is taken.
    pub fn open(self) -> OpenGroups
        ensures columns { result.columns ≡ self.columns }
        ensures kinds { result.kinds ≡ self.kinds }
        ensures groups { result.groups.entries ≡ self.groups }
    {
        let Parts {
            columns,
            kinds,
            groups,
        } = self;
        OpenGroups {
            columns,
            kinds,
            groups,
        }
    }

    // The groups of a map.
    pub(crate) fn of_groups(
        columns: Columns,
        kinds: ListOf<AggregateKind>,
        groups: InsertionMap<TimedRow, AggregateParts>,
    ) -> Parts
        ensures columns { result.columns ≡ columns }
        ensures kinds { result.kinds ≡ kinds }
        ensures groups { result.groups ≡ groups.entries }
    {
        Parts {
            columns,
            kinds,
            groups,
        }
    }
}

impl TryCopy for Parts {
    fn copy(&self, alloc: Global) -> Result<Parts, OutOfMemory> {
        Ok(Parts {
            columns: self.columns.copy(alloc)?,
            kinds: ListOf::from_vec(Vec::from_slice(alloc, self.kinds.as_slice())?),
            groups: copied_groups(alloc, &self.groups)?,
        })
    }
}

/// The rows of a table in partial groups: one for each time and list of grouping cells that occurs.
pub fn group(
    alloc: Global,
    t: &Table,
    by: &Positions,
    with: &Aggregates,
) -> Result<Parts, OutOfMemory>
    requires { CanGroup t.now.columns by.now with.now t.now.rows }
    ensures columns { IfOk result (λ parts. parts.columns ≡ group_columns t.now.columns by.now with.now) }
    ensures kinds { IfOk result (λ parts. parts.kinds ≡ map (λ aggregate. aggregate.what) with.now) }
    ensures groups { IfOk result (λ parts. parts.groups ≡ partial_groups by.now with.now t.now.rows) }
{
    let columns = columns_of(alloc, t.columns.as_slice(), by.as_slice(), with.as_slice())?;
    let kinds = kinds_of(alloc, with.as_slice())?;
    let groups = groups_of(alloc, t, by.as_slice(), with.as_slice())?;
    Ok(Parts {
        columns,
        kinds,
        groups,
    })
}

// The kinds of aggregates.
fn kinds_of(alloc: Global, with: &[Aggregate]) -> Result<ListOf<AggregateKind>, OutOfMemory>
    ensures { IfOk result (λ kinds. kinds ≡ map (λ aggregate. aggregate.what) with.now) }
{
    let mut kinds = ListOf::new(alloc);
    for aggregate in with {
        kinds.push(aggregate.what)?;
    }
    Ok(kinds)
}

// The columns that groups finish to.
fn columns_of(
    alloc: Global,
    columns: &[Shared<Column>],
    by: &[u32],
    with: &[Aggregate],
) -> Result<Columns, OutOfMemory>
    ensures { IfOk result (λ made. made ≡ group_columns columns.now by.now with.now) }
{
    let mut made = Columns::new(alloc);
    add_at(alloc, &mut made, columns, by)?;
    add_columns_made(alloc, &mut made, columns, with)?;
    Ok(made)
}

// Adds copies of the items at places.
pub(crate) fn add_at<T: TryCopy + Drop>(
    alloc: Global,
    list: &mut ListOf<T>,
    items: &[T],
    places: &[u32],
) -> Result<(), OutOfMemory>
    ensures { OnOk result (list.new ≡ list.old ++ filter_map (slice_get items.now) places.now) }
{
    for place in places {
        if let Some(copied) = copy_at(alloc, items, *place)? {
            list.push(copied)?;
        }
    }
    Ok(())
}

// A copy of the item at a place.
fn copy_at<T: TryCopy + Drop>(
    alloc: Global,
    items: &[T],
    place: u32,
) -> Result<Option<T>, OutOfMemory>
    ensures { IfOk result (λ copied. copied ≡ slice_get items.now place) }
{
    match items.get(place as usize) {
        Some(item) => Ok(Some(item.copy(alloc)?)),
        None => Ok(None),
    }
}

// Adds a column for each aggregate.
fn add_columns_made(
    alloc: Global,
    made: &mut Columns,
    columns: &[Shared<Column>],
    with: &[Aggregate],
) -> Result<(), OutOfMemory>
    ensures { OnOk result (made.new ≡ made.old ++ columns_made columns.now with.now) }
{
    for aggregate in with {
        if let Some(column) = column_of_aggregate(alloc, columns, aggregate)? {
            made.push(column)?;
        }
    }
    Ok(())
}

// The column of an aggregate.
fn column_of_aggregate(
    alloc: Global,
    columns: &[Shared<Column>],
    aggregate: &Aggregate,
) -> Result<Option<Shared<Column>>, OutOfMemory>
    ensures { IfOk result (λ column. column ≡ column_made columns.now aggregate.now.column aggregate.now.what) }
{
    if aggregate.what == AggregateKind::Count {
        return Ok(Some(column_of_count(alloc)?));
    }
    copy_at(alloc, columns, aggregate.column)
}

// The column of a count.
fn column_of_count(alloc: Global) -> Result<Shared<Column>, OutOfMemory>
    ensures { IfOk result (λ column. column ≡ count_column) }
{
    let column = Column {
        name: Text::from_str(alloc, "count")?,
        of: ValueType::Int,
        key: false,
        anchor: None,
        cell_bits: ROW_BITS,
        total_bits: ROW_BITS,
    };
    Shared::new(alloc, column)
}

/// The groups finished: one row for each. Its cells are the grouping cells, and then what each aggregate
/// has come to.
pub fn finish_parts(alloc: Global, parts: Parts) -> Result<Table, OutOfMemory>
    ensures columns { IfOk result (λ table. table.columns ≡ parts.columns) }
    ensures rows { IfOk result (λ table. table.rows ≡ map row_finished parts.groups) }
{
    let Parts {
        columns,
        kinds: _,
        groups,
    } = parts;
    let mut rows = TimedRows::new(alloc);
    for (key, parts) in groups.into_entries() {
        rows.push(finish_row(key, parts)?)?;
    }
    Ok(Table { columns, rows })
}

// The row of a group.
fn finish_row(key: TimedRow, parts: AggregateParts) -> Result<TimedRow, OutOfMemory>
    ensures { IfOk result (λ row. row ≡ row_finished (key, parts)) }
{
    let TimedRow { time, cells } = key;
    Ok(TimedRow {
        time,
        cells: add_finished(cells, parts)?,
    })
}

// The cells, and after them what the parts finish to.
fn add_finished(mut cells: Cells, parts: AggregateParts) -> Result<Cells, OutOfMemory>
    ensures { IfOk result (λ all. all ≡ cells ++ filter_map part_finished parts) }
{
    for part in parts {
        if let Some(value) = finish_part(part) {
            cells.push(value)?;
        }
    }
    Ok(cells)
}

/// Merges other groups in: each into the one of its time and cells, or a copy of it at the end. Only groups
/// at the end take memory. Where it runs out the groups stay.
pub fn merge_parts(alloc: Global, into: &mut Parts, other: &Parts) -> Result<(), OutOfMemory>
    requires columns { into.old.columns ≡ other.now.columns }
    requires kinds { into.old.kinds ≡ other.now.kinds }
    requires groups { CanMergeGroups into.old.groups other.now.groups }
    ensures groups { OnOk result (into.new.groups ≡ merged_groups into.old.groups other.now.groups) }
    ensures columns { into.new.columns ≡ into.old.columns }
    ensures kinds { into.new.kinds ≡ into.old.kinds }
    ensures kept { OnErr result (into.new ≡ into.old) }
{
    let copies = new_groups(alloc, &into.groups, &other.groups)?;
    into.groups.reserve(copies.len())?;
    put_groups(&mut into.groups, &other.groups, copies);
    Ok(())
}

/// Partial groups stand for their rows: those of two lists of rows, merged, are those of both together, and they
/// finish to the rows grouped.
pub fn groups_stand_for_rows()
    ensures merge { (columns : List Column) (by : List ℕ) (with : List Aggregate) (xs ys : List TimedRow)
        → merged_groups (parts_of columns by with xs).groups (parts_of columns by with ys).groups
        ≡ (parts_of columns by with (xs ++ ys)).groups }
    ensures finish { (columns : List Column) (by : List ℕ) (with : List Aggregate) (rows : List TimedRow)
        → map row_finished (parts_of columns by with rows).groups ≡ group_rows by with rows }
{}

/// Groups of rows that can be grouped together can be merged.
pub fn groups_can_merge()
    ensures { (columns : List Column) (by : List ℕ) (with : List Aggregate) (xs ys : List TimedRow)
        → CanGroup columns by with (xs ++ ys) → length (xs ++ ys) ≤ greatest_sum
        → CanMergeGroups (partial_groups by with xs) (partial_groups by with ys) }
{}

/// Rows that can be grouped together can be grouped in two lists.
pub fn rows_group_apart()
    ensures first { (columns : List Column) (by : List ℕ) (with : List Aggregate) (xs ys : List TimedRow)
        → CanGroup columns by with (xs ++ ys) → CanGroup columns by with xs }
    ensures second { (columns : List Column) (by : List ℕ) (with : List Aggregate) (xs ys : List TimedRow)
        → CanGroup columns by with (xs ++ ys) → CanGroup columns by with ys }
{}
