// The tables of held rows, made anew.
ghost use Rattle.std.specs.Prelude.{◌≡◌, ◌≤ℤ◌, ◌+◌, pos, true, IfErr, IfOk, IfSome, OnOk};
ghost use Rattle.mon_value.specs.Groups.{CanGroup};
ghost use Rattle.mon_value.specs.LeafHistories.{IsSource};
ghost use Rattle.mon_fold.specs.PartialGroups.{parts_of};
ghost use Rattle.typed_trees.specs.Meaning.{load};
ghost use Rattle.typed_trees.specs.Nodes.{columns_of, node_tree, typed_tree};
ghost use Rattle.typed_trees.specs.Soundness.{IsTyped};
ghost use Rattle.mon_meaning.specs.Counts.{TellsOver};
ghost use Rattle.mon_meaning.specs.Incremental.{is_one_path};
ghost use Rattle.standing_incr.specs.KeptTables.{CanGroupAt, IsAligned, IsWholeOf, StandsFor, flowing_rows, groups_at};
ghost use Rattle.standing_incr.specs.KeptTables.{grouped_part};
ghost use Rattle.standing_incr.specs.Putting.{IsSideOf};
ghost use Rattle.standing_incr.specs.Ways.{CanGoThrough, nodes_above};

use crate::source_rows::SourceRows;
use crate::tables::{Side, Standing, Tables};
use crate::ways::{Stop, rows_through, way_down};
use mon_fold::{Parts, group};
use mon_meaning::{Meter, OverLimit, grid_of, part_by_series, table_of};
use mon_value::{Aggregates, OutOfMemory, Positions, Refusal, RowList, Table, TryCopy};
use std::alloc::{AllocError, Global};
use typed_trees::{Node, Typed};

/// The greatest load of which tables are made.
pub(crate) const MOST_LOAD: u64 = 16_777_216;

/// The tables of held rows at a moment.
pub(crate) fn standing_of(
    alloc: Global,
    typed: &Typed,
    moment: i64,
    held: &SourceRows,
) -> Result<Standing, OutOfMemory>
    requires typed { IsTyped (typed_tree typed.now) held.now }
    requires path { is_one_path (node_tree typed.now.tree) ≡ true }
    requires moment { pos 0 ≤ℤ moment }
    ensures stands { IfOk result (StandsFor (typed_tree typed.now) moment held.now) }
{
    let mut meter = Meter::new(MOST_LOAD);
    match aligned_table(alloc, typed, moment, held, &mut meter) {
        Ok(table) => whole_standing(alloc, &typed.tree, table, MOST_LOAD - meter.room()),
        Err(Refusal::Fault(over)) => Ok(Standing::Above(over)),
        Err(Refusal::OutOfMemory) => Err(AllocError),
    }
}

/// The rows of the alignment over some rows, and their load. There are none where it is above what a table may have.
pub(crate) fn side_over(
    alloc: Global,
    typed: &Typed,
    moment: i64,
    rows: &RowList,
) -> Result<Option<Side>, OutOfMemory>
    requires typed { IsTyped (typed_tree typed.now) rows.now }
    requires path { is_one_path (node_tree typed.now.tree) ≡ true }
    requires source { IsSource rows.now }
    requires moment { pos 0 ≤ℤ moment }
    ensures side { IfOk result (λ found. IfSome found (IsSideOf (typed_tree typed.now) moment rows.now)) }
{
    let held = SourceRows::of_rows(alloc, rows.as_slice())?;
    let made = aligned_side(alloc, typed, moment, &held);
    drop(held);
    made
}

// The same over rows that are kept by series.
fn aligned_side(
    alloc: Global,
    typed: &Typed,
    moment: i64,
    held: &SourceRows,
) -> Result<Option<Side>, OutOfMemory>
    requires typed { IsTyped (typed_tree typed.now) held.now }
    requires path { is_one_path (node_tree typed.now.tree) ≡ true }
    requires moment { pos 0 ≤ℤ moment }
    ensures side { IfOk result (λ found. IfSome found (IsSideOf (typed_tree typed.now) moment held.now)) }
{
    let mut meter = Meter::new(MOST_LOAD);
    match aligned_table(alloc, typed, moment, held, &mut meter) {
        Ok(table) => Ok(Some(side_with(table, MOST_LOAD - meter.room()))),
        Err(Refusal::Fault(_over)) => Ok(None),
        Err(Refusal::OutOfMemory) => Err(AllocError),
    }
}

// A table's rows with a load.
fn side_with(table: Table, load: u64) -> Side
    ensures rows { result.rows ≡ table.rows }
    ensures load { result.load ≡ load }
{
    Side {
        rows: table.rows,
        load,
    }
}

// The table of the alignment, whose load goes on the meter.
fn aligned_table(
    alloc: Global,
    typed: &Typed,
    moment: i64,
    held: &SourceRows,
    meter: &mut Meter,
) -> Result<Table, Refusal<OverLimit>>
    requires typed { IsTyped (typed_tree typed.now) held.now }
    requires path { is_one_path (node_tree typed.now.tree) ≡ true }
    requires moment { pos 0 ≤ℤ moment }
    ensures aligned { IfOk result (IsAligned (typed_tree typed.now) moment held.now) }
    ensures limit { meter.new.limit ≡ meter.old.limit }
    ensures counted { OnOk result (meter.new.load ≡ meter.old.load + load (typed_tree typed.now) held.now moment) }
    ensures over { IfErr result (TellsOver meter.old.limit (meter.old.load + load (typed_tree typed.now) held.now moment)) }
{
    let way = way_down(alloc, &typed.tree, Stop::Alignment)?;
    let rows = part_by_series(
        alloc,
        way.end,
        &[held.kept()],
        grid_of(typed, moment),
        meter,
    )?;
    Ok(table_of(alloc, &way.end.info().columns, rows)?)
}

// The tables with the groups of a table of the alignment, which came of this load.
fn whole_standing(
    alloc: Global,
    tree: &Node,
    table: Table,
    load: u64,
) -> Result<Standing, OutOfMemory>
    requires can { CanGroupAt (grouped_part (node_tree tree.now)) table.rows }
    ensures whole { IfOk result (IsWholeOf (node_tree tree.now) load table) }
{
    match groups_of(alloc, tree, &table) {
        Ok(parts) => Ok(Standing::Whole(Tables { load, table, parts })),
        Err(fault) => {
            drop(table);
            Err(fault)
        }
    }
}

// The partial groups of what flows into a tree's grouping, of the table of its alignment.
fn groups_of(alloc: Global, tree: &Node, table: &Table) -> Result<Option<Parts>, OutOfMemory>
    requires can { CanGroupAt (grouped_part (node_tree tree.now)) table.now.rows }
    ensures groups { IfOk result (λ parts. parts ≡ groups_at (grouped_part (node_tree tree.now)) table.now.rows) }
{
    let way = way_down(alloc, tree, Stop::Grouping)?;
    match way.end {
        Node::GroupBy {
            info: _,
            by,
            with,
            input,
        } => Ok(Some(parts_below(alloc, by, with, input, table)?)),
        _ => Ok(None),
    }
}

// The partial groups of what a table of the alignment comes to where it flows into a grouping.
fn parts_below(
    alloc: Global,
    by: &Positions,
    with: &Aggregates,
    input: &Node,
    table: &Table,
) -> Result<Parts, OutOfMemory>
    requires through { CanGoThrough (nodes_above Stop.Alignment (node_tree input.now)) table.now.rows }
    requires group { CanGroup (columns_of (node_tree input.now)) by.now with.now
        (flowing_rows (node_tree input.now) table.now.rows) }
    ensures parts { IfOk result (λ parts. parts ≡ parts_of (columns_of (node_tree input.now)) by.now with.now
        (flowing_rows (node_tree input.now) table.now.rows)) }
{
    let way = way_down(alloc, input, Stop::Alignment)?;
    let rows = rows_through(alloc, way.above, table.rows.copy(alloc)?)?;
    let flowing = table_of(alloc, &input.info().columns, rows)?;
    let parts = group(alloc, &flowing, by, with);
    drop(flowing);
    parts
}
