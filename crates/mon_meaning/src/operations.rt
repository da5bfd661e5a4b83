// Operations on the rows of tables.
ghost use Rattle.std.specs.Prelude.{◌≡◌, ◌+◌, ◌++◌, filter, length, IfErr, IfOk, OnOk};
ghost use Rattle.mon_value.specs.Tables.{IsWhole, join_of};
ghost use Rattle.mon_value.specs.Groups.{CanGroup, group_rows};
ghost use Rattle.mql_ast.specs.Trees.{predicate_tree};
ghost use Rattle.mql_ast.specs.Rows.{predicate_truth};
ghost use Rattle.mon_meaning.specs.Counts.{TellsOver};

use crate::meter::{Meter, OverLimit};
use mon_expr::BoundPredicate;
use mon_fold::{finish_parts, group};
use mon_table::join;
use mon_value::{Aggregates, Columns, OutOfMemory, Positions, Refusal, Table, TimedRows, TryCopy};
use mql_ast::Predicate;
use std::alloc::Global;

/// A table of these rows, with a list of its own of the columns, which it shares.
pub fn table_of(alloc: Global, columns: &Columns, rows: TimedRows) -> Result<Table, OutOfMemory>
    ensures table { IfOk result (λ table. table ≡ record { columns = columns.now; rows = rows }) }
{
    Ok(Table {
        columns: columns.copy(alloc)?,
        rows,
    })
}

/// The rows of which a predicate holds.
pub(crate) fn filtered_rows(
    alloc: Global,
    columns: &Columns,
    by: &Predicate,
    rows: TimedRows,
) -> Result<TimedRows, OutOfMemory>
    ensures rows { IfOk result (λ kept.
        kept ≡ filter (λ row. predicate_truth (predicate_tree by.now) columns.now row.cells) rows) }
{
    let bound = BoundPredicate::new(alloc, by, columns)?;
    let mut kept = rows.into_vec();
    kept.retain(|row| bound.holds(&row.cells));
    Ok(TimedRows::from_vec(kept))
}

/// One row for each time and list of grouping cells that occurs.
pub(crate) fn grouped_rows(
    alloc: Global,
    columns: &Columns,
    by: &Positions,
    with: &Aggregates,
    rows: TimedRows,
) -> Result<TimedRows, OutOfMemory>
    requires can { CanGroup columns.now by.now with.now rows }
    ensures rows { IfOk result (λ grouped. grouped ≡ group_rows by.now with.now rows) }
{
    let table = table_of(alloc, columns, rows)?;
    let parts = group(alloc, &table, by, with)?;
    Ok(finish_parts(alloc, parts)?.rows)
}

/// The rows of both tables.
pub(crate) fn united_rows(rows: TimedRows, more: TimedRows) -> Result<TimedRows, OutOfMemory>
    ensures both { IfOk result (λ united. united ≡ rows ++ more) }
{
    let mut united = rows.into_vec();
    let mut more = more.into_vec();
    united.append(&mut more)?;
    Ok(TimedRows::from_vec(united))
}

/// The pairs of two tables, which are counted. More than there is room for are not made.
pub(crate) fn joined_rows(
    alloc: Global,
    left: &Table,
    right: &Table,
    meter: &mut Meter,
) -> Result<TimedRows, Refusal<OverLimit>>
    requires left { IsWhole left.now }
    requires right { IsWhole right.now }
    ensures pairs { IfOk result (λ rows. rows ≡ (join_of left.now right.now).rows) }
    ensures limit { meter.new.limit ≡ meter.old.limit }
    ensures counted { OnOk result (meter.new.load ≡ meter.old.load + length (join_of left.now right.now).rows) }
    ensures over { IfErr result (TellsOver meter.old.limit
        (meter.old.load + length (join_of left.now right.now).rows)) }
{
    match join(alloc, left, right, meter.room()) {
        Ok(table) => {
            meter.add(table.rows.len())?;
            Ok(table.rows)
        }
        Err(Refusal::Fault(_over)) => Err(Refusal::Fault(meter.over())),
        Err(Refusal::OutOfMemory) => Err(Refusal::OutOfMemory),
    }
}
