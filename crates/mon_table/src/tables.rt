// Tables as bags of rows, and their order.
ghost use Rattle.std.specs.Prelude.{◌≡◌, ◌++◌, IfOk};
ghost use Rattle.mon_table.specs.Tables.{sorted_table};
ghost use Rattle.mon_value.specs.Tables.{union_of};
ghost use Rattle.mon_value.specs.Order.{sorted_rows};

use mon_value::{OutOfMemory, Table, TimedRows};
use std::alloc::Global;

/// The rows of both tables, which have the same columns. The rows move, and none is lost where both
/// tables have it.
pub fn union(_alloc: Global, a: Table, b: Table) -> Result<Table, OutOfMemory>
    requires columns { a.columns ≡ b.columns }
    ensures both { IfOk result (λ table. table ≡ union_of a b) }
{
    Ok(Table {
        columns: a.columns,
        rows: appended(a.rows, b.rows)?,
    })
}

// The rows of the first list, and then those of the second.
fn appended(rows: TimedRows, more: TimedRows) -> Result<TimedRows, OutOfMemory>
    ensures both { IfOk result (λ all. all ≡ rows ++ more) }
{
    let mut items = rows.into_vec();
    let mut others = more.into_vec();
    items.append(&mut others)?;
    Ok(TimedRows::from_vec(items))
}

/// The table with its rows in order: by time, and then column by column. No memory is taken.
pub fn sorted(table: Table) -> Table
    ensures order { result ≡ sorted_table table }
{
    Table {
        columns: table.columns,
        rows: ordered(table.rows),
    }
}

// The rows in their order.
fn ordered(rows: TimedRows) -> TimedRows
    ensures order { result ≡ sorted_rows rows }
{
    let mut items = rows.into_vec();
    items.sort_unstable();
    TimedRows::from_vec(items)
}
