// Tables: what every operation of a query takes and gives.
use crate::columns::Columns;
use crate::copying::TryCopy;
use crate::lists::ListOf;
use crate::values::Value;
use std::alloc::{AllocError, Global};

/// The cells of a row, one for each column of its table, from the left.
pub type Cells = ListOf<Value>;

/// A row of a table at a time, in seconds from the epoch. Rows are ordered by time, and then column by column.
#[derive(PartialEq, Eq, PartialOrd, Ord, Hash, Drop)]
pub struct TimedRow {
    pub time: i64,
    pub cells: Cells,
}

/// The rows of a table. They are a bag: their order says nothing before they are sorted.
pub type TimedRows = ListOf<TimedRow>;

/// A table: its columns, and rows with one cell for each of them.
#[derive(PartialEq, Eq, Drop)]
pub struct Table {
    pub columns: Columns,
    pub rows: TimedRows,
}

/// Places of columns in a table, counted from 0.
pub type Positions = ListOf<u32>;

impl TryCopy for TimedRow {
    fn copy(&self, alloc: Global) -> Result<TimedRow, AllocError> {
        Ok(TimedRow {
            time: self.time,
            cells: self.cells.copy(alloc)?,
        })
    }
}

impl TryCopy for Table {
    fn copy(&self, alloc: Global) -> Result<Table, AllocError> {
        Ok(Table {
            columns: self.columns.copy(alloc)?,
            rows: self.rows.copy(alloc)?,
        })
    }
}
