// Rows that are kept by series, none of which is hidden.
ghost use Rattle.std.specs.Prelude.{◌≡◌, ◌++◌, ◌∷◌, ◌<◌, ◌<ℤ◌, [], length, slice_get, Some, IfOk, IfSome, OnErr, OnOk};
ghost use Rattle.mon_value.specs.LeafHistories.{IsSource, last_end, points_of};
ghost use Rattle.mon_series.specs.SlotViews.{all_kept};

use mon_series::KeptRows;
use mon_value::{OutOfMemory, Row, TryCopy};
use std::alloc::{AllocError, Global};
use std::marker::Model;

/// Rows in the order in which they came, kept by series. None of them is hidden.
#[derive(Drop)]
pub struct SourceRows {
    rows: KeptRows,
}

impl Model for SourceRows {
    ghost use Rattle.std.specs.Prelude.{◌≡◌, List};
    ghost use Rattle.mon_value.specs.declared.rows.Row.{Row};

    ghost Value = { List Row };

    ghost use Rattle.mon_series.specs.SlotViews.{all_kept};

    ghost view = { λ source. source.rows.rows };

    ghost invariant = { λ source. source.rows ≡ all_kept source.rows.rows };
}

impl SourceRows {
    /// No rows.
    pub fn new(alloc: Global) -> SourceRows
        ensures empty { result ≡ [] }
    {
        SourceRows {
            rows: KeptRows::new(alloc),
        }
    }

    /// Copies of some rows, in their order.
    pub fn of_rows(alloc: Global, rows: &[Row]) -> Result<SourceRows, OutOfMemory>
        requires source { IsSource rows.now }
        ensures rows { IfOk result (λ source. source ≡ rows.now) }
    {
        let rows = KeptRows::of_rows(alloc, rows)?;
        Ok(SourceRows { rows })
    }

    /// How many rows there are.
    pub fn len(&self) -> usize
        ensures count { result ≡ length self.now }
    {
        self.rows.len()
    }

    /// A copy of the row of a number. The first one has the number 0.
    pub fn row(&self, alloc: Global, number: usize) -> Result<Row, OutOfMemory>
        requires within { number < length self.now }
        ensures row { IfOk result (λ row. slice_get self.now number ≡ Some row) }
    {
        self.rows.row(alloc, number)
    }

    /// The rows as series, all of whose points stand.
    pub fn kept(&self) -> &KeptRows
        ensures kept { result.now ≡ all_kept self.now }
    {
        &self.rows
    }

    /// Adds a row at the end, whose point ends later than those of its series. After a refusal nothing has changed.
    pub fn push(&mut self, row: Row) -> Result<(), OutOfMemory>
        requires later { IfSome (last_end (points_of row.key self.old)) (λ last. last <ℤ row.point.end) }
        ensures pushed { OnOk result (self.new ≡ self.old ++ row ∷ []) }
        ensures kept { OnErr result (self.new ≡ self.old) }
    {
        self.rows.push(row)?;
        Ok(())
    }
}

impl TryCopy for SourceRows {
    fn copy(&self, alloc: Global) -> Result<SourceRows, AllocError> {
        Ok(SourceRows {
            rows: self.rows.copy(alloc)?,
        })
    }
}
