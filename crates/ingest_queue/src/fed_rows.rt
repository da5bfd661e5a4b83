// The rows that a feed accepted.
ghost use Rattle.std.specs.Prelude.{◌≡◌, ◌++◌, ◌-◌, ◌^◌, ◌∷◌, [], length, OnErr, OnOk};

use http_server::Log;
use mon_value::{OutOfMemory, Row};
use std::alloc::AllocError;
use std::marker::Model;

/// The rows that a feed accepted, in their order. Contracts see the rows. At run time their number is kept and nothing
/// else, since nobody reads them: what is said of each row is borne out by the histories of its range and its leaves.
#[derive(Drop)]
pub struct FedRows {
    rows: Log<Row, ()>,
    count: usize,
}

impl Model for FedRows {
    ghost use Rattle.std.specs.Prelude.{◌≡◌, List, length, map};
    ghost use Rattle.mon_value.specs.declared.rows.Row.{Row};

    ghost Value = { List Row };

    ghost view = { λ fed. map (λ logged. logged.0) fed.rows.items };

    ghost invariant = { λ fed. fed.count ≡ length (map (λ logged. logged.0) fed.rows.items) };
}

impl FedRows {
    /// No rows.
    pub fn new() -> FedRows
        ensures empty { result ≡ [] }
    {
        FedRows {
            rows: Log::new(),
            count: 0,
        }
    }

    /// How many rows there are.
    pub fn len(&self) -> usize
        ensures count { result ≡ length self.now }
    {
        self.count
    }

    /// Adds a row at the end. Where there are 2^64 - 1, it answers as where memory runs out, and the rows stay.
    pub fn push(&mut self, row: Row) -> Result<(), OutOfMemory>
        ensures added { OnOk result (self.new ≡ self.old ++ row ∷ []) }
        ensures kept { OnErr result (self.new ≡ self.old) }
        ensures full { OnErr result (length self.old ≡ 2 ^ 64 - 1) }
    {
        let added = self.add(&row);
        drop(row);
        added
    }

    /// The same of a row that is kept.
    pub fn add(&mut self, row: &Row) -> Result<(), OutOfMemory>
        ensures added { OnOk result (self.new ≡ self.old ++ row.now ∷ []) }
        ensures kept { OnErr result (self.new ≡ self.old) }
        ensures full { OnErr result (length self.old ≡ 2 ^ 64 - 1) }
    {
        let Some(count) = self.count.checked_add(1) else {
            return Err(AllocError);
        };
        self.rows = self.rows.and(row, &());
        self.count = count;
        Ok(())
    }
}
