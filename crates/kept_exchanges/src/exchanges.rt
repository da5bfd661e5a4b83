// Rows that come to a table.
use mon_value::TimedRow;

/// A row that comes to a table, in the place of another or beside the others.
#[derive(Drop)]
pub struct Exchange {
    pub gone: Option<TimedRow>,
    pub come: TimedRow,
}
