// The tables that are kept.
use kept_exchanges::Exchange;
use mon_fold::Parts;
use mon_meaning::OverLimit;
use mon_value::{Table, TimedRows};

/// What held rows come to at a moment: the load, the table of the alignment, and the partial groups where a query
/// groups.
#[derive(Drop)]
pub struct Tables {
    pub load: u64,
    pub table: Table,
    pub parts: Option<Parts>,
}

/// The tables, or that they would be larger than a table may be.
#[derive(Drop)]
pub enum Standing {
    Whole(Tables),
    Above(OverLimit),
}

/// The rows of the alignment over some rows, and their load.
#[derive(Drop)]
pub struct Side {
    pub rows: TimedRows,
    pub load: u64,
}

/// What a row more exchanges in the table of the alignment, and the load with it.
#[derive(Drop)]
pub struct Sides {
    pub exchanges: Vec<Exchange>,
    pub load: u64,
}
