//! Points as text: each record of a points file is read as a row, or as the first of its faults.
#![tactic(auto)]

mod cells;
mod faults;
mod keys;
mod record_reader;
mod records;
mod row_reader;

pub use faults::RowFault;
pub use records::{RowRead, RowReads, read_rows};
pub use row_reader::RowReader;
