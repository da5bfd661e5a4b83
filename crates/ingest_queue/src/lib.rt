//! The rows of two files go through one queue to one writer.
#![tactic(auto)]

mod came;
mod ends;
mod fed_rows;
mod feeders;
mod files;
mod naps;
mod pouring;
mod records;
mod refusals;
mod roles;
mod rounds;
mod row_writers;
mod starts;
mod turns;
mod writers;

pub use ends::{FileEnd, Poured};
pub use fed_rows::FedRows;
pub use files::{pour, pour_files};
pub use refusals::{RowRefusal, RowRefusals, RowRefused};
pub use row_writers::{Offer, RowWriter, Wrote};
pub use starts::Starts;
