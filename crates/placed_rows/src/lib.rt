//! The rows of a table by the series that they are of, which are written in place.
#![tactic(auto)]

mod rows;

pub use rows::{PlacedRows, places_have_all_rows};
