//! What follows from the promise of a run, for whoever reads what it printed.
#![tactic(auto)]

mod laws;

pub use laws::{files_too_long, no_row_is_hidden, places_are_exact, reads_failed};
