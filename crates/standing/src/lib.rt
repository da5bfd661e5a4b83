//! Standing queries: which of them are due at a moment.
#![tactic(auto)]

mod blocks;
mod dues;
mod faults;
mod marks;
mod queries;
mod quiet;
mod texts;

pub use dues::{Due, Dues, MOST_DUE};
pub use faults::{DueFault, StandingFault};
pub use queries::{Standing, StandingQuery};
