//! The parts of a script over the store that threads share: lines alone, and the lines of a block beside each other.
#![tactic(auto)]

mod alone;
mod beside;
mod courses;
mod ticks;

pub use alone::run_alone;
pub use beside::{LineRans, run_beside};
