//! A query of the store that threads share: a machine that is told what its caller finds under locks.
#![tactic(auto)]

mod asking;
mod cells;
mod looks;

pub use asking::looked_up;
pub use cells::QueryCells;
