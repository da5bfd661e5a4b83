//! The ranges of a store, each under its lock: how writes, trims and recoveries go over the leaves of their range.
#![tactic(auto)]

mod answers;
mod cells;
mod copies;
mod deeds;
mod desks;
mod entering;
mod laws;
mod loops;
mod new_ranges;
mod recovering;
mod retiring;
mod sides;
mod trimming;
mod turns;

pub use answers::{RecoverFault, RetireFault, TrimFault, WriteFault};
pub use cells::RangeCell;
pub use laws::new_ranges_are_at_rest;
pub use new_ranges::NewRange;
pub use sides::LeafSide;
