//! What a caller of the store knows: the histories that it has seen, and bits of the hint words that lead to them all.
#![tactic(auto)]

mod answers;
mod ends;
mod knows;
mod lending;
mod names;
mod tables;

pub use answers::{Copied, Found, NumbersSpent};
pub use ends::Ended;
pub use knows::Know;
pub use names::Names;
pub use tables::Tables;
