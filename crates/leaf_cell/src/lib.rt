//! The leaves of a store, each under its lock: what lies there is the leaf's state and the owner of its history.
#![tactic(auto)]

mod cells;
mod controls;
mod desks;
mod laws;
mod new_leaves;
mod openings;
mod plan_reader;
mod raising;
mod readers;
mod trims;

pub use cells::LeafCell;
pub use controls::{Control, ControlFault};
pub use laws::new_leaves_are_at_rest;
pub use new_leaves::NewLeaf;
pub use plan_reader::{VisitFault, Visited};
