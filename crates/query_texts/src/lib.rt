//! The plan of a query's text: it is read, typed and split, or refused for the first fault of its text or of its type.
#![tactic(auto)]

mod faults;
mod laws;
mod planning;

pub use faults::TextFault;
pub use laws::texts_go_by_their_trees;
pub use planning::plan_of;
