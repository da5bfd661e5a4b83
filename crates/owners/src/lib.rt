//! The owners of the histories of leaves and ranges, with what leads to all that they have seen.
#![tactic(auto)]

mod leaves;
mod ranges;

pub use leaves::LeafOwner;
pub use ranges::RangeOwner;
