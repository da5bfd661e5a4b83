//! Partial groups of rows that are kept up to date as one row comes or takes the place of another.
#![tactic(auto)]

mod changes;
mod groups;
mod told;
mod trades;

pub use changes::{Change, change_groups, change_of};
