//! What tables come to together, and how a table prints.
#![tactic(auto)]

mod bags;
mod keys;
mod named;
mod pairs;
mod places;
mod printing;
mod right_rows;
mod tables;

pub use bags::{equal_bags_join_alike, equal_bags_print_alike, equal_bags_unite_alike};
pub use mon_value::{Table, TimedRow, TimedRows};
pub use pairs::{OverRoom, join};
pub use printing::print;
pub use tables::{sorted, union};
