//! The columns that each form of a query gives, and what is wrong in it.
#![tactic(auto)]

mod branches;
mod fetches;
mod filters;
mod fixed;
mod groupings;
mod items;
mod levels;
mod places;
mod settings;
mod sums;
mod taken;
mod widths;

pub use branches::{Joined, same_columns, union_columns, with_width};
pub use fetches::{column_number, fetch_columns, kind_of, names_repeat};
pub use filters::tell_predicate;
pub use fixed::{filtered_fixed, fixed_in_both, joined_fixed, key_fixed, nothing_fixed};
pub use groupings::Grouping;
pub use items::value_columns;
pub use levels::meeting_level;
pub use places::NamedColumns;
pub use settings::TypingSetting;
pub use widths::tell_wide_columns;
