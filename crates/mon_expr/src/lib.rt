//! Whether a predicate holds of a row, which texts a pattern matches, and what a sum comes to in a row.
#![tactic(auto)]

mod bound_predicates;
mod bound_sums;
mod condition_lists;
mod conditions;
mod patterns;
mod places;
mod predicates;
mod same_predicates;
mod same_sums;
mod sums;

pub use bound_sums::BoundExpr;
pub use condition_lists::BoundPredicate;
pub use patterns::matches;
pub use predicates::holds;
pub use same_predicates::are_same_predicate;
pub use same_sums::are_same_sum;
pub use sums::value_of;
