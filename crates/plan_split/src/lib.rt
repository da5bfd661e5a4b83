//! The plan of a query: which buckets a series has where it meets a fetch of the query.
#![tactic(auto)]

mod fetches;
mod joined_formulas;
mod laws;
mod meeting;
mod predicates;
mod splitting;

pub use laws::series_that_fit_have_fields;
pub use meeting::{is_let_in, let_in};
pub use predicates::formula_of;
pub use splitting::split;
