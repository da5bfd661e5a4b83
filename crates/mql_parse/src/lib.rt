//! The tree of a query text, or the place and kind of its fault.
#![tactic(auto)]

mod aggregates;
mod bytes;
mod conditions;
mod cursor;
mod faults;
mod filters;
mod fold_words;
mod items;
mod numbers;
mod operations;
mod parsing;
mod patterns;
mod pipes;
mod predicates;
mod quotes;
mod sums;
mod turns;
mod words;

pub use faults::{ParseFault, ParseKind, What};
pub use parsing::parse;
