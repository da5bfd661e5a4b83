//! The trees of query texts, and the text that a tree is printed as.
#![tactic(auto)]

mod copying;
mod expressions;
mod names;
mod operations;
mod pipes;
mod predicates;
mod printing;

pub use expressions::Expr;
pub use names::{Name, Names};
pub use operations::{Aggregate, Aggregates, FoldWord, Item, Items, Op, OpKind, Ops};
pub use pipes::{How, Pipe, Query, Source};
pub use predicates::{Comparison, Literal, Pattern, Pieces, Predicate};
pub use printing::print_query;
