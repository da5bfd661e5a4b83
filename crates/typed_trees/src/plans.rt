// What a query's plan is.
use crate::nodes::Typed;
use mon_hints::{Buckets, Formula};
use mon_value::ListOf;

/// Formulas in the order of the fetches that they are of.
pub type Formulas = ListOf<Formula>;

/// A typed query, the formula of each of its fetches, from the left, and the buckets that these name: rising, each
/// once.
#[derive(Drop)]
pub struct Plan {
    pub typed: Typed,
    pub formulas: Formulas,
    pub buckets: Buckets,
}
