//! A leaf's part of a query's plan, over the rows of the leaf, and a query's visit of a leaf.
#![tactic(auto)]

mod answers;
mod leaf;
mod own_buckets;
mod sent;
mod visiting;
mod visits;

pub use answers::answer_by_series;
pub use leaf::eval_leaf;
pub use visiting::visit;
pub use visits::Visit;
