//! The types of query texts: the typed tree of a query, or the first of its faults.
#![tactic(auto)]

mod aligning;
mod checking;
mod operations;
mod parts;
mod times;

pub use checking::check;
pub use mon_value::{Anchor, Column, Columns};
pub use typed_rows::{
    spelled_queries_are_typed, tables_are_within_loads, tables_can_be_made, typed_grids_are_lawful,
    widths_hold,
};
pub use typed_trees::{
    Formulas, Level, Node, NodeInfo, OpLevel, OpLevels, OpWord, Plan, TypeFault, TypeKind,
    TypeWord, Typed, names_keys, op_levels,
};
