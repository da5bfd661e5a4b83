//! Typed trees of queries: their nodes, columns, levels and faults, and what they mean.
#![tactic(auto)]

mod explanations;
mod faults;
mod fixed;
mod key_filters;
mod levels;
mod nodes;
mod plans;
mod times;
mod widths;

pub use explanations::{OpLevel, OpLevels, OpWord, op_levels};
pub use faults::{Faults, TypeFault, TypeKind, TypeWord, type_word};
pub use fixed::{Fixed, FixedColumns};
pub use key_filters::names_keys;
pub use levels::Level;
pub use nodes::{Node, NodeInfo, Typed};
pub use plans::{Formulas, Plan};
pub use times::Times;
pub use widths::{OF_COUNT, OF_DELTA, OF_INCREASE, OF_NUMBER, Operand, Width};
