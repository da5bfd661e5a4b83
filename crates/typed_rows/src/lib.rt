//! What holds of the rows and the times of every typed query.
#![tactic(auto)]

mod grids;
mod laws;

pub use grids::typed_grids_are_lawful;
pub use laws::{
    spelled_queries_are_typed, tables_are_within_loads, tables_can_be_made, widths_hold,
};
