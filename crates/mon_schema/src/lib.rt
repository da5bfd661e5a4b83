//! The schemas of targets and metrics: what one is refused for, how one is found, and which rows are of
//! those that are held.
#![tactic(auto)]

mod faults;
mod fields;
mod limits;
mod metrics;
mod names;
mod rows;
mod table;

pub use faults::SchemaFault;
pub use fields::is_location;
pub use limits::{
    LONGEST_METRIC_NAME, LONGEST_NAME, MOST_BOUNDS, MOST_FIELDS, MOST_METRICS, MOST_TARGETS,
};
pub use mon_value::{
    Field, Fields, Kind, MetricSchema, MetricSchemas, TargetSchema, TargetSchemas,
};
pub use names::is_name;
pub use rows::{counts_fit, text_fits, times_fit};
pub use table::Schemas;
