//! The configuration: the schemas, the topology and the limits that a JSON text spells.
#![tactic(auto)]

mod config;
mod faults;
mod guesses;
mod held;
mod keys;
mod limits;
mod parts;
mod paths;
mod readers;
mod schemas;
mod values;
mod zones;

pub use config::{Config, read_config};
pub use faults::ConfigFault;
pub use guesses::RangeGuess;
pub use limits::{GREATEST_LIMIT, LONGEST_CONFIGURATION};
