//! The store that threads share: callers with numbers of their own write rows to it, read them and meet.
#![tactic(auto)]

mod blanks;
mod cells;
mod filling;
mod gates;
mod gathering;
mod laws;
mod leaves;
mod opening;
mod passes;
mod queries;
mod recovering;
mod retiring;
mod serving;
mod stores;
mod switching;
mod trimming;
mod writing;

pub use blanks::StoreBlank;
pub use gates::{Gate, HoldGate, OpenGate};
pub use laws::seen_traces_stay_seen;
pub use leaf_cell::ControlFault;
pub use passes::Pass;
pub use queries::QueryFault;
pub use query_core::{Answer, Resolved, Trace};
pub use range_cell::{RecoverFault, RetireFault, TrimFault, WriteFault};
pub use stores::Store;
