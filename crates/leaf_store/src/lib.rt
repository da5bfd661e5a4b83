//! The state of a leaf: the replay of its history, with the rows of its replicas by series.
#![tactic(auto)]

mod fresh;
mod gathered;
mod guess;
mod kept;
mod leaf_state;
mod raised;
mod replays;
mod replicas;
mod runs;
mod slot_rows;

pub use leaf_state::LeafState;
pub use mon_value::Entry;
pub use slot_rows::SlotRows;
