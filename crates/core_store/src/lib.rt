//! What a core keeps of its hint words, leaves and ranges, and what the events of its writes, trims, recoveries,
//! retirements and switches do there, one at a time and in any order.
#![tactic(auto)]

mod kept_laws;
mod leaves;
mod meeting_laws;
mod ranges;
mod recoveries;
mod recovery_events;
mod retirements;
mod store;
mod switches;
mod words;
mod write_events;
mod writes;

pub use kept_laws::{locks_tell_the_truth, one_bit_is_raised, stores_begin_held};
pub use leaves::LeafSeat;
pub use meeting_laws::meetings_see_as_far_as_views;
pub use ranges::RangeSeat;
pub use recoveries::{RecoverTurn, Recovering};
pub use retirements::Retiring;
pub use store::Store;
pub use switches::{Switched, Switching};
pub use words::HintWords;
pub use writes::{Change, WriteTurn, Writing};
