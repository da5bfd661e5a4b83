//! The core of writes and of recoveries: what each does one step after another, whatever it is told, and what every
//! interleaving of them keeps; and the replay of a range's history, which tells a write whether its row goes in.
#![tactic(auto)]

mod asks;
mod copies;
mod ends;
mod kept_entries;
mod lasts;
mod laws;
mod machine;
mod marks;
mod refusals;
mod replays;
mod retirements;
mod rounds;

pub use asks::{WriteAsk, WriteEnd, WriteTold};
pub use copies::{CopyAsk, CopyMachine, CopyTold, Denial, Outcome};
pub use laws::{
    ranges_open_or_deny, what_is_said_was_noted, writes_keep_the_invariant, writes_run_their_course,
};
pub use machine::WriteMachine;
pub use marks::{Fate, Mark};
pub use mon_value::{Ack, Miss, Misses};
pub use refusals::Refused;
pub use replays::RangeReplay;
pub use retirements::Retirement;
