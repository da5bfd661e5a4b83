//! The core of a query: what a query does one event after another, whatever it is told.
#![tactic(auto)]

mod courses;
mod laws;
mod machine;
mod mixing;
mod segments;
mod sides;
mod stages;

pub use laws::{
    ends_name_what_was_told, sessions_answer_rightly, sessions_keep_the_order, sessions_may_go_on,
    traces_count_what_was_sent,
};
pub use machine::QueryMachine;
pub use query_traces::{
    Answer, Ask, Cuts, Flags, Resolved, Resolveds, RoundFault, Seen, Told, Trace, fault_text,
    traces_stay,
};
pub use sides::{QuerySide, find_next};
