//! A core whose writes, trims, queries, switches, recoveries and retirements go one event at a time, in any order, as
//! the lines of a schedule ask for them.
#![tactic(auto)]

mod actor_steps;
mod actors;
mod asked_events;
mod queries;
mod query_looks;
mod query_plans;
mod schedule_laws;
mod schedules;
mod stepped;
mod texts;
mod weave;

pub use core_store::{
    HintWords, LeafSeat, RangeSeat, locks_tell_the_truth, meetings_see_as_far_as_views,
    one_bit_is_raised, stores_begin_held,
};
pub use core_theory::{
    queries_answer_rightly, queries_are_licensed, recoveries_come_out_rightly,
    writes_name_what_they_found,
};
pub use schedule_laws::schedules_answer_rightly;
pub use schedule_lines::{
    Call, Event, LAST_ACTOR, MOST_EVENTS, MOST_LINES, ScheduleFault, WeaveFault,
};
pub use schedules::run_schedule;
pub use stepped::Stepped;
pub use weave::Weave;
