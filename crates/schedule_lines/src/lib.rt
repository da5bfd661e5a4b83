//! The lines of a schedule: what each says an actor is to do, or whose turn it is, and why a line is refused.
#![tactic(auto)]

mod calls;
mod events;
mod limits;
mod lines;

pub use calls::{Call, ScheduleFault, WeaveFault};
pub use events::Event;
pub use limits::{LAST_ACTOR, MOST_EVENTS, MOST_LINES};
pub use lines::{LineForm, form_of};
