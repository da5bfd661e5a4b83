//! One query's result that stands: it is changed by each row that comes and each later moment, and says at any time
//! what the query means over all rows that came.
#![tactic(auto)]

mod comings;
mod faults;
mod filling;
mod in_place;
mod kept;
mod laws;
mod needs;
mod own_series;
mod replaying;
mod results;
mod sides;
mod source_rows;
mod tables;
mod ways;

pub use faults::{NotIncremental, ReplayFault};
pub use kept::Kept;
pub use laws::held_rows_are_enough;
pub use replaying::{Turn, Turns, replay};
