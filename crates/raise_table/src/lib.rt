//! Hint words that threads share without a lock: each has a bit for each zone or leaf, and a bit once raised stays.
#![tactic(auto)]

mod names;
mod places;
mod seats;
mod steps;
mod tables;
mod views;

pub use names::RaiseName;
pub use places::{ZoneLeaf, leaves_stand_once};
pub use seats::{HintSeat, OwnerSeat, OwnerSeats};
pub use tables::{RaiseBlank, RaiseTable};
pub use views::{Hints, Note, Raised};
