//! How the histories of leaves and ranges grow while threads share them: each seat has seen a beginning of each.
#![tactic(auto)]

mod blanks;
mod books;
mod laws;
mod names;
mod numbers;
mod owners;
mod rooms;
mod seats;
mod steps;
mod views;

pub use blanks::BookBlank;
pub use books::Book;
pub use laws::numbers_are_counted;
pub use names::{BookName, NewEntry};
pub use numbers::{MANY, NUMBER_END, Numbers, SHARE};
pub use owners::{BookOwner, BookOwners};
pub use rooms::RoomMove;
pub use seats::{BookSeat, EndedSeat};
pub use views::{BookEntry, History, Kept, LengthNote, Purse};
