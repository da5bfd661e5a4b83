//! What holds of a script's lines in growing histories: where each ran, and what stands there because of it.
#![tactic(auto)]

mod laws;
mod lines;

pub use laws::{
    every_entry_is_of_a_line, lines_ran_in_place, lines_share_no_entry, lines_tell_all,
    places_are_found, runs_go_on, runs_stay, whole_numbers_stay_seen,
};
pub use lines::Lines;
