//! What a line of a script does over the store that threads share, and what it prints.
#![tactic(auto)]

mod asks;
mod checks;
mod controls;
mod explanations;
mod feed_texts;
mod feeds;
mod followed_tables;
mod follows;
mod lines;
mod pours;
mod refusals;
mod retirements;
mod standing_lines;
mod store_writers;
mod trims;

pub use follows::follow;
pub use lines::{LineRan, run_line, run_query};
pub use standing_lines::{add_standing, due_heading, refuse_tick};
