//! Trials: the summary of a run over made input, by what its lines came to and by what they printed.
#![tactic(auto)]

mod cells;
mod counts;
mod summaries;
mod tables;

pub use summaries::summary;
