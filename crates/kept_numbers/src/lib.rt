//! Numbers of which one comes or goes at a time, and the least and the greatest of them.
#![tactic(auto)]

mod numbers;

pub use numbers::Numbers;
