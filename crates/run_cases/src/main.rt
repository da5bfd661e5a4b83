//! Runs scripts whose lines a gate holds, over files in memory, and prints of each scenario whether it held.
#![tactic(auto)]

mod files;
mod gates;
mod say;

use crate::gates::{a_feed_waits_for_a_query, a_query_waits_for_a_feed};
use crate::say::say;
use std::alloc::Global;
use std::io;
use std::process::ExitCode;
use std::sync::Wait;
use std::thread::Threads;

/// The status where a scenario differs.
const DIFFERS: u8 = 1;

/// The status where memory ran out or the output failed.
const FAILED: u8 = 2;

fn main(rt: HostRuntime) -> ExitCode {
    match run_all(&rt, rt.alloc()) {
        Ok(true) => ExitCode::SUCCESS,
        Ok(false) => ExitCode::from(DIFFERS),
        Err(_) => ExitCode::from(FAILED),
    }
}

// Runs all scenarios. Whether each held.
fn run_all<R: Print + Threads + Wait + Sync>(rt: &R, alloc: Global) -> io::Result<bool> {
    let query = a_query_waits_for_a_feed(rt, alloc)?;
    let query = say(rt, "gates::a_query_waits_for_a_feed", query)?;
    let feed = a_feed_waits_for_a_query(rt, alloc)?;
    let feed = say(rt, "gates::a_feed_waits_for_a_query", feed)?;
    Ok(query & feed)
}
