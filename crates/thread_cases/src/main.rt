//! Runs threads over the tables that they share without a lock, and prints of each scenario whether it held.
#![tactic(auto)]

mod hint_words;
mod histories;
mod pours;
mod say;
mod scribes;

use crate::hint_words::two_threads_raise_and_load;
use crate::histories::two_threads_append;
use crate::pours::{
    all_are_refused, each_room_serves, memory_runs_out_at_each_offer, one_file_waits_for_the_other,
};
use crate::say::say;
use std::alloc::Global;
use std::io;
use std::process::ExitCode;
use std::sync::Wait;
use std::thread::Threads;

/// The status where a scenario differs.
const DIFFERS: u8 = 1;

/// The status where memory ran out or the output failed.
const FAILED: u8 = 2;

fn main(rt: HostRuntime) -> ExitCode {
    match run_all(&rt, rt.alloc()) {
        Ok(true) => ExitCode::SUCCESS,
        Ok(false) => ExitCode::from(DIFFERS),
        Err(_) => ExitCode::from(FAILED),
    }
}

// Runs all scenarios. Whether each held.
fn run_all<R: Print + Threads + Wait + Sync>(rt: &R, alloc: Global) -> io::Result<bool> {
    let words = two_threads_raise_and_load(rt, alloc)?;
    let words = say(rt, "hint_words::two_threads_raise_and_load", words)?;
    let history = two_threads_append(rt, alloc)?;
    let history = say(rt, "histories::two_threads_append", history)?;
    let poured = run_pours(rt, alloc)?;
    Ok(words & history & poured)
}

// Runs the scenarios of two files that are poured to one writer. Whether each held.
fn run_pours<R: Print + Threads + Wait + Sync>(rt: &R, alloc: Global) -> io::Result<bool> {
    let first = one_file_waits_for_the_other(rt, alloc, 1)?;
    let first = say(rt, "pours::the_first_file_waits_for_the_second", first)?;
    let second = one_file_waits_for_the_other(rt, alloc, 2)?;
    let second = say(rt, "pours::the_second_file_waits_for_the_first", second)?;
    let rooms = each_room_serves(rt, alloc)?;
    let rooms = say(rt, "pours::each_room_serves", rooms)?;
    let refused = all_are_refused(rt, alloc)?;
    let refused = say(rt, "pours::all_are_refused", refused)?;
    let memory = memory_runs_out_at_each_offer(rt, alloc)?;
    let memory = say(rt, "pours::memory_runs_out_at_each_offer", memory)?;
    Ok(first & second & rooms & refused & memory)
}
