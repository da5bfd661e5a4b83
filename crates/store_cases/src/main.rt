//! Runs scenarios over a store that threads share, and prints of each whether it held.
#![tactic(auto)]

mod memory;
mod places;
mod readers;
mod scenarios;
mod trouble;
mod writers;

use crate::scenarios::{SCENARIOS, Scenario, holds};
use std::alloc::Global;
use std::process::ExitCode;
use std::sync::Wait;
use std::thread::Threads;
use std::{env, io};

/// The status where memory ran out, the output failed or a call was refused that isn't to be.
const FAILED: u8 = 2;

fn main(rt: HostRuntime) -> ExitCode {
    match names(&rt) {
        Ok(names) => status_of(run_named(&rt, rt.alloc(), names.as_slice())),
        Err(_fault) => ExitCode::from(FAILED),
    }
}

fn status_of(ended: bool) -> ExitCode {
    if ended {
        ExitCode::SUCCESS
    } else {
        ExitCode::from(FAILED)
    }
}

// The words behind the program's name. Where memory is wanting they are read once more.
fn names(rt: &HostRuntime) -> io::Result<Vec<String>> {
    match names_once(rt) {
        Ok(names) => Ok(names),
        Err(_fault) => names_once(rt),
    }
}

fn names_once(rt: &HostRuntime) -> io::Result<Vec<String>> {
    let mut names = Vec::new(rt.alloc());
    for name in env::args(rt)?.skip(1) {
        names.push(name)?;
    }
    Ok(names)
}

// Runs the scenarios that are named, or all where none is. Whether each came to an end and was printed.
fn run_named<R: Print + Threads + Wait + Sync>(rt: &R, alloc: Global, names: &[String]) -> bool {
    let mut ended = true;
    for scenario in SCENARIOS {
        if names.is_empty() || is_among(scenario.name(), names) {
            ended &= run_one(rt, alloc, *scenario);
        }
    }
    ended
}

fn is_among(name: &str, names: &[String]) -> bool {
    names.iter().any(|other| other.as_str() == name)
}

// Runs a scenario, and prints whether it held.
fn run_one<R: Print + Threads + Wait + Sync>(rt: &R, alloc: Global, scenario: Scenario) -> bool {
    match holds(rt, alloc, scenario) {
        Ok(held) => say(rt, scenario.name(), held).is_ok(),
        Err(_trouble) => false,
    }
}

fn say(rt: &impl Print, name: &str, held: bool) -> io::Result<()> {
    let ended = if held { "held" } else { "differs" };
    println!(rt; "{name}: {ended}")
}
