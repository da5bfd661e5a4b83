//! Worked examples of definitions, as clauses; and each call that the program `mon` has no use for, made once.
#![tactic(auto)]

mod calls;
mod examples;
mod kept_parts;
mod kept_results;

use crate::kept_results::{Way, has_row};
use std::alloc::Global;
use std::io;
use std::process::ExitCode;

/// The status where a call answers otherwise.
const DIFFERS: u8 = 1;

/// The status where memory ran out or the output failed.
const FAILED: u8 = 2;

fn main(rt: HostRuntime) -> ExitCode {
    match make_all(&rt, rt.alloc()) {
        Ok(true) => ExitCode::SUCCESS,
        Ok(false) => ExitCode::from(DIFFERS),
        Err(_) => ExitCode::from(FAILED),
    }
}

// Makes all calls. Whether each answers as it should.
fn make_all(rt: &impl Print, alloc: Global) -> io::Result<bool> {
    let hints = say(rt, "mon_hints::hints_of", calls::hints(alloc)?)?;
    let pattern = say(rt, "mon_expr::matches", calls::pattern(alloc)?)?;
    let query = say(rt, "mql_ast::print_query", calls::query(alloc)?)?;
    let formula = say(rt, "plan_split::formula_of", calls::formula(alloc)?)?;
    let fold = say(rt, "mon_fold::fold_pieces", calls::fold(alloc)?)?;
    let entry = say(rt, "leaf_store::may_follow", calls::entry(alloc)?)?;
    let tables = say(rt, "mon_table::union and sorted", calls::tables(alloc)?)?;
    let kept = say(rt, "standing_incr::Kept", has_row(alloc, Way::Added)?)?;
    let replayed = say(rt, "standing_incr::replay", has_row(alloc, Way::Replayed)?)?;
    let numbers = say(rt, "kept_numbers::Numbers", kept_parts::numbers(alloc)?)?;
    let placed = say(rt, "placed_rows::PlacedRows", kept_parts::placed(alloc)?)?;
    let change = say(rt, "kept_groups::change_of", kept_parts::change(alloc)?)?;
    let calls = hints & pattern & query & formula & fold & entry & tables;
    Ok(calls & kept & replayed & numbers & placed & change)
}

// Prints a line that says whether a call answered as it should, and gives that back.
fn say(rt: &impl Print, name: &str, held: bool) -> io::Result<bool> {
    let told = if held { "held" } else { "differs" };
    println!(rt; "{name}: {told}")?;
    Ok(held)
}
