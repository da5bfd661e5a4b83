// The lines of a block.
ghost use Rattle.std.specs.Prelude.{◌≡◌, false, ◌≤◌, ◌+◌, ℕ, [], length, vec_capacity, IfOk, OnOk};
ghost use Rattle.std.specs.List.{AllByRecursion};
ghost use Rattle.history_book.specs.Histories.{AreFronts};
ghost use Rattle.history_book.specs.Seats.{HasEveryNumber};
ghost use Rattle.line_runs.specs.declared.lines.LineRan.{LineRan as Ran};
ghost use Rattle.part_runs.specs.Courses.{BlockRan};
ghost use Rattle.part_runs.specs.PartsDone.{ActedBeside, ActsThere, CanSplit};
ghost use Rattle.run_traces.specs.LineDues.{is_ticked};
ghost use Rattle.mon_script.specs.Lawful.{IsLawfulLine};

use crate::courses::{begin, meet_all, run_all};
use history_book::numbers_are_counted;
use know::Names;
use line_runs::LineRan;
use mon_script::{MOST_LINES_OF_BLOCK, ScriptLine};
use mon_store::{Gate, Pass, Store};
use mon_value::{ListOf, OutOfMemory};
use run_traces::{LineFiles, finds_stay, runs_go_on, texts_stay};
use std::alloc::{AllocError, Global};
use std::sync::Wait;
use std::thread::Threads;

/// What the lines of a block came to, in line order.
pub type LineRans = ListOf<LineRan>;

/// Runs the lines of a block beside each other, each under a caller of its own that is split off the script's; that one
/// then meets all of theirs in line order. Where memory runs out in one line, none of them has a trace.
pub fn run_beside<N: Names + Send + Sync, R: Threads + Wait + Sync, G: Gate + Sync>(
    rt: &R,
    alloc: Global,
    store: &Store<N>,
    gate: &G,
    p: &mut Pass<N>,
    lines: &[ScriptLine],
    contents: &[LineFiles],
) -> Result<LineRans, OutOfMemory>
    requires lawful { AllByRecursion (IsLawfulLine store.now.topology) lines.now }
    requires acts { AllByRecursion ActsThere lines.now }
    requires few { length lines.now ≤ MOST_LINES_OF_BLOCK }
    requires contents { length contents.now ≡ length lines.now }
    requires every { HasEveryNumber p.old.purse }
    requires stock { CanSplit (length lines.now) p.old }
    ensures ran { IfOk result (λ rans. ActedBeside store.now lines.now contents.now rans p.old p.new) }
    ensures plain { IfOk result (AllByRecursion (λ (ran : Ran). is_ticked ran.trace ≡ false)) }
    ensures each { IfOk result (λ rans. length rans ≡ length lines.now) }
    ensures stock { OnOk result ((n : ℕ) → CanSplit (length lines.now + n) p.old → CanSplit n p.new) }
    ensures fronts { AreFronts p.old.seen p.new.seen }
{
    runs_go_on();
    finds_stay();
    texts_stay();
    numbers_are_counted();
    p.is_sound();
    let mut rans = Vec::with_capacity(alloc, lines.len())?;
    run_courses(rt, alloc, store, gate, p, lines, contents, &mut rans)?;
    p.is_sound();
    if rans.len() == lines.len() {
        Ok(ListOf::from_vec(rans))
    } else {
        Err(AllocError)
    }
}

// Runs the lines under callers that are split off the script's, and meets all of these, also where one of them met
// want of memory.
fn run_courses<N: Names + Send + Sync, R: Threads + Wait + Sync, G: Gate + Sync>(
    rt: &R,
    alloc: Global,
    store: &Store<N>,
    gate: &G,
    p: &mut Pass<N>,
    lines: &[ScriptLine],
    contents: &[LineFiles],
    rans: &mut Vec<LineRan>,
) -> Result<(), OutOfMemory>
    requires lawful { AllByRecursion (IsLawfulLine store.now.topology) lines.now }
    requires acts { AllByRecursion ActsThere lines.now }
    requires contents { length contents.now ≡ length lines.now }
    requires stock { CanSplit (length lines.now) p.old }
    requires none { rans.old.items ≡ [] }
    requires room { length lines.now ≤ vec_capacity rans.old }
    ensures ran { OnOk result (BlockRan N.setting store.now lines.now contents.now rans.new.items p.old p.new) }
    ensures fronts { AreFronts p.old.seen p.new.seen }
{
    let mut courses = begin(alloc, store, p, lines.len())?;
    run_all(rt, alloc, store, gate, lines, contents, &mut courses);
    meet_all(store, p, courses, rans);
    Ok(())
}
