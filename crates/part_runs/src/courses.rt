// The lines of a block on their way, each under a caller of its own.
ghost use Rattle.std.specs.Prelude.{◌≡◌, ◌≤◌, ◌<◌, ◌+◌, ◌++◌, ◌∷◌, [], length, vec_capacity, option_to_list, IfOk, OnOk};
ghost use Rattle.std.specs.List.{AllByRecursion};
ghost use Rattle.history_book.specs.Histories.{AreFronts};
ghost use Rattle.know.specs.Knowledge.{after_numbering, meeting, numbered_knowledge};
ghost use Rattle.part_runs.specs.Courses.{EachHasRun, HasRun, HasRunAt, HaveMet, after_begun, begun, ended_in};
ghost use Rattle.part_runs.specs.PartsDone.{ActsThere, CanSplit};
ghost use Rattle.mon_script.specs.Lawful.{IsLawfulForm, IsLawfulLine};

use know::Names;
use line_runs::{LineRan, run_line};
use mon_script::{MOST_LINES_OF_BLOCK, ScriptLine};
use mon_store::{Gate, Pass, Store};
use mon_value::{OutOfMemory, Refusal};
use run_traces::LineFiles;
use std::alloc::{AllocError, Global};
use std::marker::Model;
use std::sync::Wait;
use std::thread::Threads;
use std::{mem, thread};

/// A line of a block on its way: its caller, and what it came to, once it has run and memory was enough.
#[derive(Drop)]
pub(crate) struct Course<N: Names> {
    pass: Pass<N>,
    done: Option<LineRan>,
}

impl<N: Names> Model for Course<N> {
    ghost use Rattle.part_runs.specs.Courses.{Way};

    ghost Value = { Way };

    ghost view = { λ course. record { know = course.pass; done = course.done } };
}

impl<N: Names> Course<N> {
    // Keeps what the line came to.
    fn end(&mut self, done: Option<LineRan>)
        ensures know { self.new.know ≡ self.old.know }
        ensures done { self.new.done ≡ done }
    {
        drop(mem::replace(&mut self.done, done));
    }
}

/// A course for each of so many lines, whose callers are split off the script's.
pub(crate) fn begin<N: Names>(
    alloc: Global,
    store: &Store<N>,
    p: &mut Pass<N>,
    count: usize,
) -> Result<Vec<Course<N>>, OutOfMemory>
    requires room { CanSplit count p.old }
    ensures begun { IfOk result (λ courses. courses.items ≡ begun count p.old) }
    ensures count { IfOk result (λ courses. length courses.items ≡ count) }
    ensures left { OnOk result (p.new ≡ after_begun count p.old) }
    ensures seen { p.new.seen ≡ p.old.seen }
{
    let mut courses = Vec::new(alloc);
    for _line in 0..count {
        let course = another(alloc, store, p)?;
        courses.push(course)?;
    }
    Ok(courses)
}

// A course under the first number of the stock.
fn another<N: Names>(
    alloc: Global,
    store: &Store<N>,
    p: &mut Pass<N>,
) -> Result<Course<N>, OutOfMemory>
    requires some { p.old.purse.stock.from < p.old.purse.stock.to }
    ensures numbered { IfOk result (λ course. begun 1 p.old ≡ course ∷ []) }
    ensures left { OnOk result (p.new ≡ after_numbering p.old) }
    ensures seen { p.new.seen ≡ p.old.seen }
{
    match store.pass(alloc, p) {
        Ok(pass) => Ok(Course { pass, done: None }),
        Err(Refusal::Fault(_spent)) => unreachable!(),
        Err(Refusal::OutOfMemory) => Err(AllocError),
    }
}

/// Runs the lines beside each other. No memory is taken but by the lines themselves.
pub(crate) fn run_all<N: Names + Send + Sync, R: Threads + Wait + Sync, G: Gate + Sync>(
    rt: &R,
    alloc: Global,
    store: &Store<N>,
    gate: &G,
    lines: &[ScriptLine],
    contents: &[LineFiles],
    courses: &mut Vec<Course<N>>,
)
    requires lawful { AllByRecursion (IsLawfulLine store.now.topology) lines.now }
    requires acts { AllByRecursion ActsThere lines.now }
    requires contents { length contents.now ≡ length lines.now }
    requires count { length courses.old.items ≡ length lines.now }
    ensures count { length courses.new.items ≡ length lines.now }
    ensures ran { EachHasRun N.setting store.now lines.now contents.now courses.old.items courses.new.items }
{
    run_each(
        rt,
        alloc,
        store,
        gate,
        lines,
        contents,
        courses.as_mut_slice(),
    );
}

// Runs each in a thread of its own.
fn run_each<N: Names + Send + Sync, R: Threads + Wait + Sync, G: Gate + Sync>(
    rt: &R,
    alloc: Global,
    store: &Store<N>,
    gate: &G,
    lines: &[ScriptLine],
    contents: &[LineFiles],
    courses: &mut [Course<N>],
)
    requires lawful { AllByRecursion (IsLawfulLine store.now.topology) lines.now }
    requires acts { AllByRecursion ActsThere lines.now }
    requires contents { length contents.now ≡ length lines.now }
    requires count { length courses.old ≡ length lines.now }
    ensures count { length courses.new ≡ length courses.old }
    ensures ran { EachHasRun N.setting store.now lines.now contents.now courses.old courses.new }
{
    let ran = |place: usize, course: &mut Course<N>|
        requires lawful { AllByRecursion (IsLawfulLine store.now.topology) lines.now }
        requires acts { AllByRecursion ActsThere lines.now }
        requires line { place < length lines.now }
        requires content { place < length contents.now }
        ensures ran { HasRunAt N.setting store.entry.now lines.entry.now contents.entry.now place course.old course.new }
    {
        run_at(rt, alloc, store, gate, lines, contents, place, course);
    };
    thread::for_each_mut(rt, courses, MOST_LINES_OF_BLOCK as usize, &ran);
}

// Runs the line at a place of a block.
fn run_at<N: Names, R: Threads + Wait + Sync, G: Gate>(
    rt: &R,
    alloc: Global,
    store: &Store<N>,
    gate: &G,
    lines: &[ScriptLine],
    contents: &[LineFiles],
    place: usize,
    course: &mut Course<N>,
)
    requires lawful { AllByRecursion (IsLawfulLine store.now.topology) lines.now }
    requires acts { AllByRecursion ActsThere lines.now }
    requires line { place < length lines.now }
    requires content { place < length contents.now }
    ensures ran { HasRunAt N.setting store.now lines.now contents.now place course.old course.new }
{
    run_course(
        rt,
        alloc,
        store,
        gate,
        &lines[place],
        &contents[place],
        course,
    );
}

// Runs a line between its arrival at the gate and its leave.
fn run_course<N: Names, R: Threads + Wait + Sync, G: Gate>(
    rt: &R,
    alloc: Global,
    store: &Store<N>,
    gate: &G,
    line: &ScriptLine,
    content: &LineFiles,
    course: &mut Course<N>,
)
    requires lawful { IsLawfulForm store.now.topology line.now.what }
    requires acts { ActsThere line.now }
    ensures ran { HasRun N.setting store.now line.now.what content.now course.old course.new }
{
    gate.arrive(line.number);
    course.pass.is_sound();
    let done = run_line(rt, alloc, store, &mut course.pass, &line.what, content).ok();
    course.pass.is_sound();
    course.end(done);
    gate.leave(line.number);
}

/// The script's caller meets those of all courses, in line order. What lines came to is kept in room that was made
/// before.
pub(crate) fn meet_all<N: Names>(
    store: &Store<N>,
    p: &mut Pass<N>,
    courses: Vec<Course<N>>,
    rans: &mut Vec<LineRan>,
)
    requires room { length rans.old.items + length courses.items ≤ vec_capacity rans.old }
    ensures met { HaveMet courses.items p.old p.new }
    ensures rans { rans.new.items ≡ rans.old.items ++ ended_in courses.items }
{
    for course in courses {
        meet(store, p, course, rans);
    }
}

// It meets that of one.
fn meet<N: Names>(store: &Store<N>, p: &mut Pass<N>, course: Course<N>, rans: &mut Vec<LineRan>)
    requires room { length rans.old.items < vec_capacity rans.old }
    ensures met { HaveMet (course ∷ []) p.old p.new }
    ensures rans { rans.new.items ≡ rans.old.items ++ option_to_list course.done }
    ensures room { vec_capacity rans.new ≡ vec_capacity rans.old }
{
    store.meet(p, course.pass);
    if let Some(ran) = course.done {
        rans.push_reserved(ran);
    }
}
