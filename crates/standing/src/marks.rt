// When which queries are due.
ghost use Rattle.std.specs.Prelude.{◌≡◌, ◌≤◌, ◌<◌, ◌+◌, ◌*◌, ◌^◌, ◌++◌, ◌≤ℤ◌, ℕ, pos, map, length};
ghost use Rattle.std.specs.Prelude.{IfOk, OnOk};
ghost use Rattle.std.specs.List.{AllByRecursion, range_with_len};
ghost use Rattle.standing.specs.DueLists as spec;
ghost use Rattle.standing.specs.QuietMoments.{AreQuiet, IsQuietUntil};

use crate::blocks::split_block;
use crate::queries::StandingQuery;
use mon_value::OutOfMemory;
use std::alloc::Global;

/// When a query is due, and its number in the order of adding.
pub(crate) type Mark = (i64, usize);

/// The marks of the queries that are due, by time and then by adding.
pub(crate) fn due_marks(
    alloc: Global,
    last: Option<i64>,
    moment: i64,
    queries: &[StandingQuery],
    nexts: &[u64],
) -> Result<Vec<Mark>, OutOfMemory>
    requires lawful { AllByRecursion spec.HasPeriod queries.now }
    requires quiet { AreQuiet last nexts.now queries.now }
    requires moment { pos 0 ≤ℤ moment }
    ensures marks { IfOk result (λ marks. marks.items ≡ spec.due_marks last moment queries.now) }
{
    let mut marks = all_marks(alloc, last, moment, queries, nexts)?;
    marks.sort_unstable();
    Ok(marks)
}

// The marks in the order of adding. It goes over the blocks, and over the queries of those in which one is due.
fn all_marks(
    alloc: Global,
    last: Option<i64>,
    moment: i64,
    queries: &[StandingQuery],
    nexts: &[u64],
) -> Result<Vec<Mark>, OutOfMemory>
    requires lawful { AllByRecursion spec.HasPeriod queries.now }
    requires quiet { AreQuiet last nexts.now queries.now }
    requires moment { pos 0 ≤ℤ moment }
    ensures marks { IfOk result (λ marks. marks.items ≡ spec.marks_from 0 last moment queries.now) }
{
    let mut marks = Vec::new(alloc);
    let mut rest = queries;
    let mut first = 0;
    for next in nexts {
        let (block, behind) = split_block(rest);
        push_block(&mut marks, last, moment, block, *next, first)?;
        first += block.len();
        rest = behind;
    }
    Ok(marks)
}

// Adds the marks of a block of queries that are numbered on from a first one.
fn push_block(
    marks: &mut Vec<Mark>,
    last: Option<i64>,
    moment: i64,
    block: &[StandingQuery],
    next: u64,
    first: usize,
) -> Result<(), OutOfMemory>
    requires lawful { AllByRecursion spec.HasPeriod block.now }
    requires quiet { AllByRecursion (IsQuietUntil last next) block.now }
    requires moment { pos 0 ≤ℤ moment }
    requires fits { first + length block.now < 2 ^ 64 }
    ensures marks { OnOk result (marks.new.items ≡ marks.old.items ++ spec.marks_from first last moment block.now) }
{
    if moment.unsigned_abs() < next {
        return Ok(());
    }
    push_each(marks, last, moment, block, first)
}

// The same, query by query.
fn push_each(
    marks: &mut Vec<Mark>,
    last: Option<i64>,
    moment: i64,
    block: &[StandingQuery],
    first: usize,
) -> Result<(), OutOfMemory>
    requires lawful { AllByRecursion spec.HasPeriod block.now }
    requires moment { pos 0 ≤ℤ moment }
    requires fits { first + length block.now < 2 ^ 64 }
    ensures marks { OnOk result (marks.new.items ≡ marks.old.items ++ spec.marks_from first last moment block.now) }
{
    for (number, query) in block.iter().enumerate() {
        push_marks(marks, last, moment, query, first + number)?;
    }
    Ok(())
}

// Adds the marks of a query, by its number.
fn push_marks(
    marks: &mut Vec<Mark>,
    last: Option<i64>,
    moment: i64,
    query: &StandingQuery,
    number: usize,
) -> Result<(), OutOfMemory>
    requires lawful { spec.HasPeriod query.now }
    requires moment { pos 0 ≤ℤ moment }
    ensures marks { OnOk result (marks.new.items ≡ marks.old.items
        ++ spec.marked number (spec.due_times last moment (spec.seconds query.now.period))) }
{
    let period = query.period.unsigned_abs();
    let newest = moment.unsigned_abs() / period;
    match last {
        Some(last) => {
            let before = last.unsigned_abs() / period;
            let count = newest.saturating_sub(before);
            push_multiples(marks, period, before + 1, count, number)
        }
        None => push_multiples(marks, period, newest, 1, number),
    }
}

// Adds marks at so many multiples of a period, from the first one on.
fn push_multiples(
    marks: &mut Vec<Mark>,
    period: u64,
    first: u64,
    count: u64,
    number: usize,
) -> Result<(), OutOfMemory>
    requires small { (k : ℕ) → first ≤ k → k < first + count → period * k < 2 ^ 63 }
    requires fits { first + count < 2 ^ 64 }
    ensures marks { OnOk result (marks.new.items ≡ marks.old.items
        ++ spec.marked number (map (λ k. pos (period * k)) (range_with_len first count))) }
{
    for i in 0..count {
        let time = period * (first + i);
        marks.push((time as i64, number))?;
    }
    Ok(())
}
