// Which queries are due at a moment, in which order.
ghost use Rattle.std.specs.Prelude.{◌≡◌, ◌≤◌, ◌<◌, ◌+◌, ◌++◌, ◌≤ℤ◌, pos, length};
ghost use Rattle.std.specs.Prelude.{slice_get, option_map, IfOk, MatchOption, OnOk};
ghost use Rattle.std.specs.List.{AllByRecursion, filter_map};
ghost use Rattle.std.specs.Option.{option_copied};
ghost use Rattle.std.specs.Prelude.{option_to_list};
ghost use Rattle.standing.specs.DueLists as spec;
ghost use Rattle.standing.specs.QuietMoments.{AreQuiet, IsQuietUntil};

use crate::blocks::split_block;
use crate::faults::DueFault;
use crate::marks::{Mark, due_marks};
use crate::queries::StandingQuery;
use mon_value::{ListOf, OutOfMemory, Text, TryCopy};
use std::alloc::Global;

/// The most queries that are due at once.
pub const MOST_DUE: u32 = 1000;

/// A query that is due, and when.
#[derive(Drop)]
pub struct Due {
    pub name: Text,
    pub at: i64,
    pub text: Text,
}

/// The queries that are due, by time and then by adding.
pub type Dues = ListOf<Due>;

/// The queries that are due at a moment.
pub(crate) fn due_list(
    alloc: Global,
    last: Option<i64>,
    moment: i64,
    queries: &[StandingQuery],
    nexts: &[u64],
) -> Result<Dues, OutOfMemory>
    requires lawful { AllByRecursion spec.HasPeriod queries.now }
    requires quiet { AreQuiet last nexts.now queries.now }
    requires moment { pos 0 ≤ℤ moment }
    ensures dues { IfOk result (λ dues. dues ≡ spec.due_list last moment queries.now) }
{
    let marks = due_marks(alloc, last, moment, queries, nexts)?;
    dues_of(alloc, queries, marks.as_slice())
}

// The queries of marks.
fn dues_of(alloc: Global, queries: &[StandingQuery], marks: &[Mark]) -> Result<Dues, OutOfMemory>
    ensures dues { IfOk result (λ dues. dues ≡ filter_map (spec.due_of queries.now) marks.now) }
{
    let mut dues = Dues::new(alloc);
    for mark in marks {
        push_due(alloc, &mut dues, queries, *mark)?;
    }
    Ok(dues)
}

// Adds the query of a mark.
fn push_due(
    alloc: Global,
    dues: &mut Dues,
    queries: &[StandingQuery],
    mark: Mark,
) -> Result<(), OutOfMemory>
    ensures due { OnOk result (dues.new ≡ dues.old ++ option_to_list (spec.due_of queries.now mark)) }
{
    match query_at(queries, mark.1) {
        Some(query) => dues.push(Due {
            name: query.name.copy(alloc)?,
            at: mark.0,
            text: query.text.copy(alloc)?,
        }),
        None => Ok(()),
    }
}

// The query of a number.
fn query_at(queries: &[StandingQuery], number: usize) -> Option<&StandingQuery>
    ensures query { option_copied result ≡ slice_get queries.now number }
{
    queries.get(number)
}

/// Why a moment is not taken, if it isn't: it lies before the last one, or more would be due than may be. Nothing that
/// is due is made for it.
pub(crate) fn fault_of(
    last: Option<i64>,
    moment: i64,
    queries: &[StandingQuery],
    nexts: &[u64],
) -> Option<DueFault>
    requires lawful { AllByRecursion spec.HasPeriod queries.now }
    requires quiet { AreQuiet last nexts.now queries.now }
    ensures fault { result ≡ spec.due_fault last moment queries.now }
{
    match backwards(last, moment) {
        Some(fault) => Some(fault),
        None => too_many(last, moment, queries, nexts),
    }
}

// Whether a moment lies before the last one.
fn backwards(last: Option<i64>, moment: i64) -> Option<DueFault>
    ensures fault { result ≡ spec.backwards last moment }
{
    let last = last?;
    if moment < last {
        Some(DueFault::Backwards(last))
    } else {
        None
    }
}

// Whether more would be due than may be.
fn too_many(
    last: Option<i64>,
    moment: i64,
    queries: &[StandingQuery],
    nexts: &[u64],
) -> Option<DueFault>
    requires lawful { AllByRecursion spec.HasPeriod queries.now }
    requires quiet { AreQuiet last nexts.now queries.now }
    ensures fault { result ≡ spec.too_many (spec.due_count last moment queries.now) }
{
    match room_left(last, moment, queries, nexts) {
        Some(_) => None,
        None => Some(DueFault::TooManyDue(MOST_DUE)),
    }
}

// How many more could be due, or `None` where more are than may be. It goes over the blocks, and over the queries of
// those in which one is due.
fn room_left(
    last: Option<i64>,
    moment: i64,
    queries: &[StandingQuery],
    nexts: &[u64],
) -> Option<u64>
    requires lawful { AllByRecursion spec.HasPeriod queries.now }
    requires quiet { AreQuiet last nexts.now queries.now }
    ensures left { MatchOption result (MOST_DUE < spec.due_count last moment queries.now)
        (λ room. room + spec.due_count last moment queries.now ≡ MOST_DUE) }
{
    let mut room = u64::from(MOST_DUE);
    let mut rest = queries;
    for next in nexts {
        let (block, behind) = split_block(rest);
        room = room_behind(room, last, moment, block, *next)?;
        rest = behind;
    }
    Some(room)
}

// What a block of queries leaves of the room, or `None` where more of them are due than there is room for.
fn room_behind(
    room: u64,
    last: Option<i64>,
    moment: i64,
    block: &[StandingQuery],
    next: u64,
) -> Option<u64>
    requires lawful { AllByRecursion spec.HasPeriod block.now }
    requires quiet { AllByRecursion (IsQuietUntil last next) block.now }
    ensures left { MatchOption result (room < spec.due_count last moment block.now)
        (λ left. left + spec.due_count last moment block.now ≡ room) }
{
    if moment.unsigned_abs() < next {
        return Some(room);
    }
    room_behind_each(room, last, moment, block)
}

// The same, reckoned query by query.
fn room_behind_each(
    room: u64,
    last: Option<i64>,
    moment: i64,
    block: &[StandingQuery],
) -> Option<u64>
    requires lawful { AllByRecursion spec.HasPeriod block.now }
    ensures left { MatchOption result (room < spec.due_count last moment block.now)
        (λ left. left + spec.due_count last moment block.now ≡ room) }
{
    let mut left = room;
    for query in block {
        left = left.checked_sub(times_due(last, moment, query))?;
    }
    Some(left)
}

// How many times a query is due.
fn times_due(last: Option<i64>, moment: i64, query: &StandingQuery) -> u64
    requires lawful { spec.HasPeriod query.now }
    ensures count { result ≡ spec.times_due last moment query.now }
{
    match last {
        Some(last) => multiples_between(
            query.period.unsigned_abs(),
            last.unsigned_abs(),
            moment.unsigned_abs(),
        ),
        None => 1,
    }
}

// How many multiples of a period are above the last moment and at most this one. There is none where the period is
// greater than the moment, or where the newest multiple isn't above the last moment: that takes no division, or one.
fn multiples_between(period: u64, last: u64, moment: u64) -> u64
    requires some { 0 < period }
    ensures count { result ≡ spec.count_between period last moment }
{
    if moment < period || moment - moment % period <= last {
        return 0;
    }
    (moment / period).saturating_sub(last / period)
}
