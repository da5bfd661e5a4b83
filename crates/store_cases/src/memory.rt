// Calls that memory may be wanting for.
use crate::places::Place;
use crate::trouble::Trouble;
use know::Names;
use mon_store::{Pass, RecoverFault, TrimFault};
use mon_topo::ranges_have_replicas;
use mon_value::{Range, Slot};
use std::sync::Wait;

/// The one range.
const RANGE: Range = Range(0);

/// The leaf of its first replica.
const FIRST: &str = "e1";

/// Two of the three rows end before it.
const BOUND: i64 = 12;

/// A step of the scenario.
#[derive(Clone, Copy)]
enum Step {
    /// A row is written.
    Write(&'static str),
    /// The first leaf goes down, or comes up.
    Down,
    Up,
    /// The range is recovered onto its first leaf, in this slot.
    Recover(u32),
    /// The rows of the range that end before the bound are hidden.
    Trim,
    /// The replica on the first leaf is retired, which is in this slot.
    Retire(u32),
}

/// What is found behind a step: so many rows, and leaves whose histories are so long.
#[derive(Clone, Copy)]
struct Stage(usize, [u64; 3]);

/// Each replica of the range is opened.
const START: Stage = Stage(0, [1, 1, 1]);

/// A row that all take, one that the first leaf misses, one that all take again, and a bound that all take; and then the
/// first leaf serves no longer.
const STEPS: &[(Step, Stage)] = &[
    (Step::Write("T,/m,10,10,1,a,e\n"), Stage(1, [2, 2, 2])),
    (Step::Down, Stage(1, [3, 2, 2])),
    (Step::Write("T,/m,11,11,2,a,e\n"), Stage(2, [3, 3, 3])),
    (Step::Up, Stage(2, [4, 3, 3])),
    (Step::Recover(3), Stage(2, [5, 3, 3])),
    (Step::Write("T,/m,12,12,3,a,e\n"), Stage(3, [6, 4, 4])),
    (Step::Trim, Stage(1, [7, 5, 5])),
    (Step::Retire(3), Stage(1, [7, 5, 5])),
];

/// Rows are written to three replicas, one of which misses one and is recovered, and then two of them are hidden. Where
/// memory is wanting for a step no replica has a part of it, and it can be done then.
pub(crate) fn nothing_is_half_done<N: Names, R: Wait>(
    rt: &R,
    place: &Place<N>,
    first: &mut Pass<N>,
) -> Result<bool, Trouble> {
    let mut held = true;
    let mut before = START;
    for (step, after) in STEPS {
        held &= is_done(rt, place, first, *step, before)?;
        held &= is_at(rt, place, first, *after)?;
        before = *after;
    }
    Ok(held)
}

// Does a step, at the second time where memory is wanting; nothing has changed then.
fn is_done<N: Names, R: Wait>(
    rt: &R,
    place: &Place<N>,
    first: &mut Pass<N>,
    step: Step,
    before: Stage,
) -> Result<bool, Trouble> {
    match perform(rt, place, first, step) {
        Err(Trouble::OutOfMemory) => {
            let same = is_at(rt, place, first, before)?;
            Ok(same & perform(rt, place, first, step)?)
        }
        ended => ended,
    }
}

// Whether a query finds a stage, at the second time where memory is wanting.
fn is_at<N: Names, R: Wait>(
    rt: &R,
    place: &Place<N>,
    first: &mut Pass<N>,
    stage: Stage,
) -> Result<bool, Trouble> {
    match place.stands_on(rt, first, stage.0, &stage.1) {
        Err(Trouble::OutOfMemory) => place.stands_on(rt, first, stage.0, &stage.1),
        ended => ended,
    }
}

fn perform<N: Names, R: Wait>(
    rt: &R,
    place: &Place<N>,
    first: &mut Pass<N>,
    step: Step,
) -> Result<bool, Trouble> {
    match step {
        Step::Write(point) => write(rt, place, first, point),
        Step::Down => Ok(switch(rt, place, first, true)),
        Step::Up => Ok(switch(rt, place, first, false)),
        Step::Recover(slot) => recover(rt, place, first, slot),
        Step::Trim => trim(rt, place, first),
        Step::Retire(slot) => Ok(retire(rt, place, first, slot)),
    }
}

// Writes the row of a text of one point.
fn write<N: Names, R: Wait>(
    rt: &R,
    place: &Place<N>,
    first: &mut Pass<N>,
    point: &str,
) -> Result<bool, Trouble> {
    let rows = place.rows(point)?;
    let written = match rows.as_slice().first() {
        Some(row) => place.takes(rt, first, row),
        None => Ok(false),
    };
    drop(rows);
    written
}

// Takes the first leaf down, or up. No memory is taken.
fn switch<N: Names, R: Wait>(rt: &R, place: &Place<N>, first: &mut Pass<N>, down: bool) -> bool {
    let store = &place.store;
    let Some(leaf) = store.config().topology.leaf_named(FIRST.as_bytes()) else {
        return false;
    };
    if down {
        store.leaf_down(rt, first, leaf).is_ok()
    } else {
        store.leaf_up(rt, first, leaf).is_ok()
    }
}

// Recovers the range onto its first leaf, and says whether that came to be in the slot.
fn recover<N: Names, R: Wait>(
    rt: &R,
    place: &Place<N>,
    first: &mut Pass<N>,
    slot: u32,
) -> Result<bool, Trouble> {
    let topology = &place.store.config().topology;
    ranges_have_replicas(topology);
    if topology.ranges() == 0 {
        return Ok(false);
    }
    let Some((leaf, _others)) = topology.first_replicas(RANGE).as_slice().split_first() else {
        return Ok(false);
    };
    match place.store.recover(rt, place.alloc, first, RANGE, *leaf) {
        Ok(opened) => Ok(opened == Slot(slot)),
        Err(RecoverFault::OutOfMemory) => Err(Trouble::OutOfMemory),
        Err(fault) => {
            drop(fault);
            Ok(false)
        }
    }
}

// Hides the rows of the range that end before the bound.
fn trim<N: Names, R: Wait>(rt: &R, place: &Place<N>, first: &mut Pass<N>) -> Result<bool, Trouble> {
    if place.store.config().topology.ranges() == 0 {
        return Ok(false);
    }
    match place.store.trim(rt, place.alloc, first, RANGE, BOUND) {
        Ok(ack) => {
            drop(ack);
            Ok(true)
        }
        Err(TrimFault::OutOfMemory) => Err(Trouble::OutOfMemory),
        Err(fault) => {
            drop(fault);
            Ok(false)
        }
    }
}

// Retires the replica on the first leaf, and says whether that was in the slot. No memory is taken.
fn retire<N: Names, R: Wait>(rt: &R, place: &Place<N>, first: &mut Pass<N>, slot: u32) -> bool {
    let topology = &place.store.config().topology;
    let Some(leaf) = topology.leaf_named(FIRST.as_bytes()) else {
        return false;
    };
    if topology.ranges() == 0 {
        return false;
    }
    match place.store.retire(rt, first, RANGE, leaf) {
        Ok(retired) => retired == Slot(slot),
        Err(_fault) => false,
    }
}
