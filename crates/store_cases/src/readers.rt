// One thread writes, and another asks all the time.
use crate::places::Place;
use crate::trouble::Trouble;
use know::Names;
use mon_store::Pass;
use mon_value::{Row, RowList};
use std::sync::Wait;
use std::thread::{Threads, join};

/// So many rounds there are. After each the caller that asks meets the one that wrote.
const ROUNDS: u32 = 10;

/// So many rows are written in a round.
const ROWS: u32 = 100;

/// So often it is asked in a round.
const QUERIES: u32 = 3;

/// One thread writes 1,000 rows of a range while another asks. The rows that each answer stands on are a front of these,
/// in their order, with each row that was acknowledged to a caller that the asking one had met.
pub(crate) fn one_writes_and_one_asks<N: Names + Send + Sync, R: Threads + Wait + Sync>(
    rt: &R,
    place: &Place<N>,
    asker: &mut Pass<N>,
) -> Result<bool, Trouble> {
    let mut held = true;
    for round in 0..ROUNDS {
        held &= one_round(rt, place, asker, round)?;
    }
    Ok(held & has_met(rt, place, asker, 1000, 1000)?)
}

// One round, after which the asking caller has met the writing one.
fn one_round<N: Names + Send + Sync, R: Threads + Wait + Sync>(
    rt: &R,
    place: &Place<N>,
    asker: &mut Pass<N>,
    round: u32,
) -> Result<bool, Trouble> {
    let rows = rows_of_round(place, round)?;
    let told = write_and_ask(rt, place, asker, rows.as_slice(), round);
    drop(rows);
    told
}

// The rows of a round: one series of a host in each of ten.
fn rows_of_round<N: Names>(place: &Place<N>, round: u32) -> Result<RowList, Trouble> {
    let alloc = place.alloc;
    let mut text = String::new(alloc);
    for turn in 0..ROWS {
        let end = round.saturating_mul(ROWS).saturating_add(turn);
        let host = turn % 10;
        writeln!(text, "T,/m,{end},{end},{end},u{host},e")?;
    }
    place.rows(text.as_str())
}

fn write_and_ask<N: Names + Send + Sync, R: Threads + Wait + Sync>(
    rt: &R,
    place: &Place<N>,
    asker: &mut Pass<N>,
    rows: &[Row],
    round: u32,
) -> Result<bool, Trouble> {
    let mut writer = place.another(asker)?;
    let (written, asked) = join(
        rt,
        || take_all(rt, place, &mut writer, rows),
        || ask_round(rt, place, asker, round),
    );
    place.store.meet(asker, writer);
    Ok(written? & asked?)
}

fn take_all<N: Names, R: Wait>(
    rt: &R,
    place: &Place<N>,
    writer: &mut Pass<N>,
    rows: &[Row],
) -> Result<bool, Trouble> {
    for row in rows {
        place.takes(rt, writer, row)?;
    }
    Ok(true)
}

fn ask_round<N: Names, R: Wait>(
    rt: &R,
    place: &Place<N>,
    asker: &mut Pass<N>,
    round: u32,
) -> Result<bool, Trouble> {
    let met = round.saturating_mul(ROWS) as usize;
    let most = met.saturating_add(ROWS as usize);
    let mut held = true;
    for _turn in 0..QUERIES {
        held &= has_met(rt, place, asker, met, most)?;
    }
    Ok(held)
}

// Asks once. Whether the rows that the answer stands on are a front of what is written that has all that was met.
fn has_met<N: Names, R: Wait>(
    rt: &R,
    place: &Place<N>,
    asker: &mut Pass<N>,
    met: usize,
    most: usize,
) -> Result<bool, Trouble> {
    let found = place.find(rt, asker)?;
    let count = found.rows.len();
    let front = (met <= count) & (count <= most) & are_in_turn(found.rows.as_slice());
    drop(found);
    Ok(front)
}

// Whether rows end at 0, 1, 2 and so on, each once.
fn are_in_turn(rows: &[Row]) -> bool {
    let mut held = true;
    let mut next = 0;
    for row in rows {
        held &= row.point.end == i64::from(next);
        next = u32::saturating_add(next, 1);
    }
    held
}
