// A script whose block runs while a gate holds one of its lines.
use crate::files::{folder, words};
use mon_run::{HoldGate, MemorySink, run};
use mon_value::OutOfMemory;
use std::alloc::Global;
use std::sync::Wait;
use std::thread::Threads;

/// The line of the block's first feed, and that of its query.
const FEED: u32 = 2;

const QUERY: u32 = 4;

/// What the feeds of the block print.
const FEEDS: &[u8] = b"feed a.csv: 1 accepted, 0 refused\nfeed b.csv: 1 accepted, 0 refused\n";

/// What the query behind the block prints: all that its feeds accepted.
const BOTH: &[u8] = b"time,u,z,v\n20,a,e,1\n20,b,e,2\n2 rows\n";

/// Tables of the block's query: with the row of the first feed alone, with that of the second one, and with none.
const FIRST: &[u8] = b"time,u,z,v\n20,a,e,1\n1 rows\n";

const SECOND: &[u8] = b"time,u,z,v\n20,b,e,2\n1 rows\n";

const NONE: &[u8] = b"time,u,z,v\n0 rows\n";

/// The query is held until the first feed has left. Its table has that one's row, and the second feed's or not.
pub fn a_query_waits_for_a_feed<R: Threads + Wait + Sync>(
    rt: &R,
    alloc: Global,
) -> Result<bool, OutOfMemory> {
    run_held(rt, alloc, HoldGate::new(QUERY, FEED), [FIRST, BOTH])
}

/// The first feed is held until the query has left. Its table lacks that one's row, and has the second feed's or not.
pub fn a_feed_waits_for_a_query<R: Threads + Wait + Sync>(
    rt: &R,
    alloc: Global,
) -> Result<bool, OutOfMemory> {
    run_held(rt, alloc, HoldGate::new(FEED, QUERY), [NONE, SECOND])
}

// Runs the script under a gate. Whether the hold ended as the other line left, and all is printed, with one of two tables
// for the query of the block.
fn run_held<R: Threads + Wait + Sync>(
    rt: &R,
    alloc: Global,
    gate: HoldGate,
    tables: [&[u8]; 2],
) -> Result<bool, OutOfMemory> {
    let words = words(alloc)?;
    let mut folder = folder(alloc)?;
    let mut out = MemorySink::new(alloc, 10_000);
    let outcome = run(rt, alloc, words.as_slice(), &mut folder, &mut out, &gate);
    let printed = out.written();
    let [few, all] = tables;
    let whole = is_whole(printed, few) || is_whole(printed, all);
    Ok(outcome.status == 0 && !gate.was_spent() && whole)
}

// Whether a text is that of the script, with a table for the query of the block.
fn is_whole(printed: &[u8], table: &[u8]) -> bool {
    let Some(behind) = printed.strip_prefix(FEEDS) else {
        return false;
    };
    match behind.strip_prefix(table) {
        Some(last) => last == BOTH,
        None => false,
    }
}
