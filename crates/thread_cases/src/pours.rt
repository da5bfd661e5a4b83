// Two files whose records are poured to one writer.
ghost use Rattle.std.specs.Prelude.{◌≤◌};

use crate::scribes::{Free, Holds, Scribe};
use ingest_queue::{FileEnd, Poured, Starts, pour};
use mon_points::{RowFault, RowRead, RowReads};
use mon_value::{
    FieldValues, OutOfMemory, Point, Row, SeriesKey, Shared, Target, Text, TryCopy, Value,
};
use std::alloc::Global;
use std::sync::Wait;
use std::thread::Threads;

/// The most room that a queue may have.
const MOST_ROOM: u32 = 65_536;

/// How many records of a file were accepted, and how many were refused.
#[derive(Clone, Copy, PartialEq, Eq)]
struct Counts(usize, usize);

/// One file of one row is held until the other one has left.
pub fn one_file_waits_for_the_other<R: Threads + Wait + Sync>(
    rt: &R,
    alloc: Global,
    held: u32,
) -> Result<bool, OutOfMemory> {
    let starts = Holds::new(held);
    let mut writer = Scribe::new(u64::MAX, false);
    let poured = poured_rows(rt, alloc, [1, 1], 64, &mut writer, &starts)?;
    let both = counts_of(&poured) == [Counts(1, 0), Counts(1, 0)];
    drop(poured);
    Ok(both && starts.was_freed() && writer.has_written(1, 1))
}

/// Files of many rows, of none and of one through a queue with room for one record, and for the most.
pub fn each_room_serves<R: Threads + Wait + Sync>(
    rt: &R,
    alloc: Global,
) -> Result<bool, OutOfMemory> {
    let mut held = true;
    for rows in [[300, 300], [300, 0], [0, 300], [0, 0], [1, 200]] {
        held &= all_come(rt, alloc, rows, 1)?;
        held &= all_come(rt, alloc, rows, MOST_ROOM)?;
    }
    Ok(held)
}

// All rows of both files come, those of each in their order.
fn all_come<R: Threads + Wait + Sync>(
    rt: &R,
    alloc: Global,
    rows: [u32; 2],
    room: u32,
) -> Result<bool, OutOfMemory>
    requires some { 1 ≤ room }
    requires bounded { room ≤ 65536 }
{
    let mut writer = Scribe::new(u64::MAX, false);
    let poured = poured_rows(rt, alloc, rows, room, &mut writer, &Free)?;
    let [one, other] = counts_of(&poured);
    drop(poured);
    let all = one == Counts(rows[0] as usize, 0) && other == Counts(rows[1] as usize, 0);
    Ok(all && writer.has_written(rows[0], rows[1]))
}

/// Each record of both files is refused: those of the first are no rows, and the rows of the second are not written.
pub fn all_are_refused<R: Threads + Wait + Sync>(
    rt: &R,
    alloc: Global,
) -> Result<bool, OutOfMemory> {
    let mut writer = Scribe::new(u64::MAX, true);
    let faults = faults(alloc, 40)?;
    let rows = rows(alloc, 1, 50)?;
    let poured = poured(rt, alloc, faults, rows, 64, &mut writer, &Free)?;
    let counts = counts_of(&poured);
    drop(poured);
    Ok(counts == [Counts(0, 40), Counts(0, 50)])
}

/// A writer runs out of memory at each offer in turn: it was offered the rows before, and what was poured is lost.
pub fn memory_runs_out_at_each_offer<R: Threads + Wait + Sync>(
    rt: &R,
    alloc: Global,
) -> Result<bool, OutOfMemory> {
    let mut held = true;
    for most in 0..21u64 {
        let mut writer = Scribe::new(most, false);
        let ended = match poured_rows(rt, alloc, [10, 10], 4, &mut writer, &Free) {
            Ok(poured) => {
                drop(poured);
                most >= 20
            }
            Err(_) => most < 20,
        };
        held &= ended && writer.is_in_order() && writer.offered() == most.min(20);
    }
    Ok(held)
}

// Pours files of so many rows.
fn poured_rows<R: Threads + Wait + Sync, S: Starts + Sync>(
    rt: &R,
    alloc: Global,
    counts: [u32; 2],
    room: u32,
    writer: &mut Scribe,
    starts: &S,
) -> Result<Poured, OutOfMemory>
    requires some { 1 ≤ room }
    requires bounded { room ≤ 65536 }
{
    let first = rows(alloc, 0, counts[0])?;
    let second = rows(alloc, 1, counts[1])?;
    poured(rt, alloc, first, second, room, writer, starts)
}

// Pours these records.
fn poured<R: Threads + Wait + Sync, S: Starts + Sync>(
    rt: &R,
    alloc: Global,
    first: RowReads,
    second: RowReads,
    room: u32,
    writer: &mut Scribe,
    starts: &S,
) -> Result<Poured, OutOfMemory>
    requires some { 1 ≤ room }
    requires bounded { room ≤ 65536 }
{
    pour(rt, alloc, first, second, room, writer, starts)
}

// What became of each file's records.
fn counts_of(poured: &Poured) -> [Counts; 2] {
    [counts_in(&poured.first), counts_in(&poured.second)]
}

fn counts_in(end: &FileEnd) -> Counts {
    Counts(end.accepted.len(), end.refused.len())
}

// So many rows of a series. The file that they are in is their start, and their number there is their end.
fn rows(alloc: Global, file: i64, count: u32) -> Result<RowReads, OutOfMemory> {
    let key = Shared::new(alloc, series(alloc)?)?;
    let mut reads = RowReads::new(alloc);
    for number in 0..count {
        reads.push(read_row(alloc, &key, file, number)?)?;
    }
    Ok(reads)
}

// A row of a series.
fn read_row(
    alloc: Global,
    key: &Shared<SeriesKey>,
    file: i64,
    number: u32,
) -> Result<RowRead, OutOfMemory> {
    let key = key.copy(alloc)?;
    let point = Point {
        start: file,
        end: i64::from(number),
        value: Value::Bool(true),
    };
    Ok(RowRead::Row(Row { key, point }))
}

// The series of all rows.
fn series(alloc: Global) -> Result<SeriesKey, OutOfMemory> {
    let schema = Text::from_str(alloc, "T")?;
    let metric = Text::from_str(alloc, "/m")?;
    Ok(SeriesKey {
        target: Target {
            schema,
            fields: FieldValues::new(alloc),
        },
        metric,
        fields: FieldValues::new(alloc),
    })
}

// So many records that are no rows.
fn faults(alloc: Global, count: u32) -> Result<RowReads, OutOfMemory> {
    let mut reads = RowReads::new(alloc);
    for _number in 0..count {
        reads.push(RowRead::Fault(RowFault::Fields))?;
    }
    Ok(reads)
}
