// Four threads that write at once.
use crate::places::Place;
use crate::trouble::Trouble;
use know::Names;
use mon_store::Pass;
use mon_value::{Ack, Range, Row, RowList, Slot};
use std::sync::Wait;
use std::thread::{Threads, for_each_mut};

/// So many threads write.
const THREADS: usize = 4;

/// So many rows each of them writes.
const ROWS: u32 = 250;

/// The target that one thread writes rows of, and the range that it lies in.
#[derive(Clone, Copy)]
struct Target {
    fields: &'static str,
    range: u32,
}

/// The targets of all, and the lengths of the leaves' histories at the end.
#[derive(Clone, Copy)]
pub(crate) struct Targets {
    each: &'static [Target],
    lengths: &'static [u64],
}

/// All of them in one range, with replicas on two of three leaves.
pub(crate) const IN_ONE: Targets = Targets {
    each: &[
        Target {
            fields: "a,e",
            range: 0,
        },
        Target {
            fields: "b,e",
            range: 0,
        },
        Target {
            fields: "y,e",
            range: 0,
        },
        Target {
            fields: "z,e",
            range: 0,
        },
    ],
    lengths: &[1001, 1001, 0],
};

/// Each of them in a range of its own, of which two have their replicas on the same two leaves.
pub(crate) const IN_FOUR: Targets = Targets {
    each: &[
        Target {
            fields: "a,e",
            range: 0,
        },
        Target {
            fields: "z,e",
            range: 1,
        },
        Target {
            fields: "a,w",
            range: 2,
        },
        Target {
            fields: "z,w",
            range: 3,
        },
    ],
    lengths: &[502, 502, 502, 502],
};

/// A caller, the rows that it writes, the range that they lie in, and whether all went as it should.
#[derive(Drop)]
struct Writer<N: Names> {
    pass: Pass<N>,
    rows: RowList,
    range: Range,
    told: Result<bool, Trouble>,
}

/// A thousand rows are written by four threads. Each is acknowledged once by both replicas of its range, and its writer
/// then finds just its rows of the series. Each leaf's history has its openings and its rows and nothing else, and who
/// met all has each row once, in its series' order.
pub(crate) fn four_write<N: Names + Send + Sync, R: Threads + Wait + Sync>(
    rt: &R,
    place: &Place<N>,
    first: &mut Pass<N>,
    targets: Targets,
) -> Result<bool, Trouble> {
    let mut writers = new_writers(place, first, targets.each)?;
    for_each_mut(
        rt,
        writers.as_mut_slice(),
        THREADS,
        &|_number, writer: &mut Writer<N>| writer.work(rt, place),
    );
    have_written(rt, place, first, writers, targets.lengths)
}

fn new_writers<N: Names>(
    place: &Place<N>,
    first: &mut Pass<N>,
    targets: &[Target],
) -> Result<Vec<Writer<N>>, Trouble> {
    let mut writers = Vec::new(place.alloc);
    for target in targets {
        writers.push(new_writer(place, first, *target)?)?;
    }
    Ok(writers)
}

fn new_writer<N: Names>(
    place: &Place<N>,
    first: &mut Pass<N>,
    target: Target,
) -> Result<Writer<N>, Trouble> {
    let rows = rows_for(place, target.fields)?;
    match place.another(first) {
        Ok(pass) => Ok(Writer {
            pass,
            rows,
            range: Range(target.range),
            told: Ok(false),
        }),
        Err(trouble) => {
            drop(rows);
            Err(trouble)
        }
    }
}

// The rows of one target.
fn rows_for<N: Names>(place: &Place<N>, fields: &str) -> Result<RowList, Trouble> {
    let alloc = place.alloc;
    let mut text = String::new(alloc);
    for end in 1..=ROWS {
        writeln!(text, "T,/m,{end},{end},{end},{fields}")?;
    }
    place.rows(text.as_str())
}

impl<N: Names> Writer<N> {
    // Writes all rows, and then looks for them.
    fn work<R: Wait>(&mut self, rt: &R, place: &Place<N>) {
        self.told = self.works(rt, place);
    }

    fn works<R: Wait>(&mut self, rt: &R, place: &Place<N>) -> Result<bool, Trouble> {
        let written = self.write(rt, place)?;
        let found = place.find(rt, &mut self.pass)?;
        let held = has_series(found.rows.as_slice(), self.rows.as_slice());
        drop(found);
        Ok(written & held)
    }

    // Writes all rows, and says whether each is acknowledged by both replicas of its range.
    fn write<R: Wait>(&mut self, rt: &R, place: &Place<N>) -> Result<bool, Trouble> {
        let mut held = true;
        for row in self.rows.as_slice() {
            held &= both_take(rt, place, &mut self.pass, row, self.range)?;
        }
        Ok(held)
    }
}

fn both_take<N: Names, R: Wait>(
    rt: &R,
    place: &Place<N>,
    pass: &mut Pass<N>,
    row: &Row,
    range: Range,
) -> Result<bool, Trouble> {
    let ack = place.write(rt, pass, row)?;
    Ok(took_both(ack, range))
}

fn took_both(ack: Ack, range: Range) -> bool {
    let both = ack.took.as_slice() == [Slot(0), Slot(1)].as_slice();
    let held = (ack.range == range) & both & ack.missed.is_empty();
    drop(ack);
    held
}

// Whether all went as it should, and who meets the writers stands on just what they wrote.
fn have_written<N: Names, R: Wait>(
    rt: &R,
    place: &Place<N>,
    first: &mut Pass<N>,
    writers: Vec<Writer<N>>,
    lengths: &[u64],
) -> Result<bool, Trouble> {
    let mut all = Vec::new(place.alloc);
    let held = meet_all(place, first, writers, &mut all)?;
    let found = stands_on_all(rt, place, first, all.as_slice(), lengths);
    drop(all);
    Ok(held & found?)
}

// Meets the writers, and says whether all went as it should. Their rows are kept.
fn meet_all<N: Names>(
    place: &Place<N>,
    first: &mut Pass<N>,
    writers: Vec<Writer<N>>,
    all: &mut Vec<RowList>,
) -> Result<bool, Trouble> {
    let mut held = true;
    for writer in writers {
        held &= meet(place, first, writer, all)?;
    }
    Ok(held)
}

fn meet<N: Names>(
    place: &Place<N>,
    first: &mut Pass<N>,
    writer: Writer<N>,
    all: &mut Vec<RowList>,
) -> Result<bool, Trouble> {
    let Writer {
        pass,
        rows,
        told,
        ..
    } = writer;
    place.store.meet(first, pass);
    all.push(rows)?;
    told
}

// Whether a query stands on just these rows, and the leaves' histories are so long.
fn stands_on_all<N: Names, R: Wait>(
    rt: &R,
    place: &Place<N>,
    first: &mut Pass<N>,
    all: &[RowList],
    lengths: &[u64],
) -> Result<bool, Trouble> {
    let found = place.find(rt, first)?;
    let held = found.is_of(1000, lengths) & has_rows(found.rows.as_slice(), all);
    drop(found);
    Ok(held)
}

// Whether rows have just these of each series, in their order.
fn has_rows(found: &[Row], all: &[RowList]) -> bool {
    let mut held = all.len() == THREADS;
    for rows in all {
        held &= has_series(found, rows.as_slice());
    }
    held
}

// Whether rows have just these of a series, in their order.
fn has_series(found: &[Row], rows: &[Row]) -> bool {
    let Some(first) = rows.first() else {
        return false;
    };
    let mut left = rows;
    let mut held = true;
    for row in found {
        if row.key == first.key {
            match left.split_first() {
                Some((next, others)) => {
                    held &= *row == *next;
                    left = others;
                }
                None => held = false,
            }
        }
    }
    held & left.is_empty()
}
