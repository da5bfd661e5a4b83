// A store, and the calls that scenarios make to it.
ghost use Rattle.std.specs.Prelude.{IfOk};
ghost use Rattle.mon_store.specs.Gathers.{HasSeenTrace};

use crate::trouble::Trouble;
use know::Names;
use mon_points::{RowRead, read_rows};
use mon_store::{Answer, Pass, QueryFault, Store, WriteFault};
use mon_value::{Ack, Refusal, Row, RowList};
use std::alloc::Global;
use std::sync::Wait;

/// A query for the points of all targets, at a moment behind all rows, and what its load may be.
const ALL: &str = "fetch T::/m";

const MOMENT: i64 = 1_000;

const LIMIT: u64 = 10_000;

/// A store, and where its callers take memory.
#[derive(Drop)]
pub(crate) struct Place<N: Names> {
    pub(crate) alloc: Global,
    pub(crate) store: Store<N>,
}

/// A query's answer, and the rows that it stands on.
#[derive(Drop)]
pub(crate) struct Found {
    answer: Answer,
    pub(crate) rows: RowList,
}

impl Found {
    /// Whether it stands on so many rows, with leaves whose histories are so long.
    pub(crate) fn is_of(&self, rows: usize, lengths: &[u64]) -> bool {
        (self.rows.len() == rows) & (self.answer.trace.cuts.as_slice() == lengths)
    }
}

impl<N: Names> Place<N> {
    /// The rows of a text of points.
    pub(crate) fn rows(&self, points: &str) -> Result<RowList, Trouble> {
        let schemas = &self.store.config().schemas;
        let reads = read_rows(self.alloc, points.as_bytes(), schemas)?;
        let mut rows = RowList::new(self.alloc);
        for read in reads {
            match read {
                RowRead::Row(row) => rows.push(row)?,
                RowRead::Fault(_fault) => return Err(Trouble::Refused),
            }
        }
        Ok(rows)
    }

    /// Another caller, of one that has numbers to hand out.
    pub(crate) fn another(&self, p: &mut Pass<N>) -> Result<Pass<N>, Trouble> {
        match self.store.pass(self.alloc, p) {
            Ok(new) => Ok(new),
            Err(Refusal::Fault(_spent)) => Err(Trouble::Refused),
            Err(Refusal::OutOfMemory) => Err(Trouble::OutOfMemory),
        }
    }

    /// Writes a row that isn't refused.
    pub(crate) fn write<R: Wait>(
        &self,
        rt: &R,
        p: &mut Pass<N>,
        row: &Row,
    ) -> Result<Ack, Trouble> {
        if !self.store.config().schemas.fits(row) {
            return Err(Trouble::Refused);
        }
        match self.store.write(rt, self.alloc, p, row) {
            Ok(ack) => Ok(ack),
            Err(WriteFault::OutOfMemory) => Err(Trouble::OutOfMemory),
            Err(fault) => {
                drop(fault);
                Err(Trouble::Refused)
            }
        }
    }

    /// Writes a row, and says that it is acknowledged.
    pub(crate) fn takes<R: Wait>(
        &self,
        rt: &R,
        p: &mut Pass<N>,
        row: &Row,
    ) -> Result<bool, Trouble> {
        let ack = self.write(rt, p, row)?;
        drop(ack);
        Ok(true)
    }

    /// Asks for all points, and gathers the rows that the answer stands on.
    pub(crate) fn find<R: Wait>(&self, rt: &R, p: &mut Pass<N>) -> Result<Found, Trouble> {
        match self.ask(rt, p) {
            Ok(answer) => self.found(rt, p, answer),
            Err(fault) => Err(trouble_of(fault)),
        }
    }

    fn ask<R: Wait>(&self, rt: &R, p: &mut Pass<N>) -> Result<Answer, QueryFault>
        ensures seen { IfOk result (λ answer. HasSeenTrace self.now.store.topology p.new answer.trace) }
    {
        self.store
            .query(rt, self.alloc, p, ALL.as_bytes(), MOMENT, LIMIT)
    }

    fn found<R: Wait>(&self, rt: &R, p: &mut Pass<N>, answer: Answer) -> Result<Found, Trouble>
        requires seen { HasSeenTrace self.now.store.topology p.old answer.trace }
    {
        match self.store.gather(rt, self.alloc, p, &answer.trace) {
            Ok(rows) => Ok(Found { answer, rows }),
            Err(_wanting) => {
                drop(answer);
                Err(Trouble::OutOfMemory)
            }
        }
    }

    /// Whether a query stands on so many rows, with leaves whose histories are so long.
    pub(crate) fn stands_on<R: Wait>(
        &self,
        rt: &R,
        p: &mut Pass<N>,
        rows: usize,
        lengths: &[u64],
    ) -> Result<bool, Trouble> {
        let found = self.find(rt, p)?;
        let held = found.is_of(rows, lengths);
        drop(found);
        Ok(held)
    }
}

// A query that no scenario wants refused.
fn trouble_of(fault: QueryFault) -> Trouble {
    let wanting = matches!(&fault, QueryFault::OutOfMemory);
    drop(fault);
    if wanting {
        Trouble::OutOfMemory
    } else {
        Trouble::Refused
    }
}
