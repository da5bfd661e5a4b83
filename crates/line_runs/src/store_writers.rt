// Writing rows of several files to a store, one after another.
ghost use Rattle.std.specs.Prelude.{◌≡◌, true, IfOk, OnErr};
ghost use Rattle.ingest_queue.specs.Offers.{CanBeAnswered};
ghost use Rattle.line_runs.specs.Feeding.{WasAnswered};
ghost use Rattle.mon_schema.specs.Fits.{fits};
ghost use Rattle.mon_store.specs.Writes.{IsUnwritten};

use crate::feeds::told;
use http_server::Log;
use ingest_queue::{RowWriter, Wrote};
use know::Names;
use mon_store::{Pass, Store};
use mon_value::{OutOfMemory, Row};
use std::alloc::Global;
use std::sync::Wait;

/// Writes rows to a store under a caller.
#[derive(Drop)]
pub(crate) struct StoreWriter<'a, N: Names, R: Wait> {
    pub rt: &'a R,
    pub alloc: Global,
    pub store: &'a Store<N>,
    pub pass: &'a mut Pass<N>,
    pub offers: Log<Row, Wrote>,
}

impl<'a, N: Names, R: Wait> RowWriter for StoreWriter<'a, N, R> {
    ghost use Rattle.std.specs.Prelude.{map};
    ghost use Rattle.line_runs.specs.Feeding.{HasOffered};
    ghost use Rattle.mon_schema.specs.Fits.{fits};

    ghost takes = { λ writer. fits writer.store.now.schemas };

    ghost offers = { λ writer. map (λ offer. record { row = offer.0; answer = offer.1 }) writer.offers.items };

    ghost told = { λ first offers now. HasOffered first.store.now now.store.now first.pass.ghost_name now.pass.ghost_name
        offers first.pass.now now.pass.now };

    fn write(&mut self, row: &Row) -> Result<Wrote, OutOfMemory> {
        let answer = offer(self.rt, self.alloc, self.store, self.pass, row)?;
        self.offers = self.offers.and(row, &answer);
        Ok(answer)
    }
}

// Writes a row, or says why it wasn't written. Want of memory is no answer.
fn offer<N: Names, R: Wait>(
    rt: &R,
    alloc: Global,
    store: &Store<N>,
    p: &mut Pass<N>,
    row: &Row,
) -> Result<Wrote, OutOfMemory>
    requires fits { fits store.now.schemas row.now ≡ true }
    ensures answered { IfOk result (λ answer. WasAnswered store.now row.now answer p.old p.new) }
    ensures told { IfOk result CanBeAnswered }
    ensures still { OnErr result (IsUnwritten p.old p.new) }
{
    match store.write(rt, alloc, p, row) {
        Ok(ack) => {
            drop(ack);
            Ok(Wrote::Written)
        }
        Err(fault) => Ok(Wrote::Refused(told(fault)?)),
    }
}
