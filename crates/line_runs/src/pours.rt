// Pouring the records of two files.
ghost use Rattle.std.specs.Prelude.{◌≡◌, [], IfOk};
ghost use Rattle.history_book.specs.Histories.{AreFronts};
ghost use Rattle.line_runs.specs.Feeding.{WerePoured};
ghost use Rattle.line_runs.specs.LineWrites.{LineWrote, ran_line};
ghost use Rattle.mon_points.specs.Records.{reads_of};

use crate::feed_texts::pour_text;
use crate::lines::LineRan;
use crate::store_writers::StoreWriter;
use http_server::Log;
use ingest_queue::{Poured, Starts, pour_files};
use know::Names;
use mon_script::LineForm;
use mon_store::{Pass, Store};
use mon_value::{OutOfMemory, Text};
use run_traces::{LineFiles, LineTrace};
use std::alloc::Global;
use std::sync::Wait;
use std::thread::Threads;

/// How many records of both files wait for the writer at most.
const ROOM: u32 = 64;

// Nobody waits for a file to be begun or ended.
struct NobodyWaits;

impl Starts for NobodyWaits {
    fn arrive(&self, _file: u32) {}

    fn leave(&self, _file: u32) {}
}

/// Pours what two files hold: each record is read as a row, which is written, or the record is refused, in the order of its
/// file. Where memory runs out, rows that were written before stay written.
pub(crate) fn pour<N: Names, R: Threads + Wait + Sync>(
    rt: &R,
    alloc: Global,
    store: &Store<N>,
    p: &mut Pass<N>,
    first: &Text,
    second: &Text,
    content: &LineFiles,
) -> Result<LineRan, OutOfMemory>
    ensures wrote { IfOk result (λ ran. LineWrote store.now
        (ran_line (LineForm.Pour first.now second.now) content.now ran.trace []) ran.text p.old p.new) }
    ensures fronts { AreFronts p.old.seen p.new.seen }
{
    store.is_set_up();
    p.is_sound();
    let pass = p.number();
    let ends = poured(rt, alloc, store, p, content)?;
    p.is_sound();
    match pour_text(alloc, &store.config().topology, first, second, &ends) {
        Ok(text) => Ok(ran_pour(pass, ends, text)),
        Err(fault) => {
            drop(ends);
            Err(fault)
        }
    }
}

// A pour that ran, with what it prints.
fn ran_pour(pass: u64, ends: Poured, text: Text) -> LineRan
    ensures trace { result.trace ≡ LineTrace.Poured pass ends }
    ensures text { result.text ≡ text }
{
    LineRan {
        trace: LineTrace::Poured { pass, ends },
        text,
    }
}

// Writes the rows of two files, as they come.
fn poured<N: Names, R: Threads + Wait + Sync>(
    rt: &R,
    alloc: Global,
    store: &Store<N>,
    p: &mut Pass<N>,
    content: &LineFiles,
) -> Result<Poured, OutOfMemory>
    ensures poured { IfOk result (WerePoured store.now (reads_of store.now.schemas content.now.first)
        (reads_of store.now.schemas content.now.second) p.old p.new) }
    ensures fronts { AreFronts p.old.seen p.new.seen }
{
    let schemas = &store.config().schemas;
    let mut writer = StoreWriter {
        rt,
        alloc,
        store,
        pass: p,
        offers: Log::new(),
    };
    pour_files(
        rt,
        alloc,
        schemas,
        content.first.as_slice(),
        content.second.as_slice(),
        ROOM,
        &mut writer,
        &NobodyWaits,
    )
}
