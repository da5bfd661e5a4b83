// Feeding the records of a file.
ghost use Rattle.std.specs.Prelude.{◌≡◌, ◌+◌, ◌∷◌, ◌++◌, [], true, IfOk, IfSome, MatchOption, OnOk};
ghost use Rattle.history_book.specs.Histories.{AreFronts};
ghost use Rattle.ingest_queue.specs.Offers.{CanBeTold};
ghost use Rattle.line_runs.specs.Feeding.{AreFed, RecordFed, RowFed};
ghost use Rattle.line_runs.specs.LineWrites.{LineWrote, ran_line};
ghost use Rattle.mon_points.specs.Fitting.{ReadFits};
ghost use Rattle.mon_points.specs.Left.{IsNextRead, reads_left};
ghost use Rattle.mon_points.specs.Records.{reads_of};
ghost use Rattle.mon_schema.specs.Fits.{fits};
ghost use Rattle.ingest_queue.specs.Ends.{refused_at};

use crate::feed_texts::feed_text;
use crate::lines::LineRan;
use know::Names;
use mon_points::{RowRead, RowReader};
use mon_script::LineForm;
use mon_store::{Pass, Store};
use mon_value::{OutOfMemory, Row, Text};
use range_cell::WriteFault;
use run_traces::{FedRows, FileEnd, LineFiles, LineTrace, RowRefusal, RowRefusals, RowRefused};
use std::alloc::{AllocError, Global};
use std::sync::Wait;

/// Feeds what a file holds: each record is read as a row, which is written, or the record is refused. Where memory runs
/// out, the rows of records before that one stay written.
pub(crate) fn feed<N: Names, R: Wait>(
    rt: &R,
    alloc: Global,
    store: &Store<N>,
    p: &mut Pass<N>,
    name: &Text,
    content: &LineFiles,
) -> Result<LineRan, OutOfMemory>
    ensures wrote { IfOk result (λ ran. LineWrote store.now
        (ran_line (LineForm.Feed name.now) content.now ran.trace []) ran.text p.old p.new) }
    ensures fronts { AreFronts p.old.seen p.new.seen }
{
    store.is_set_up();
    p.is_sound();
    let pass = p.number();
    let fed = fed_records(rt, alloc, store, p, content.first.as_slice())?;
    p.is_sound();
    match feed_text(alloc, &store.config().topology, name, &fed) {
        Ok(text) => Ok(ran_feed(pass, fed, text)),
        Err(fault) => {
            drop(fed);
            Err(fault)
        }
    }
}

// A feed that ran, with what it prints.
fn ran_feed(pass: u64, fed: FileEnd, text: Text) -> LineRan
    ensures trace { result.trace ≡ LineTrace.Fed pass fed.accepted fed.refused }
    ensures text { result.text ≡ text }
{
    LineRan {
        trace: LineTrace::Fed {
            pass,
            accepted: fed.accepted,
            refused: fed.refused,
        },
        text,
    }
}

// Reads what a file holds, and feeds all its records.
fn fed_records<N: Names, R: Wait>(
    rt: &R,
    alloc: Global,
    store: &Store<N>,
    p: &mut Pass<N>,
    content: &[u8],
) -> Result<FileEnd, OutOfMemory>
    ensures fed { IfOk result (λ fed. AreFed store.now 1 (reads_of store.now.schemas content.now)
        fed.accepted fed.refused p.old p.new) }
    ensures fronts { AreFronts p.old.seen p.new.seen }
{
    let mut fed = none_fed(alloc);
    match feed_content(rt, alloc, store, p, content, &mut fed) {
        Ok(()) => Ok(fed),
        Err(fault) => {
            drop(fed);
            Err(fault)
        }
    }
}

// No record was fed so far.
fn none_fed(alloc: Global) -> FileEnd
    ensures accepted { result.accepted ≡ [] }
    ensures refused { result.refused ≡ [] }
{
    FileEnd {
        accepted: FedRows::new(),
        refused: RowRefusals::new(alloc),
    }
}

// Feeds all records that a file holds, where none was fed yet.
fn feed_content<N: Names, R: Wait>(
    rt: &R,
    alloc: Global,
    store: &Store<N>,
    p: &mut Pass<N>,
    content: &[u8],
    fed: &mut FileEnd,
) -> Result<(), OutOfMemory>
    requires accepted { fed.old.accepted ≡ [] }
    requires refused { fed.old.refused ≡ [] }
    ensures fed { OnOk result (AreFed store.now 1 (reads_of store.now.schemas content.now)
        fed.new.accepted fed.new.refused p.old p.new) }
    ensures fronts { AreFronts p.old.seen p.new.seen }
{
    let mut reader = RowReader::new(alloc, content);
    let done = feed_left(rt, alloc, store, p, &mut reader, fed);
    drop(reader);
    done
}

// Feeds the records that a reader has left, each as it is read, where none was fed yet.
fn feed_left<N: Names, R: Wait>(
    rt: &R,
    alloc: Global,
    store: &Store<N>,
    p: &mut Pass<N>,
    reader: &mut RowReader<'_>,
    fed: &mut FileEnd,
) -> Result<(), OutOfMemory>
    requires accepted { fed.old.accepted ≡ [] }
    requires refused { fed.old.refused ≡ [] }
    ensures fed { OnOk result (AreFed store.now 1 (reads_left store.now.schemas reader.old)
        fed.new.accepted fed.new.refused p.old p.new) }
    ensures fronts { AreFronts p.old.seen p.new.seen }
{
    let mut number = 0u32;
    while let Some(read) = next_read(alloc, store, reader)? {
        number = next_number(number)?;
        feed_record(rt, alloc, store, p, number, read, fed)?;
    }
    Ok(())
}

// What the next record reads as under the store's schemas.
fn next_read<N: Names>(
    alloc: Global,
    store: &Store<N>,
    reader: &mut RowReader<'_>,
) -> Result<Option<RowRead>, OutOfMemory>
    ensures read { IfOk result (λ read. MatchOption read (reader.old ≡ [])
        (IsNextRead store.now.schemas reader.old reader.new)) }
    ensures fits { IfOk result (λ read. IfSome read (ReadFits store.now.schemas)) }
{
    reader.next(alloc, &store.config().schemas)
}

// The next record's number. No memory holds so many records that there is none.
fn next_number(number: u32) -> Result<u32, OutOfMemory>
    ensures next { IfOk result (λ next. next ≡ number + 1) }
{
    number.checked_add(1).ok_or(AllocError)
}

// Feeds one record.
fn feed_record<N: Names, R: Wait>(
    rt: &R,
    alloc: Global,
    store: &Store<N>,
    p: &mut Pass<N>,
    number: u32,
    read: RowRead,
    fed: &mut FileEnd,
) -> Result<(), OutOfMemory>
    requires fits { ReadFits store.now.schemas read }
    ensures fed { OnOk result (RecordFed store.now number read fed.old fed.new p.old p.new) }
    ensures fronts { AreFronts p.old.seen p.new.seen }
{
    match read {
        RowRead::Row(row) => feed_row(rt, alloc, store, p, number, row, fed),
        RowRead::Fault(fault) => refuse(fed, number, RowRefused::Read(fault)),
    }
}

// Writes a record's row, or refuses the record.
fn feed_row<N: Names, R: Wait>(
    rt: &R,
    alloc: Global,
    store: &Store<N>,
    p: &mut Pass<N>,
    number: u32,
    row: Row,
    fed: &mut FileEnd,
) -> Result<(), OutOfMemory>
    requires fits { fits store.now.schemas row ≡ true }
    ensures fed { OnOk result (RowFed store.now number row fed.old fed.new p.old p.new) }
    ensures fronts { AreFronts p.old.seen p.new.seen }
{
    match store.write(rt, alloc, p, &row) {
        Ok(ack) => {
            drop(ack);
            accept(fed, row)
        }
        Err(fault) => {
            drop(row);
            refuse_row(fed, number, fault)
        }
    }
}

// Accepts a row.
fn accept(fed: &mut FileEnd, row: Row) -> Result<(), OutOfMemory>
    ensures accepted { OnOk result (fed.new.accepted ≡ fed.old.accepted ++ row ∷ []) }
    ensures refused { fed.new.refused ≡ fed.old.refused }
{
    fed.accepted.push(row)
}

// Refuses a record whose row was not written. Want of memory ends the feed.
fn refuse_row(fed: &mut FileEnd, number: u32, fault: WriteFault) -> Result<(), OutOfMemory>
    ensures accepted { fed.new.accepted ≡ fed.old.accepted }
    ensures refused { OnOk result (fed.new.refused
        ≡ fed.old.refused ++ refused_at number (RowRefused.Write fault) ∷ []) }
    ensures told { OnOk result (CanBeTold fault) }
{
    match told(fault) {
        Ok(fault) => refuse(fed, number, RowRefused::Write(fault)),
        Err(fault) => Err(fault),
    }
}

/// A fault that is told of a record.
pub(crate) fn told(fault: WriteFault) -> Result<WriteFault, OutOfMemory>
    ensures same { IfOk result (λ told. told ≡ fault) }
    ensures told { IfOk result (λ told. CanBeTold told) }
{
    match fault {
        WriteFault::NoZone => Ok(WriteFault::NoZone),
        WriteFault::OldPoint(last) => Ok(WriteFault::OldPoint(last)),
        WriteFault::RangeFull(limit) => Ok(WriteFault::RangeFull(limit)),
        WriteFault::Unavailable(range, founds) => Ok(WriteFault::Unavailable(range, founds)),
        WriteFault::OutOfMemory => Err(AllocError),
    }
}

// Refuses a record.
fn refuse(fed: &mut FileEnd, number: u32, fault: RowRefused) -> Result<(), OutOfMemory>
    ensures accepted { fed.new.accepted ≡ fed.old.accepted }
    ensures refused { OnOk result (fed.new.refused ≡ fed.old.refused ++ refused_at number fault ∷ []) }
{
    fed.refused.push(RowRefusal { number, fault })
}
