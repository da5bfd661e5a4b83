// Two files are poured to one writer.
ghost use Rattle.std.specs.Prelude.{◌≡◌, ◌≤◌, [], IfOk};
ghost use Rattle.ingest_queue.specs.Pours.{AreTakenBy, IsBegun, IsPoured};
ghost use Rattle.mon_points.specs.Records.{reads_of};

use crate::ends::Poured;
use crate::pouring::pour_records;
use crate::records::{FileRecords, ListedRecords};
use crate::row_writers::RowWriter;
use crate::starts::Starts;
use mon_points::RowReads;
use mon_schema::Schemas;
use mon_value::OutOfMemory;
use std::alloc::Global;
use std::sync::Wait;
use std::thread::Threads;

/// Pours the records of two files through one queue of a room to a writer. Each file has a reader in a thread of its own,
/// while this thread writes, so whose record comes next is left open. Where memory runs out, what was written stays.
pub fn pour<R: Threads + Wait + Sync, W: RowWriter, S: Starts + Sync>(
    rt: &R,
    alloc: Global,
    first: RowReads,
    second: RowReads,
    room: u32,
    writer: &mut W,
    starts: &S,
) -> Result<Poured, OutOfMemory>
    requires some { 1 ≤ room }
    requires bounded { room ≤ 65536 }
    requires first { AreTakenBy (W.takes writer.old) first }
    requires second { AreTakenBy (W.takes writer.old) second }
    requires begun { W.told writer.old [] writer.old }
    ensures poured { IfOk result (IsPoured first second (W.offers writer.old) (W.offers writer.new)
        (λ made. W.told writer.old made writer.new)) }
    ensures begun { IsBegun first second (W.offers writer.old) (W.offers writer.new)
        (λ made. W.told writer.old made writer.new) }
    ensures takes { W.takes writer.new ≡ W.takes writer.old }
{
    pour_records(
        rt,
        alloc,
        ListedRecords::new(first),
        ListedRecords::new(second),
        room,
        writer,
        starts,
    )
}

/// The same of what two files hold, of which each record is read as it is handed on.
pub fn pour_files<R: Threads + Wait + Sync, W: RowWriter, S: Starts + Sync>(
    rt: &R,
    alloc: Global,
    schemas: &Schemas,
    first: &[u8],
    second: &[u8],
    room: u32,
    writer: &mut W,
    starts: &S,
) -> Result<Poured, OutOfMemory>
    requires some { 1 ≤ room }
    requires bounded { room ≤ 65536 }
    requires first { AreTakenBy (W.takes writer.old) (reads_of schemas.now first.now) }
    requires second { AreTakenBy (W.takes writer.old) (reads_of schemas.now second.now) }
    requires begun { W.told writer.old [] writer.old }
    ensures poured { IfOk result (IsPoured (reads_of schemas.now first.now) (reads_of schemas.now second.now)
        (W.offers writer.old) (W.offers writer.new) (λ made. W.told writer.old made writer.new)) }
    ensures begun { IsBegun (reads_of schemas.now first.now) (reads_of schemas.now second.now)
        (W.offers writer.old) (W.offers writer.new) (λ made. W.told writer.old made writer.new) }
    ensures takes { W.takes writer.new ≡ W.takes writer.old }
{
    pour_records(
        rt,
        alloc,
        FileRecords::new(alloc, schemas, first),
        FileRecords::new(alloc, schemas, second),
        room,
        writer,
        starts,
    )
}
