// Where the records of a file come from.
ghost use Rattle.std.specs.Prelude.{◌≡◌, ◌∷◌, [], IfOk, MatchOption};
ghost use Rattle.mon_points.specs.Left.{reads_left};
ghost use Rattle.mon_points.specs.Records.{reads_of};

use mon_points::{RowRead, RowReader, RowReads};
use mon_schema::Schemas;
use mon_value::OutOfMemory;
use std::alloc::Global;
use std::collections::VecDeque;

/// The records of a file, each of which is read as it is asked for. Contracts see what is left.
pub(crate) trait Records {
    ghost use Rattle.std.specs.Prelude.{List};
    ghost use Rattle.mon_points.specs.declared.records.RowRead.{RowRead as ReadView};

    ghost left: { Self → List ReadView };

    /// What the next record reads as, or `None` where none is left, then and from then on.
    fn next(&mut self) -> Result<Option<RowRead>, OutOfMemory>
        ensures next { IfOk result (λ read. MatchOption read
            ((left self.old ≡ []) × (left self.new ≡ []))
            (λ read. left self.old ≡ read ∷ left self.new)) };
}

/// Records that were read before.
#[derive(Drop)]
pub(crate) struct ListedRecords {
    records: VecDeque<RowRead>,
}

impl ListedRecords {
    /// All of these.
    pub(crate) fn new(reads: RowReads) -> ListedRecords
        ensures all { result.records.items ≡ reads }
    {
        ListedRecords {
            records: VecDeque::from_vec(reads.into_vec()),
        }
    }
}

impl Records for ListedRecords {
    ghost left = { λ listed. listed.records.items };

    fn next(&mut self) -> Result<Option<RowRead>, OutOfMemory> {
        Ok(self.records.pop_front())
    }
}

/// Records that a file holds.
#[derive(Drop)]
pub(crate) struct FileRecords<'a> {
    alloc: Global,
    schemas: &'a Schemas,
    reader: RowReader<'a>,
}

impl<'a> FileRecords<'a> {
    /// All that these bytes hold.
    pub(crate) fn new(alloc: Global, schemas: &'a Schemas, bytes: &'a [u8]) -> FileRecords<'a>
        ensures all { reads_left result.schemas.now result.reader ≡ reads_of schemas.now bytes.now }
    {
        FileRecords {
            alloc,
            schemas,
            reader: RowReader::new(alloc, bytes),
        }
    }
}

impl<'a> Records for FileRecords<'a> {
    ghost use Rattle.mon_points.specs.Left.{reads_left};

    ghost left = { λ file. reads_left file.schemas.now file.reader };

    fn next(&mut self) -> Result<Option<RowRead>, OutOfMemory> {
        self.reader.next(self.alloc, self.schemas)
    }
}
