// The records of a points file, each read as it is taken.
ghost use Rattle.std.specs.Prelude.{◌≡◌, [], IfNone, IfOk, IfSome, MatchOption};
ghost use Rattle.csv.specs.Reading.{default_config, records, strip_bom};
ghost use Rattle.mon_points.specs.Fitting.{ReadFits};
ghost use Rattle.mon_points.specs.Left.{IsNextRead};

use crate::keys::KeyCache;
use crate::record_reader::RecordReader;
use crate::records::{RowRead, read_record};
use csv::ByteRecord;
use mon_schema::Schemas;
use mon_value::OutOfMemory;
use std::alloc::Global;
use std::marker::Model;

/// Reads the records of a points file one after another: comma-separated cells in lines, with `"` as the quote, and no
/// header. A record is `schema,metric,start,end,value`, the target's fields and the metric's. Contracts see the records
/// that are left, each as its cells. No more than one of them is held.
#[derive(Drop)]
pub struct RowReader<'a> {
    records: RecordReader<'a>,
    // The cells of the record at hand, whose memory is used again for the next one.
    cells: ByteRecord,
    // The keys of the series that were read before.
    keys: KeyCache,
}

impl<'a> Model for RowReader<'a> {
    ghost use Rattle.std.specs.Prelude.{List, ℕ};

    ghost Value = { List (List (List ℕ)) };

    ghost view = { λ reader. reader.records };
}

impl<'a> RowReader<'a> {
    /// All records of a file.
    pub fn new(alloc: Global, bytes: &'a [u8]) -> RowReader<'a>
        ensures all { result ≡ records default_config (strip_bom bytes.now) }
    {
        RowReader {
            records: RecordReader::new(alloc, bytes),
            cells: ByteRecord::new(alloc),
            keys: KeyCache::new(alloc),
        }
    }

    /// What the next record reads as, or `None` where none is left, then and from then on. The same schemas are best
    /// given each time, since the keys of series that were read before are tried first.
    pub fn next(&mut self, alloc: Global, schemas: &Schemas) -> Result<Option<RowRead>, OutOfMemory>
        ensures read { IfOk result (λ read. MatchOption read (self.old ≡ [])
            (IsNextRead schemas.now self.old self.new)) }
        ensures ended { IfOk result (λ read. IfNone read (self.new ≡ [])) }
        ensures fits { IfOk result (λ read. IfSome read (ReadFits schemas.now)) }
    {
        if self.records.take(&mut self.cells)? {
            let read = read_record(alloc, &mut self.cells, schemas, &mut self.keys)?;
            return Ok(Some(read));
        }
        Ok(None)
    }
}
