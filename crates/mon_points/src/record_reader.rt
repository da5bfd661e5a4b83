// The records of a text, one after another.
ghost use Rattle.std.specs.Prelude.{◌≡◌, ◌∷◌, [], IfOk, false};
ghost use Rattle.std.specs.Bool.{MatchBool};
ghost use Rattle.csv.specs.Reading.{default_config, records, strip_bom};
ghost use Rattle.csv.specs.Records.{fields_of};

use csv::{ByteRecord, Reader, ReaderBuilder};
use mon_value::OutOfMemory;
use std::alloc::{AllocError, Global};
use std::marker::Model;

/// Reads the records of a text one after another. Contracts see those that are left, each as its cells.
#[derive(Drop)]
pub(crate) struct RecordReader<'a> {
    reader: Reader<&'a [u8]>,
    // Nothing is read behind the last record, or behind a want of memory.
    ended: bool,
}

impl<'a> Model for RecordReader<'a> {
    ghost use Rattle.std.specs.Prelude.{◌≡◌, List, ℕ, false};
    ghost use Rattle.mon_points.specs.Left.{IsBetween, records_left};

    ghost Value = { List (List (List ℕ)) };

    ghost view = { λ records. records_left records.ended records.reader };

    ghost invariant = { λ records. records.ended ≡ false → IsBetween records.reader };
}

impl<'a> RecordReader<'a> {
    /// All records of a text: comma-separated cells in lines, with `"` as the quote, and no header.
    pub(crate) fn new(alloc: Global, bytes: &'a [u8]) -> RecordReader<'a>
        ensures all { result ≡ records default_config (strip_bom bytes.now) }
    {
        RecordReader {
            reader: ReaderBuilder::new()
                .has_headers(false)
                .flexible(true)
                .from_reader(alloc, bytes),
            ended: false,
        }
    }

    /// Takes the cells of the next record, if there is one. Behind the last one there is none from then on.
    pub(crate) fn take(&mut self, cells: &mut ByteRecord) -> Result<bool, OutOfMemory>
        ensures taken { IfOk result (λ taken. MatchBool taken (self.old ≡ fields_of cells.new ∷ self.new)
            (self.old ≡ [])) }
        ensures ended { IfOk result (λ taken. taken ≡ false → self.new ≡ []) }
    {
        if self.ended {
            return Ok(false);
        }
        self.ended = true;
        // Bytes in memory are always read, and records may differ in length: only memory is wanting.
        let Ok(found) = self.reader.read_byte_record(cells) else {
            return Err(AllocError);
        };
        self.ended = !found;
        Ok(found)
    }
}
