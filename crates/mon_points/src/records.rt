// The records of a points file.
ghost use Rattle.std.specs.Prelude.{◌≡◌, ◌<◌, ◌≤◌, ◌++◌, length, drop, IfOk, OnOk, MatchOption};
ghost use Rattle.std.specs.List.{AllByRecursion};
ghost use Rattle.csv.specs.Records.{fields_of};
ghost use Rattle.mon_value.specs.Answers.{Gives};
ghost use Rattle.mon_points.specs.Fitting.{ReadFits};
ghost use Rattle.mon_points.specs.Leading.{IsRecord, record_cells};
ghost use Rattle.mon_points.specs.Left.{reads_left};
ghost use Rattle.mon_points.specs.Records.{point_read, read_as, record_read, reads_of, row_read};

use crate::cells::{read_times, read_value};
use crate::faults::RowFault;
use crate::keys::{KeyCache, LEADING};
use crate::row_reader::RowReader;
use csv::{ByteRecord, StringRecord};
use mon_schema::Schemas;
use mon_value::{ListOf, MetricSchema, OutOfMemory, Point, Refusal, Row, TryCopy};
use std::alloc::{AllocError, Global};
use std::mem;

/// What a record reads as.
#[derive(PartialEq, Eq, Drop)]
pub enum RowRead {
    /// A row.
    Row(Row),
    /// The first fault of a record that is no row.
    Fault(RowFault),
}

/// What the records of a file read as, in their order.
pub type RowReads = ListOf<RowRead>;

impl TryCopy for RowRead {
    fn copy(&self, alloc: Global) -> Result<RowRead, AllocError> {
        match self {
            RowRead::Row(row) => Ok(RowRead::Row(row.copy(alloc)?)),
            RowRead::Fault(fault) => Ok(RowRead::Fault(*fault)),
        }
    }
}

// The cells of a record that come before its fields.
#[derive(Drop)]
struct Leading<'a> {
    schema: &'a str,
    metric: &'a str,
    start: &'a str,
    end: &'a str,
    value: &'a str,
}

/// Reads the records of a points file: comma-separated cells in lines, with `"` as the quote, and no
/// header. A record is `schema,metric,start,end,value`, the target's fields and the metric's.
pub fn read_rows(alloc: Global, bytes: &[u8], schemas: &Schemas) -> Result<RowReads, OutOfMemory>
    ensures exact { IfOk result (λ reads. reads ≡ reads_of schemas.now bytes.now) }
    ensures fit { IfOk result (λ reads. AllByRecursion (ReadFits schemas.now) reads) }
    ensures few { IfOk result (λ reads. length reads ≤ length bytes.now) }
{
    let mut reader = RowReader::new(alloc, bytes);
    let mut reads = RowReads::new(alloc);
    let read = read_left(alloc, schemas, &mut reader, &mut reads);
    drop(reader);
    match read {
        Ok(()) => Ok(reads),
        Err(fault) => {
            drop(reads);
            Err(fault)
        }
    }
}

// Adds what the records that are left read as.
fn read_left(
    alloc: Global,
    schemas: &Schemas,
    reader: &mut RowReader<'_>,
    reads: &mut RowReads,
) -> Result<(), OutOfMemory>
    ensures added { OnOk result (reads.new ≡ reads.old ++ reads_left schemas.now reader.old) }
{
    while let Some(read) = reader.next(alloc, schemas)? {
        reads.push(read)?;
    }
    Ok(())
}

/// What a record reads as. The record keeps its memory for the next one.
pub(crate) fn read_record(
    alloc: Global,
    cells: &mut ByteRecord,
    schemas: &Schemas,
    keys: &mut KeyCache,
) -> Result<RowRead, OutOfMemory>
    ensures read { IfOk result (λ read. read ≡ record_read schemas.now (fields_of cells.old)) }
{
    match StringRecord::from_byte_record(mem::replace(cells, ByteRecord::new(alloc))) {
        Ok(texts) => {
            let read = read_texts(alloc, &texts, schemas, keys)?;
            *cells = texts.into_byte_record();
            Ok(read)
        }
        Err(fault) => {
            *cells = fault.into_byte_record();
            Ok(RowRead::Fault(RowFault::NotUtf8))
        }
    }
}

// What a record of texts reads as.
fn read_texts(
    alloc: Global,
    cells: &StringRecord,
    schemas: &Schemas,
    keys: &mut KeyCache,
) -> Result<RowRead, OutOfMemory>
    ensures read { IfOk result (λ read. read ≡ read_as (row_read schemas.now (fields_of cells.now))) }
{
    match read_row(alloc, cells, schemas, keys) {
        Ok(row) => Ok(RowRead::Row(row)),
        Err(Refusal::Fault(fault)) => Ok(RowRead::Fault(fault)),
        Err(Refusal::OutOfMemory) => Err(AllocError),
    }
}

// The row of a record of texts.
fn read_row(
    alloc: Global,
    cells: &StringRecord,
    schemas: &Schemas,
    keys: &mut KeyCache,
) -> Result<Row, Refusal<RowFault>>
    ensures row { Gives result (row_read schemas.now (fields_of cells.now)) }
{
    match leading_cells(cells) {
        Some(leading) => read_fitting(alloc, &leading, cells, schemas, keys),
        None => Err(Refusal::Fault(RowFault::Fields)),
    }
}

// The cells of a record that come before its fields.
fn leading_cells(cells: &StringRecord) -> Option<Leading<'_>>
    ensures leading { MatchOption result (length (fields_of cells.now) < 5) (IsRecord (fields_of cells.now)) }
{
    Some(Leading {
        schema: cells.get(0)?,
        metric: cells.get(1)?,
        start: cells.get(2)?,
        end: cells.get(3)?,
        value: cells.get(4)?,
    })
}

// The row of a record that has its leading cells.
#[tactic(auto, unfolding(crate::specs::Records::row_read))]
fn read_fitting(
    alloc: Global,
    leading: &Leading<'_>,
    cells: &StringRecord,
    schemas: &Schemas,
    keys: &mut KeyCache,
) -> Result<Row, Refusal<RowFault>>
    requires behind { 5 ≤ length (fields_of cells.now) }
    ensures row { Gives result (row_read schemas.now (record_cells leading.now (drop 5 (fields_of cells.now)))) }
{
    let Some(target) = keys.target(schemas, leading.schema.as_bytes()) else {
        return Err(Refusal::Fault(RowFault::UnknownSchema));
    };
    let Some(metric) = keys.metric(schemas, leading.metric.as_bytes()) else {
        return Err(Refusal::Fault(RowFault::UnknownMetric));
    };
    if cells.len() - LEADING != target.fields.as_slice().len() + metric.fields.as_slice().len() {
        return Err(Refusal::Fault(RowFault::Fields));
    }
    let point = read_point(alloc, metric, leading)?;
    let key = keys.key(alloc, target, metric, cells)?;
    Ok(Row { key, point })
}

// The point of a record.
#[tactic(auto, unfolding(crate::specs::Records::point_read))]
fn read_point(
    alloc: Global,
    metric: &MetricSchema,
    leading: &Leading<'_>,
) -> Result<Point, Refusal<RowFault>>
    ensures point { Gives result
        (point_read metric.now leading.now.start.now leading.now.end.now leading.now.value.now) }
{
    let Some((start, end)) = read_times(metric.kind, leading.start, leading.end) else {
        return Err(Refusal::Fault(RowFault::BadTime));
    };
    let Some(value) = read_value(alloc, &metric.value, leading.value)? else {
        return Err(Refusal::Fault(RowFault::BadValue));
    };
    Ok(Point { start, end, value })
}
