// The series of a record, whose key the rows of one series share.
ghost use Rattle.std.specs.Prelude.{◌≡◌, ◌+◌, ◌-◌, ◌<◌, ◌≤◌, ◌^◌, length, drop, IfOk, IfSome, Ok};
ghost use Rattle.csv.specs.Records.{fields_of};
ghost use Rattle.std.specs.Option.{option_copied};
ghost use Rattle.mon_schema.specs.Names.{metric_named, target_named};
ghost use Rattle.mon_value.specs.Answers.{Gives};
ghost use Rattle.mon_points.specs.Records.{fields_read, key_read};
ghost use Rattle.mon_points.specs.Keys as spec;

use crate::cells::{read_field, spells_field};
use crate::faults::RowFault;
use csv::StringRecord;
use insertion_map::InsertionMap;
use mon_schema::Schemas;
use mon_value::{
    Field, FieldValue, FieldValues, MetricSchema, OutOfMemory, Refusal, SeriesKey, Shared, Target,
    TargetSchema, TryCopy,
};
use std::alloc::Global;

/// How many cells of a record come before its fields.
pub(crate) const LEADING: usize = 5;

/// The keys of series that were read before, so that a record of a known series makes none. They are
/// guesses: a key counts for a record only where the record's cells spell it, so what is read does not
/// depend on them. Files list their series in the same order again and again, so the key that is tried first is the
/// one that comes next if the places of keys go on as from the last one but one to the last.
#[derive(Drop)]
pub(crate) struct KeyCache {
    keys: InsertionMap<Vec<u8>, Shared<SeriesKey>>,
    // The place of the last record's key, and the place that would come next.
    last: usize,
    next: usize,
    // The cells of the record at hand that name its series.
    cells: Vec<u8>,
    // The places of the last record's schemas, which the next one mostly has too.
    target: usize,
    metric: usize,
}

impl KeyCache {
    /// No keys, which take their memory from `alloc` as records are read.
    pub(crate) fn new(alloc: Global) -> KeyCache {
        KeyCache {
            keys: InsertionMap::new(alloc),
            last: 0,
            next: 0,
            cells: Vec::new(alloc),
            target: 0,
            metric: 0,
        }
    }

    /// The target schema of a name, where the last record's is tried first.
    pub(crate) fn target<'a>(
        &mut self,
        schemas: &'a Schemas,
        name: &[u8],
    ) -> Option<&'a TargetSchema>
        ensures found { option_copied result ≡ target_named name.now schemas.now.targets }
    {
        schemas.target_near(name, &mut self.target)
    }

    /// The metric of a name, where the last record's is tried first.
    pub(crate) fn metric<'a>(
        &mut self,
        schemas: &'a Schemas,
        name: &[u8],
    ) -> Option<&'a MetricSchema>
        ensures found { option_copied result ≡ metric_named name.now schemas.now.metrics }
    {
        schemas.metric_near(name, &mut self.metric)
    }

    /// The key of a record that has a cell for each field.
    pub(crate) fn key(
        &mut self,
        alloc: Global,
        target: &TargetSchema,
        metric: &MetricSchema,
        cells: &StringRecord,
    ) -> Result<Shared<SeriesKey>, Refusal<RowFault>>
        requires counted { length (fields_of cells.now) ≡ 5 + length target.now.fields + length metric.now.fields }
        requires small { length (fields_of cells.now) < 2 ^ 64 }
        ensures key { Gives result (key_read target.now metric.now (drop 5 (fields_of cells.now))) }
    {
        match self.known_key(alloc, target, metric, cells)? {
            Some(key) => Ok(key),
            None => self.new_key(alloc, target, metric, cells),
        }
    }

    // The key of a series that was read before. Where it is none that comes next, the cells of the record that name
    // its series are taken.
    fn known_key(
        &mut self,
        alloc: Global,
        target: &TargetSchema,
        metric: &MetricSchema,
        cells: &StringRecord,
    ) -> Result<Option<Shared<SeriesKey>>, OutOfMemory>
        requires counted { length (fields_of cells.now) ≡ 5 + length target.now.fields + length metric.now.fields }
        requires small { length (fields_of cells.now) < 2 ^ 64 }
        ensures key { IfOk result (λ found. IfSome found (λ key.
            key_read target.now metric.now (drop 5 (fields_of cells.now)) ≡ Ok key)) }
    {
        if let Some(key) = self.key_at(alloc, self.next, target, metric, cells)? {
            return Ok(Some(key));
        }
        self.take_cells(cells)?;
        match self.keys.get_index_of(self.cells.as_slice()) {
            Some(place) => self.key_at(alloc, place, target, metric, cells),
            None => Ok(None),
        }
    }

    // The key at a place, if the cells of a record spell it. The place is then that of the last record's key.
    fn key_at(
        &mut self,
        alloc: Global,
        place: usize,
        target: &TargetSchema,
        metric: &MetricSchema,
        cells: &StringRecord,
    ) -> Result<Option<Shared<SeriesKey>>, OutOfMemory>
        requires counted { length (fields_of cells.now) ≡ 5 + length target.now.fields + length metric.now.fields }
        requires small { length (fields_of cells.now) < 2 ^ 64 }
        ensures key { IfOk result (λ found. IfSome found (λ key.
            key_read target.now metric.now (drop 5 (fields_of cells.now)) ≡ Ok key)) }
    {
        match self.spelled_at(alloc, place, target, metric, cells)? {
            Some(key) => {
                self.go_to(place);
                Ok(Some(key))
            }
            None => Ok(None),
        }
    }

    // Reads the key of a series that is new, and keeps it under the cells that name the series.
    fn new_key(
        &mut self,
        alloc: Global,
        target: &TargetSchema,
        metric: &MetricSchema,
        cells: &StringRecord,
    ) -> Result<Shared<SeriesKey>, Refusal<RowFault>>
        requires counted { length (fields_of cells.now) ≡ 5 + length target.now.fields + length metric.now.fields }
        requires small { length (fields_of cells.now) < 2 ^ 64 }
        ensures key { Gives result (key_read target.now metric.now (drop 5 (fields_of cells.now))) }
    {
        let key = Shared::new(alloc, read_key(alloc, target, metric, cells)?)?;
        match self.keep(alloc, &key) {
            Ok(()) => Ok(key),
            Err(_) => {
                drop(key);
                Err(Refusal::OutOfMemory)
            }
        }
    }

    // Keeps a key under the cells that name its series.
    fn keep(&mut self, alloc: Global, key: &Shared<SeriesKey>) -> Result<(), OutOfMemory> {
        let place = self.keys.len();
        let name = Vec::from_slice(alloc, self.cells.as_slice())?;
        self.keys.insert(name, key.copy(alloc)?)?;
        self.go_to(place);
        Ok(())
    }

    // The key at a place, if the cells of a record spell it.
    fn spelled_at(
        &self,
        alloc: Global,
        place: usize,
        target: &TargetSchema,
        metric: &MetricSchema,
        cells: &StringRecord,
    ) -> Result<Option<Shared<SeriesKey>>, OutOfMemory>
        requires counted { length (fields_of cells.now) ≡ 5 + length target.now.fields + length metric.now.fields }
        requires small { length (fields_of cells.now) < 2 ^ 64 }
        ensures key { IfOk result (λ found. IfSome found (λ key.
            key_read target.now metric.now (drop 5 (fields_of cells.now)) ≡ Ok key)) }
    {
        match self.keys.get_index(place) {
            Some((_, key)) if spells_key(target, metric, cells, key) => {
                Ok(Some(key.copy(alloc)?))
            }
            _ => Ok(None),
        }
    }

    // Notes the place of a record's key.
    fn go_to(&mut self, place: usize) {
        self.next = place.wrapping_add(place.wrapping_sub(self.last));
        self.last = place;
    }

    // Takes the cells of a record that name its series.
    fn take_cells(&mut self, cells: &StringRecord) -> Result<(), OutOfMemory> {
        self.cells.clear();
        for (i, cell) in cells.iter().enumerate() {
            if i < 2 || i >= LEADING {
                self.cells.extend_from_slice(cell.as_bytes())?;
                self.cells.push(b',')?;
            }
        }
        Ok(())
    }
}

// Whether the cells of a record spell a key of its schemas.
fn spells_key(
    target: &TargetSchema,
    metric: &MetricSchema,
    cells: &StringRecord,
    key: &SeriesKey,
) -> bool
    requires counted { length (fields_of cells.now) ≡ 5 + length target.now.fields + length metric.now.fields }
    requires small { length (fields_of cells.now) < 2 ^ 64 }
    ensures spelled { result ≡ spec.spells_key target.now metric.now (drop 5 (fields_of cells.now)) key.now }
{
    let of_target = target.fields.as_slice();
    let of_metric = metric.fields.as_slice();
    key.target.schema == target.name
        && spells_fields(of_target, cells, LEADING, key.target.fields.as_slice())
        && key.metric == metric.name
        && spells_fields(
            of_metric,
            cells,
            LEADING + of_target.len(),
            key.fields.as_slice(),
        )
}

// Whether the cells from a place of the record on spell the values of fields.
fn spells_fields(
    fields: &[Field],
    cells: &StringRecord,
    place: usize,
    values: &[FieldValue],
) -> bool
    requires there { place + length fields.now ≤ length (fields_of cells.now) }
    requires small { length (fields_of cells.now) < 2 ^ 64 }
    ensures spelled { result ≡ spec.spells_fields fields.now (drop place (fields_of cells.now)) values.now }
{
    if fields.len() != values.len() {
        return false;
    }
    for (i, field) in fields.iter().enumerate() {
        let cell = cells.get(place + i).unwrap();
        if !spells_field(field.of, cell, &values[i]) {
            return false;
        }
    }
    true
}

// The series of a record that has a cell for each field.
#[tactic(auto, unfolding(crate::specs::Records::key_read))]
fn read_key(
    alloc: Global,
    target: &TargetSchema,
    metric: &MetricSchema,
    cells: &StringRecord,
) -> Result<SeriesKey, Refusal<RowFault>>
    requires counted { length (fields_of cells.now) ≡ 5 + length target.now.fields + length metric.now.fields }
    requires small { length (fields_of cells.now) < 2 ^ 64 }
    ensures key { Gives result (key_read target.now metric.now (drop 5 (fields_of cells.now))) }
{
    let of_target = target.fields.as_slice();
    let of_metric = metric.fields.as_slice();
    let target_fields = read_fields(alloc, of_target, cells, LEADING)?;
    let metric_fields = read_fields(alloc, of_metric, cells, LEADING + of_target.len())?;
    Ok(SeriesKey {
        target: Target {
            schema: target.name.copy(alloc)?,
            fields: target_fields,
        },
        metric: metric.name.copy(alloc)?,
        fields: metric_fields,
    })
}

// The values of fields whose cells begin at a place of the cells.
fn read_fields(
    alloc: Global,
    fields: &[Field],
    cells: &StringRecord,
    place: usize,
) -> Result<FieldValues, Refusal<RowFault>>
    requires behind { 5 ≤ place }
    requires there { place + length fields.now ≤ length (fields_of cells.now) }
    requires small { length (fields_of cells.now) < 2 ^ 64 }
    ensures values { Gives result (fields_read (place - 4) fields.now (drop place (fields_of cells.now))) }
{
    let mut values = FieldValues::new(alloc);
    for (i, field) in fields.iter().enumerate() {
        let cell = cells.get(place + i).unwrap();
        let Some(value) = read_field(alloc, field.of, cell)? else {
            return Err(Refusal::Fault(RowFault::BadField(place - LEADING + i + 1)));
        };
        values.push(value)?;
    }
    Ok(values)
}
