// The schemas that are held.
ghost use Rattle.std.specs.Prelude.{◌≡◌, ◌++◌, ◌∷◌, [], None, Some, IfNone, IfOk, IfSome, IsNone, OnOk, OnErr, nat_eq, slice_get};
ghost use Rattle.std.specs.Cmp.Lexicographic.{pointwise};
ghost use Rattle.std.specs.Map.{lookup};
ghost use Rattle.std.specs.Option.{option_copied};
ghost use Rattle.indexmap.specs.IndexMap.{get, values};
ghost use Rattle.mon_value.specs.Answers.{AnswersBy};
ghost use Rattle.mon_value.specs.Same.{same_text};
ghost use Rattle.mon_schema.specs.Held.{named_entries};

use crate::faults::SchemaFault;
use crate::fields::{columns_repeat, has_location, has_two_locations, have_names, names_repeat};
use crate::limits::{MOST_FIELDS, MOST_METRICS, MOST_TARGETS};
use crate::metrics::{is_bounded, is_kind_met};
use crate::names::{is_column_name, is_metric_name, is_name};
use crate::rows::row_fits;
use insertion_map::InsertionMap;
use mon_value::{MetricSchema, Refusal, Row, TargetSchema, TryCopy};
use std::alloc::{AllocError, Global};
use std::marker::Model;

/// The schemas of targets and metrics, found by name. Contracts see both lists in the order of adding.
#[derive(Drop)]
pub struct Schemas {
    alloc: Global,
    targets: InsertionMap<Vec<u8>, TargetSchema>,
    metrics: InsertionMap<Vec<u8>, MetricSchema>,
}

impl Model for Schemas {
    ghost use Rattle.mon_schema.specs.Names.{SchemaLists};

    ghost Value = { SchemaLists };

    ghost use Rattle.mon_schema.specs.Held.{schema_lists, AreSchemasKept};

    ghost view = { schema_lists };

    ghost invariant = { AreSchemasKept };
}

impl Schemas {
    ghost use Rattle.mon_schema.specs.Names.{no_schemas, target_named, metric_named, with_target, with_metric};
    ghost use Rattle.mon_schema.specs.Faults.{target_fault, metric_fault};
    ghost use Rattle.mon_schema.specs.Fits.{fits, AreMetricsHeld, HasNumbers, AllTellLocations};

    /// No schemas, which take their memory from `alloc` as they are added.
    pub fn new(alloc: Global) -> Schemas
        ensures empty { result ≡ no_schemas }
    {
        Schemas {
            alloc,
            targets: InsertionMap::new(alloc),
            metrics: InsertionMap::new(alloc),
        }
    }

    /// The target schema of a name.
    pub fn target(&self, name: &[u8]) -> Option<&TargetSchema>
        ensures found { option_copied result ≡ target_named name.now self.now.targets }
    {
        self.targets.get(name)
    }

    /// The metric of a name.
    pub fn metric(&self, name: &[u8]) -> Option<&MetricSchema>
        ensures found { option_copied result ≡ metric_named name.now self.now.metrics }
    {
        self.metrics.get(name)
    }

    /// The target schema of a name, as `target`. A place is tried first, and is then the schema's: one comparison where
    /// the same schema is asked for again.
    pub fn target_near(&self, name: &[u8], place: &mut usize) -> Option<&TargetSchema>
        ensures found { option_copied result ≡ target_named name.now self.now.targets }
        ensures place { IfSome result (λ schema. slice_get self.now.targets place.new ≡ Some schema.now) }
        ensures stayed { IfNone result (place.new ≡ place.old) }
    {
        let found = self.targets.get_near(*place, name)?;
        *place = found;
        schema_at(&self.targets, found)
    }

    /// The metric of a name, as `metric`. A place is tried first, and is then the metric's.
    pub fn metric_near(&self, name: &[u8], place: &mut usize) -> Option<&MetricSchema>
        ensures found { option_copied result ≡ metric_named name.now self.now.metrics }
        ensures place { IfSome result (λ schema. slice_get self.now.metrics place.new ≡ Some schema.now) }
        ensures stayed { IfNone result (place.new ≡ place.old) }
    {
        let found = self.metrics.get_near(*place, name)?;
        *place = found;
        schema_at(&self.metrics, found)
    }

    /// Adds a target schema. A fault leaves the schemas as they were.
    pub fn add_target(&mut self, schema: TargetSchema) -> Result<(), Refusal<SchemaFault>>
        ensures answer { AnswersBy result (target_fault self.old schema) }
        ensures added { OnOk result (self.new ≡ with_target self.old schema) }
        ensures kept { OnErr result (self.new ≡ self.old) }
    {
        if let Some(fault) = self.fault_of_target(&schema) {
            drop(schema);
            return Err(Refusal::Fault(fault));
        }
        match Vec::from_slice(self.alloc, schema.name.as_bytes()) {
            Ok(name) => Ok(add_new(&mut self.targets, name, schema)?),
            Err(_) => {
                drop(schema);
                Err(Refusal::OutOfMemory)
            }
        }
    }

    /// Adds a metric. A fault leaves the schemas as they were.
    pub fn add_metric(&mut self, metric: MetricSchema) -> Result<(), Refusal<SchemaFault>>
        ensures answer { AnswersBy result (metric_fault self.old metric) }
        ensures added { OnOk result (self.new ≡ with_metric self.old metric) }
        ensures kept { OnErr result (self.new ≡ self.old) }
    {
        if let Some(fault) = self.fault_of_metric(&metric) {
            drop(metric);
            return Err(Refusal::Fault(fault));
        }
        match Vec::from_slice(self.alloc, metric.name.as_bytes()) {
            Ok(name) => Ok(add_new(&mut self.metrics, name, metric)?),
            Err(_) => {
                drop(metric);
                Err(Refusal::OutOfMemory)
            }
        }
    }

    /// Whether a row is of schemas that are held: it has their fields in number and type, times of the
    /// metric's kind, and a value of the metric's type. Texts have at most 1,024 bytes, whole numbers
    /// and the totals of distributions at most 64 bits.
    pub fn fits(&self, row: &Row) -> bool
        ensures fits { result ≡ fits self.now row.now }
    {
        let Some(target) = self.target(row.key.target.schema.as_bytes()) else {
            return false;
        };
        let Some(metric) = self.metric(row.key.metric.as_bytes()) else {
            return false;
        };
        row_fits(target, metric, row)
    }

    // The first fault of a target schema.
    fn fault_of_target(&self, schema: &TargetSchema) -> Option<SchemaFault>
        ensures fault { result ≡ target_fault self.now schema.now }
    {
        let fields = &schema.fields;
        if self.targets.len() >= MOST_TARGETS || fields.is_empty() || fields.len() > MOST_FIELDS {
            return Some(SchemaFault::TooMany);
        }
        if !(is_name(schema.name.as_bytes()) && have_names(fields)) {
            return Some(SchemaFault::BadName);
        }
        if self.target(schema.name.as_bytes()).is_some() || names_repeat(fields) {
            return Some(SchemaFault::Duplicate);
        }
        if has_two_locations(fields) {
            return Some(SchemaFault::TwoLocations);
        }
        if !has_location(fields) {
            return Some(SchemaFault::NoLocation);
        }
        None
    }

    /// Each target schema that is held marks one field, a text, as the location.
    pub fn targets_tell_locations(&self)
        ensures located { AllTellLocations self.now.targets }
    {
        let _ = &self.targets;
    }

    /// Each metric that is held has lawful bounds, and a kind that its type meets.
    pub fn metrics_are_lawful(&self)
        ensures held { AreMetricsHeld self.now.metrics }
    {
        let _ = &self.metrics;
    }

    // The first fault of a metric.
    fn fault_of_metric(&self, metric: &MetricSchema) -> Option<SchemaFault>
        ensures fault { result ≡ metric_fault self.now metric.now }
        ensures numbers { IsNone result → HasNumbers metric.now.value }
    {
        let fields = &metric.fields;
        if self.metrics.len() >= MOST_METRICS || fields.len() > MOST_FIELDS {
            return Some(SchemaFault::TooMany);
        }
        if !is_metric_name(metric.name.as_bytes())
            || !is_column_name(metric.column.as_bytes())
            || !have_names(fields)
        {
            return Some(SchemaFault::BadName);
        }
        if self.metric(metric.name.as_bytes()).is_some() || columns_repeat(&metric.column, fields) {
            return Some(SchemaFault::Duplicate);
        }
        if !is_bounded(&metric.value) {
            return Some(SchemaFault::BadBounds);
        }
        if !is_kind_met(metric.kind, &metric.value) {
            return Some(SchemaFault::BadKind);
        }
        None
    }
}

impl TryCopy for Schemas {
    fn copy(&self, alloc: Global) -> Result<Schemas, AllocError> {
        Ok(Schemas {
            alloc,
            targets: copied_schemas(alloc, &self.targets)?,
            metrics: copied_schemas(alloc, &self.metrics)?,
        })
    }
}

// Copies of schemas, each under a name of its own.
fn copied_schemas<V: TryCopy + Drop>(
    alloc: Global,
    map: &InsertionMap<Vec<u8>, V>,
) -> Result<InsertionMap<Vec<u8>, V>, AllocError>
    ensures entries { IfOk result (λ copied. named_entries copied.entries ≡ named_entries map.now.entries) }
{
    let mut copied = InsertionMap::with_capacity(alloc, map.len())?;
    match add_copies(alloc, &mut copied, map) {
        Ok(()) => Ok(copied),
        Err(fault) => {
            drop(copied);
            Err(fault)
        }
    }
}

// Adds copies of schemas to a map without any.
fn add_copies<V: TryCopy + Drop>(
    alloc: Global,
    copied: &mut InsertionMap<Vec<u8>, V>,
    map: &InsertionMap<Vec<u8>, V>,
) -> Result<(), AllocError>
    requires empty { copied.old.entries ≡ [] }
    ensures entries { OnOk result (named_entries copied.new.entries ≡ named_entries map.now.entries) }
{
    for (name, schema) in map.entries() {
        add_copy(alloc, copied, name.as_slice(), schema)?;
    }
    Ok(())
}

// Adds a copy of a schema under a name that is new.
fn add_copy<V: TryCopy + Drop>(
    alloc: Global,
    copied: &mut InsertionMap<Vec<u8>, V>,
    name: &[u8],
    schema: &V,
) -> Result<(), AllocError>
    requires new { lookup (same_text name.now) (named_entries copied.old.entries) ≡ None }
    ensures added { OnOk result (named_entries copied.new.entries
        ≡ named_entries copied.old.entries ++ (name.now, schema.now) ∷ []) }
{
    let name = Vec::from_slice(alloc, name)?;
    copied.insert(name, schema.copy(alloc)?)?;
    Ok(())
}

// The schema at a place.
fn schema_at<V>(map: &InsertionMap<Vec<u8>, V>, place: usize) -> Option<&V>
    ensures schema { option_copied result ≡ slice_get (values map.now) place }
{
    let (_, schema) = map.get_index(place)?;
    Some(schema)
}

// Adds what is new under its name.
fn add_new<V: Drop>(
    map: &mut InsertionMap<Vec<u8>, V>,
    name: Vec<u8>,
    value: V,
) -> Result<(), AllocError>
    requires { get (λ a b. pointwise nat_eq a.items b.items) map.old name ≡ None }
    ensures added { OnOk result (map.new.entries ≡ map.old.entries ++ (name, value) ∷ []) }
    ensures kept { OnErr result (map.new.entries ≡ map.old.entries) }
{
    map.insert(name, value)?;
    Ok(())
}
