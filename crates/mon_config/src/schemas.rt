// Targets and metrics, as a configuration spells them.
ghost use Rattle.mon_value.specs.Answers.{Gives};
ghost use Rattle.mon_config.specs.Objects as spec;
ghost use Rattle.serde_json.specs.View.{view};

use crate::keys::{ObjectForm, object_in};
use crate::paths::Shaped;
use crate::readers::{ListReader, Reader, absent_key, optional_key, required_key};
use crate::values::{
    FieldTypeReader, KindReader, TextReader, TruthReader, ValueTypeReader, WholeReader,
};
use mon_schema::{Field, Fields, MetricSchema, TargetSchema};
use mon_value::ValueType;
use serde_json::Value;
use std::alloc::Global;

/// Reads a field of a target.
pub(crate) struct TargetFieldReader;

impl Reader for TargetFieldReader {
    type Item = Field;

    ghost reads = { spec.target_field_in };

    fn read(alloc: Global, value: &Value) -> Shaped<Field> {
        target_field_in(alloc, value)
    }
}

#[tactic(auto, unfolding(crate::specs::Objects::target_field_in))]
fn target_field_in(alloc: Global, value: &Value) -> Shaped<Field>
    ensures field { Gives result (spec.target_field_in (view value.now)) }
{
    object_in(alloc, ObjectForm::TargetField, value)?;
    let name = required_key::<TextReader>(alloc, value, "name")?;
    let of = required_key::<FieldTypeReader>(alloc, value, "type")?;
    let location = optional_key::<TruthReader>(alloc, value, "location", false)?;
    Ok(Field { name, of, location })
}

/// Reads a target.
pub(crate) struct TargetReader;

impl Reader for TargetReader {
    type Item = TargetSchema;

    ghost reads = { spec.target_in };

    fn read(alloc: Global, value: &Value) -> Shaped<TargetSchema> {
        target_in(alloc, value)
    }
}

#[tactic(auto, unfolding(crate::specs::Objects::target_in))]
fn target_in(alloc: Global, value: &Value) -> Shaped<TargetSchema>
    ensures target { Gives result (spec.target_in (view value.now)) }
{
    object_in(alloc, ObjectForm::Target, value)?;
    let name = required_key::<TextReader>(alloc, value, "name")?;
    let fields = required_key::<ListReader<TargetFieldReader>>(alloc, value, "fields")?;
    Ok(TargetSchema { name, fields })
}

/// Reads a field of a metric.
pub(crate) struct MetricFieldReader;

impl Reader for MetricFieldReader {
    type Item = Field;

    ghost reads = { spec.metric_field_in };

    fn read(alloc: Global, value: &Value) -> Shaped<Field> {
        metric_field_in(alloc, value)
    }
}

#[tactic(auto, unfolding(crate::specs::Objects::metric_field_in))]
fn metric_field_in(alloc: Global, value: &Value) -> Shaped<Field>
    ensures field { Gives result (spec.metric_field_in (view value.now)) }
{
    object_in(alloc, ObjectForm::MetricField, value)?;
    let name = required_key::<TextReader>(alloc, value, "name")?;
    let of = required_key::<FieldTypeReader>(alloc, value, "type")?;
    Ok(Field {
        name,
        of,
        location: false,
    })
}

/// Reads a metric.
pub(crate) struct MetricReader;

impl Reader for MetricReader {
    type Item = MetricSchema;

    ghost reads = { spec.metric_in };

    fn read(alloc: Global, value: &Value) -> Shaped<MetricSchema> {
        metric_in(alloc, value)
    }
}

#[tactic(auto, unfolding(crate::specs::Objects::metric_in))]
fn metric_in(alloc: Global, value: &Value) -> Shaped<MetricSchema>
    ensures metric { Gives result (spec.metric_in (view value.now)) }
{
    object_in(alloc, ObjectForm::Metric, value)?;
    let name = required_key::<TextReader>(alloc, value, "name")?;
    let kind = required_key::<KindReader>(alloc, value, "kind")?;
    let of = required_key::<ValueTypeReader>(alloc, value, "type")?;
    let of = with_bounds(alloc, of, value)?;
    let column = required_key::<TextReader>(alloc, value, "column")?;
    let fields = optional_key::<ListReader<MetricFieldReader>>(
        alloc,
        value,
        "fields",
        Fields::new(alloc),
    )?;
    Ok(MetricSchema {
        name,
        kind,
        value: of,
        column,
        fields,
    })
}

// A metric has bounds exactly where it is a distribution.
fn with_bounds(alloc: Global, of: ValueType, value: &Value) -> Shaped<ValueType>
    ensures bounds { Gives result (spec.with_bounds of (view value.now)) }
{
    match of {
        ValueType::Dist(_) => {
            let bounds = required_key::<ListReader<WholeReader>>(alloc, value, "bounds")?;
            Ok(ValueType::Dist(bounds))
        }
        other => {
            absent_key(alloc, value, "bounds")?;
            Ok(other)
        }
    }
}
