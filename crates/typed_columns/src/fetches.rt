// What a fetch gives.
ghost use Rattle.std.specs.Prelude.{◌≡◌, ◌++◌, IfOk, OnOk, map};
ghost use Rattle.std.specs.Option.{option_copied};
ghost use Rattle.mon_schema.specs.Faults.{texts_repeat};
ghost use Rattle.mon_value.specs.Tables.{column_names};
ghost use Rattle.typed_trees.specs.Fetches as spec;

use crate::items::plain_column;
use crate::taken::Taken;
use mon_value::{
    Anchor, Column, Columns, Field, FieldType, Kind, MetricSchema, Shared, TargetSchema, Text,
    TryCopy, ValueType,
};
use std::alloc::{AllocError, Global};
use typed_trees::OF_NUMBER;

/// The columns of a fetch: the target's fields and the metric's, and then the value. There are none where a name is
/// unknown.
pub fn fetch_columns(
    alloc: Global,
    target: Option<&TargetSchema>,
    metric: Option<&MetricSchema>,
) -> Result<Columns, AllocError>
    ensures columns { IfOk result (λ columns. columns
        ≡ spec.fetch_columns (option_copied target.entry) (option_copied metric.entry)) }
{
    let Some(target) = target else {
        return Ok(Columns::new(alloc));
    };
    let Some(metric) = metric else {
        return Ok(Columns::new(alloc));
    };
    let mut columns = target_columns(alloc, &target.name, target.fields.as_slice())?;
    push_metric_keys(alloc, &mut columns, metric.fields.as_slice())?;
    let of = metric.value.copy(alloc)?;
    columns.push(plain_column(alloc, metric.column.as_str(), of, OF_NUMBER)?)?;
    Ok(columns)
}

// The fields of a target, each anchored to itself.
fn target_columns(alloc: Global, schema: &Text, fields: &[Field]) -> Result<Columns, AllocError>
    ensures columns { IfOk result (λ columns. columns ≡ spec.target_columns schema.now 0 fields.now) }
{
    let mut columns = Columns::new(alloc);
    for (place, field) in fields.iter().enumerate() {
        let anchor = Anchor::Field {
            schema: schema.copy(alloc)?,
            field: column_number(place)?,
        };
        columns.push(key_column(alloc, Some(anchor), field)?)?;
    }
    Ok(columns)
}

/// A place as a number of 32 bits; memory for more columns than that isn't found.
pub fn column_number(place: usize) -> Result<u32, AllocError>
    ensures number { IfOk result (λ number. number ≡ place) }
{
    match u32::try_from(place) {
        Ok(number) => Ok(number),
        Err(_) => Err(AllocError),
    }
}

fn push_metric_keys(
    alloc: Global,
    columns: &mut Columns,
    fields: &[Field],
) -> Result<(), AllocError>
    ensures columns { OnOk result (columns.new ≡ columns.old ++ map (spec.key_column None) fields.now) }
{
    for field in fields {
        columns.push(key_column(alloc, None, field)?)?;
    }
    Ok(())
}

fn key_column(
    alloc: Global,
    anchor: Option<Anchor>,
    field: &Field,
) -> Result<Shared<Column>, AllocError>
    ensures column { IfOk result (λ column. column ≡ spec.key_column anchor field.now) }
{
    let of = field_value_type(field.of);
    let column = Column {
        name: Text::from_str(alloc, field.name.as_str())?,
        of,
        key: true,
        anchor,
        cell_bits: OF_NUMBER.cell,
        total_bits: OF_NUMBER.total,
    };
    Shared::new(alloc, column)
}

fn field_value_type(of: FieldType) -> ValueType
    ensures of { result ≡ spec.field_value_type of }
{
    match of {
        FieldType::Int => ValueType::Int,
        FieldType::Bool => ValueType::Bool,
        FieldType::Text => ValueType::Text,
    }
}

/// The kind of a metric; one that is unknown is taken for a gauge.
pub fn kind_of(metric: Option<&MetricSchema>) -> Kind
    ensures kind { result ≡ spec.kind_of (option_copied metric.entry) }
{
    match metric {
        Some(metric) => metric.kind,
        None => Kind::Gauge,
    }
}

/// Whether two columns have one name.
#[tactic(auto, using(crate::proofs::ColumnNameLemmas::named_columns))]
pub fn names_repeat(alloc: Global, columns: &[Shared<Column>]) -> Result<bool, AllocError>
    ensures repeated { IfOk result (λ repeated. repeated ≡ texts_repeat (column_names columns.now)) }
{
    let mut names = Taken::none(alloc);
    for column in columns {
        if names.take(column.name.as_str())? {
            return Ok(true);
        }
    }
    Ok(false)
}
