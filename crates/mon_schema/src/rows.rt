// What a row is tested for.
ghost use Rattle.std.specs.Prelude.{◌≡◌, ◌^◌, sum, nat_lt};
ghost use Rattle.mon_value.specs.declared.limits.TheConstants.{NUMBER_BITS};
ghost use Rattle.mon_schema.specs.Fits as spec;

use mon_value::{
    Bounds, Counts, Field, FieldType, FieldValue, Kind, LONGEST_TEXT, MetricSchema, Row,
    TargetSchema, Value, ValueType,
};

// How many values a distribution counts at most.
const LARGEST_TOTAL: u128 = i64::MAX as u128;

/// Whether a row is of a target schema and a metric.
pub(crate) fn row_fits(target: &TargetSchema, metric: &MetricSchema, row: &Row) -> bool
    ensures fits { result ≡ spec.row_fits target.now metric.now row.now }
{
    fields_fit(target.fields.as_slice(), row.key.target.fields.as_slice())
        && fields_fit(metric.fields.as_slice(), row.key.fields.as_slice())
        && times_fit(metric.kind, row.point.start, row.point.end)
        && value_fits(&metric.value, &row.point.value)
}

// Whether there are as many values as fields, each of its field's type.
fn fields_fit(fields: &[Field], values: &[FieldValue]) -> bool
    ensures fit { result ≡ spec.fields_fit fields.now values.now }
{
    fields.len() == values.len()
        && fields
            .iter()
            .zip(values)
            .all(|(field, value)| field_fits(field.of, value))
}

// Whether a field's value is of the field's type.
fn field_fits(of: FieldType, value: &FieldValue) -> bool
    ensures fits { result ≡ spec.field_fits of value.now }
{
    match (of, value) {
        // A number that is read is known to have 64 bits.
        (FieldType::Int, &FieldValue::Int(_number)) => true,
        (FieldType::Bool, FieldValue::Bool(_)) => true,
        (FieldType::Text, FieldValue::Text(text)) => text_fits(text.as_str()),
        _ => false,
    }
}

/// Whether a point's times are whole seconds from the epoch on, as its metric's kind wants them.
pub fn times_fit(kind: Kind, start: i64, end: i64) -> bool
    ensures fit { result ≡ spec.times_fit kind start end }
{
    let is_start = match kind {
        Kind::Gauge => start == end,
        Kind::Delta | Kind::Cumulative => start < end,
    };
    start >= 0 && end >= 0 && is_start
}

// Whether a point's value is of the metric's type.
fn value_fits(of: &ValueType, value: &Value) -> bool
    ensures fits { result ≡ spec.value_fits of.now value.now }
{
    match (of, value) {
        (ValueType::Int, Value::Int(number)) => i64::try_from(*number).is_ok(),
        (ValueType::Bool, Value::Bool(_)) => true,
        (ValueType::Text, Value::Text(text)) => text_fits(text.as_str()),
        (ValueType::Dist(bounds), Value::Dist(counts)) => counts_fit(bounds, counts),
        _ => false,
    }
}

/// Whether a distribution has one count for each bucket, and a total that is small enough.
pub fn counts_fit(bounds: &Bounds, counts: &Counts) -> bool
    ensures fit { result ≡ spec.counts_fit bounds.now counts.now }
{
    counts.len() == bounds.as_slice().len() + 1 && is_total_small(counts.as_slice())
}

/// Whether a text is short enough for a field or a value.
pub fn text_fits(text: &str) -> bool
    ensures fits { result ≡ spec.text_fits text.now }
{
    text.len() <= LONGEST_TEXT
}

// Whether the counts of a distribution sum to at most the largest total.
fn is_total_small(counts: &[u128]) -> bool
    ensures small { result ≡ nat_lt (sum counts.now) (2 ^ NUMBER_BITS) }
{
    let mut left = LARGEST_TOTAL;
    for count in counts {
        let Some(rest) = left.checked_sub(*count) else {
            return false;
        };
        left = rest;
    }
    true
}
