// What the cells of a record spell.
ghost use Rattle.std.specs.Prelude.{◌≡◌, IfOk};
ghost use Rattle.mon_points.specs.Records.{count_of, counts_spelled, field_of, int_of, times_of, truth_of, value_of};
ghost use Rattle.mon_points.specs.Keys as spec;

use mon_schema::{counts_fit, text_fits, times_fit};
use mon_value::{
    Counts, FieldType, FieldValue, Kind, OutOfMemory, Text, Value, ValueType, read_number,
};
use std::alloc::Global;

// The number of 64 bits that a cell spells.
fn read_int(cell: &str) -> Option<i64>
    ensures int { result ≡ int_of cell.now }
{
    i64::try_from(read_number(cell.as_bytes())?).ok()
}

/// The start and the end of a point, where they stand as the kind asks.
#[tactic(auto, using(crate::proofs::OptionFilterLemmas::times))]
pub(crate) fn read_times(kind: Kind, start: &str, end: &str) -> Option<(i64, i64)>
    ensures times { result ≡ times_of kind start.now end.now }
{
    let start = read_int(start)?;
    let end = read_int(end)?;
    times_fit(kind, start, end).then_some((start, end))
}

// `true` or `false`.
fn read_truth(cell: &str) -> Option<bool>
    ensures truth { result ≡ truth_of cell.now }
{
    match cell {
        "true" => Some(true),
        "false" => Some(false),
        _ => None,
    }
}

// The counts between semicolons, of any number and size.
fn read_counts(alloc: Global, cell: &str) -> Result<Option<Counts>, OutOfMemory>
    ensures counts { IfOk result (λ counts. counts ≡ counts_spelled cell.now) }
{
    let mut counts = Counts::new(alloc);
    for part in cell.split(';') {
        let Some(count) = read_count(part) else {
            return Ok(None);
        };
        counts.push(count)?;
    }
    Ok(Some(counts))
}

// A number that is not negative.
fn read_count(part: &str) -> Option<u128>
    ensures count { result ≡ count_of part.now }
{
    u128::try_from(read_number(part.as_bytes())?).ok()
}

/// The value of a metric's type that a cell spells, where it fits.
#[tactic(auto, using(crate::proofs::OptionFilterLemmas::values))]
pub(crate) fn read_value(
    alloc: Global,
    of: &ValueType,
    cell: &str,
) -> Result<Option<Value>, OutOfMemory>
    ensures value { IfOk result (λ value. value ≡ value_of of.now cell.now) }
{
    match of {
        ValueType::Int => Ok(read_int(cell).map(|number| Value::Int(i128::from(number)))),
        ValueType::Bool => Ok(read_truth(cell).map(Value::Bool)),
        ValueType::Text if text_fits(cell) => Ok(Some(Value::Text(Text::from_str(alloc, cell)?))),
        ValueType::Text => Ok(None),
        ValueType::Dist(bounds) => match read_counts(alloc, cell)? {
            Some(counts) if counts_fit(bounds, &counts) => Ok(Some(Value::Dist(counts))),
            _ => Ok(None),
        },
    }
}

/// The value of a field's type that a cell spells, where it fits.
#[tactic(auto, using(crate::proofs::OptionFilterLemmas::fields))]
pub(crate) fn read_field(
    alloc: Global,
    of: FieldType,
    cell: &str,
) -> Result<Option<FieldValue>, OutOfMemory>
    ensures value { IfOk result (λ value. value ≡ field_of of cell.now) }
{
    match of {
        FieldType::Int => Ok(read_int(cell).map(FieldValue::Int)),
        FieldType::Bool => Ok(read_truth(cell).map(FieldValue::Bool)),
        FieldType::Text if text_fits(cell) => {
            Ok(Some(FieldValue::Text(Text::from_str(alloc, cell)?)))
        }
        FieldType::Text => Ok(None),
    }
}

/// Whether a cell spells this value of a field's type.
#[tactic(auto, using(crate::proofs::OptionFilterLemmas::fields))]
pub(crate) fn spells_field(of: FieldType, cell: &str, value: &FieldValue) -> bool
    ensures spelled { result ≡ spec.spells_field of cell.now value.now }
{
    match (of, value) {
        (FieldType::Int, &FieldValue::Int(number)) => read_int(cell) == Some(number),
        (FieldType::Bool, &FieldValue::Bool(truth)) => read_truth(cell) == Some(truth),
        (FieldType::Text, FieldValue::Text(text)) => text_fits(cell) && text.as_str() == cell,
        _ => false,
    }
}
