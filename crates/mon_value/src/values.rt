// What a point or a field holds.
ghost use Rattle.std.specs.Prelude.{◌≡◌, IfOk};
ghost use Rattle.mon_value.specs.Values.{counts_joined, value_text};

use crate::copying::TryCopy;
use crate::lists::ListOf;
use crate::texts::Text;
use std::alloc::{AllocError, Global};

/// The value of a target's or a metric's field. Fields of unlike types stand in the order of the
/// variants, and those of one type by value.
#[derive(PartialEq, Eq, PartialOrd, Ord, Hash, Drop)]
pub enum FieldValue {
    Int(i64),
    Bool(bool),
    Text(Text),
}

/// The fields of a target or of a series, in the order of its schema.
pub type FieldValues = ListOf<FieldValue>;

/// The type of a field.
#[derive(Clone, Copy, PartialEq, Eq)]
pub enum FieldType {
    Text,
    Int,
    Bool,
}

/// The counts of a distribution: one for each bucket.
pub type Counts = ListOf<u128>;

/// The bounds of a distribution's buckets, rising. Bucket i counts the values below bound i and not
/// below bound i - 1, so there is one bucket more than bounds.
pub type Bounds = ListOf<i64>;

/// The value of a point, or of a cell of a table. Values of unlike kinds stand in the order of the
/// variants, and those of one kind by value.
#[derive(PartialEq, Eq, PartialOrd, Ord, Hash, Drop)]
pub enum Value {
    Int(i128),
    Bool(bool),
    Text(Text),
    Dist(Counts),
}

/// The type of a metric's values.
#[derive(PartialEq, Eq, Drop)]
pub enum ValueType {
    Int,
    Bool,
    Text,
    Dist(Bounds),
}

impl TryCopy for FieldValue {
    fn copy(&self, alloc: Global) -> Result<FieldValue, AllocError> {
        match self {
            FieldValue::Int(number) => Ok(FieldValue::Int(*number)),
            FieldValue::Bool(truth) => Ok(FieldValue::Bool(*truth)),
            FieldValue::Text(text) => Ok(FieldValue::Text(text.copy(alloc)?)),
        }
    }
}

impl TryCopy for Value {
    fn copy(&self, alloc: Global) -> Result<Value, AllocError> {
        match self {
            Value::Int(number) => Ok(Value::Int(*number)),
            Value::Bool(truth) => Ok(Value::Bool(*truth)),
            Value::Text(text) => Ok(Value::Text(text.copy(alloc)?)),
            Value::Dist(counts) => Ok(Value::Dist(counts.copy(alloc)?)),
        }
    }
}

impl TryCopy for ValueType {
    fn copy(&self, alloc: Global) -> Result<ValueType, AllocError> {
        match self {
            ValueType::Int => Ok(ValueType::Int),
            ValueType::Bool => Ok(ValueType::Bool),
            ValueType::Text => Ok(ValueType::Text),
            ValueType::Dist(bounds) => Ok(ValueType::Dist(bounds.copy(alloc)?)),
        }
    }
}

/// The text that a value prints as: a number in decimal, `true` or `false`, a text as it is, and a
/// distribution's counts joined by `;`.
pub fn write_text(alloc: Global, value: &Value) -> Result<Text, AllocError>
    ensures text { IfOk result (λ text. text ≡ value_text value.now) }
{
    match value {
        Value::Int(number) => Text::from_string(format!(in alloc; "{number}")?),
        Value::Bool(true) => Text::from_str(alloc, "true"),
        Value::Bool(false) => Text::from_str(alloc, "false"),
        Value::Text(text) => text.copy(alloc),
        Value::Dist(counts) => counts_text(alloc, counts.as_slice()),
    }
}

// The counts in decimal, joined by `;`.
#[tactic(auto, using(crate::proofs::ValueTextLemmas::joined))]
fn counts_text(alloc: Global, counts: &[u128]) -> Result<Text, AllocError>
    ensures text { IfOk result (λ text. text ≡ counts_joined counts.now) }
{
    let Some((first, rest)) = counts.split_first() else {
        return Text::from_string(String::new(alloc));
    };
    let mut text = format!(in alloc; "{first}")?;
    for count in rest {
        text.push_str(format!(in alloc; ";{count}")?.as_str())?;
    }
    Text::from_string(text)
}
