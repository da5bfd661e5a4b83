// The values that stand in the objects of a configuration.
ghost use Rattle.mon_value.specs.Answers.{Gives};
ghost use Rattle.mon_config.specs.Objects as spec;
ghost use Rattle.mon_config.specs.Objects.{value_or_here};

use crate::limits::GREATEST_LIMIT;
use crate::paths::{Shaped, wrong_form};
use crate::readers::Reader;
use mon_schema::Kind;
use mon_value::{Bounds, FieldType, FieldValue, Text, ValueType};
use serde_json::Value;
use std::alloc::Global;

/// Reads a text.
pub(crate) struct TextReader;

impl Reader for TextReader {
    type Item = Text;

    ghost reads = { spec.text_of_data };

    fn read(alloc: Global, value: &Value) -> Shaped<Text> {
        match value.as_str() {
            Some(text) => Ok(Text::from_str(alloc, text)?),
            None => wrong_form(alloc),
        }
    }
}

/// Reads a truth value.
pub(crate) struct TruthReader;

impl Reader for TruthReader {
    type Item = bool;

    ghost reads = { spec.truth_in };

    fn read(alloc: Global, value: &Value) -> Shaped<bool> {
        match value.as_bool() {
            Some(truth) => Ok(truth),
            None => wrong_form(alloc),
        }
    }
}

/// Reads a whole number of 64 bits with its sign.
pub(crate) struct WholeReader;

impl Reader for WholeReader {
    type Item = i64;

    ghost reads = { spec.whole_in };

    fn read(alloc: Global, value: &Value) -> Shaped<i64> {
        match value.as_i64() {
            Some(number) => Ok(number),
            None => wrong_form(alloc),
        }
    }
}

/// Reads how many buckets there are: a power of two from 64 to 4,096.
pub(crate) struct BucketsReader;

impl Reader for BucketsReader {
    type Item = u32;

    ghost reads = { spec.number_of_data spec.is_bucket_count };

    fn read(alloc: Global, value: &Value) -> Shaped<u32> {
        match value.as_u64() {
            Some(number) => buckets_of(alloc, number),
            None => wrong_form(alloc),
        }
    }
}

// The number, where it is a power of two from 64 to 4,096.
fn buckets_of(alloc: Global, number: u64) -> Shaped<u32>
    ensures buckets { Gives result (value_or_here (spec.number_if spec.is_bucket_count number)) }
{
    match number {
        64 | 128 | 256 | 512 | 1024 | 2048 | 4096 => Ok(number as u32),
        _ => wrong_form(alloc),
    }
}

/// Reads a limit: a number from 1 to 16,777,216.
pub(crate) struct LimitReader;

impl Reader for LimitReader {
    type Item = u64;

    ghost reads = { spec.number_of_data spec.is_limit };

    fn read(alloc: Global, value: &Value) -> Shaped<u64> {
        match value.as_u64() {
            Some(number) if 1 <= number && number <= GREATEST_LIMIT => Ok(number),
            _ => wrong_form(alloc),
        }
    }
}

/// Reads a field's type.
pub(crate) struct FieldTypeReader;

impl Reader for FieldTypeReader {
    type Item = FieldType;

    ghost reads = { spec.field_type_in };

    fn read(alloc: Global, value: &Value) -> Shaped<FieldType> {
        match value.as_str() {
            Some(word) if word == "text" => Ok(FieldType::Text),
            Some(word) if word == "int" => Ok(FieldType::Int),
            Some(word) if word == "bool" => Ok(FieldType::Bool),
            _ => wrong_form(alloc),
        }
    }
}

/// Reads a metric's kind.
pub(crate) struct KindReader;

impl Reader for KindReader {
    type Item = Kind;

    ghost reads = { spec.kind_in };

    fn read(alloc: Global, value: &Value) -> Shaped<Kind> {
        match value.as_str() {
            Some(word) if word == "gauge" => Ok(Kind::Gauge),
            Some(word) if word == "delta" => Ok(Kind::Delta),
            Some(word) if word == "cumulative" => Ok(Kind::Cumulative),
            _ => wrong_form(alloc),
        }
    }
}

/// Reads the type of a metric's values. A distribution has no bounds yet.
pub(crate) struct ValueTypeReader;

impl Reader for ValueTypeReader {
    type Item = ValueType;

    ghost reads = { spec.value_type_in };

    fn read(alloc: Global, value: &Value) -> Shaped<ValueType> {
        match value.as_str() {
            Some(word) if word == "int" => Ok(ValueType::Int),
            Some(word) if word == "bool" => Ok(ValueType::Bool),
            Some(word) if word == "text" => Ok(ValueType::Text),
            Some(word) if word == "dist" => Ok(ValueType::Dist(Bounds::new(alloc))),
            _ => wrong_form(alloc),
        }
    }
}

/// Reads a value of a range's bound: a text, a truth value or a whole number.
pub(crate) struct FieldValueReader;

impl Reader for FieldValueReader {
    type Item = FieldValue;

    ghost reads = { spec.field_value_in };

    fn read(alloc: Global, value: &Value) -> Shaped<FieldValue> {
        match value {
            Value::String(text) => Ok(FieldValue::Text(Text::from_str(alloc, text.as_str())?)),
            Value::Bool(truth) => Ok(FieldValue::Bool(*truth)),
            Value::Number(number) => match number.as_i64() {
                Some(number) => Ok(FieldValue::Int(number)),
                None => wrong_form(alloc),
            },
            _ => wrong_form(alloc),
        }
    }
}
