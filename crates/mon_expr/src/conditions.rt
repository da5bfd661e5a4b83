// What a condition asks of a cell.
ghost use Rattle.std.specs.Prelude.{◌≡◌};
ghost use Rattle.mon_value.specs.Order.{value_cmp, field_as_value};
ghost use Rattle.mon_value.specs.declared.values.Value.TheVariants as value;
ghost use Rattle.mql_ast.specs.Rows as spec;

use crate::patterns::matches_pieces;
use mon_value::{FieldValue, Text, Value};
use mql_ast::Comparison;
use std::cmp::Ordering;

/// Whether a cell compares with a literal as asked.
pub(crate) fn is_compared(how: Comparison, literal: &FieldValue, cell: &Value) -> bool
    ensures truth { result ≡ spec.is_compared how literal.now cell.now }
{
    let order = literal_order(cell, literal);
    match how {
        Comparison::Equal => order.is_eq(),
        Comparison::NotEqual => order.is_ne(),
        Comparison::Less => order.is_lt(),
        Comparison::AtMost => order.is_le(),
        Comparison::Greater => order.is_gt(),
        Comparison::AtLeast => order.is_ge(),
    }
}

/// Whether a cell is a text that the pieces match.
pub(crate) fn is_like(pieces: &[Text], cell: &Value) -> bool
    ensures truth { result ≡ spec.is_like pieces.now cell.now }
{
    match cell {
        Value::Text(text) => matches_pieces(pieces, text.as_bytes()),
        Value::Int(_) => false,
        Value::Bool(_) => false,
        Value::Dist(_) => false,
    }
}

// How a cell and a literal stand in the order of values.
fn literal_order(cell: &Value, literal: &FieldValue) -> Ordering
    ensures order { result ≡ value_cmp cell.now (field_as_value literal.now) }
{
    match literal {
        FieldValue::Int(number) => number_order(cell, *number),
        FieldValue::Bool(truth) => truth_order(cell, *truth),
        FieldValue::Text(text) => text_order(cell, text),
    }
}

fn number_order(cell: &Value, number: i64) -> Ordering
    ensures order { result ≡ value_cmp cell.now (value.Int number) }
{
    match cell {
        Value::Int(held) => held.cmp(&i128::from(number)),
        Value::Bool(_) => Ordering::Greater,
        Value::Text(_) => Ordering::Greater,
        Value::Dist(_) => Ordering::Greater,
    }
}

fn truth_order(cell: &Value, truth: bool) -> Ordering
    ensures order { result ≡ value_cmp cell.now (value.Bool truth) }
{
    match cell {
        Value::Int(_) => Ordering::Less,
        Value::Bool(held) => held.cmp(&truth),
        Value::Text(_) => Ordering::Greater,
        Value::Dist(_) => Ordering::Greater,
    }
}

fn text_order(cell: &Value, text: &Text) -> Ordering
    ensures order { result ≡ value_cmp cell.now (value.Text text.now) }
{
    match cell {
        Value::Int(_) => Ordering::Less,
        Value::Bool(_) => Ordering::Less,
        Value::Text(held) => held.cmp(text),
        Value::Dist(_) => Ordering::Greater,
    }
}
