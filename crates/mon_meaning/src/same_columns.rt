// Whether two tables have the same columns.
ghost use Rattle.std.specs.Prelude.{◌≡◌, IsTrue};

use mon_value::{Aggregate, Anchor, Column, Shared, ValueType};

/// Whether two tables have the same columns, with their anchors and widths. No memory is taken.
pub(crate) fn are_same_columns(columns: &[Shared<Column>], others: &[Shared<Column>]) -> bool
    ensures same { IsTrue result → columns.now ≡ others.now }
{
    let mut rest = others;
    for column in columns {
        let Some((other, left)) = rest.split_first() else {
            return false;
        };
        if !is_same_column(column, other) {
            return false;
        }
        rest = left;
    }
    rest.is_empty()
}

/// Whether two groupings fold the same in the same way. No memory is taken.
pub(crate) fn are_same_folds(folds: &[Aggregate], others: &[Aggregate]) -> bool
    ensures same { IsTrue result → folds.now ≡ others.now }
{
    let mut rest = others;
    for fold in folds {
        let Some((other, left)) = rest.split_first() else {
            return false;
        };
        if *fold != *other {
            return false;
        }
        rest = left;
    }
    rest.is_empty()
}

// Whether two columns are the same.
fn is_same_column(column: &Column, other: &Column) -> bool
    ensures same { IsTrue result → column.now ≡ other.now }
{
    column.name == other.name
        && is_same_type(&column.of, &other.of)
        && column.key == other.key
        && is_same_anchor(&column.anchor, &other.anchor)
        && column.cell_bits == other.cell_bits
        && column.total_bits == other.total_bits
}

// Whether two types are the same.
fn is_same_type(of: &ValueType, other: &ValueType) -> bool
    ensures same { IsTrue result → of.now ≡ other.now }
{
    match of {
        ValueType::Int => matches!(other, ValueType::Int),
        ValueType::Bool => matches!(other, ValueType::Bool),
        ValueType::Text => matches!(other, ValueType::Text),
        ValueType::Dist(bounds) => match other {
            ValueType::Dist(others) => *bounds == *others,
            _ => false,
        },
    }
}

// Whether two columns have their cells from one place.
fn is_same_anchor(anchor: &Option<Anchor>, other: &Option<Anchor>) -> bool
    ensures same { IsTrue result → anchor.now ≡ other.now }
{
    match anchor {
        None => other.is_none(),
        Some(anchor) => match other {
            Some(other) => is_anchored_alike(anchor, other),
            None => false,
        },
    }
}

// Whether two anchors are the same.
fn is_anchored_alike(anchor: &Anchor, other: &Anchor) -> bool
    ensures same { IsTrue result → anchor.now ≡ other.now }
{
    match anchor {
        Anchor::Location => matches!(other, Anchor::Location),
        Anchor::Field { schema, field } => match other {
            Anchor::Field {
                schema: of,
                field: place,
            } => *schema == *of && *field == *place,
            Anchor::Location => false,
        },
    }
}
