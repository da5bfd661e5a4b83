// Where an operation is done.
ghost use Rattle.std.specs.Prelude.{◌≡◌, ◌&&◌, IfOk, IsTrue, Some};
ghost use Rattle.std.specs.List.{list_any};
ghost use Rattle.mon_value.specs.declared.columns.Anchor.TheVariants as anchor;
ghost use Rattle.typed_trees.specs.Levels as spec;

use crate::settings::TypingSetting;
use mon_schema::Schemas;
use mon_value::{Anchor, Column, Field, Shared, Text, TryCopy};
use std::alloc::AllocError;
use typed_trees::Level;

/// The level at which rows that agree in some columns can be brought together, where they come from a level: a leaf,
/// where the columns tell the whole target of one schema; a zone, where they tell its location; or else the root.
pub fn meeting_level(schemas: &Schemas, level: Level, columns: &[Shared<Column>]) -> Level
    ensures level { result ≡ spec.meeting_level schemas.now level columns.now }
{
    match level {
        Level::Leaf => {
            if tell_target(schemas, columns) {
                Level::Leaf
            } else {
                located_level(schemas, columns)
            }
        }
        Level::Zone => located_level(schemas, columns),
        Level::Root => Level::Root,
    }
}

fn located_level(schemas: &Schemas, columns: &[Shared<Column>]) -> Level
    ensures level { result ≡ spec.located_level schemas.now columns.now }
{
    if have_location(schemas, columns) {
        Level::Zone
    } else {
        Level::Root
    }
}

fn have_location(schemas: &Schemas, columns: &[Shared<Column>]) -> bool
    ensures had { result ≡ list_any (spec.is_located schemas.now) columns.now }
{
    columns.iter().any(|column| is_located(schemas, column))
}

// Whether the columns tell the whole target of one schema.
fn tell_target(schemas: &Schemas, columns: &[Shared<Column>]) -> bool
    ensures told { result ≡ spec.tell_target schemas.now columns.now }
{
    columns.iter().any(|column| match &column.anchor {
        Some(anchor) => names_target(schemas, columns, anchor),
        None => false,
    })
}

// Whether the columns tell the whole target of the schema that an anchor names.
fn names_target(schemas: &Schemas, columns: &[Shared<Column>], anchor: &Anchor) -> bool
    ensures told { result ≡ spec.names_target schemas.now columns.now anchor.now }
{
    match anchor {
        Anchor::Field { schema, field: _ } => match schemas.target(schema.as_bytes()) {
            Some(target) => have_fields(columns, schema, target.fields.as_slice()),
            None => false,
        },
        Anchor::Location => false,
    }
}

// Whether each of a schema's fields is the anchor of a column.
fn have_fields(columns: &[Shared<Column>], schema: &Text, fields: &[Field]) -> bool
    ensures had { result ≡ spec.have_fields schema.now 0 fields.now columns.now }
{
    for (place, _field) in fields.iter().enumerate() {
        if !have_field(columns, schema, place) {
            return false;
        }
    }
    true
}

// Whether one of the columns is anchored to a field of a schema.
fn have_field(columns: &[Shared<Column>], wanted: &Text, place: usize) -> bool
    ensures had { result ≡ list_any (spec.is_anchored (anchor.Field wanted.now place)) columns.now }
{
    columns.iter().any(|column| is_field(column, wanted, place))
}

// Whether a column is anchored to a field of a schema.
fn is_field(column: &Column, wanted: &Text, place: usize) -> bool
    ensures field { result ≡ spec.is_anchored (anchor.Field wanted.now place) column.now }
{
    match &column.anchor {
        Some(Anchor::Field { schema, field }) => *wanted == *schema && place == *field as usize,
        _ => false,
    }
}

// Whether a column says where its targets are.
fn is_located(schemas: &Schemas, column: &Column) -> bool
    ensures located { result ≡ spec.is_located schemas.now column.now }
{
    match &column.anchor {
        Some(anchor) => is_location_anchor(schemas, anchor),
        None => false,
    }
}

// Whether an anchor says where a target is.
fn is_location_anchor(schemas: &Schemas, anchor: &Anchor) -> bool
    ensures location { result ≡ spec.is_location_anchor schemas.now anchor.now }
{
    match anchor {
        Anchor::Location => true,
        Anchor::Field { schema, field } => match schemas.target(schema.as_bytes()) {
            Some(target) => match target.fields.as_slice().get(*field as usize) {
                Some(field) => field.location,
                None => false,
            },
            None => false,
        },
    }
}

/// Whether what a column is anchored to is what another that holds the same is anchored to as well.
pub(crate) fn keeps_anchor(schemas: &Schemas, one: &Option<Anchor>, other: &Option<Anchor>) -> bool
    ensures kept { IsTrue result → spec.common_anchor schemas.now one.now other.now ≡ one.now }
{
    match one {
        Some(one) => match other {
            Some(other) => is_of_both(schemas, one, other),
            None => false,
        },
        None => true,
    }
}

// Whether an anchor is what two columns with this one and another are both anchored to.
fn is_of_both(schemas: &Schemas, one: &Anchor, other: &Anchor) -> bool
    ensures kept { IsTrue result → spec.common_anchor schemas.now (Some one.now) (Some other.now) ≡ Some one.now }
{
    match one {
        Anchor::Location => is_location_anchor(schemas, other),
        Anchor::Field { .. } => same_anchor(one, other),
    }
}

/// What two columns that hold the same are both anchored to.
pub(crate) fn common_anchor(
    setting: TypingSetting<'_>,
    one: &Option<Anchor>,
    other: &Option<Anchor>,
) -> Result<Option<Anchor>, AllocError>
    ensures anchor { IfOk result (λ common. common
        ≡ spec.common_anchor setting.entry.schemas.now one.now other.now) }
{
    match one {
        Some(one) => match other {
            Some(other) => anchor_of_both(setting, one, other),
            None => Ok(None),
        },
        None => Ok(None),
    }
}

// What is the same as two anchors: either of them, or that both are locations.
fn anchor_of_both(
    setting: TypingSetting<'_>,
    one: &Anchor,
    other: &Anchor,
) -> Result<Option<Anchor>, AllocError>
    ensures anchor { IfOk result (λ common. common
        ≡ spec.common_anchor setting.entry.schemas.now (Some one.now) (Some other.now)) }
{
    if same_anchor(one, other) {
        let anchor = one.copy(setting.alloc)?;
        Ok(Some(anchor))
    } else if are_locations(setting.schemas, one, other) {
        Ok(Some(Anchor::Location))
    } else {
        Ok(None)
    }
}

// Whether both anchors say where a target is.
fn are_locations(schemas: &Schemas, one: &Anchor, other: &Anchor) -> bool
    ensures locations { result
        ≡ (spec.is_location_anchor schemas.now one.now && spec.is_location_anchor schemas.now other.now) }
{
    is_location_anchor(schemas, one) && is_location_anchor(schemas, other)
}

// Whether two anchors are the same.
fn same_anchor(one: &Anchor, other: &Anchor) -> bool
    ensures same { result ≡ spec.same_anchor one.now other.now }
{
    match one {
        Anchor::Location => matches!(other, Anchor::Location),
        Anchor::Field { schema, field } => match other {
            Anchor::Field {
                schema: other,
                field: place,
            } => *schema == *other && *field == *place,
            Anchor::Location => false,
        },
    }
}
