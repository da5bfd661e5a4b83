// The bounds of ranges, and how they are compared.
ghost use Rattle.std.specs.Prelude.{◌≡◌, ◌∷◌, slice_get, IsTrue};
ghost use Rattle.std.specs.Option.{option_copied};
ghost use Rattle.mon_topo.specs.Locations as order;
ghost use Rattle.mon_topo.specs.Faults as spec;
ghost use Rattle.mon_topo.specs.Faults.{first_at};

use crate::places::Place;
use crate::zones::{RangeSpec, ZoneSpec};
use mon_schema::{Field, Schemas};
use mon_value::{FieldType, FieldValue, FieldValues, Target, Text};
use std::cmp::Ordering;

/// Whether a bound is not above a target.
pub(crate) fn is_within(bound: &FieldValues, target: &Target) -> bool
    ensures within { result ≡ order.is_bound_below bound.now target.now }
{
    let Some((first, fields)) = bound.as_slice().split_first() else {
        return true;
    };
    match first {
        FieldValue::Text(schema) => is_text_within(schema, fields, target),
        _ => true,
    }
}

/// Whether the range at a place is there and holds a target: its bound is not above the target, and the next one's is.
pub(crate) fn is_held_at(ranges: &[RangeSpec], place: usize, target: &Target) -> bool
    ensures held { IsTrue result → order.IsHeldAt target.now ranges.now place }
{
    let Some(range) = range_at(ranges, place) else {
        return false;
    };
    if !is_within(&range.from, target) {
        return false;
    }
    match range_at(ranges, place + 1) {
        Some(next) => !is_within(&next.from, target),
        None => true,
    }
}

// The range at a place.
fn range_at(ranges: &[RangeSpec], place: usize) -> Option<&RangeSpec>
    ensures range { option_copied result ≡ slice_get ranges.now place }
{
    ranges.get(place)
}

// Whether a bound of a schema's name and fields is not above a target.
fn is_text_within(schema: &Text, fields: &[FieldValue], target: &Target) -> bool
    ensures within { result ≡ order.is_bound_below (FieldValue.Text schema.now ∷ fields.now) target.now }
{
    match schema.cmp(&target.schema) {
        Ordering::Less => true,
        Ordering::Equal => fields.cmp(target.fields.as_slice()).is_le(),
        Ordering::Greater => false,
    }
}

// Whether a bound is above the one before it.
fn is_above(before: &FieldValues, bound: &FieldValues) -> bool
    ensures above { result ≡ order.is_above before.now bound.now }
{
    before.cmp(bound).is_lt()
}

/// The place of the first bound that is neither empty nor a schema's name with leading fields.
pub(crate) fn bad_bound(schemas: &Schemas, zones: &[ZoneSpec]) -> Option<Place>
    ensures place { result ≡ spec.bad_bound schemas.now zones.now }
{
    for (i, zone) in zones.iter().enumerate() {
        let place = bad_bound_in_zone(schemas, i, zone.ranges.as_slice());
        if place.is_some() {
            return place;
        }
    }
    None
}

fn bad_bound_in_zone(schemas: &Schemas, i: usize, ranges: &[RangeSpec]) -> Option<Place>
    ensures place { result ≡ first_at (spec.bad_bound_in_range schemas.now i) 0 ranges.now }
{
    for (j, range) in ranges.iter().enumerate() {
        if !is_bound(schemas, range.from.as_slice()) {
            return Some(Place::Bound(i, j));
        }
    }
    None
}

// Whether a bound is empty, or a schema's name with leading fields of their types.
fn is_bound(schemas: &Schemas, values: &[FieldValue]) -> bool
    ensures lawful { result ≡ spec.is_bound schemas.now values.now }
{
    let Some((first, rest)) = values.split_first() else {
        return true;
    };
    match first {
        FieldValue::Text(name) => match schemas.target(name.as_bytes()) {
            Some(schema) => are_leading(schema.fields.as_slice(), rest),
            None => false,
        },
        _ => false,
    }
}

// Whether there are at most as many values as fields, each of its field's type.
fn are_leading(fields: &[Field], values: &[FieldValue]) -> bool
    ensures leading { result ≡ spec.are_leading fields.now values.now }
{
    values.len() <= fields.len()
        && fields
            .iter()
            .zip(values)
            .all(|(field, value)| is_of_type(field.of, value))
}

fn is_of_type(of: FieldType, value: &FieldValue) -> bool
    ensures of_type { result ≡ spec.is_of_type of value.now }
{
    match (of, value) {
        (FieldType::Text, FieldValue::Text(_)) => true,
        (FieldType::Int, FieldValue::Int(_)) => true,
        (FieldType::Bool, FieldValue::Bool(_)) => true,
        _ => false,
    }
}

/// The place of the first zone without ranges, or of the first bound that is out of order.
pub(crate) fn disorder(zones: &[ZoneSpec]) -> Option<Place>
    ensures place { result ≡ spec.disorder zones.now }
{
    for (i, zone) in zones.iter().enumerate() {
        let place = disorder_in(i, zone.ranges.as_slice());
        if place.is_some() {
            return place;
        }
    }
    None
}

// The first bound of a zone is empty, and each is above the one before it.
fn disorder_in(i: usize, ranges: &[RangeSpec]) -> Option<Place>
    ensures place { result ≡ spec.disorder_in i ranges.now }
{
    let Some((first, rest)) = ranges.split_first() else {
        return Some(Place::Ranges(i));
    };
    if !first.from.is_empty() {
        return Some(Place::Bound(i, 0));
    }
    let mut before = &first.from;
    for (j, range) in rest.iter().enumerate() {
        if !is_above(before, &range.from) {
            return Some(Place::Bound(i, j + 1));
        }
        before = &range.from;
    }
    None
}
