// Which leaves a range may be held by.
ghost use Rattle.std.specs.Prelude.{◌≡◌};
ghost use Rattle.std.specs.List.{list_any};
ghost use Rattle.mon_schema.specs.Faults.{texts_repeat};
ghost use Rattle.mon_value.specs.Same.{same_text};
ghost use Rattle.mon_topo.specs.Faults as spec;
ghost use Rattle.mon_topo.specs.Faults.{first_at};

use crate::limits::MOST_REPLICAS;
use crate::places::Place;
use crate::zones::{RangeSpec, ZoneSpec};
use mon_value::Text;

/// The place of the first leaf of a range that the range's zone doesn't have.
pub(crate) fn no_leaf(zones: &[ZoneSpec]) -> Option<Place>
    ensures place { result ≡ spec.no_leaf zones.now }
{
    for (i, zone) in zones.iter().enumerate() {
        let place = no_leaf_in_zone(i, zone);
        if place.is_some() {
            return place;
        }
    }
    None
}

fn no_leaf_in_zone(i: usize, zone: &ZoneSpec) -> Option<Place>
    ensures place { result ≡ first_at (spec.no_leaf_in_range zone.now i) 0 zone.now.ranges }
{
    for (j, range) in zone.ranges.as_slice().iter().enumerate() {
        let place = no_leaf_in_range(zone, i, j, range);
        if place.is_some() {
            return place;
        }
    }
    None
}

fn no_leaf_in_range(zone: &ZoneSpec, i: usize, j: usize, range: &RangeSpec) -> Option<Place>
    ensures place { result ≡ spec.no_leaf_in_range zone.now i j range.now }
{
    for (k, leaf) in range.leaves.as_slice().iter().enumerate() {
        if !has_text(zone.leaves.as_slice(), leaf) {
            return Some(Place::Replica(i, j, k));
        }
    }
    None
}

// Whether a text is one of a few.
fn has_text(texts: &[Text], text: &Text) -> bool
    ensures has { result ≡ list_any (same_text text.now) texts.now }
{
    texts.iter().any(|other| *text == *other)
}

/// The place of the first range that is not held by one to three leaves, each once.
pub(crate) fn bad_replicas(zones: &[ZoneSpec]) -> Option<Place>
    ensures place { result ≡ spec.bad_replicas zones.now }
{
    for (i, zone) in zones.iter().enumerate() {
        let place = bad_replicas_in_zone(i, zone.ranges.as_slice());
        if place.is_some() {
            return place;
        }
    }
    None
}

fn bad_replicas_in_zone(i: usize, ranges: &[RangeSpec]) -> Option<Place>
    ensures place { result ≡ first_at (spec.bad_replicas_in_range i) 0 ranges.now }
{
    for (j, range) in ranges.iter().enumerate() {
        if !are_replicas(range.leaves.as_slice()) {
            return Some(Place::Replicas(i, j));
        }
    }
    None
}

// Whether there are one to three leaves, each once.
fn are_replicas(leaves: &[Text]) -> bool
    ensures replicas { result ≡ spec.are_replicas leaves.now }
{
    !leaves.is_empty() && leaves.len() <= MOST_REPLICAS && !repeat(leaves)
}

// Whether one of a few texts stands twice.
fn repeat(texts: &[Text]) -> bool
    ensures repeat { result ≡ texts_repeat texts.now }
{
    let mut rest = texts;
    while let Some((text, others)) = rest.split_first() {
        if has_text(others, text) {
            return true;
        }
        rest = others;
    }
    false
}
