// How many zones, leaves and ranges there are.
ghost use Rattle.std.specs.Prelude.{◌≡◌, nat_le, length};
ghost use Rattle.mon_topo.specs.Faults as spec;
ghost use Rattle.mon_topo.specs.Zones.{leaves_in, ranges_in};

use crate::limits::{MOST_LEAVES, MOST_LEAVES_OF_ZONE, MOST_RANGES, MOST_ZONES};
use crate::places::Place;
use crate::zones::ZoneSpec;

/// The place at which there are too many zones, leaves or ranges.
pub(crate) fn too_many(zones: &[ZoneSpec]) -> Option<Place>
    ensures place { result ≡ spec.too_many zones.now }
{
    if !are_few(zones) {
        return Some(Place::Zones);
    }
    for (i, zone) in zones.iter().enumerate() {
        if zone.leaves.len() > MOST_LEAVES_OF_ZONE {
            return Some(Place::Leaves(i));
        }
    }
    None
}

// Whether there are as many zones, leaves and ranges as there may be.
fn are_few(zones: &[ZoneSpec]) -> bool
    ensures few { result ≡ spec.are_few zones.now }
{
    zones.len() <= MOST_ZONES && are_leaves_few(zones) && are_ranges_few(zones)
}

// Whether all zones have as many leaves as they may have together.
fn are_leaves_few(zones: &[ZoneSpec]) -> bool
    ensures few { result ≡ nat_le (length (leaves_in zones.now)) MOST_LEAVES }
{
    let mut left = MOST_LEAVES;
    for zone in zones {
        let Some(rest) = left.checked_sub(zone.leaves.len()) else {
            return false;
        };
        left = rest;
    }
    true
}

// Whether all zones have as many ranges as they may have together.
fn are_ranges_few(zones: &[ZoneSpec]) -> bool
    ensures few { result ≡ nat_le (length (ranges_in zones.now)) MOST_RANGES }
{
    let mut left = MOST_RANGES;
    for zone in zones {
        let Some(rest) = left.checked_sub(zone.ranges.len()) else {
            return false;
        };
        left = rest;
    }
    true
}
