// The places of zones at which a fault may stand.
ghost use Rattle.std.specs.Prelude.{◌≡◌, IfOk};
ghost use Rattle.mon_topo.specs.Faults as spec;
ghost use Rattle.mon_topo.specs.Faults.{place_path};

use mon_value::{OutOfMemory, Text};
use std::alloc::Global;

/// A place in the zones of a configuration. Zones, their locations, leaves and ranges, and the leaves of
/// a range are numbered from 0.
#[derive(Clone, Copy, PartialEq, Eq)]
pub enum Place {
    /// The list of zones.
    Zones,
    /// The name of a zone.
    ZoneName(usize),
    /// A location of a zone.
    Location(usize, usize),
    /// The list of a zone's leaves.
    Leaves(usize),
    /// A leaf of a zone.
    Leaf(usize, usize),
    /// The list of a zone's ranges.
    Ranges(usize),
    /// The bound of a zone's range.
    Bound(usize, usize),
    /// The list of leaves of a zone's range.
    Replicas(usize, usize),
    /// A leaf of a zone's range.
    Replica(usize, usize, usize),
}

/// The path to a place.
pub(crate) fn path_to(alloc: Global, place: Place) -> Result<Text, OutOfMemory>
    ensures path { IfOk result (λ path. path ≡ place_path place) }
{
    match place {
        Place::Zones => Text::from_str(alloc, "$.zones"),
        Place::ZoneName(i) => path_in_zone(alloc, i, "name"),
        Place::Location(i, j) => path_of_element(alloc, i, "locations", j),
        Place::Leaves(i) => path_in_zone(alloc, i, "leaves"),
        Place::Leaf(i, j) => path_of_element(alloc, i, "leaves", j),
        Place::Ranges(i) => path_in_zone(alloc, i, "ranges"),
        Place::Bound(i, j) => path_in_range(alloc, i, j, "from"),
        Place::Replicas(i, j) => path_in_range(alloc, i, j, "leaves"),
        Place::Replica(i, j, k) => path_of_replica(alloc, i, j, k),
    }
}

// The path to what a zone has under a key.
fn path_in_zone(alloc: Global, i: usize, key: &str) -> Result<Text, OutOfMemory>
    ensures path { IfOk result (λ path. path ≡ spec.path_in_zone i key.now) }
{
    Text::from_string(format!(in alloc; "$.zones[{i}].{key}")?)
}

// The path to an element of what a zone has under a key.
fn path_of_element(alloc: Global, i: usize, key: &str, j: usize) -> Result<Text, OutOfMemory>
    ensures path { IfOk result (λ path. path ≡ spec.path_of_element i key.now j) }
{
    Text::from_string(format!(in alloc; "$.zones[{i}].{key}[{j}]")?)
}

// The path to what a range of a zone has under a key.
fn path_in_range(alloc: Global, i: usize, j: usize, key: &str) -> Result<Text, OutOfMemory>
    ensures path { IfOk result (λ path. path ≡ spec.path_in_range i j key.now) }
{
    Text::from_string(format!(in alloc; "$.zones[{i}].ranges[{j}].{key}")?)
}

// The path to a leaf of a range.
fn path_of_replica(alloc: Global, i: usize, j: usize, k: usize) -> Result<Text, OutOfMemory>
    ensures path { IfOk result (λ path. path ≡ place_path (Place.Replica i j k)) }
{
    Text::from_string(format!(in alloc; "$.zones[{i}].ranges[{j}].leaves[{k}]")?)
}
