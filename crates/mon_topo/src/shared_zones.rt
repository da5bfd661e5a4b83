// Ranges and leaves of one zone.
ghost use Rattle.std.specs.Prelude.{◌≡◌, ◌<◌, length};
ghost use Rattle.mon_topo.specs.Zones as spec;

use crate::topology::Topology;
use mon_value::{Leaf, Range, Zone};

/// Whether a range and a leaf are of one zone.
pub fn share_zone(topology: &Topology, range: Range, leaf: Leaf) -> bool
    ensures share { result ≡ spec.share_zone topology.now range leaf }
{
    (0..topology.zones()).any(|zone| has_both(topology, Zone(zone), range, leaf))
}

// Whether both are of a zone.
fn has_both(topology: &Topology, zone: Zone, range: Range, leaf: Leaf) -> bool
    requires within { zone.0 < length topology.now }
    ensures both { result ≡ spec.has_both topology.now range leaf zone.0 }
{
    let (first_range, ranges) = topology.ranges_of(zone);
    let (first_leaf, leaves) = topology.leaves_of(zone);
    is_among(range.0, first_range.0, ranges) && is_among(leaf.0, first_leaf.0, leaves)
}

// Whether a number is among so many from the first one on.
fn is_among(number: u32, first: u32, count: u32) -> bool
    ensures among { result ≡ spec.is_among number first count }
{
    first <= number && number - first < count
}
