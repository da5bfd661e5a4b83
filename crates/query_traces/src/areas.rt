// The leaves and the ranges of each zone, by their numbers.
ghost use Rattle.std.specs.Prelude.{◌≡◌, ◌+◌, ◌≤◌, ◌<◌, ◌^◌, length, IfOk};
ghost use Rattle.std.specs.List.{AllByRecursion};
ghost use Rattle.query_traces.specs.Rounds as spec;

use mon_topo::Topology;
use mon_value::{Leaf, OutOfMemory, Range, Zone};
use std::alloc::Global;

/// A zone, its first leaf and its first range, and how many it has of both.
#[derive(Clone, Copy)]
pub struct Area {
    pub zone: Zone,
    pub first_leaf: Leaf,
    pub leaves: u32,
    pub first_range: Range,
    pub ranges: u32,
}

impl Area {
    /// A leaf of the zone, by its place there.
    pub(crate) fn leaf(&self, place: u32) -> Leaf
        requires { self.now.first_leaf.0 + place < 2 ^ 32 }
        ensures leaf { result ≡ spec.leaf_at self.now place }
    {
        Leaf(self.first_leaf.0 + place)
    }

    /// A range of the zone, by its place there.
    pub(crate) fn range(&self, place: u32) -> Range
        requires { self.now.first_range.0 + place < 2 ^ 32 }
        ensures range { result ≡ spec.range_at self.now place }
    {
        Range(self.first_range.0 + place)
    }

    /// Whether a leaf is one of the zone's.
    pub fn has_leaf(&self, leaf: Leaf) -> bool
        ensures has { result ≡ spec.has_leaf self.now leaf }
    {
        leaf.0 >= self.first_leaf.0 && leaf.0 - self.first_leaf.0 < self.leaves
    }
}

/// The zones of a topology.
#[tactic(auto, using(crate::proofs::AreaLemmas::few_areas, crate::proofs::AreaLemmas::all_small))]
pub(crate) fn areas_of(alloc: Global, topology: &Topology) -> Result<Vec<Area>, OutOfMemory>
    ensures areas { IfOk result (λ areas. areas.items ≡ spec.areas_of topology.now) }
    ensures few { IfOk result (λ areas. length areas.items ≤ 64) }
    ensures small { IfOk result (λ areas. AllByRecursion spec.IsSmall areas.items) }
{
    let count = topology.zones();
    let mut areas = Vec::with_capacity(alloc, count as usize)?;
    for number in 0..count {
        areas.push(area_of(topology, Zone(number)))?;
    }
    Ok(areas)
}

fn area_of(topology: &Topology, zone: Zone) -> Area
    requires { zone.0 < length topology.now }
    ensures area { result ≡ spec.area_of topology.now zone.0 }
{
    let (first_leaf, leaves) = topology.leaves_of(zone);
    let (first_range, ranges) = topology.ranges_of(zone);
    Area {
        zone,
        first_leaf,
        leaves,
        first_range,
        ranges,
    }
}
