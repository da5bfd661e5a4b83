// What holds of every topology.
ghost use Rattle.std.specs.Prelude.{◌<◌, ℕ, length};
ghost use Rattle.mon_value.specs.declared.rows.Target.{Target};
ghost use Rattle.mon_topo.specs.Locations.{HasOneRange};
ghost use Rattle.mon_topo.specs.Replicas.{HasReplicas};
ghost use Rattle.mon_topo.specs.Sizes.{AreWithinLimits};
ghost use Rattle.mon_value.specs.Histories.{range_numbered};
ghost use Rattle.mon_topo.specs.Zones.{ranges_in};

use crate::topology::Topology;

/// Each target lies in one range of each zone, the one that `Topology::range_of` gives: it is not below
/// the range's bound, and below the bound of the next range.
pub fn targets_have_one_range(topology: &Topology)
    ensures one { (zone : ℕ) (target : Target) → zone < length topology.now
        → HasOneRange topology.now zone target }
{
    let _zones = topology.zones();
}

/// Zones, leaves and ranges are as many as there may be at most.
pub fn zones_are_few(topology: &Topology)
    ensures few { AreWithinLimits topology.now }
{
    let _zones = topology.zones();
}

/// Each range is held at first by one to three leaves of its zone, each once.
pub fn ranges_have_replicas(topology: &Topology)
    ensures replicas { (range : ℕ) → range < length (ranges_in topology.now)
        → HasReplicas topology.now (range_numbered range) }
{
    let _zones = topology.zones();
}
