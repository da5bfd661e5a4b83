// What leaves and ranges are called where a refusal names them.
ghost use Rattle.std.specs.Prelude.{◌≡◌, [], IfOk, string_bytes};
ghost use Rattle.mon_topo.specs.Zones as spec;

use crate::topology::Topology;
use mon_value::{FoundDown, Leaf, OutOfMemory, Range, Zone};
use std::alloc::Global;

/// A range whose replicas are on leaves that were found down, and these leaves with their cuts, all by their names.
pub fn down_text(
    alloc: Global,
    topology: &Topology,
    range: Range,
    founds: &[FoundDown],
) -> Result<String, OutOfMemory>
    ensures text { IfOk result (λ text. string_bytes text ≡ spec.down_text topology.now range founds.now) }
{
    let range = range_text(alloc, topology, range)?;
    let founds = founds_text(alloc, topology, founds)?;
    format!(in alloc; "{range}:{founds}")
}

/// Each leaf that was found down, with its cut and a space in front.
pub fn founds_text(
    alloc: Global,
    topology: &Topology,
    founds: &[FoundDown],
) -> Result<String, OutOfMemory>
    ensures text { IfOk result (λ text. string_bytes text ≡ spec.founds_text topology.now founds.now) }
{
    let mut text = String::new(alloc);
    for found in founds {
        let one = found_text(alloc, topology, *found)?;
        text.push_str(one.as_str())?;
    }
    Ok(text)
}

// A leaf with its cut.
fn found_text(alloc: Global, topology: &Topology, found: FoundDown) -> Result<String, OutOfMemory>
    ensures text { IfOk result (λ text. string_bytes text ≡ spec.found_text topology.now found) }
{
    let name = leaf_text(topology, found.leaf);
    let cut = found.cut;
    format!(in alloc; " {name}@{cut}")
}

/// The name of a leaf; nothing where there is no such leaf.
pub fn leaf_text(topology: &Topology, leaf: Leaf) -> &str
    ensures name { result.now ≡ spec.leaf_text topology.now leaf }
{
    if leaf.0 < topology.leaves() {
        topology.leaf_name(leaf).as_str()
    } else {
        ""
    }
}

/// The name of a range: that of its zone, and its number there. Nothing where there is no such range.
pub fn range_text(alloc: Global, topology: &Topology, range: Range) -> Result<String, OutOfMemory>
    ensures text { IfOk result (λ text. string_bytes text ≡ spec.range_text topology.now range) }
{
    for zone in 0..topology.zones() {
        let (first, count) = topology.ranges_of(Zone(zone));
        if first.0 <= range.0 && range.0 - first.0 < count {
            let name = topology.zone_name(Zone(zone)).as_str();
            let place = range.0 - first.0;
            return format!(in alloc; "{name}/{place}");
        }
    }
    Ok(String::new(alloc))
}
