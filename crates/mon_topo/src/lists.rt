// What is kept beside the zones of a topology.
ghost use Rattle.std.specs.Prelude.{◌≡◌, ◌+◌, ◌<◌, ◌^◌, ◌++◌, ℕ, List, Some, None, length, map, IfOk, OnOk};
ghost use Rattle.mon_topo.specs.Faults.{too_many};
ghost use Rattle.mon_topo.specs.Indexed as kept;
ghost use Rattle.mon_topo.specs.Zones as spec;

use crate::names::NameMap;
use crate::zones::{RangeSpec, ZoneSpec};
use mon_value::{Leaf, Leaves, OutOfMemory, Text, Texts, TryCopy};
use std::alloc::Global;

/// The names of the leaves of all zones.
pub(crate) fn leaf_names_of(alloc: Global, zones: &[ZoneSpec]) -> Result<Texts, OutOfMemory>
    ensures names { IfOk result (λ names. names ≡ spec.leaves_in zones.now) }
{
    let mut names = Texts::new(alloc);
    for zone in zones {
        add_copies(alloc, &mut names, zone.leaves.as_slice())?;
    }
    Ok(names)
}

// Adds copies of texts.
fn add_copies(alloc: Global, copies: &mut Texts, texts: &[Text]) -> Result<(), OutOfMemory>
    ensures added { OnOk result (copies.new ≡ copies.old ++ texts.now) }
{
    for text in texts {
        copies.push(text.copy(alloc)?)?;
    }
    Ok(())
}

/// The leaves that hold each range of all zones at first.
pub(crate) fn replicas_of(
    alloc: Global,
    zones: &[ZoneSpec],
    leaves: &NameMap,
) -> Result<Vec<Leaves>, OutOfMemory>
    ensures replicas { IfOk result (λ replicas. replicas.items
        ≡ map (λ range. kept.leaves_found leaves.now range.leaves) (spec.ranges_in zones.now)) }
{
    let mut replicas = Vec::new(alloc);
    for zone in zones {
        add_replicas(alloc, &mut replicas, zone.ranges.as_slice(), leaves)?;
    }
    Ok(replicas)
}

// Adds the leaves of a zone's ranges.
fn add_replicas(
    alloc: Global,
    replicas: &mut Vec<Leaves>,
    ranges: &[RangeSpec],
    leaves: &NameMap,
) -> Result<(), OutOfMemory>
    ensures added { OnOk result (replicas.new.items
        ≡ replicas.old.items ++ map (λ range. kept.leaves_found leaves.now range.leaves) ranges.now) }
{
    for range in ranges {
        replicas.push(leaves_found(alloc, range.leaves.as_slice(), leaves)?)?;
    }
    Ok(())
}

// The leaves of names.
fn leaves_found(alloc: Global, names: &[Text], leaves: &NameMap) -> Result<Leaves, OutOfMemory>
    ensures found { IfOk result (λ found. found ≡ kept.leaves_found leaves.now names.now) }
{
    let mut found = Leaves::new(alloc);
    for name in names {
        if let Some(number) = leaves.get(name.as_bytes()) {
            found.push(Leaf(number))?;
        }
    }
    Ok(found)
}

/// The names of the ranges of all zones, each with its number.
pub(crate) fn range_names_of(alloc: Global, zones: &[ZoneSpec]) -> Result<NameMap, OutOfMemory>
    requires few { too_many zones.now ≡ None }
    ensures found { IfOk result (λ names. kept.FindsPlaces names (spec.range_names zones.now)) }
{
    let mut names = NameMap::new(alloc);
    let mut first = 0;
    for zone in zones {
        add_range_names(alloc, &mut names, first, &zone.name, zone.ranges.as_slice())?;
        first += zone.ranges.len() as u32;
    }
    Ok(names)
}

// Adds the names of a zone's ranges, of which the first has the number `first`.
fn add_range_names(
    alloc: Global,
    names: &mut NameMap,
    first: u32,
    zone: &Text,
    ranges: &[RangeSpec],
) -> Result<(), OutOfMemory>
    requires room { first + length ranges.now < 2 ^ 32 }
    ensures added { OnOk result ((before : List (List ℕ)) → length before ≡ first → kept.FindsPlaces names.old before
        → kept.FindsPlaces names.new (before ++ spec.names_from zone.now 0 ranges.now)) }
{
    for (j, _range) in ranges.iter().enumerate() {
        let name = format!(in alloc; "{}/{j}", zone.as_str())?;
        let _is_new = names.add(name.as_bytes(), first + j as u32)?;
    }
    Ok(())
}
