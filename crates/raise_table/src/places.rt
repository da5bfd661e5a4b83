// Where the words of a table stand, and which leaves there are.
ghost use Rattle.std.specs.Prelude.{◌≡◌, ℕ, ◌≤◌, ◌<◌, List, ◌++◌, length, IfOk, OnOk};
ghost use Rattle.raise_table.specs.declared.places.ZoneLeaf as the;
ghost use Rattle.raise_table.specs.Places.{bit_of, leaves_in, leaves_of_zone, word_number};
ghost use Rattle.raise_table.specs.RaiseRule.{times_leaf};

use mon_hints::Place;
use mon_value::{LeafCounts, ListOf, MOST_BUCKETS, OutOfMemory, Zone};
use std::alloc::Global;

/// A leaf, by its zone and its place among the leaves of its zone.
#[derive(Clone, Copy, PartialEq, Eq)]
pub struct ZoneLeaf {
    pub zone: Zone,
    pub child: u32,
}

impl ZoneLeaf {
    /// The leaf's bit: at the root that of its zone, in its zone its own.
    pub(crate) fn bit_of(self, place: Place) -> u32
        ensures bit { result ≡ bit_of self place }
    {
        match place {
            Place::Root => self.zone.0,
            Place::Zone(_) => self.child,
        }
    }
}

/// The number of the word of a place and a bucket.
pub(crate) fn word_number(place: Place, bucket: u32) -> usize
    ensures number { result ≡ word_number place bucket }
{
    place.word_index(bucket, MOST_BUCKETS)
}

/// The leaves of all zones, in order.
pub(crate) fn leaves_of_all(
    alloc: Global,
    zones: &LeafCounts,
) -> Result<ListOf<ZoneLeaf>, OutOfMemory>
    requires { length zones.now ≤ 32 }
    ensures leaves { IfOk result (λ leaves. leaves ≡ leaves_in zones.now) }
{
    let mut leaves = ListOf::new(alloc);
    let mut zone = 0;
    for count in zones.as_slice() {
        push_zone(&mut leaves, Zone(zone), *count)?;
        zone += 1;
    }
    Ok(leaves)
}

fn push_zone(leaves: &mut ListOf<ZoneLeaf>, zone: Zone, count: u32) -> Result<(), OutOfMemory>
    ensures pushed { OnOk result (leaves.new ≡ leaves.old ++ leaves_of_zone zone.0 count) }
{
    for child in 0..count {
        leaves.push(ZoneLeaf { zone, child })?;
    }
    Ok(())
}

/// A law: each leaf stands at most once among the leaves of the zones, so by the raise rule it has at most one owner.
pub fn leaves_stand_once()
    ensures once { (zones : List ℕ) (leaf : the.ZoneLeaf) → times_leaf leaf (leaves_in zones) ≤ 1 }
{}
