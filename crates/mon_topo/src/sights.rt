// How far histories were seen.
ghost use Rattle.std.specs.Prelude.{◌≡◌, ◌<◌, length, set, IfOk};
ghost use Rattle.mon_value.specs.Histories.{farther_each};
ghost use Rattle.mon_topo.specs.Sights.{AreAlike, joined_sight, no_sight, with_leaf_sight, with_range_sight};

use crate::lengths::join_lengths;
use mon_value::{Leaf, ListOf, OutOfMemory, Range, SlotLeaf, TryCopy};
use std::alloc::{AllocError, Global};

/// How far a range's history was seen, and the first replica that serves then, if one does.
#[derive(Clone, Copy, PartialEq, Eq)]
pub struct RangeSight {
    pub length: u64,
    pub first: Option<SlotLeaf>,
}

/// How far someone has seen each leaf's history and each range's.
#[derive(PartialEq, Eq, Drop)]
pub struct Sight {
    pub leaves: ListOf<u64>,
    pub ranges: ListOf<RangeSight>,
}

impl Sight {
    /// That of who has seen nothing of so many leaves and ranges.
    pub fn none(alloc: Global, leaves: u32, ranges: u32) -> Result<Sight, OutOfMemory>
        ensures none { IfOk result (λ sight. sight ≡ no_sight leaves ranges) }
    {
        let nothing = RangeSight {
            length: 0,
            first: None,
        };
        Ok(Sight {
            leaves: ListOf::from_vec(vec![in alloc; 0; leaves as usize]?),
            ranges: ListOf::from_vec(vec![in alloc; nothing; ranges as usize]?),
        })
    }

    /// Of each history as far as the farther one of both has seen it. No memory is taken.
    pub fn join(&mut self, other: &Sight)
        requires alike { AreAlike self.old other.now }
        ensures joined { self.new ≡ joined_sight self.old other.now }
    {
        join_lengths(self.leaves.as_mut_slice(), other.leaves.as_slice());
        join_ranges(self.ranges.as_mut_slice(), other.ranges.as_slice());
    }

    /// As far as another one, of the same leaves and ranges. No memory is taken.
    pub fn assign(&mut self, other: &Sight)
        requires alike { AreAlike self.old other.now }
        ensures assigned { self.new ≡ other.now }
    {
        self.leaves
            .as_mut_slice()
            .copy_from_slice(other.leaves.as_slice());
        self.ranges
            .as_mut_slice()
            .copy_from_slice(other.ranges.as_slice());
    }

    /// A leaf's history up to this length. No memory is taken.
    pub fn note_leaf(&mut self, leaf: Leaf, cut: u64)
        requires there { leaf.0 < length self.old.leaves }
        ensures noted { self.new ≡ with_leaf_sight leaf cut self.old }
    {
        put_length(self.leaves.as_mut_slice(), leaf.0 as usize, cut);
    }

    /// A range's history so far. No memory is taken.
    pub fn note_range(&mut self, range: Range, sight: RangeSight)
        requires there { range.0 < length self.old.ranges }
        ensures noted { self.new ≡ with_range_sight range sight self.old }
    {
        put_range(self.ranges.as_mut_slice(), range.0 as usize, sight);
    }
}

impl TryCopy for RangeSight {
    fn copy(&self, _alloc: Global) -> Result<RangeSight, AllocError> {
        Ok(*self)
    }
}

impl TryCopy for Sight {
    fn copy(&self, alloc: Global) -> Result<Sight, AllocError> {
        Ok(Sight {
            leaves: ListOf::from_vec(self.leaves.as_slice().to_vec(alloc)?),
            ranges: ListOf::from_vec(self.ranges.as_slice().to_vec(alloc)?),
        })
    }
}

// Puts a length in a place.
fn put_length(lengths: &mut [u64], place: usize, cut: u64)
    requires there { place < length lengths.old }
    ensures put { lengths.new ≡ set lengths.old place cut }
{
    lengths[place] = cut;
}

// Puts what was seen of a range in a place.
fn put_range(sights: &mut [RangeSight], place: usize, sight: RangeSight)
    requires there { place < length sights.old }
    ensures put { sights.new ≡ set sights.old place sight }
{
    sights[place] = sight;
}

// Puts the farther one of two in each place.
fn join_ranges(mine: &mut [RangeSight], theirs: &[RangeSight])
    requires alike { length mine.old ≡ length theirs.now }
    ensures joined { mine.new ≡ farther_each (λ range. range.length) mine.old theirs.now }
{
    for (i, other) in theirs.iter().enumerate() {
        if mine[i].length < other.length {
            mine[i] = *other;
        }
    }
}
