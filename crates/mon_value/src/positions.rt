// Where a zone, a leaf, a range and a replica stand in a configuration.
use crate::copying::TryCopy;
use crate::lists::ListOf;
use std::alloc::{AllocError, Global};

/// A zone, by its place among the zones of the configuration, from 0.
#[derive(Clone, Copy, PartialEq, Eq, PartialOrd, Ord, Hash)]
pub struct Zone(pub u32);

/// A leaf, by its place among the leaves of all zones in the order of the configuration, from 0.
#[derive(Clone, Copy, PartialEq, Eq, PartialOrd, Ord, Hash)]
pub struct Leaf(pub u32);

/// A range of targets, by its place among the ranges of all zones in the order of the configuration,
/// from 0.
#[derive(Clone, Copy, PartialEq, Eq, PartialOrd, Ord, Hash)]
pub struct Range(pub u32);

/// A replica of a range, by its place among the replicas that the range ever had, from 0.
#[derive(Clone, Copy, PartialEq, Eq, PartialOrd, Ord, Hash)]
pub struct Slot(pub u32);

/// Leaves in an order that the call tells.
pub type Leaves = ListOf<Leaf>;

/// Slots of one range.
pub type Slots = ListOf<Slot>;

/// How many leaves each zone has, zones in order.
pub type LeafCounts = ListOf<u32>;

/// A replica of a range.
#[derive(Clone, Copy, PartialEq, Eq)]
pub struct RangeSlot {
    pub range: Range,
    pub slot: Slot,
}

/// Replicas of any ranges.
pub type RangeSlots = ListOf<RangeSlot>;

/// A replica of a range that is known, and the leaf that it is on.
#[derive(Clone, Copy, PartialEq, Eq)]
pub struct SlotLeaf {
    pub slot: Slot,
    pub leaf: Leaf,
}

/// Replicas of one range with their leaves.
pub type SlotLeaves = ListOf<SlotLeaf>;

/// A leaf that was found down, and the length that its history had then.
#[derive(Clone, Copy, PartialEq, Eq)]
pub struct FoundDown {
    pub leaf: Leaf,
    pub cut: u64,
}

/// Leaves that were found down, in the order in which they were found.
pub type Founds = ListOf<FoundDown>;

impl TryCopy for Zone {
    fn copy(&self, _alloc: Global) -> Result<Zone, AllocError> {
        Ok(*self)
    }
}

impl TryCopy for Range {
    fn copy(&self, _alloc: Global) -> Result<Range, AllocError> {
        Ok(*self)
    }
}

impl TryCopy for Leaf {
    fn copy(&self, _alloc: Global) -> Result<Leaf, AllocError> {
        Ok(*self)
    }
}

impl TryCopy for Slot {
    fn copy(&self, _alloc: Global) -> Result<Slot, AllocError> {
        Ok(*self)
    }
}

impl TryCopy for RangeSlot {
    fn copy(&self, _alloc: Global) -> Result<RangeSlot, AllocError> {
        Ok(*self)
    }
}

impl TryCopy for SlotLeaf {
    fn copy(&self, _alloc: Global) -> Result<SlotLeaf, AllocError> {
        Ok(*self)
    }
}

impl TryCopy for FoundDown {
    fn copy(&self, _alloc: Global) -> Result<FoundDown, AllocError> {
        Ok(*self)
    }
}
