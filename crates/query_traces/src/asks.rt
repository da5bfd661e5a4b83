// What a query does next, what it is told of that, and what its caller has seen.
use crate::answers::{Cuts, Resolveds, copied_cuts};
use mon_fold::LeafAnswer;
use mon_value::{Leaf, Range, Slot, TryCopy, Zone};
use std::alloc::{AllocError, Global};

/// The next event of a query.
#[derive(PartialEq, Eq, Drop)]
pub enum Ask {
    /// Load the root's word of a bucket.
    LoadRoot(u32),
    /// Load a zone's word of a bucket.
    LoadZone(Zone, u32),
    /// Find a range's first slot that serves and is on no leaf that was found down.
    Resolve(Range),
    /// Look at a leaf.
    Visit(Leaf),
    /// Nothing is left to do.
    Finished,
}

/// What a query is told of its last event.
#[derive(Drop)]
pub enum Told {
    /// The word, and what the caller has seen by then.
    Word(u64, Seen),
    /// The slot that the range resolves to, and its leaf.
    Slot(Slot, Leaf),
    /// Each slot of the range that serves is on a leaf that was found down.
    NoSlot,
    /// The leaf is down, with so many entries in its history.
    Down(u64),
    /// No formula holds of the leaf's buckets, with so many entries in its history.
    Unread(u64),
    /// The leaf's answer, with so many entries in its history.
    Read(u64, LeafAnswer),
    /// The leaf's load is above the limit: a number between the two, and how many entries the leaf's history has.
    Over(u64, u64),
}

/// What a query's caller has seen: of each leaf a length of its history, and of each range the first slot that serves
/// there.
#[derive(Drop)]
pub struct Seen {
    pub cuts: Cuts,
    pub firsts: Resolveds,
}

impl TryCopy for Ask {
    fn copy(&self, _alloc: Global) -> Result<Ask, AllocError> {
        match self {
            Ask::LoadRoot(bucket) => Ok(Ask::LoadRoot(*bucket)),
            Ask::LoadZone(zone, bucket) => Ok(Ask::LoadZone(*zone, *bucket)),
            Ask::Resolve(range) => Ok(Ask::Resolve(*range)),
            Ask::Visit(leaf) => Ok(Ask::Visit(*leaf)),
            Ask::Finished => Ok(Ask::Finished),
        }
    }
}

impl TryCopy for Told {
    fn copy(&self, alloc: Global) -> Result<Told, AllocError> {
        match self {
            Told::Word(word, seen) => Ok(Told::Word(*word, seen.copy(alloc)?)),
            Told::Slot(slot, leaf) => Ok(Told::Slot(*slot, *leaf)),
            Told::NoSlot => Ok(Told::NoSlot),
            Told::Down(cut) => Ok(Told::Down(*cut)),
            Told::Unread(cut) => Ok(Told::Unread(*cut)),
            Told::Read(cut, answer) => Ok(Told::Read(*cut, answer.copy(alloc)?)),
            Told::Over(load, cut) => Ok(Told::Over(*load, *cut)),
        }
    }
}

impl TryCopy for Seen {
    fn copy(&self, alloc: Global) -> Result<Seen, AllocError> {
        Ok(Seen {
            cuts: copied_cuts(alloc, &self.cuts)?,
            firsts: self.firsts.copy(alloc)?,
        })
    }
}
