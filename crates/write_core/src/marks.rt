// What became of a write's replicas.
ghost use Rattle.std.specs.Prelude.{◌≡◌, map, IfOk};
ghost use Rattle.write_core.specs.Marks as spec;
ghost use Rattle.write_core.specs.Marks.{waiting};

use mon_value::{FoundDown, Leaf, Miss, OutOfMemory, Slot, SlotLeaf};
use std::alloc::Global;

/// What became of a replica so far.
#[derive(Clone, Copy, PartialEq, Eq)]
pub enum Fate {
    /// It was not looked at yet.
    Waiting,
    /// Its leaf has room for the row.
    Ready,
    /// It took the row.
    Took,
    /// Its leaf was found down, with so many entries in its history.
    Missed(u64),
}

/// A replica, and what became of it.
#[derive(Clone, Copy, PartialEq, Eq)]
pub struct Mark {
    /// The replica's slot.
    pub slot: Slot,
    /// The leaf that it lies on.
    pub leaf: Leaf,
    /// What became of it.
    pub fate: Fate,
}

impl Mark {
    /// A replica that was not looked at yet.
    fn waiting(replica: &SlotLeaf) -> Mark
        ensures mark { result ≡ waiting replica.now }
    {
        Mark {
            slot: replica.slot,
            leaf: replica.leaf,
            fate: Fate::Waiting,
        }
    }

    /// The replica, of which more is known.
    pub(crate) fn marked(self, fate: Fate) -> Mark
        ensures mark { result ≡ spec.with_fate self fate }
    {
        Mark {
            slot: self.slot,
            leaf: self.leaf,
            fate,
        }
    }

    /// That it missed the row, at a length of its leaf's history.
    pub(crate) fn miss(&self, cut: u64) -> Miss
        ensures miss { result ≡ record { slot = self.now.slot; leaf = self.now.leaf; cut = cut } }
    {
        Miss {
            slot: self.slot,
            leaf: self.leaf,
            cut,
        }
    }

    /// That its leaf was found down, at a length of its history.
    pub(crate) fn found(&self, length: u64) -> FoundDown
        ensures found { result ≡ record { leaf = self.now.leaf; cut = length } }
    {
        FoundDown {
            leaf: self.leaf,
            cut: length,
        }
    }

    /// Whether its leaf has room for the row, and is still to be entered.
    pub fn is_ready(&self) -> bool
        ensures ready { result ≡ spec.is_ready self.now.fate }
    {
        match self.fate {
            Fate::Ready => true,
            Fate::Waiting | Fate::Took | Fate::Missed(_) => false,
        }
    }
}

/// The replicas, none of which was looked at yet.
pub(crate) fn all_waiting(alloc: Global, replicas: &[SlotLeaf]) -> Result<Vec<Mark>, OutOfMemory>
    ensures marks { IfOk result (λ marks. marks.items ≡ map waiting replicas.now) }
{
    let mut marks = Vec::with_capacity(alloc, replicas.len())?;
    for replica in replicas {
        marks.push(Mark::waiting(replica))?;
    }
    Ok(marks)
}
