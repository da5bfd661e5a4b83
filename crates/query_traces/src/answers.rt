// How a query ends.
ghost use Rattle.std.specs.Prelude.{◌≡◌, IfOk};

use mon_value::{Founds, Leaf, ListOf, OutOfMemory, Range, Slot, Table, TryCopy};
use std::alloc::Global;
use typed_trees::OpLevels;

/// The slot that a range resolved to, and its leaf.
#[derive(Clone, Copy, PartialEq, Eq)]
pub struct Resolved {
    pub range: Range,
    pub slot: Slot,
    pub leaf: Leaf,
}

/// What ranges resolved to.
pub type Resolveds = ListOf<Resolved>;

/// Lengths of histories, or numbers of what was sent.
pub type Cuts = ListOf<u64>;

/// A yes or no for each of several things.
pub type Flags = ListOf<bool>;

/// What a query looked at: what each range resolved to; of each leaf, the length of its history, whether it was read
/// there, and how much it sent; and which leaves were found down on the way.
#[derive(Drop)]
pub struct Trace {
    pub resolved: Resolveds,
    pub cuts: Cuts,
    pub read: Flags,
    pub down: Founds,
    pub sent: Cuts,
}

/// The table of a query, what was looked at for it, and the level of each of its operations.
#[derive(Drop)]
pub struct Answer {
    pub table: Table,
    pub trace: Trace,
    pub levels: OpLevels,
}

/// Why a query has no table.
#[derive(Drop)]
pub enum RoundFault {
    /// Each slot of the range that serves is on a leaf that was found down; the leaves of the range's zone that were,
    /// in the order in which they were found.
    NoReplica(Range, Founds),
    /// The load is above the limit.
    StepLimit(u64, Trace),
}

impl TryCopy for Resolved {
    fn copy(&self, _alloc: Global) -> Result<Resolved, OutOfMemory> {
        Ok(*self)
    }
}

/// Copies of lengths or numbers.
pub(crate) fn copied_cuts(alloc: Global, cuts: &Cuts) -> Result<Cuts, OutOfMemory>
    ensures equal { IfOk result (λ copied. copied ≡ cuts.now) }
{
    Ok(Cuts::from_vec(Vec::from_slice(alloc, cuts.as_slice())?))
}

impl TryCopy for Trace {
    fn copy(&self, alloc: Global) -> Result<Trace, OutOfMemory> {
        Ok(Trace {
            resolved: self.resolved.copy(alloc)?,
            cuts: copied_cuts(alloc, &self.cuts)?,
            read: self.read.copy(alloc)?,
            down: self.down.copy(alloc)?,
            sent: copied_cuts(alloc, &self.sent)?,
        })
    }
}

impl TryCopy for Answer {
    fn copy(&self, alloc: Global) -> Result<Answer, OutOfMemory> {
        Ok(Answer {
            table: self.table.copy(alloc)?,
            trace: self.trace.copy(alloc)?,
            levels: OpLevels::from_vec(Vec::from_slice(alloc, self.levels.as_slice())?),
        })
    }
}

impl TryCopy for RoundFault {
    fn copy(&self, alloc: Global) -> Result<RoundFault, OutOfMemory> {
        match self {
            RoundFault::NoReplica(range, founds) => {
                Ok(RoundFault::NoReplica(*range, founds.copy(alloc)?))
            }
            RoundFault::StepLimit(load, trace) => {
                Ok(RoundFault::StepLimit(*load, trace.copy(alloc)?))
            }
        }
    }
}
