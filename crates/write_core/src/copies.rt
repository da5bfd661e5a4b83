// A recovery on its way: what it does next, what it is told of that, and how it comes out.
ghost use Rattle.std.specs.Prelude.{◌≡◌, IfOk, OnErr, drop};
ghost use Rattle.std.specs.Option.{option_copied};
ghost use Rattle.write_core.specs.CopyPhases.{CopyEndsSo, copy_ask_of, copy_stage_of, rows_copied};
ghost use Rattle.write_core.specs.declared.copies.CopyAsk.TheVariants.{Finished};
ghost use Rattle.write_core.specs.Recovering as spec;
ghost use Rattle.write_core.specs.Recovering.{Beginning, Copying, SaysDown, copied_after};

use mon_hints::Buckets;
use mon_value::{FoundDown, Founds, Leaf, OutOfMemory, RowList, Slot, SlotLeaves, TryCopy};
use std::alloc::{AllocError, Global};
use std::marker::Model;

/// Why a range opens no replica on a leaf.
#[derive(Clone, Copy, PartialEq, Eq)]
pub enum Denial {
    /// One serves there, in this slot.
    ServesThere(Slot),
    /// As many serve as may.
    ServesFully,
    /// So many were opened, and no more may be.
    SlotsSpent(u64),
}

/// How a recovery comes out.
#[derive(PartialEq, Eq, Drop)]
pub enum Outcome {
    /// Its replica is opened in this slot.
    Opens(Slot),
    /// The range denies it.
    Denied(Denial),
    /// The leaf of each replica that serves was found down, these in slot order.
    NoSource(Founds),
    /// Its own leaf was found down, with so many entries in its history.
    NoTarget(u64),
}

/// What a recovery is told of its last event.
#[derive(PartialEq, Eq, Drop)]
pub enum CopyTold {
    /// The replicas that serve, where one more may be opened.
    Sources(SlotLeaves),
    /// Why none may be.
    Denies(Denial),
    /// The rows of a replica whose leaf is up.
    Gives(RowList),
    /// Its leaf has room.
    HasRoom,
    /// Its leaf was entered: the buckets of the rows that it has not raised, rising.
    Admits(Buckets),
    /// A leaf is down, with so many entries in its history.
    WasDown(u64),
    /// The replica was opened in this slot.
    WasOpened(Slot),
    /// It is done.
    WasDone,
}

/// The next event of a recovery.
#[derive(Clone, Copy, PartialEq, Eq)]
pub enum CopyAsk {
    /// Take the range's lock.
    Lock,
    /// Ask a replica's leaf for its rows.
    Copy(Slot, Leaf),
    /// Make room on its own leaf.
    Reserve,
    /// Take the lock of its own leaf.
    Enter,
    /// Set the zone's bit in the root's word of a bucket.
    RaiseRoot(u32),
    /// Set the leaf's bit in the zone's word of a bucket.
    RaiseZone(u32),
    /// Open the replica in the leaf's history, and let go of the leaf's lock.
    Put,
    /// Tell the range's history, where the replica was opened, and let go of the range's lock.
    Ack,
    /// Nothing is left to do.
    Finished,
}

impl TryCopy for Outcome {
    fn copy(&self, alloc: Global) -> Result<Outcome, AllocError> {
        match self {
            Outcome::Opens(slot) => Ok(Outcome::Opens(*slot)),
            Outcome::Denied(why) => Ok(Outcome::Denied(*why)),
            Outcome::NoSource(founds) => Ok(Outcome::NoSource(founds.copy(alloc)?)),
            Outcome::NoTarget(cut) => Ok(Outcome::NoTarget(*cut)),
        }
    }
}

impl TryCopy for CopyTold {
    fn copy(&self, alloc: Global) -> Result<CopyTold, AllocError> {
        match self {
            CopyTold::Sources(replicas) => Ok(CopyTold::Sources(replicas.copy(alloc)?)),
            CopyTold::Denies(why) => Ok(CopyTold::Denies(*why)),
            CopyTold::Gives(rows) => Ok(CopyTold::Gives(rows.copy(alloc)?)),
            CopyTold::HasRoom => Ok(CopyTold::HasRoom),
            CopyTold::Admits(buckets) => Ok(CopyTold::Admits(buckets.copy(alloc)?)),
            CopyTold::WasDown(cut) => Ok(CopyTold::WasDown(*cut)),
            CopyTold::WasOpened(slot) => Ok(CopyTold::WasOpened(*slot)),
            CopyTold::WasDone => Ok(CopyTold::WasDone),
        }
    }
}

// How far it is, with what it needs there.
#[derive(Drop)]
enum CopyPhase {
    Beginning,
    Copying(Vec<FoundDown>, SlotLeaves, usize),
    Carrying(RowList),
    Nearing(RowList),
    Within(RowList, Buckets, usize, usize),
    Telling(Outcome),
    Over(Outcome),
}

/// A recovery of a range onto a leaf. It says what is done next, and is told how that went.
#[derive(Drop)]
pub struct CopyMachine {
    alloc: Global,
    phase: CopyPhase,
}

impl Model for CopyMachine {
    ghost use Rattle.write_core.specs.CopyPhases.{copy_stage_of};
    ghost use Rattle.write_core.specs.Recovering.{CopyStage};

    ghost Value = { CopyStage };

    ghost view = { λ machine. copy_stage_of machine.phase };
}

impl CopyMachine {
    /// A recovery that has not begun.
    pub fn new(alloc: Global) -> CopyMachine
        ensures new { result ≡ Beginning }
    {
        CopyMachine {
            alloc,
            phase: CopyPhase::Beginning,
        }
    }

    /// Its next event.
    #[tactic(auto, using(crate::proofs::CopyPlaces::places))]
    pub fn next(&self) -> CopyAsk
        ensures ask { result ≡ copy_ask_of self.now }
    {
        match &self.phase {
            CopyPhase::Beginning => CopyAsk::Lock,
            CopyPhase::Copying(_, sources, asked) => {
                let all = sources.as_slice();
                if *asked < all.len() {
                    let source = &all[*asked];
                    CopyAsk::Copy(source.slot, source.leaf)
                } else {
                    CopyAsk::Ack
                }
            }
            CopyPhase::Carrying(_) => CopyAsk::Reserve,
            CopyPhase::Nearing(_) => CopyAsk::Enter,
            CopyPhase::Within(_, buckets, at_root, in_zone) => {
                let all = buckets.as_slice();
                if *at_root < all.len() {
                    CopyAsk::RaiseRoot(all[*at_root])
                } else if *in_zone < all.len() {
                    CopyAsk::RaiseZone(all[*in_zone])
                } else {
                    CopyAsk::Put
                }
            }
            CopyPhase::Telling(_) => CopyAsk::Ack,
            CopyPhase::Over(_) => CopyAsk::Finished,
        }
    }

    /// The rows that it has copied, until its replica is opened with them.
    pub fn rows(&self) -> Option<&RowList>
        ensures rows { option_copied result ≡ rows_copied self.now }
    {
        match &self.phase {
            CopyPhase::Carrying(rows) => Some(rows),
            CopyPhase::Nearing(rows) => Some(rows),
            CopyPhase::Within(rows, _, _, _) => Some(rows),
            _ => None,
        }
    }

    /// Goes on by what its last event came to. It takes memory only where a replica's leaf was down.
    pub fn told(self, told: CopyTold) -> Result<CopyMachine, OutOfMemory>
        ensures after { IfOk result (λ next. next ≡ copied_after self told) }
        ensures memory { OnErr result (SaysDown told) }
    {
        let alloc = self.alloc;
        let phase = match self.phase {
            CopyPhase::Beginning => at_lock(alloc, told),
            CopyPhase::Copying(founds, sources, asked) => by_source(founds, sources, asked, told)?,
            CopyPhase::Carrying(rows) => match told {
                CopyTold::HasRoom => CopyPhase::Nearing(rows),
                CopyTold::WasDown(cut) => CopyPhase::Telling(Outcome::NoTarget(cut)),
                _ => CopyPhase::Carrying(rows),
            },
            CopyPhase::Nearing(rows) => match told {
                CopyTold::Admits(buckets) => CopyPhase::Within(rows, buckets, 0, 0),
                CopyTold::WasDown(cut) => CopyPhase::Telling(Outcome::NoTarget(cut)),
                _ => CopyPhase::Nearing(rows),
            },
            CopyPhase::Within(rows, buckets, at_root, in_zone) => {
                within(rows, buckets, at_root, in_zone, told)
            }
            CopyPhase::Telling(outcome) => match told {
                CopyTold::WasDone => CopyPhase::Over(outcome),
                _ => CopyPhase::Telling(outcome),
            },
            CopyPhase::Over(outcome) => CopyPhase::Over(outcome),
        };
        Ok(CopyMachine { alloc, phase })
    }

    /// How it came out.
    pub fn finish(self) -> Outcome
        requires over { copy_ask_of self ≡ Finished }
        ensures end { CopyEndsSo self result }
    {
        match self.phase {
            CopyPhase::Over(outcome) => outcome,
            _ => unreachable!(),
        }
    }
}

#[tactic(auto, using(crate::proofs::CopyPlaces::places))]
fn at_lock(alloc: Global, told: CopyTold) -> CopyPhase
    ensures after { copy_stage_of result ≡ spec.told_at_lock told }
{
    match told {
        CopyTold::Sources(replicas) => asking(Vec::new(alloc), replicas, 0),
        CopyTold::Denies(why) => CopyPhase::Telling(Outcome::Denied(why)),
        _ => CopyPhase::Beginning,
    }
}

// It asks the next replica, and gives up where there is none.
#[tactic(auto, using(crate::proofs::CopyPlaces::places))]
fn asking(founds: Vec<FoundDown>, sources: SlotLeaves, asked: usize) -> CopyPhase
    ensures after { copy_stage_of result ≡ spec.copying founds.items (drop asked sources) }
{
    if asked < sources.as_slice().len() {
        CopyPhase::Copying(founds, sources, asked)
    } else {
        CopyPhase::Telling(Outcome::NoSource(Founds::from_vec(founds)))
    }
}

#[tactic(auto, using(crate::proofs::CopyPlaces::places))]
fn by_source(
    founds: Vec<FoundDown>,
    sources: SlotLeaves,
    asked: usize,
    told: CopyTold,
) -> Result<CopyPhase, OutOfMemory>
    ensures after { IfOk result (λ phase. copy_stage_of phase
        ≡ copied_after (Copying founds.items (drop asked sources)) told) }
    ensures memory { OnErr result (SaysDown told) }
{
    let mut founds = founds;
    if asked >= sources.as_slice().len() {
        return Ok(CopyPhase::Copying(founds, sources, asked));
    }
    match told {
        CopyTold::Gives(rows) => Ok(CopyPhase::Carrying(rows)),
        CopyTold::WasDown(cut) => {
            let leaf = sources.as_slice()[asked].leaf;
            founds.push(FoundDown { leaf, cut })?;
            Ok(asking(founds, sources, asked + 1))
        }
        _ => Ok(CopyPhase::Copying(founds, sources, asked)),
    }
}

#[tactic(auto, using(crate::proofs::CopyPlaces::places))]
fn within(
    rows: RowList,
    buckets: Buckets,
    at_root: usize,
    in_zone: usize,
    told: CopyTold,
) -> CopyPhase
    ensures after { copy_stage_of result
        ≡ spec.told_within rows (drop at_root buckets) (drop in_zone buckets) told }
{
    let count = buckets.as_slice().len();
    match told {
        CopyTold::WasDone => {
            if at_root < count {
                CopyPhase::Within(rows, buckets, at_root + 1, in_zone)
            } else if in_zone < count {
                CopyPhase::Within(rows, buckets, at_root, in_zone + 1)
            } else {
                CopyPhase::Within(rows, buckets, at_root, in_zone)
            }
        }
        CopyTold::WasOpened(slot) => {
            if at_root < count || in_zone < count {
                CopyPhase::Within(rows, buckets, at_root, in_zone)
            } else {
                CopyPhase::Telling(Outcome::Opens(slot))
            }
        }
        _ => CopyPhase::Within(rows, buckets, at_root, in_zone),
    }
}
