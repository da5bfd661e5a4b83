// A result that is kept over rows and moments that come in turn.
ghost use Rattle.std.specs.Prelude.{◌≤◌, ◌≤ℤ◌, ◌^◌, [], pos, OnOk};
ghost use Rattle.mon_value.specs.LeafHistories.{IsSource};
ghost use Rattle.mon_value.specs.declared.limits.TheConstants.{ROW_BITS};
ghost use Rattle.typed_trees.specs.Nodes.{typed_tree};
ghost use Rattle.typed_trees.specs.Soundness.{IsTyped};
ghost use Rattle.standing_incr.specs.Turns.{CanReplay, HoldsAll, IsReplayed, MomentsRise, added, moment_after};

use crate::faults::ReplayFault;
use crate::kept::Kept;
use mon_value::{ListOf, OutOfMemory, Refusal, Row, Table};
use std::alloc::Global;
use typed_trees::Typed;

/// A row more, or a later moment.
#[derive(Drop)]
pub enum Turn {
    Add(Row),
    Advance(i64),
}

/// Rows and moments in the order in which they come.
pub type Turns = ListOf<Turn>;

/// What a query means over all rows that were added, at the last moment.
pub fn replay(
    alloc: Global,
    typed: Typed,
    moment: i64,
    turns: &Turns,
    limit: u64,
) -> Result<Table, Refusal<ReplayFault>>
    requires typed { IsTyped (typed_tree typed) (added turns.now) }
    requires source { IsSource (added turns.now) }
    requires moment { pos 0 ≤ℤ moment }
    requires rise { MomentsRise moment turns.now }
    requires limit { limit ≤ 2 ^ ROW_BITS }
    ensures answer { IsReplayed (typed_tree typed) (added turns.now) (moment_after moment turns.now) limit result }
{
    match Kept::new(alloc, typed, moment) {
        Ok(kept) => replay_over(kept, turns.as_slice(), limit),
        Err(Refusal::Fault(fault)) => Err(Refusal::Fault(ReplayFault::NotIncremental(fault))),
        Err(Refusal::OutOfMemory) => Err(Refusal::OutOfMemory),
    }
}

// What a result without rows comes to once all turns were taken.
fn replay_over(kept: Kept, turns: &[Turn], limit: u64) -> Result<Table, Refusal<ReplayFault>>
    requires begins { CanReplay kept turns.now }
    requires limit { limit ≤ 2 ^ ROW_BITS }
    ensures answer { IsReplayed (typed_tree kept.typed) (added turns.now) (moment_after kept.moment turns.now) limit result }
{
    let mut kept = kept;
    let answer = result_after(&mut kept, turns, limit);
    drop(kept);
    answer
}

// The same of a result that is lent.
fn result_after(kept: &mut Kept, turns: &[Turn], limit: u64) -> Result<Table, Refusal<ReplayFault>>
    requires begins { CanReplay kept.old turns.now }
    requires limit { limit ≤ 2 ^ ROW_BITS }
    ensures answer { IsReplayed (typed_tree kept.old.typed) (added turns.now) (moment_after kept.old.moment turns.now)
        limit result }
{
    take_turns(kept, turns)?;
    match kept.result(limit) {
        Ok(table) => Ok(table),
        Err(Refusal::Fault(over)) => Err(Refusal::Fault(ReplayFault::OverLimit(over))),
        Err(Refusal::OutOfMemory) => Err(Refusal::OutOfMemory),
    }
}

// Takes all turns.
fn take_turns(kept: &mut Kept, turns: &[Turn]) -> Result<(), OutOfMemory>
    requires begins { CanReplay kept.old turns.now }
    ensures taken { OnOk result (HoldsAll kept.old turns.now turns.now [] kept.new) }
{
    for turn in turns {
        match turn {
            Turn::Add(row) => kept.add(row)?,
            Turn::Advance(moment) => kept.advance(*moment)?,
        }
    }
    Ok(())
}
