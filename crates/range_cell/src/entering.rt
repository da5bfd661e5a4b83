// A turn between the range's lock and its acknowledgement: what it takes along, and its way over the leaves.
ghost use Rattle.std.specs.Prelude.{◌≡◌, ℕ, [], length, IfOk, OnErr};
ghost use Rattle.mon_value.specs.Turns.{Adds};
ghost use Rattle.range_cell.specs.Deeds.{IsStocked, turn_of};
ghost use Rattle.range_cell.specs.Stages.{BeginsSomehow, IsBeginning, IsThroughAt, IsWithdrawing};
ghost use Rattle.write_core.specs.Program.{Locking, after};
ghost use Rattle.write_core.specs.declared.asks.WriteTold.TheVariants as told;

use crate::copies::Copies;
use crate::deeds::Deed;
use crate::loops::write_through;
use crate::sides::LeafSide;
use know::{Know, Names};
use mon_value::{OutOfMemory, Range, Row, SlotLeaves, TryCopy};
use std::alloc::Global;
use std::sync::Wait;
use write_core::{WriteMachine, WriteTold};

/// What a turn takes along, for which memory is taken before a leaf is asked for anything: its machine, and what it does
/// at each replica.
#[derive(Drop)]
pub(crate) struct Entering {
    pub(crate) machine: WriteMachine,
    pub(crate) deed: Deed,
}

/// A row to be put at so many replicas: itself for its range's own entry, and a copy for each of them.
pub(crate) fn row_deed(alloc: Global, row: &Row, count: usize) -> Result<Deed, OutOfMemory>
    ensures turn { IfOk result (λ deed. turn_of deed ≡ Adds row.now) }
    ensures stocked { IfOk result (λ deed. IsStocked count deed) }
{
    let key = row.key.copy(alloc)?;
    let copies = Copies::new(alloc, key, row.copy(alloc)?, count)?;
    Ok(Deed::Puts(copies))
}

/// Takes a turn to the leaves of the replicas that serve. Where memory runs out no room is left there, and no row.
pub(crate) fn enter_leaves<R: Wait, N: Names, S: LeafSide<N>>(
    rt: &R,
    alloc: Global,
    know: &mut Know<N>,
    leaves: &S,
    range: Range,
    deed: Deed,
    replicas: SlotLeaves,
) -> Result<Entering, OutOfMemory>
    requires begins { BeginsSomehow N.setting range (turn_of deed) replicas know.old }
    requires stocked { IsStocked (length replicas) deed }
    ensures through { (pass : ℕ) → IsBeginning N.setting range (turn_of deed) pass replicas know.old
        → IfOk result (λ entering.
        IsThroughAt range (turn_of deed) pass know.old replicas know.new entering.machine.stage) }
    ensures withdrawn { (pass : ℕ) → IsBeginning N.setting range (turn_of deed) pass replicas know.old
        → OnErr result (IsWithdrawing range pass know.old replicas know.new []) }
    ensures turn { IfOk result (λ entering. turn_of entering.deed ≡ turn_of deed) }
    ensures range { IfOk result (λ entering. entering.machine.range ≡ range) }
{
    let mut entering = prepared(alloc, range, deed, replicas)?;
    write_through(
        rt,
        alloc,
        &mut entering.machine,
        know,
        leaves,
        range,
        &mut entering.deed,
    )?;
    Ok(entering)
}

// What a turn takes along to these replicas.
fn prepared(
    alloc: Global,
    range: Range,
    deed: Deed,
    replicas: SlotLeaves,
) -> Result<Entering, OutOfMemory>
    ensures stage { IfOk result (λ entering. entering.machine.stage ≡ after Locking (told.Slots replicas)) }
    ensures range { IfOk result (λ entering. entering.machine.range ≡ range) }
    ensures deed { IfOk result (λ entering. entering.deed ≡ deed) }
{
    let mut machine = WriteMachine::new(alloc, range);
    machine.told(WriteTold::Slots(replicas))?;
    Ok(Entering { machine, deed })
}
