// A turn goes over the leaves of its range.
ghost use Rattle.std.specs.Prelude.{◌≡◌, ◌≢◌, ◌≤◌, ◌<◌, ◌∷◌, [], ℕ, length, true, false, List, IfOk, OnErr, OnOk};
ghost use Rattle.history_book.specs.Seats.{times_room};
ghost use Rattle.know.specs.Knowledge.{Knowledge};
ghost use Rattle.mon_topo.specs.Zones.{leaves_in};
ghost use Rattle.mon_value.specs.declared.positions.Range as a_range;
ghost use Rattle.mon_value.specs.declared.positions.SlotLeaf as a_replica;
ghost use Rattle.owners.specs.Puts.{HasSeenOpened, MayTurn};
ghost use Rattle.range_cell.specs.Deeds.{IsStocked, turn_of};
ghost use Rattle.range_cell.specs.Stages.{AreApart, IsAt, IsQuiet, IsSomewhere, IsThroughAt, IsWithdrawing};
ghost use Rattle.range_cell.specs.Stages.{IsWithdrawn};
ghost use Rattle.range_cell.specs.Stages.{needed};
ghost use Rattle.range_cell.specs.Turns.{after_put};
ghost use Rattle.write_core.specs.Going.{going_marks};
ghost use Rattle.write_core.specs.Marks.{is_ready};
ghost use Rattle.write_core.specs.Program.{Locking, Stage, after, ask_of};
ghost use Rattle.write_core.specs.declared.asks.WriteAsk.TheVariants as ask;
ghost use Rattle.write_core.specs.declared.marks.Mark as a_mark;

use crate::deeds::Deed;
use crate::sides::LeafSide;
use crate::turns::told_of;
use know::{Found, Know, Names};
use mon_hints::Buckets;
use mon_value::{Leaf, OutOfMemory, Range, Slot};
use std::alloc::Global;
use std::sync::Wait;
use write_core::{Mark, WriteAsk, WriteMachine, WriteTold};

/// Goes over all leaves, or gives back all rooms where memory runs out.
pub(crate) fn write_through<R: Wait, N: Names, S: LeafSide<N>>(
    rt: &R,
    alloc: Global,
    machine: &mut WriteMachine,
    know: &mut Know<N>,
    leaves: &S,
    range: Range,
    deed: &mut Deed,
) -> Result<(), OutOfMemory>
    requires somewhere { IsSomewhere N.setting range (turn_of deed.old) know.old machine.old.stage }
    requires stocked { IsStocked (needed machine.old.stage) deed.old }
    ensures through { (pass : ℕ) (before : Knowledge) (replicas : List a_replica.SlotLeaf)
        → AreApart replicas → IsAt range (turn_of deed.old) pass before replicas know.old machine.old.stage
        → OnOk result (IsThroughAt range (turn_of deed.old) pass before replicas know.new machine.new.stage) }
    ensures withdrawn { (pass : ℕ) (before : Knowledge) (replicas : List a_replica.SlotLeaf)
        → AreApart replicas → IsAt range (turn_of deed.old) pass before replicas know.old machine.old.stage
        → OnErr result (IsWithdrawing range pass before replicas know.new []) }
    ensures turn { turn_of deed.new ≡ turn_of deed.old }
    ensures range { machine.new.range ≡ machine.old.range }
{
    match go_through(rt, alloc, machine, know, leaves, range, deed) {
        Ok(()) => Ok(()),
        Err(fault) => {
            cancel_all(machine.marks(), know, leaves);
            Err(fault)
        }
    }
}

// Goes over all leaves, until memory runs out.
fn go_through<R: Wait, N: Names, S: LeafSide<N>>(
    rt: &R,
    alloc: Global,
    machine: &mut WriteMachine,
    know: &mut Know<N>,
    leaves: &S,
    range: Range,
    deed: &mut Deed,
) -> Result<(), OutOfMemory>
    requires somewhere { IsSomewhere N.setting range (turn_of deed.old) know.old machine.old.stage }
    requires stocked { IsStocked (needed machine.old.stage) deed.old }
    ensures through { (pass : ℕ) (before : Knowledge) (replicas : List a_replica.SlotLeaf)
        → AreApart replicas → IsAt range (turn_of deed.old) pass before replicas know.old machine.old.stage
        → OnOk result (IsThroughAt range (turn_of deed.old) pass before replicas know.new machine.new.stage) }
    ensures refused { (pass : ℕ) (before : Knowledge) (replicas : List a_replica.SlotLeaf)
        → AreApart replicas → IsAt range (turn_of deed.old) pass before replicas know.old machine.old.stage
        → OnErr result (IsWithdrawing range pass before replicas know.new (going_marks machine.new.stage)) }
    ensures turn { turn_of deed.new ≡ turn_of deed.old }
    ensures range { machine.new.range ≡ machine.old.range }
{
    'events: for _ in rt.forever() {
        match turn(alloc, machine, know, leaves, range, deed) {
            Ok(true) => {}
            Ok(false) => return Ok(()),
            Err(fault) => return Err(fault),
        }
    }
    unreachable!()
}

// One event at a leaf. It says whether there was one.
fn turn<N: Names, S: LeafSide<N>>(
    alloc: Global,
    machine: &mut WriteMachine,
    know: &mut Know<N>,
    leaves: &S,
    range: Range,
    deed: &mut Deed,
) -> Result<bool, OutOfMemory>
    requires somewhere { IsSomewhere N.setting range (turn_of deed.old) know.old machine.old.stage }
    requires stocked { IsStocked (needed machine.old.stage) deed.old }
    ensures on { (pass : ℕ) (before : Knowledge) (replicas : List a_replica.SlotLeaf)
        → AreApart replicas → IsAt range (turn_of deed.old) pass before replicas know.old machine.old.stage
        → OnOk result (IsAt range (turn_of deed.old) pass before replicas know.new machine.new.stage) }
    ensures refused { (pass : ℕ) (before : Knowledge) (replicas : List a_replica.SlotLeaf)
        → AreApart replicas → IsAt range (turn_of deed.old) pass before replicas know.old machine.old.stage
        → OnErr result (IsWithdrawing range pass before replicas know.new (going_marks machine.new.stage)) }
    ensures stocked { OnOk result (IsStocked (needed machine.new.stage) deed.new) }
    ensures turn { turn_of deed.new ≡ turn_of deed.old }
    ensures range { machine.new.range ≡ machine.old.range }
    ensures ends { IfOk result (λ more. more ≡ false → IsQuiet (ask_of machine.new.stage)) }
{
    match machine.next() {
        WriteAsk::Reserve(slot, leaf) => {
            ask_for_room(alloc, machine, know, leaves, range, slot, leaf, deed)?;
            Ok(true)
        }
        WriteAsk::Enter(slot, leaf) => {
            put_at(alloc, machine, know, leaves, range, slot, leaf, deed);
            Ok(true)
        }
        _ => Ok(false),
    }
}

// Asks the leaf for room that the machine names.
fn ask_for_room<N: Names, S: LeafSide<N>>(
    alloc: Global,
    machine: &mut WriteMachine,
    know: &mut Know<N>,
    leaves: &S,
    range: Range,
    slot: Slot,
    leaf: Leaf,
    deed: &Deed,
) -> Result<(), OutOfMemory>
    requires asks { ask_of machine.old.stage ≡ ask.Reserve slot leaf }
    requires seen { HasSeenOpened N.setting know.old leaf range slot }
    ensures on { (pass : ℕ) (before : Knowledge) (replicas : List a_replica.SlotLeaf)
        → IsAt range (turn_of deed.now) pass before replicas know.old machine.old.stage
        → OnOk result (IsAt range (turn_of deed.now) pass before replicas know.new machine.new.stage) }
    ensures refused { (pass : ℕ) (before : Knowledge) (replicas : List a_replica.SlotLeaf)
        → IsAt range (turn_of deed.now) pass before replicas know.old machine.old.stage
        → OnErr result (IsWithdrawing range pass before replicas know.new (going_marks machine.new.stage)) }
    ensures needs { OnOk result (needed machine.new.stage ≤ needed machine.old.stage) }
    ensures range { machine.new.range ≡ machine.old.range }
{
    let found = deed.reserve(leaves, leaf, know, range, slot)?;
    tell(machine, told_of(alloc, found));
    Ok(())
}

// Brings the turn to the leaf that the machine names.
fn put_at<N: Names, S: LeafSide<N>>(
    alloc: Global,
    machine: &mut WriteMachine,
    know: &mut Know<N>,
    leaves: &S,
    range: Range,
    slot: Slot,
    leaf: Leaf,
    deed: &mut Deed,
)
    requires asks { ask_of machine.old.stage ≡ ask.Enter slot leaf }
    requires may { MayTurn N.setting know.old leaf range slot (turn_of deed.old) }
    requires stocked { IsStocked (needed machine.old.stage) deed.old }
    ensures on { (pass : ℕ) (before : Knowledge) (replicas : List a_replica.SlotLeaf)
        → AreApart replicas → IsAt range (turn_of deed.old) pass before replicas know.old machine.old.stage
        → IsAt range (turn_of deed.old) pass before replicas know.new machine.new.stage }
    ensures stocked { IsStocked (needed machine.new.stage) deed.new }
    ensures turn { turn_of deed.new ≡ turn_of deed.old }
    ensures range { machine.new.range ≡ machine.old.range }
{
    let found = deed.bring(leaves, leaf, know, range, slot);
    tell_put(alloc, machine, slot, leaf, found);
}

// The machine is told how a put went.
fn tell_put(alloc: Global, machine: &mut WriteMachine, slot: Slot, leaf: Leaf, found: Found)
    requires asks { ask_of machine.old.stage ≡ ask.Enter slot leaf }
    ensures after { machine.new.stage ≡ after_put machine.old.stage found }
    ensures range { machine.new.range ≡ machine.old.range }
{
    match found {
        Found::Up => {
            tell(machine, WriteTold::Up(Buckets::new(alloc)));
            tell(machine, WriteTold::Done);
        }
        Found::Down(cut) => tell(machine, WriteTold::Down(cut)),
    }
}

/// A machine behind the range's lock takes no memory.
pub(crate) fn tell(machine: &mut WriteMachine, told: WriteTold)
    requires begun { machine.old.stage ≢ Locking }
    ensures after { machine.new.stage ≡ after machine.old.stage told }
    ensures range { machine.new.range ≡ machine.old.range }
{
    if machine.told(told).is_err() {
        unreachable!();
    }
}

// Gives back the rooms of the replicas that have one.
fn cancel_all<N: Names, S: LeafSide<N>>(marks: &[Mark], know: &mut Know<N>, leaves: &S)
    requires somewhere { IsWithdrawn N.setting know.old marks.now }
    ensures back { (range : a_range.Range) (pass : ℕ) (before : Knowledge)
        (replicas : List a_replica.SlotLeaf) → IsWithdrawing range pass before replicas know.old marks.now
        → IsWithdrawing range pass before replicas know.new [] }
{
    for mark in marks {
        cancel_one(*mark, know, leaves);
    }
}

// Gives back the room of a replica, if it has one.
fn cancel_one<N: Names, S: LeafSide<N>>(mark: Mark, know: &mut Know<N>, leaves: &S)
    requires there { is_ready mark.fate ≡ true → mark.leaf.0 < length (leaves_in N.setting.zones) }
    requires room { is_ready mark.fate ≡ true → 0 < times_room mark.leaf know.old.purse.rooms }
    ensures back { (range : a_range.Range) (pass : ℕ) (before : Knowledge)
        (replicas : List a_replica.SlotLeaf) (left : List a_mark.Mark)
        → IsWithdrawing range pass before replicas know.old (mark ∷ left)
        → IsWithdrawing range pass before replicas know.new left }
{
    if mark.is_ready() {
        leaves.cancel(mark.leaf, know);
    }
}
