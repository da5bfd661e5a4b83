// The events of a write, each at the seat that it needs.
ghost use Rattle.std.specs.Prelude.{◌≡◌, ◌<◌, ◌≤◌, ◌++◌, ◌∷◌, [], false, length, IfOk, OnOk};
ghost use Rattle.mon_value.specs.LeafHistories.{IsWellFormed, is_switch};
ghost use Rattle.mon_topo.specs.RangeHistories.{turn_ack};
ghost use Rattle.mon_topo.specs.Sights.{AreAlike};
ghost use Rattle.mon_value.specs.LeafHistories.{turn_entry};
ghost use Rattle.core_store.specs.WriteEvents.{AreTurnsToRaise, EntersIf, LetsGo, LocksIf, Puts, RaisesBit};
ghost use Rattle.core_store.specs.WriteEvents.{ReservesIf, turn_answer};
ghost use Rattle.core_store.specs.Writers.{IsKeyed, change_turn};
ghost use Rattle.write_core.specs.Replays.{HasAckRoom};

use crate::leaves::LeafSeat;
use crate::ranges::RangeSeat;
use crate::writes::{Change, Writing};
use leaf_store::LeafState;
use mon_hints::Buckets;
use mon_topo::Sight;
use mon_value::{Ack, Entry, Leaf, OutOfMemory, Range, Slot, TryCopy};
use std::alloc::Global;
use write_core::{RangeReplay, WriteEnd, WriteTold};

/// A write takes its range's lock, room is made for its acknowledgement, and it is told whether what it brings goes in,
/// of a range that holds so many rows at most.
pub(crate) fn lock(
    seat: &mut RangeSeat,
    limit: u64,
    writing: &mut Writing,
    sight: &mut Sight,
) -> Result<bool, OutOfMemory>
    requires alike { AreAlike sight.old seat.old.sight }
    requires there { writing.old.range.0 < length seat.old.sight.ranges }
    ensures locks { IfOk result (LocksIf limit seat.old seat.new writing.old writing.new sight.old sight.new) }
{
    if seat.holder.is_some() {
        return Ok(false);
    }
    seat.state.reserve()?;
    let told = answer(&seat.state, &writing.change, limit)?;
    writing.machine.told(told)?;
    seat.holder = Some(writing.number);
    seat.meet(writing.range, sight);
    Ok(true)
}

// What a write is told that takes the lock, of a range that holds so many rows at most: a trim always goes in.
fn answer(state: &RangeReplay, change: &Change, limit: u64) -> Result<WriteTold, OutOfMemory>
    ensures told { IfOk result (λ told. told ≡ turn_answer limit state.now.history (change_turn change.now)) }
{
    match change {
        Change::Adds(row, _) => state.answer(row, limit),
        Change::Hides(_) => Ok(WriteTold::Slots(state.serving()?)),
    }
}

/// A write asks a leaf for room. That is made once its entry is put, so a write leaves none behind.
pub(crate) fn reserve(
    alloc: Global,
    seat: &mut LeafSeat,
    leaf: Leaf,
    writing: &mut Writing,
    sight: &mut Sight,
) -> Result<bool, OutOfMemory>
    requires alike { AreAlike sight.old seat.old.sight }
    requires there { leaf.0 < length seat.old.sight.leaves }
    ensures reserves { IfOk result (ReservesIf leaf seat.old seat.new writing.old writing.new sight.old sight.new) }
{
    if seat.holder.is_some() {
        return Ok(false);
    }
    if seat.state.down() {
        writing.machine.told(WriteTold::Down(seat.state.length()))?;
    } else {
        writing.machine.told(WriteTold::Up(Buckets::new(alloc)))?;
    }
    seat.meet(leaf, sight);
    Ok(true)
}

/// A write takes a leaf's lock, unless the leaf is down.
pub(crate) fn enter(
    alloc: Global,
    seat: &mut LeafSeat,
    leaf: Leaf,
    writing: &mut Writing,
    sight: &mut Sight,
) -> Result<bool, OutOfMemory>
    requires alike { AreAlike sight.old seat.old.sight }
    requires there { leaf.0 < length seat.old.sight.leaves }
    ensures enters { IfOk result (EntersIf leaf seat.old seat.new writing.old writing.new sight.old sight.new) }
{
    if seat.holder.is_some() {
        return Ok(false);
    }
    if seat.state.down() {
        writing.machine.told(WriteTold::Down(seat.state.length()))?;
    } else {
        let buckets = unraised(alloc, &seat.state, &writing.change)?;
        writing.machine.told(WriteTold::Up(buckets))?;
        writing.inside = Some(leaf);
        seat.holder = Some(writing.number);
    }
    seat.meet(leaf, sight);
    Ok(true)
}

// The buckets that are still to be raised for what a write brings: none for a trim.
fn unraised(alloc: Global, state: &LeafState, change: &Change) -> Result<Buckets, OutOfMemory>
    ensures raise { IfOk result (AreTurnsToRaise state.now (change_turn change.now)) }
{
    match change {
        Change::Adds(row, _) => state.unraised(alloc, &row.key),
        Change::Hides(_) => Ok(Buckets::new(alloc)),
    }
}

/// A write has set a bit for the leaf that it is inside of.
pub(crate) fn raise(
    seat: &mut LeafSeat,
    leaf: Leaf,
    writing: &mut Writing,
    sight: &mut Sight,
) -> Result<(), OutOfMemory>
    requires alike { AreAlike sight.old seat.old.sight }
    requires there { leaf.0 < length seat.old.sight.leaves }
    ensures raises { OnOk result (RaisesBit leaf seat.old seat.new writing.old writing.new sight.old sight.new) }
{
    writing.machine.told(WriteTold::Done)?;
    seat.meet(leaf, sight);
    Ok(())
}

/// What a write brings comes to a replica on a leaf, and the write lets go of the leaf.
pub(crate) fn put(
    alloc: Global,
    seat: &mut LeafSeat,
    slot: Slot,
    leaf: Leaf,
    writing: &mut Writing,
    sight: &mut Sight,
) -> Result<(), OutOfMemory>
    requires alike { AreAlike sight.old seat.old.sight }
    requires there { leaf.0 < length seat.old.sight.leaves }
    requires follows { IsWellFormed (seat.old.state.history
        ++ turn_entry writing.old.number writing.old.range slot (change_turn writing.old.change) ∷ []) }
    ensures puts { OnOk result (Puts slot leaf seat.old seat.new writing.old writing.new sight.old sight.new) }
{
    let entry = entry_for(alloc, writing.number, writing.range, slot, &writing.change)?;
    seat.append(alloc, entry)?;
    writing.machine.told(WriteTold::Done)?;
    writing.inside = None;
    seat.holder = None;
    seat.meet(leaf, sight);
    Ok(())
}

// The entry by which what a write brings comes to a replica.
fn entry_for(
    alloc: Global,
    number: u32,
    range: Range,
    slot: Slot,
    change: &Change,
) -> Result<Entry, OutOfMemory>
    ensures entry { IfOk result (λ entry. entry ≡ turn_entry number range slot (change_turn change.now)) }
    ensures rows { IfOk result (λ entry. is_switch entry ≡ false) }
{
    let pass = u64::from(number);
    match change {
        Change::Adds(row, _) => Ok(Entry::Put {
            pass,
            range,
            slot,
            row: row.copy(alloc)?,
        }),
        Change::Hides(before) => Ok(Entry::Trim {
            pass,
            range,
            slot,
            before: *before,
        }),
    }
}

/// A write that has ended so tells its range what became of what it brought, and lets go of it.
pub(crate) fn let_go(
    seat: &mut RangeSeat,
    number: u32,
    change: Change,
    range: Range,
    end: &WriteEnd,
    sight: &mut Sight,
)
    requires alike { AreAlike sight.old seat.old.sight }
    requires there { range.0 < length seat.old.sight.ranges }
    requires room { HasAckRoom seat.old.state }
    requires key { IsKeyed change }
    ensures lets_go { LetsGo end.now number (change_turn change) range seat.old seat.new sight.old sight.new }
{
    if let WriteEnd::Written(ack) = end {
        tell_written(&mut seat.state, u64::from(number), change, ack);
    }
    seat.holder = None;
    seat.meet(range, sight);
}

// A range is told that what a write brought was written. No memory is taken.
fn tell_written(state: &mut RangeReplay, pass: u64, change: Change, ack: &Ack)
    requires room { HasAckRoom state.old }
    requires key { IsKeyed change }
    ensures told { state.new.history ≡ state.old.history ++ turn_ack pass (change_turn change) ack.now ∷ [] }
{
    match change {
        Change::Adds(row, key) => state.acknowledge(key, pass, row, ack),
        Change::Hides(before) => state.trim(pass, before, ack),
    }
}
