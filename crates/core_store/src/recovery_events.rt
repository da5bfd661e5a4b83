// The events of a recovery, each at the seat that it needs.
ghost use Rattle.std.specs.Prelude.{◌≡◌, ◌<◌, ◌++◌, ◌∷◌, ◌||◌, [], ℕ, None, false, length, IfOk, OnOk};
ghost use Rattle.leaf_store.specs.LeafStates.{is_unraised};
ghost use Rattle.mon_hints.specs.BucketSets.{is_set};
ghost use Rattle.mon_topo.specs.Sights.{AreAlike};
ghost use Rattle.mon_value.specs.LeafHistories.{IsWellFormed, is_switch};
ghost use Rattle.core_store.specs.RecoveryEvents as spec;
ghost use Rattle.core_store.specs.RecoveryEvents.{AreAllToRaise, AsksLeafIf, IsAdmitted, LocksToOpenIf, MeetsLeaf};
ghost use Rattle.core_store.specs.RecoveryEvents.{Lists, TellsRange, nobody, tells_room, tells_rows};
ghost use Rattle.write_core.specs.CopySteps.{newcomer};

use crate::leaves::LeafSeat;
use crate::ranges::RangeSeat;
use leaf_store::LeafState;
use mon_hints::{BucketSet, Buckets};
use mon_topo::Sight;
use mon_value::{Entry, Leaf, OutOfMemory, Range, Row, RowList, SeriesKey, Slot};
use std::alloc::Global;
use write_core::{CopyTold, Outcome, RangeReplay};

/// A recovery takes its range's lock, and is told which replicas serve, or why the range opens none on the leaf. The
/// range keeps its room for an acknowledgement.
pub(crate) fn lock_to_open(
    seat: &mut RangeSeat,
    number: u32,
    range: Range,
    leaf: Leaf,
    sight: &mut Sight,
) -> Result<Option<CopyTold>, OutOfMemory>
    requires alike { AreAlike sight.old seat.old.sight }
    requires there { range.0 < length seat.old.sight.ranges }
    ensures locks { IfOk result (LocksToOpenIf number range leaf seat.old seat.new sight.old sight.new) }
{
    if seat.holder.is_some() {
        return Ok(None);
    }
    seat.state.reserve()?;
    let told = opening_told(&seat.state, leaf)?;
    seat.holder = Some(number);
    seat.meet(range, sight);
    Ok(Some(told))
}

// What a range tells a recovery onto a leaf.
fn opening_told(state: &RangeReplay, leaf: Leaf) -> Result<CopyTold, OutOfMemory>
    ensures told { IfOk result (λ told. told ≡ spec.opening_told state.now.history leaf) }
{
    match state.denial(leaf) {
        Some(why) => Ok(CopyTold::Denies(why)),
        None => Ok(CopyTold::Sources(state.serving()?)),
    }
}

/// A leaf is asked for the rows of a replica.
pub(crate) fn copy_rows(
    seat: &mut LeafSeat,
    range: Range,
    slot: Slot,
    leaf: Leaf,
    sight: &mut Sight,
) -> Result<Option<CopyTold>, OutOfMemory>
    requires alike { AreAlike sight.old seat.old.sight }
    requires there { leaf.0 < length seat.old.sight.leaves }
    ensures asks { IfOk result
        (AsksLeafIf (tells_rows range slot) nobody leaf seat.old seat.new sight.old sight.new) }
{
    if seat.holder.is_some() {
        return Ok(None);
    }
    let told = rows_told(&seat.state, range, slot)?;
    seat.meet(leaf, sight);
    Ok(Some(told))
}

// The rows of a replica, if the leaf is up.
fn rows_told(state: &LeafState, range: Range, slot: Slot) -> Result<CopyTold, OutOfMemory>
    ensures told { IfOk result (tells_rows range slot state.now) }
{
    let length = state.length();
    if state.down() {
        return Ok(CopyTold::WasDown(length));
    }
    Ok(CopyTold::Gives(state.rows_at(range, slot, length)?))
}

/// A leaf is asked for room. That is made once the replica is opened, so a recovery leaves none behind.
pub(crate) fn room_for(seat: &mut LeafSeat, leaf: Leaf, sight: &mut Sight) -> Option<CopyTold>
    requires alike { AreAlike sight.old seat.old.sight }
    requires there { leaf.0 < length seat.old.sight.leaves }
    ensures asks { AsksLeafIf tells_room nobody leaf seat.old seat.new sight.old sight.new result }
{
    if seat.holder.is_some() {
        return None;
    }
    let told = room_told(&seat.state);
    seat.meet(leaf, sight);
    Some(told)
}

// Whether a leaf is up.
fn room_told(state: &LeafState) -> CopyTold
    ensures told { tells_room state.now result }
{
    if state.down() {
        CopyTold::WasDown(state.length())
    } else {
        CopyTold::HasRoom
    }
}

/// A recovery takes its leaf's lock, unless the leaf is down.
pub(crate) fn admit(
    alloc: Global,
    seat: &mut LeafSeat,
    number: u32,
    leaf: Leaf,
    rows: &RowList,
    sight: &mut Sight,
) -> Result<Option<CopyTold>, OutOfMemory>
    requires alike { AreAlike sight.old seat.old.sight }
    requires there { leaf.0 < length seat.old.sight.leaves }
    ensures asks { IfOk result
        (AsksLeafIf (IsAdmitted rows.now) (newcomer number) leaf seat.old seat.new sight.old sight.new) }
{
    if seat.holder.is_some() {
        return Ok(None);
    }
    if seat.state.down() {
        let told = CopyTold::WasDown(seat.state.length());
        seat.meet(leaf, sight);
        return Ok(Some(told));
    }
    let buckets = unraised(alloc, &seat.state, rows.as_slice())?;
    seat.holder = Some(number);
    seat.meet(leaf, sight);
    Ok(Some(CopyTold::Admits(buckets)))
}

// The buckets of these rows' series that no series of a leaf has, rising.
fn unraised(alloc: Global, state: &LeafState, rows: &[Row]) -> Result<Buckets, OutOfMemory>
    ensures unraised { IfOk result (AreAllToRaise state.now rows.now) }
{
    let mut set = BucketSet::new();
    for row in rows {
        add_unraised(state, &row.key, &mut set);
    }
    listed(alloc, &set)
}

// Adds the buckets of a series that no series of a leaf has.
fn add_unraised(state: &LeafState, key: &SeriesKey, set: &mut BucketSet)
    ensures added { (bucket : ℕ) → is_set set.new.words bucket ≡ (is_set set.old.words bucket
        || is_unraised state.now.buckets state.now.schemas state.now.history key.now bucket) }
{
    let mut from = 0;
    while let Some(bucket) = state.next_unraised(key, from) {
        set.insert(bucket);
        from = bucket + 1;
    }
}

// The buckets of a set, rising.
fn listed(alloc: Global, set: &BucketSet) -> Result<Buckets, OutOfMemory>
    ensures listed { IfOk result (Lists (is_set set.now.words)) }
{
    let mut buckets = Buckets::new(alloc);
    let mut from = 0;
    while let Some(bucket) = set.next(from) {
        buckets.push(bucket)?;
        from = bucket + 1;
    }
    Ok(buckets)
}

/// A leaf's history has one entry more, and the leaf is let go of.
pub(crate) fn open_replica(
    alloc: Global,
    seat: &mut LeafSeat,
    leaf: Leaf,
    entry: Entry,
    sight: &mut Sight,
) -> Result<(), OutOfMemory>
    requires alike { AreAlike sight.old seat.old.sight }
    requires there { leaf.0 < length seat.old.sight.leaves }
    requires rows { is_switch entry ≡ false }
    requires follows { IsWellFormed (seat.old.state.history ++ entry ∷ []) }
    ensures puts { OnOk result
        (MeetsLeaf leaf (seat.old.state.history ++ entry ∷ []) None seat.old seat.new sight.old sight.new) }
{
    seat.append(alloc, entry)?;
    seat.holder = None;
    seat.meet(leaf, sight);
    Ok(())
}

/// A range is told how a recovery of it onto a leaf came out, and is let go of.
pub(crate) fn tell_range(
    seat: &mut RangeSeat,
    number: u32,
    range: Range,
    leaf: Leaf,
    outcome: &Outcome,
    sight: &mut Sight,
) -> Result<(), OutOfMemory>
    requires alike { AreAlike sight.old seat.old.sight }
    requires there { range.0 < length seat.old.sight.ranges }
    ensures tells { OnOk result (TellsRange outcome.now number range leaf seat.old seat.new sight.old sight.new) }
{
    if let Outcome::Opens(slot) = outcome {
        seat.state.open(u64::from(number), *slot, leaf)?;
    }
    seat.holder = None;
    seat.meet(range, sight);
    Ok(())
}
