// The replay of a range's history.
ghost use Rattle.std.specs.Prelude.{◌≡◌, ◌<◌, ◌≤◌, ◌^◌, ◌+◌, ◌++◌, ◌∷◌, [], filter, length, not, slice_get, None, IfOk};
ghost use Rattle.std.specs.Prelude.{Contains, OnErr, OnOk, map};
ghost use Rattle.std.specs.List.{list_any};
ghost use Rattle.mon_topo.specs.RangeHistories.{acknowledged_rows, is_missed, is_on, opened_slots, serving};
ghost use Rattle.mon_topo.specs.RangeHistories.{first_serving, is_avoided};
ghost use Rattle.mon_topo.specs.Sights.{range_sight};
ghost use Rattle.mon_value.specs.Histories.{same_leaf, same_slot};
ghost use Rattle.write_core.specs.RangeAnswers.{lock_answer};
ghost use Rattle.mon_topo.specs.declared.limits.TheConstants.{MOST_SLOTS};
ghost use Rattle.write_core.specs.CopySteps.{next_slot};
ghost use Rattle.write_core.specs.Recovering.{denial_of, denied_by};
ghost use Rattle.write_core.specs.Replays.{HasAckRoom, HasReplicaRoom};
ghost use Rattle.write_core.specs.Retirements.{retirement_of};

use crate::asks::WriteTold;
use crate::copies::Denial;
use crate::kept_entries::KeptEntries;
use crate::refusals::Refused;
use crate::retirements::Retirement;
use mon_topo::{MOST_REPLICAS, MOST_SLOTS, RangeSight};
use mon_value::{
    Ack, Leaf, Leaves, Miss, OutOfMemory, RangeEntry, Row, SeriesKey, Shared, Slot, SlotLeaf,
    SlotLeaves,
};
use std::alloc::Global;
use std::marker::Model;

/// The replay of a range's history: the replicas that serve, how many were opened, and how many rows were acknowledged;
/// the history itself tells the end of the last row of each series. Contracts see the history, and the room that was
/// made for more of it, beside an entry for each replica that serves: the one of its retirement.
#[derive(Drop)]
pub struct RangeReplay {
    alloc: Global,
    history: KeptEntries,
    serving: Vec<SlotLeaf>,
    count: u64,
    opened: u64,
    // The place of the last row's series, and the one that would come next if places go on as they did. They are guesses,
    // so what is told does not depend on them.
    place: usize,
    next: usize,
}

impl Model for RangeReplay {
    ghost use Rattle.std.specs.Prelude.{◌≡◌, ◌-◌, ◌≤◌, length, vec_capacity};
    ghost use Rattle.mon_topo.specs.RangeHistories as histories;
    ghost use Rattle.write_core.specs.Replays.{Replay};

    ghost Value = { Replay };

    ghost view = { λ replay. record {
      history = replay.history.items;
      entry_room = replay.history.spare - length replay.serving.items;
      series_room = replay.history.series_spare;
      replica_room = vec_capacity replay.serving - length replay.serving.items;
    } };

    ghost invariant = { λ replay. record {
      serve : replay.serving.items ≡ histories.serving replay.history.items;
      count : replay.count ≡ length (histories.acknowledged_rows replay.history.items);
      opened : replay.opened ≡ length (histories.opened_slots replay.history.items);
      retirements : length replay.serving.items ≤ replay.history.spare;
    } };
}

impl RangeReplay {
    /// A range without replicas.
    pub fn new(alloc: Global) -> RangeReplay
        ensures new { result.history ≡ [] }
    {
        RangeReplay {
            alloc,
            history: KeptEntries::new(alloc),
            serving: Vec::new(alloc),
            count: 0,
            opened: 0,
            place: 0,
            next: 0,
        }
    }

    /// A replica is opened on a leaf. Where memory runs out nothing changes.
    pub fn open(&mut self, pass: u64, slot: Slot, leaf: Leaf) -> Result<(), OutOfMemory>
        ensures opened { OnOk result (self.new.history ≡ self.old.history ++ RangeEntry.Opened pass slot leaf ∷ []) }
        ensures kept { OnErr result (self.new.history ≡ self.old.history) }
    {
        self.reserve_replica()?;
        self.open_in_room(pass, slot, leaf);
        Ok(())
    }

    /// Makes room for one replica more, and for its retirement.
    pub fn reserve_replica(&mut self) -> Result<(), OutOfMemory>
        ensures history { self.new.history ≡ self.old.history }
        ensures room { OnOk result (HasReplicaRoom self.new) }
    {
        self.history.reserve(self.serving.as_slice().len() + 2)?;
        self.serving.reserve(1)?;
        Ok(())
    }

    /// A replica is opened on a leaf, in room that was made before.
    #[tactic(auto, using(crate::proofs::ReplayLemmas::ranges))]
    pub fn open_in_room(&mut self, pass: u64, slot: Slot, leaf: Leaf)
        requires room { HasReplicaRoom self.old }
        ensures opened { self.new.history ≡ self.old.history ++ RangeEntry.Opened pass slot leaf ∷ [] }
    {
        self.serving.push_reserved(SlotLeaf { slot, leaf });
        self.opened = one_slot_more(self.opened, &self.history);
        self.history.push_opened(pass, slot, leaf);
    }

    /// Why no replica is opened on a leaf, if there is a reason.
    pub fn denial(&self, leaf: Leaf) -> Option<Denial>
        ensures why { result ≡ denial_of self.now.history leaf }
    {
        match first_on(self.serving.as_slice(), leaf) {
            Some(replica) => Some(Denial::ServesThere(replica.slot)),
            None => denied_by_count(self.serving.as_slice().len(), self.opened),
        }
    }

    /// The slot of the next replica.
    pub fn next_slot(&self) -> Slot
        requires free { length (opened_slots self.now.history) < MOST_SLOTS }
        ensures slot { result ≡ next_slot self.now.history }
    {
        Slot(self.opened as u32)
    }

    /// The replicas that serve.
    pub fn serving(&self) -> Result<SlotLeaves, OutOfMemory>
        ensures serve { IfOk result (λ replicas. replicas ≡ serving self.now.history) }
    {
        Ok(SlotLeaves::from_vec(self.serving.as_slice().to_vec(self.alloc)?))
    }

    /// What a write of a row is told that takes the lock, of a range that holds so many rows at most.
    pub fn answer(&self, row: &Row, limit: u64) -> Result<WriteTold, OutOfMemory>
        ensures told { IfOk result (λ told. told ≡ lock_answer limit self.now.history row.now) }
    {
        match Refused::why(
            self.history.last(self.next, &row.key),
            limit,
            self.count,
            &row.point,
        ) {
            Some(why) => Ok(why.told()),
            None => Ok(WriteTold::Slots(SlotLeaves::from_vec(
                self.serving.as_slice().to_vec(self.alloc)?,
            ))),
        }
    }

    /// Makes room for an acknowledgement, whatever its row or its bound.
    pub fn reserve(&mut self) -> Result<(), OutOfMemory>
        ensures history { self.new.history ≡ self.old.history }
        ensures room { OnOk result (HasAckRoom self.new) }
    {
        self.history.reserve(self.serving.as_slice().len() + 1)?;
        self.history.reserve_series()
    }

    /// A row is acknowledged, in room that was made before. The replicas that missed it serve no more. No memory is taken.
    pub fn acknowledge(&mut self, key: Shared<SeriesKey>, pass: u64, row: Row, ack: &Ack)
        requires key { key ≡ row.key }
        requires room { HasAckRoom self.old }
        ensures acknowledged { self.new.history ≡ self.old.history ++ RangeEntry.Acked pass row ack.now ∷ [] }
    {
        drop_missed(&mut self.serving, ack.missed.as_slice());
        self.count = one_more(self.count, &self.history);
        let place = self.history.push_acked(self.next, key, pass, row, ack);
        self.next = place.wrapping_add(place.wrapping_sub(self.place));
        self.place = place;
    }

    /// A trim is acknowledged, in room that was made before. The replicas that missed it serve no more. No memory is taken.
    pub fn trim(&mut self, pass: u64, before: i64, ack: &Ack)
        requires room { HasAckRoom self.old }
        ensures trimmed { self.new.history ≡ self.old.history ++ RangeEntry.Trimmed pass before ack.now ∷ [] }
    {
        drop_missed(&mut self.serving, ack.missed.as_slice());
        self.history.push_trimmed(pass, before, ack);
    }

    /// What becomes of a retirement of the range's replica on a leaf.
    pub fn retirement(&self, leaf: Leaf) -> Retirement
        ensures told { result ≡ retirement_of self.now.history leaf }
    {
        match first_on(self.serving.as_slice(), leaf) {
            Some(replica) => Retirement::among(replica, self.serving.as_slice().len()),
            None => Retirement::NotServing,
        }
    }

    /// A replica serves no more, in the room that was made with its opening. No memory is taken.
    pub fn retire(&mut self, pass: u64, slot: Slot)
        requires serves { Contains (map (λ replica. replica.slot) (serving self.old.history)) slot }
        ensures retired { self.new.history ≡ self.old.history ++ RangeEntry.Retired pass slot ∷ [] }
    {
        drop_slot(&mut self.serving, slot);
        self.history.push_retired(pass, slot);
    }

    /// The first replica that serves and is on none of these leaves.
    pub fn resolve(&self, avoided: &Leaves) -> Option<SlotLeaf>
        ensures first { result ≡ first_serving avoided.now self.now.history }
    {
        first_off(self.serving.as_slice(), avoided.as_slice())
    }

    /// What who sees all of the history sees.
    pub fn sight(&self) -> RangeSight
        ensures sight { result ≡ range_sight self.now.history }
    {
        RangeSight {
            length: self.length(),
            first: self.serving.first().copied(),
        }
    }

    /// How many entries the history has.
    pub fn length(&self) -> u64
        ensures count { result ≡ length self.now.history }
        ensures short { result < 2 ^ 62 }
    {
        self.history.len() as u64
    }
}

// One row more than those that this history acknowledges.
fn one_more(count: u64, history: &KeptEntries) -> u64
    requires count { count ≡ length (acknowledged_rows history.now.items) }
    ensures more { result ≡ count + 1 }
{
    let entries = history.len() as u64;
    prove!(count <= entries);
    count + 1
}

// One replica more than those that this history opens.
fn one_slot_more(opened: u64, history: &KeptEntries) -> u64
    requires opened { opened ≡ length (opened_slots history.now.items) }
    ensures more { result ≡ opened + 1 }
{
    let entries = history.len() as u64;
    prove!(opened <= entries);
    opened + 1
}

// Why no replica more is opened where none serves on the leaf, if there is a reason.
fn denied_by_count(serve: usize, opened: u64) -> Option<Denial>
    ensures why { result ≡ denied_by None serve opened }
{
    if serve >= MOST_REPLICAS {
        return Some(Denial::ServesFully);
    }
    if opened >= MOST_SLOTS as u64 {
        return Some(Denial::SlotsSpent(MOST_SLOTS as u64));
    }
    None
}

// The first of these replicas that is on a leaf.
fn first_on(serving: &[SlotLeaf], leaf: Leaf) -> Option<SlotLeaf>
    ensures first { result ≡ slice_get (filter (is_on leaf) serving.now) 0 }
{
    for replica in serving {
        if replica.leaf.0 == leaf.0 {
            return Some(*replica);
        }
    }
    None
}

// Takes out the replicas that missed a turn.
fn drop_missed(serving: &mut Vec<SlotLeaf>, missed: &[Miss])
    ensures dropped { serving.new.items ≡ filter (λ replica. not (is_missed missed.now replica)) serving.old.items }
{
    serving.retain(|replica| !has_missed(missed, *replica));
}

// Takes out the replica in a slot.
fn drop_slot(serving: &mut Vec<SlotLeaf>, slot: Slot)
    ensures dropped { serving.new.items ≡ filter (λ replica. not (same_slot slot replica.slot)) serving.old.items }
{
    serving.retain(|replica| slot.0 != replica.slot.0);
}

// Whether a replica missed a turn.
fn has_missed(missed: &[Miss], replica: SlotLeaf) -> bool
    ensures missed { result ≡ is_missed missed.now replica }
{
    missed.iter().any(|miss| miss.slot.0 == replica.slot.0)
}

// The first of these replicas that is on none of these leaves.
fn first_off(serving: &[SlotLeaf], avoided: &[Leaf]) -> Option<SlotLeaf>
    ensures first { result
        ≡ slice_get (filter (λ replica. not (is_avoided avoided.now replica)) serving.now) 0 }
{
    for replica in serving {
        if !is_among(avoided, replica.leaf) {
            return Some(*replica);
        }
    }
    None
}

// Whether a leaf is among those that are avoided.
fn is_among(avoided: &[Leaf], leaf: Leaf) -> bool
    ensures avoided { result ≡ list_any (same_leaf leaf) avoided.now }
{
    avoided.iter().any(|other| leaf.0 == other.0)
}
