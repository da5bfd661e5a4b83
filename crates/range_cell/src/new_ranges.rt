// A range before it has a lock, and how its first replicas are opened.
ghost use Rattle.std.specs.Prelude.{◌≡◌, ◌<◌, ◌≤◌, ◌^◌, ◌++◌, [], length, slice_get, take, Some, None, OnErr, OnOk};
ghost use Rattle.history_book.specs.declared.views.BookEntry.TheVariants as one;
ghost use Rattle.history_book.specs.declared.views.History.TheVariants as of;
ghost use Rattle.history_book.specs.Histories.{with_book_entry};
ghost use Rattle.history_book.specs.Seats.{after_append, guest_purse, hand_of, times_range};
ghost use Rattle.know.specs.Sound.{IsSound};
ghost use Rattle.mon_topo.specs.HeldHistories.{first_range_history, openings_from, IsHeldBy};
ghost use Rattle.mon_topo.specs.Replicas.{HasReplicas};
ghost use Rattle.mon_topo.specs.Sights.{range_sight, sight_of};
ghost use Rattle.mon_topo.specs.Zones.{first_replicas, ranges_in};
ghost use Rattle.mon_value.specs.Histories.{range_history};
ghost use Rattle.mon_value.specs.declared.histories.RangeEntry.TheVariants as entry;
ghost use Rattle.owners.specs.Owners.{IsOfRange};
ghost use Rattle.range_cell.specs.NewRanges.{HasBeenLent, HasOpenedFirst, after_entries, new_range_of};
ghost use Rattle.range_cell.specs.Rest.{AreUnopened, HaveJust, IsRangeAtRest, IsRangeHeld, others};

use crate::desks::RangeDesk;
use history_book::{BookOwner, NewEntry};
use know::{Know, Names, Tables};
use mon_topo::{RangeSight, Sight};
use mon_value::{Leaf, Leaves, OutOfMemory, Range, Slot, SlotLeaf};
use owners::RangeOwner;
use raise_table::HintSeat;
use std::alloc::Global;
use std::marker::{Brand, Model};
use write_core::RangeReplay;

/// A range without replicas that nobody shares yet, and that its first caller holds. Contracts see its number and what
/// its owner has seen.
#[derive(Drop)]
pub struct NewRange<N: Names> {
    range: Range,
    desk: RangeDesk<N>,
}

impl<N: Names> Model for NewRange<N> {
    ghost use Rattle.std.specs.Prelude.{◌≡◌, []};
    ghost use Rattle.range_cell.specs.NewRanges.{NewRangeView, new_range_of};
    ghost use Rattle.range_cell.specs.Rest.{IsRangeHeld};

    ghost Value = { NewRangeView };

    ghost view = { λ new. new_range_of new.desk.owner };

    ghost invariant = { λ new. (new.range ≡ new.desk.owner.range) × (new.desk.replay.history ≡ [])
        × IsRangeHeld new.desk.owner.range.0 new.desk.replay new.desk.owner };
}

impl<N: Names> NewRange<N> {
    /// A range by its owner's seats, of which the one in the book has seen so far. The caller comes to it, and goes
    /// with the range. No memory is taken.
    pub fn new(
        alloc: Global,
        tables: &Tables<N>,
        know: &mut Know<N>,
        range: Range,
        hints: HintSeat<N>,
        book: BookOwner<N>,
        sight: Sight,
    ) -> NewRange<N>
        requires of_range { IsOfRange N.setting range book }
        requires sound { IsSound N.setting hints book.seen }
        requires sight { sight ≡ sight_of book.seen }
        requires free { book.guest ≡ None }
        requires holds { 0 < times_range range book.held }
        requires only { others range book.held ≡ [] }
        requires none { range_history book.seen range ≡ [] }
        requires fresh { AreUnopened book.seen range 0 }
        ensures lent { HasBeenLent N.book.leaves range book.seen result know.old know.new }
        ensures sound { IsSound N.setting know.new.hints know.new.seen }
    {
        let owner = RangeOwner::new(range, hints, book, sight);
        let mut desk = RangeDesk {
            replay: RangeReplay::new(alloc),
            owner,
        };
        desk.lend(tables, know);
        NewRange { range, desk }
    }

    /// Its number, and what goes under its lock, which the caller holds.
    pub(crate) fn into_parts(self) -> (Range, RangeDesk<N>)
        ensures range { result.0 ≡ self.range }
        ensures same { new_range_of result.1.owner ≡ self }
        ensures none { result.1.replay.history ≡ [] }
        ensures held { IsRangeHeld self.range.0 result.1.replay result.1.owner }
    {
        (self.range, self.desk)
    }
}

impl<N: Names> RangeDesk<N> {
    // The caller comes to a range without replicas, and goes with it.
    fn lend(&mut self, tables: &Tables<N>, know: &mut Know<N>)
        requires rest { IsRangeAtRest self.old.owner.range.0 self.old.replay self.old.owner }
        requires none { self.old.replay.history ≡ [] }
        ensures held { IsRangeHeld self.old.owner.range.0 self.new.replay self.new.owner }
        ensures none { self.new.replay.history ≡ [] }
        ensures lent { HasBeenLent N.book.leaves self.old.owner.range self.old.owner.book.seen
            (new_range_of self.new.owner) know.old know.new }
        ensures sound { IsSound N.setting know.new.hints know.new.seen }
    {
        self.receive(tables, know);
        self.owner.part(tables, know, true);
    }

    /// The range comes back, and its first replicas are opened in their order. Where memory runs out the caller has
    /// what it had.
    pub(crate) fn open_first(
        &mut self,
        tables: &Tables<N>,
        know: &mut Know<N>,
        first: &Leaves,
    ) -> Result<(), OutOfMemory>
        requires held { IsRangeHeld self.old.owner.range.0 self.old.replay self.old.owner }
        requires none { self.old.replay.history ≡ [] }
        requires first { first.now ≡ first_replicas N.setting.zones self.old.owner.range.0 }
        requires replicas { HasReplicas N.setting.zones self.old.owner.range }
        requires number { (hand_of know.old.purse).own ≡ Some 0 }
        requires holds { 0 < times_range self.old.owner.range know.old.purse.holds }
        requires opened { HaveJust know.old.seen self.old.owner.range
            (first_range_history N.setting.zones self.old.owner.range.0) }
        requires borne_out { IsHeldBy know.old.seen self.old.owner.range
            (first_range_history N.setting.zones self.old.owner.range.0) }
        ensures rest { OnOk result (IsRangeAtRest self.old.owner.range.0 self.new.replay self.new.owner) }
        ensures opened { OnOk result (HasOpenedFirst N.book.leaves (new_range_of self.old.owner)
            (first_range_history N.setting.zones self.old.owner.range.0) know.old know.new) }
        ensures sound { OnOk result (IsSound N.setting know.new.hints know.new.seen) }
        ensures kept { OnErr result (know.new ≡ know.old) }
    {
        replay_openings(&mut self.replay, first.as_slice())?;
        self.receive(tables, know);
        self.append_openings(tables, first.as_slice());
        self.owner.part(tables, know, false);
        Ok(())
    }

    // The openings come to the owner's history one by one, under the guest's number, which is 0.
    fn append_openings(&mut self, tables: &Tables<N>, first: &[Leaf])
        requires first { first.now ≡ first_replicas N.setting.zones self.old.owner.range.0 }
        requires replicas { HasReplicas N.setting.zones self.old.owner.range }
        requires here { self.old.owner.range.0 < length (ranges_in N.setting.zones) }
        requires own { self.old.owner.book.history ≡ of.Range self.old.owner.range }
        requires none { range_history self.old.owner.book.seen self.old.owner.range ≡ [] }
        requires number { (hand_of (guest_purse self.old.owner.book.guest)).own ≡ Some 0 }
        requires sound { IsSound N.setting self.old.owner.hints self.old.owner.book.seen }
        requires borne_out { IsHeldBy self.old.owner.book.seen self.old.owner.range (openings_from 0 first.now) }
        ensures book { self.new.owner.book
            ≡ after_entries self.old.owner.range (openings_from 0 first.now) self.old.owner.book }
        ensures hints { self.new.owner.hints ≡ self.old.owner.hints }
        ensures range { self.new.owner.range ≡ self.old.owner.range }
        ensures replay { self.new.replay ≡ self.old.replay }
    {
        for (slot, leaf) in first.iter().enumerate() {
            let sight = openings_sight(first, slot + 1);
            self.append_opening::<Brand>(tables, Slot(slot as u32), *leaf, sight);
        }
    }

    // The opening of a replica comes to the owner's history, under the guest's number.
    fn append_opening<E: NewEntry>(
        &mut self,
        tables: &Tables<N>,
        slot: Slot,
        leaf: Leaf,
        sight: RangeSight,
    )
        requires named { E.entry ≡ one.Range (entry.Opened 0 slot leaf) }
        requires room { length (range_history self.old.owner.book.seen self.old.owner.range) < 2 ^ 62 }
        requires number { (hand_of (guest_purse self.old.owner.book.guest)).own ≡ Some 0 }
        requires sound { IsSound N.setting self.old.owner.hints (with_book_entry (of.Range self.old.owner.range)
            (one.Range (entry.Opened 0 slot leaf)) self.old.owner.book.seen) }
        requires sight { sight ≡ range_sight (range_history (with_book_entry (of.Range self.old.owner.range)
            (one.Range (entry.Opened 0 slot leaf)) self.old.owner.book.seen) self.old.owner.range) }
        ensures book { self.new.owner.book ≡ after_append (one.Range (entry.Opened 0 slot leaf)) self.old.owner.book }
        ensures hints { self.new.owner.hints ≡ self.old.owner.hints }
        ensures range { self.new.owner.range ≡ self.old.owner.range }
        ensures replay { self.new.replay ≡ self.old.replay }
    {
        self.owner.append::<E>(tables, sight);
    }
}

// How far a history of so many openings goes, and the first replica that serves then.
fn openings_sight(first: &[Leaf], count: usize) -> RangeSight
    requires some { 0 < count }
    requires within { count ≤ length first.now }
    ensures sight { result ≡ range_sight (openings_from 0 (take count first.now)) }
{
    RangeSight {
        length: count as u64,
        first: Some(SlotLeaf {
            slot: Slot(0),
            leaf: first[0],
        }),
    }
}

// The openings come to the replay, which had no entry.
fn replay_openings(replay: &mut RangeReplay, first: &[Leaf]) -> Result<(), OutOfMemory>
    requires none { replay.old.history ≡ [] }
    requires few { length first.now ≤ 3 }
    ensures history { OnOk result (replay.new.history ≡ openings_from 0 first.now) }
{
    for (slot, leaf) in first.iter().enumerate() {
        replay.open(0, Slot(slot as u32), *leaf)?;
    }
    Ok(())
}
