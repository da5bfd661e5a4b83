// What lies under a leaf's lock.
ghost use Rattle.std.specs.Prelude.{◌≡◌, ◌<◌, ◌≤◌, ◌++◌, ℕ, [], length, true, false, Some, IfOk, IfSome};
ghost use Rattle.std.specs.Prelude.{IsTrue, OnErr, slice_get};
ghost use Rattle.history_book.specs.declared.rooms.RoomMove.TheVariants as the_move;
ghost use Rattle.history_book.specs.declared.views.BookEntry.TheVariants as one;
ghost use Rattle.history_book.specs.Histories.{book_entry_pass, is_about};
ghost use Rattle.history_book.specs.Seats.{after_append, guest_purse, hand_of, times_range, times_room, without_one};
ghost use Rattle.know.specs.Knowledge.{Knowledge};
ghost use Rattle.know.specs.Sound.{IsSound, known_bits};
ghost use Rattle.leaf_cell.specs.Raising.{HasRaisedRow};
ghost use Rattle.leaf_cell.specs.Rest.{GoesBy, IsAtRest};
ghost use Rattle.leaf_cell.specs.Visits.{HasGathered, HasVisited};
ghost use Rattle.leaf_store.specs.LeafStates.{is_unraised, leaf_with_entry, HasNumber};
ghost use Rattle.mon_hints.specs.BucketSets.{is_set};
ghost use Rattle.mon_hints.specs.Covers.{IsRaised};
ghost use Rattle.mon_topo.specs.HeldHistories.{AreAtHome};
ghost use Rattle.mon_topo.specs.Settings.{zone_of_leaf};
ghost use Rattle.mon_value.specs.LeafHistories.{MayFollow, is_opened, is_switch, replica_rows, series_of};
ghost use Rattle.mon_value.specs.Histories.{leaf_history};
ghost use Rattle.mon_value.specs.declared.histories.Entry.TheVariants as entry;
ghost use Rattle.mon_value.specs.declared.positions.Range as a_range;
ghost use Rattle.owners.specs.Calls.{HasLooked, HasPut, HasReserved};
ghost use Rattle.owners.specs.Copies.{HasCopied};
ghost use Rattle.owners.specs.Entries.{LeadsOn};
ghost use Rattle.owners.specs.Puts.{MayPut, pass_of};
ghost use Rattle.owners.specs.Receiving.{HasGone};

use crate::raising::raise_at;
use crate::readers::LeafReader;
use crate::trims::reserve_turn;
use history_book::{NewEntry, RoomMove};
use know::{Copied, Found, Know, Names, Tables};
use leaf_store::{Entry, LeafState};
use mon_hints::{BucketSet, Place};
use mon_value::{OutOfMemory, Range, Row, RowList, SeriesKey, Shared, Slot};
use owners::LeafOwner;
use std::alloc::AllocError;
use std::marker::Brand;

/// A leaf's state and its owner.
#[derive(Drop)]
pub(crate) struct LeafDesk<N: Names> {
    pub(crate) state: LeafState,
    pub(crate) owner: LeafOwner<N>,
}

impl<N: Names> LeafDesk<N> {
    /// Asks for room for a row, or for a bound that hides rows where none is given.
    pub(crate) fn reserve(
        &mut self,
        tables: &Tables<N>,
        know: &mut Know<N>,
        range: Range,
        slot: Slot,
        row: Option<&Row>,
    ) -> Result<Found, OutOfMemory>
        requires rest { IsAtRest N.setting N.raise self.old.owner.leaf.0 self.old.state self.old.owner }
        requires opened { is_opened range slot (leaf_history know.old.seen self.old.owner.leaf) ≡ true }
        ensures rest { IsAtRest N.setting N.raise self.old.owner.leaf.0 self.new.state self.new.owner }
        ensures reserved { IfOk result (λ found. HasReserved self.old.owner.leaf found know.old know.new) }
        ensures refused { OnErr result (HasLooked self.old.owner.leaf know.old.purse.rooms know.old know.new) }
    {
        let length = self.owner.receive(tables, know);
        if self.state.down() {
            self.owner.part(tables, know, RoomMove::Keep);
            return Ok(Found::Down(length));
        }
        if reserve_turn(&mut self.state, range, slot, row).is_err() {
            self.owner.part(tables, know, RoomMove::Keep);
            return Err(AllocError);
        }
        self.owner.part(tables, know, RoomMove::Make);
        Ok(Found::Up)
    }

    /// Gives room back.
    pub(crate) fn cancel(&mut self, tables: &Tables<N>, know: &mut Know<N>)
        requires rest { IsAtRest N.setting N.raise self.old.owner.leaf.0 self.old.state self.old.owner }
        requires room { 0 < times_room self.old.owner.leaf know.old.purse.rooms }
        ensures rest { IsAtRest N.setting N.raise self.old.owner.leaf.0 self.new.state self.new.owner }
        ensures cancelled { HasLooked self.old.owner.leaf
            (without_one self.old.owner.leaf know.old.purse.rooms) know.old know.new }
    {
        self.owner.receive(tables, know);
        self.state.cancel();
        self.owner.part(tables, know, RoomMove::TakeBack);
    }

    /// Puts a row where room was made, or gives the room back where the leaf is down. It is never refused for want of
    /// memory.
    pub(crate) fn put(
        &mut self,
        tables: &Tables<N>,
        know: &mut Know<N>,
        range: Range,
        slot: Slot,
        row: Row,
    ) -> Found
        requires rest { IsAtRest N.setting N.raise self.old.owner.leaf.0 self.old.state self.old.owner }
        requires may { MayPut N.setting know.old self.old.owner.leaf range slot row }
        ensures rest { IsAtRest N.setting N.raise self.old.owner.leaf.0 self.new.state self.new.owner }
        ensures put { HasPut self.old.owner.leaf (entry.Put (pass_of know.old) range slot row) result know.old
            know.new }
    {
        let Some(pass) = know.number() else {
            unreachable!();
        };
        let length = self.owner.receive(tables, know);
        if self.state.down() {
            self.state.cancel();
            self.owner.part(tables, know, RoomMove::TakeBack);
            return Found::Down(length);
        }
        let known = self.raise_unknown(tables, range, slot, &row.key);
        self.enter::<Brand>(
            tables,
            Entry::Put {
                pass,
                range,
                slot,
                row,
            },
            known,
        );
        self.owner.part(tables, know, RoomMove::TakeBack);
        Found::Up
    }

    // Raises what the history lacks of the buckets of a row's series. It lacks none where the state knows the series,
    // whose number in its replica is handed on then.
    fn raise_unknown(
        &mut self,
        tables: &Tables<N>,
        range: Range,
        slot: Slot,
        key: &Shared<SeriesKey>,
    ) -> Option<u32>
        requires goes_by { GoesBy N.setting N.raise self.old.state }
        ensures raised { HasRaisedRow (is_unraised self.old.state.buckets self.old.state.schemas self.old.state.history
            key.now) self.old.owner.hints self.new.owner.hints }
        ensures leads { (bucket : ℕ) → is_unraised self.old.state.buckets self.old.state.schemas self.old.state.history
            key.now bucket ≡ true → IsRaised (known_bits N.setting self.new.owner.hints.hints)
            (zone_of_leaf N.setting self.new.owner.leaf) self.new.owner.leaf bucket }
        ensures number { IfSome result (λ number.
            slice_get (series_of (replica_rows range slot self.old.state.history)) number ≡ Some key.now) }
        ensures book { self.new.owner.book ≡ self.old.owner.book }
        ensures leaf { self.new.owner.leaf ≡ self.old.owner.leaf }
        ensures state { self.new.state ≡ self.old.state }
    {
        if let Some(series) = self.state.known_series(range, slot, key) {
            return Some(series);
        }
        self.raise_row(tables, key);
        None
    }

    /// Raises what the history lacks of a series' buckets.
    pub(crate) fn raise_row(&mut self, tables: &Tables<N>, key: &SeriesKey)
        requires goes_by { GoesBy N.setting N.raise self.old.state }
        ensures raised { HasRaisedRow (is_unraised self.old.state.buckets self.old.state.schemas self.old.state.history
            key.now) self.old.owner.hints self.new.owner.hints }
        ensures leads { (bucket : ℕ) → is_unraised self.old.state.buckets self.old.state.schemas self.old.state.history
            key.now bucket ≡ true → IsRaised (known_bits N.setting self.new.owner.hints.hints)
            (zone_of_leaf N.setting self.new.owner.leaf) self.new.owner.leaf bucket }
        ensures book { self.new.owner.book ≡ self.old.owner.book }
        ensures leaf { self.new.owner.leaf ≡ self.old.owner.leaf }
        ensures state { self.new.state ≡ self.old.state }
    {
        let set = self.state.unraised_set(key);
        self.raise_set(tables, &set);
    }

    // Raises the buckets of a set: at the root, and then in the leaf's zone.
    fn raise_set(&mut self, tables: &Tables<N>, set: &BucketSet)
        requires below { (bucket : ℕ) → is_set set.now.words bucket ≡ true → bucket < N.raise.buckets }
        ensures raised { HasRaisedRow (is_set set.now.words) self.old.owner.hints self.new.owner.hints }
        ensures leads { (bucket : ℕ) → is_set set.now.words bucket ≡ true
            → IsRaised (known_bits N.setting self.new.owner.hints.hints)
            (zone_of_leaf N.setting self.new.owner.leaf) self.new.owner.leaf bucket }
        ensures book { self.new.owner.book ≡ self.old.owner.book }
        ensures leaf { self.new.owner.leaf ≡ self.old.owner.leaf }
        ensures state { self.new.state ≡ self.old.state }
    {
        raise_at(tables, &mut self.owner, Place::Root, set);
        let zone = self.owner.zone();
        raise_at(tables, &mut self.owner, Place::Zone(zone), set);
    }

    /// An entry goes in, to which the raised bits lead: it is appended to the owner's history under the guest's number,
    /// and comes to the state, with the number of its row's series where that is known.
    pub(crate) fn enter<E: NewEntry>(
        &mut self,
        tables: &Tables<N>,
        entry: Entry,
        known: Option<u32>,
    )
        requires named { E.entry ≡ one.Leaf entry }
        requires history { leaf_history self.old.owner.book.seen self.old.owner.leaf ≡ self.old.state.history }
        requires may { MayFollow self.old.state.history entry }
        requires home { AreAtHome N.setting.held N.setting.zones entry }
        requires leads { LeadsOn N.setting self.old.owner.hints.hints self.old.owner.leaf self.old.state.history entry }
        requires promised { is_switch entry ≡ false → 1 ≤ self.old.state.promised }
        requires known { IfSome known (HasNumber self.old.state.history entry) }
        requires number { (hand_of (guest_purse self.old.owner.book.guest)).own
            ≡ Some (book_entry_pass (one.Leaf entry)) }
        requires held { (range : a_range.Range) → IsTrue (is_about range (one.Leaf entry))
            → 0 < times_range range (self.old.owner.book.held ++ (guest_purse self.old.owner.book.guest).holds) }
        ensures book { self.new.owner.book ≡ after_append (one.Leaf entry) self.old.owner.book }
        ensures hints { self.new.owner.hints ≡ self.old.owner.hints }
        ensures leaf { self.new.owner.leaf ≡ self.old.owner.leaf }
        ensures state { self.new.state ≡ leaf_with_entry self.old.state entry }
    {
        let length = self.state.length();
        self.owner.append::<E>(tables, &entry, length);
        match known {
            Some(series) => self.state.apply_known(entry, series),
            None => self.state.apply(entry),
        }
    }

    /// Looks at the leaf: where it is up, it is read, and what the reader has for the caller is handed out.
    pub(crate) fn visit<P: LeafReader>(
        &mut self,
        tables: &Tables<N>,
        know: &mut Know<N>,
        reader: &mut P,
    ) -> Result<Found, OutOfMemory>
        requires rest { IsAtRest N.setting N.raise self.old.owner.leaf.0 self.old.state self.old.owner }
        requires readable { (later : Knowledge) → HasLooked self.old.owner.leaf know.old.purse.rooms know.old later
            → IsSound N.setting later.hints later.seen
            → P.asks reader.old N.setting.buckets_of (leaf_history later.seen self.old.owner.leaf) }
        ensures rest { IsAtRest N.setting N.raise self.old.owner.leaf.0 self.new.state self.new.owner }
        ensures visited { IfOk result (λ found. HasVisited self.old.owner.leaf
            (P.tells reader.old reader.new N.setting.buckets_of) found know.old know.new) }
        ensures refused { OnErr result (HasLooked self.old.owner.leaf know.old.purse.rooms know.old know.new) }
    {
        let length = self.look(tables, know);
        if self.state.down() {
            return Ok(Found::Down(length));
        }
        let sent = reader.read(&mut self.state)?;
        know.hand(sent);
        Ok(Found::Up)
    }

    /// The rows that a replica keeps in the whole history of a leaf that is up, which are handed out.
    pub(crate) fn copy(
        &mut self,
        tables: &Tables<N>,
        know: &mut Know<N>,
        range: Range,
        slot: Slot,
    ) -> Result<Copied, OutOfMemory>
        requires rest { IsAtRest N.setting N.raise self.old.owner.leaf.0 self.old.state self.old.owner }
        ensures rest { IsAtRest N.setting N.raise self.old.owner.leaf.0 self.new.state self.new.owner }
        ensures copied { IfOk result (λ copied. HasCopied self.old.owner.leaf range slot copied know.old know.new) }
        ensures refused { OnErr result (HasLooked self.old.owner.leaf know.old.purse.rooms know.old know.new) }
    {
        let length = self.look(tables, know);
        if self.state.down() {
            return Ok(Copied::Down(length));
        }
        let rows = self.state.rows_at(range, slot, length)?;
        know.hand(rows.len() as u64);
        Ok(Copied::Rows(rows))
    }

    /// The rows that a replica keeps in the beginning of the history, which are handed out.
    pub(crate) fn gather(
        &mut self,
        tables: &Tables<N>,
        know: &mut Know<N>,
        range: Range,
        slot: Slot,
        cut: u64,
    ) -> Result<RowList, OutOfMemory>
        requires rest { IsAtRest N.setting N.raise self.old.owner.leaf.0 self.old.state self.old.owner }
        requires seen { cut ≤ length (leaf_history know.old.seen self.old.owner.leaf) }
        ensures rest { IsAtRest N.setting N.raise self.old.owner.leaf.0 self.new.state self.new.owner }
        ensures gathered { IfOk result (λ rows. HasGathered self.old.owner.leaf range slot cut rows know.old know.new) }
        ensures refused { OnErr result (HasLooked self.old.owner.leaf know.old.purse.rooms know.old know.new) }
    {
        self.look(tables, know);
        let rows = self.state.rows_at(range, slot, cut)?;
        know.hand(rows.len() as u64);
        Ok(rows)
    }

    // The caller comes, notes the length of the history, and goes as it came.
    fn look(&mut self, tables: &Tables<N>, know: &mut Know<N>) -> u64
        requires rest { IsAtRest N.setting N.raise self.old.owner.leaf.0 self.old.state self.old.owner }
        ensures rest { IsAtRest N.setting N.raise self.old.owner.leaf.0 self.new.state self.new.owner }
        ensures gone { HasGone self.old.owner.leaf self.old.state.history [] the_move.Keep know.old know.new }
        ensures length { length self.old.state.history ≡ result }
        ensures sound { IsSound N.setting know.new.hints know.new.seen }
        ensures leaf { self.new.owner.leaf ≡ self.old.owner.leaf }
        ensures state { self.new.state ≡ self.old.state }
    {
        let length = self.owner.receive(tables, know);
        self.owner.part(tables, know, RoomMove::Keep);
        length
    }
}
