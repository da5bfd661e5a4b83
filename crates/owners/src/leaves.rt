// The owner of a leaf's history and of its hint bits.
ghost use Rattle.std.specs.Prelude.{◌≡◌, ◌<◌, ◌≤◌, ◌^◌, ◌++◌, length, filter, false, Some, None, IsTrue};
ghost use Rattle.history_book.specs.declared.rooms.RoomMove.TheVariants as the_move;
ghost use Rattle.history_book.specs.declared.views.BookEntry.TheVariants as one;
ghost use Rattle.history_book.specs.declared.views.History as a_history;
ghost use Rattle.history_book.specs.Histories.{AreFronts, book_entry_pass, entries, is_about};
ghost use Rattle.history_book.specs.Seats.{HasGuestRoom, after_append, after_own_learn, guest_purse};
ghost use Rattle.history_book.specs.Seats.{guest_seat, hand_of, times_range, times_room, with_guest};
ghost use Rattle.know.specs.Lending.{back_with, lent_seat, without_purse};
ghost use Rattle.know.specs.Sound.{IsSound};
ghost use Rattle.mon_topo.specs.HeldHistories.{AreAtHome};
ghost use Rattle.mon_topo.specs.Sights.{sight_of};
ghost use Rattle.mon_value.specs.Histories.{leaf_history};
ghost use Rattle.mon_value.specs.LeafHistories.{MayFollow};
ghost use Rattle.mon_value.specs.declared.positions.Range as a_range;
ghost use Rattle.owners.specs.Entries.{LeadsOn};
ghost use Rattle.owners.specs.Owners.{IsOfLeaf, leaf_owner};
ghost use Rattle.owners.specs.Receiving.{HasReceived, parted};
ghost use Rattle.raise_table.specs.Seats.{MayRaise, after_meet, after_raise, without_notes};

use history_book::{BookOwner, NewEntry, RoomMove};
use know::{Know, Names, Tables};
use mon_hints::Place;
use mon_topo::Sight;
use mon_value::{Entry, Leaf, Zone};
use raise_table::OwnerSeat;
use std::marker::Model;

/// The owner of a leaf. What it has seen is held, and the bits that it knows lead to all of it.
#[derive(Drop)]
pub struct LeafOwner<N: Names> {
    leaf: Leaf,
    hints: OwnerSeat<N>,
    book: BookOwner<N>,
    sight: Sight,
}

impl<N: Names> Model for LeafOwner<N> {
    ghost use Rattle.std.specs.Prelude.{◌≡◌};
    ghost use Rattle.mon_topo.specs.Sights.{sight_of};
    ghost use Rattle.know.specs.Sound.{IsSound};
    ghost use Rattle.owners.specs.Owners.{IsOfLeaf, LeafView};

    ghost Value = { LeafView };

    ghost view = { λ o. record { leaf = o.leaf; hints = o.hints; book = o.book } };

    ghost invariant = { λ o. (o.sight ≡ sight_of o.book.seen) × IsSound N.setting o.hints.hints o.book.seen
        × IsOfLeaf N.setting o.leaf o.hints o.book };
}

impl<N: Names> LeafOwner<N> {
    /// The owner of a leaf by its two seats, of which the one in the book has seen so far. No memory is taken.
    pub fn new(leaf: Leaf, hints: OwnerSeat<N>, book: BookOwner<N>, sight: Sight) -> LeafOwner<N>
        requires of_leaf { IsOfLeaf N.setting leaf hints book }
        requires sound { IsSound N.setting hints.hints book.seen }
        requires sight { sight ≡ sight_of book.seen }
        ensures owner { result ≡ leaf_owner leaf hints book }
    {
        LeafOwner {
            leaf,
            hints,
            book,
            sight,
        }
    }

    /// A caller comes: the owner has seen and knows what either had, and of its own history just what it had. Of
    /// entries about a range that the caller holds it has seen just those that the caller had.
    pub fn meet(&mut self, tables: &Tables<N>, know: &mut Know<N>)
        requires free { self.old.book.guest ≡ None }
        ensures book { self.new.book ≡ with_guest (lent_seat know.old) self.old.book }
        ensures hints { self.new.hints ≡ after_meet (without_notes know.old.hints) self.old.hints }
        ensures leaf { self.new.leaf ≡ self.old.leaf }
        ensures of_leaf { IsOfLeaf N.setting self.old.leaf self.old.hints self.old.book }
        ensures left { know.new ≡ without_purse know.old }
        ensures whole { entries self.new.book.seen self.old.book.history
            ≡ entries self.old.book.seen self.old.book.history }
        ensures fronts { AreFronts know.old.seen self.new.book.seen }
        ensures held { (range : a_range.Range) (history : a_history.History)
            → 0 < times_range range know.old.purse.holds → filter (is_about range) (entries self.new.book.seen history)
            ≡ filter (is_about range) (entries know.old.seen history) }
        ensures promised { times_room self.old.leaf know.old.purse.rooms ≤ self.new.book.promised }
    {
        let (hints, book) = know.lend(tables);
        tables.raise.meet_owner(&mut self.hints, hints);
        tables.book.meet_owner(&mut self.book, book);
        self.sight.join(know.sight());
    }

    /// The length of its history, which its guest notes.
    pub fn learn(&mut self, tables: &Tables<N>) -> u64
        ensures exact { result ≡ length (entries self.old.book.seen self.old.book.history) }
        ensures noted { self.new.book ≡ after_own_learn self.old.leaf.0 result self.old.book }
        ensures hints { self.new.hints ≡ self.old.hints }
        ensures leaf { self.new.leaf ≡ self.old.leaf }
    {
        tables.book.learn_owner(&mut self.book)
    }

    /// A caller comes and notes the length of the history, which is told.
    pub fn receive(&mut self, tables: &Tables<N>, know: &mut Know<N>) -> u64
        requires free { self.old.book.guest ≡ None }
        ensures received { HasReceived know.old result self.old self.new }
        ensures left { know.new ≡ without_purse know.old }
    {
        self.meet(tables, know);
        self.learn(tables)
    }

    /// The caller goes, with what it came with, and has seen what the owner has seen.
    pub fn part(&mut self, tables: &Tables<N>, know: &mut Know<N>, rooms: RoomMove)
        requires take_back { rooms ≡ the_move.TakeBack → HasGuestRoom self.old.book }
        ensures parted { self.new ≡ parted rooms self.old }
        ensures know { know.new ≡ back_with (without_notes self.old.hints.hints)
            (guest_seat rooms false self.old.book) know.old }
        ensures sound { IsSound N.setting know.new.hints know.new.seen }
    {
        let hints = tables.raise.split_owner(&mut self.hints);
        let book = tables.book.split_owner(&mut self.book, rooms, false);
        know.take_back(tables, hints, book, &self.sight);
    }

    /// Its leaf's zone. No memory is taken.
    pub fn zone(&self) -> Zone
        ensures zone { result ≡ self.now.hints.leaf.zone }
        ensures of_leaf { IsOfLeaf N.setting self.now.leaf self.now.hints self.now.book }
    {
        self.hints.zone()
    }

    /// Sets its bit.
    pub fn raise(&mut self, tables: &Tables<N>, place: Place, bucket: u32)
        requires exists { bucket < N.raise.buckets }
        requires allowed { MayRaise self.old.hints.leaf self.old.hints.raised place bucket }
        ensures raised { self.new.hints ≡ after_raise place bucket self.old.hints }
        ensures book { self.new.book ≡ self.old.book }
        ensures leaf { self.new.leaf ≡ self.old.leaf }
    {
        tables.raise.raise(&mut self.hints, place, bucket);
    }

    /// Its history, of this length so far, grows by an entry under the guest's number, to which its bits lead.
    pub fn append<E: NewEntry>(&mut self, tables: &Tables<N>, entry: &Entry, cut: u64)
        requires named { E.entry ≡ one.Leaf entry.now }
        requires counted { cut ≡ length (leaf_history self.old.book.seen self.old.leaf) }
        requires room { cut < 2 ^ 62 }
        requires may { MayFollow (leaf_history self.old.book.seen self.old.leaf) entry.now }
        requires home { AreAtHome N.setting.held N.setting.zones entry.now }
        requires leads { LeadsOn N.setting self.old.hints.hints self.old.leaf
            (leaf_history self.old.book.seen self.old.leaf) entry.now }
        requires number { (hand_of (guest_purse self.old.book.guest)).own
            ≡ Some (book_entry_pass (one.Leaf entry.now)) }
        requires held { (range : a_range.Range) → IsTrue (is_about range (one.Leaf entry.now))
            → 0 < times_range range (self.old.book.held ++ (guest_purse self.old.book.guest).holds) }
        ensures appended { self.new.book ≡ after_append (one.Leaf entry.now) self.old.book }
        ensures hints { self.new.hints ≡ self.old.hints }
        ensures leaf { self.new.leaf ≡ self.old.leaf }
    {
        tables.book.append::<E>(&mut self.book);
        self.sight.note_leaf(self.leaf, cut + 1);
    }
}
