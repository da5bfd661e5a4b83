// The owner of a range's history.
ghost use Rattle.std.specs.Prelude.{◌≡◌, ◌<◌, ◌^◌, ◌+◌, length, filter, Some, None, IsTrue};
ghost use Rattle.history_book.specs.declared.rooms.RoomMove.TheVariants as the_move;
ghost use Rattle.history_book.specs.declared.views.History as a_history;
ghost use Rattle.history_book.specs.declared.views.History.TheVariants as of;
ghost use Rattle.history_book.specs.Histories.{AreFronts, book_entry_pass, entries, is_about, with_book_entry};
ghost use Rattle.history_book.specs.Seats.{HoldsOwn, after_append, after_own_learn, after_parting, guest_purse};
ghost use Rattle.history_book.specs.Seats.{guest_seat, hand_of, times_range, with_guest};
ghost use Rattle.mon_value.specs.declared.positions.Range as a_range;
ghost use Rattle.raise_table.specs.Seats.{met, without_notes};
ghost use Rattle.know.specs.Lending.{back_with, lent_seat, without_purse};
ghost use Rattle.know.specs.Sound.{IsSound};
ghost use Rattle.mon_topo.specs.Sights.{range_sight, sight_of};
ghost use Rattle.mon_value.specs.Histories.{range_history};
ghost use Rattle.owners.specs.Entries.{IsRangeEntry};
ghost use Rattle.owners.specs.Owners.{IsOfRange, range_owner};

use history_book::{BookOwner, NewEntry, RoomMove};
use know::{Know, Names, Tables};
use mon_topo::{RangeSight, Sight};
use mon_value::Range;
use raise_table::HintSeat;
use std::marker::Model;

/// The owner of a range. What it has seen is held, and the bits that it knows lead to all of it.
#[derive(Drop)]
pub struct RangeOwner<N: Names> {
    range: Range,
    hints: HintSeat<N>,
    book: BookOwner<N>,
    sight: Sight,
}

impl<N: Names> Model for RangeOwner<N> {
    ghost use Rattle.std.specs.Prelude.{◌≡◌};
    ghost use Rattle.mon_topo.specs.Sights.{sight_of};
    ghost use Rattle.know.specs.Sound.{IsSound};
    ghost use Rattle.owners.specs.Owners.{IsOfRange, RangeView};

    ghost Value = { RangeView };

    ghost view = { λ o. record { range = o.range; hints = o.hints; book = o.book } };

    ghost invariant = { λ o. (o.sight ≡ sight_of o.book.seen) × IsSound N.setting o.hints o.book.seen
        × IsOfRange N.setting o.range o.book };
}

impl<N: Names> RangeOwner<N> {
    /// The owner of a range by its seat in the book, which has seen so far, and what leads to all of that. No memory is
    /// taken.
    pub fn new(range: Range, hints: HintSeat<N>, book: BookOwner<N>, sight: Sight) -> RangeOwner<N>
        requires of_range { IsOfRange N.setting range book }
        requires sound { IsSound N.setting hints book.seen }
        requires sight { sight ≡ sight_of book.seen }
        ensures owner { result ≡ range_owner range hints book }
    {
        RangeOwner {
            range,
            hints,
            book,
            sight,
        }
    }

    /// A caller comes: the owner has seen and knows what either had, of its own history just what it had, and of the
    /// entries about a range just what the one had that holds it.
    pub fn meet(&mut self, tables: &Tables<N>, know: &mut Know<N>)
        requires free { self.old.book.guest ≡ None }
        ensures book { self.new.book ≡ with_guest (lent_seat know.old) self.old.book }
        ensures hints { self.new.hints ≡ met self.old.hints (without_notes know.old.hints) }
        ensures range { self.new.range ≡ self.old.range }
        ensures left { know.new ≡ without_purse know.old }
        ensures whole { entries self.new.book.seen self.old.book.history
            ≡ entries self.old.book.seen self.old.book.history }
        ensures fronts { AreFronts know.old.seen self.new.book.seen }
        ensures kept { (range : a_range.Range) (history : a_history.History) → 0 < times_range range self.old.book.held
            → filter (is_about range) (entries self.new.book.seen history)
            ≡ filter (is_about range) (entries self.old.book.seen history) }
        ensures held { (range : a_range.Range) (history : a_history.History)
            → 0 < times_range range know.old.purse.holds → filter (is_about range) (entries self.new.book.seen history)
            ≡ filter (is_about range) (entries know.old.seen history) }
    {
        let (hints, book) = know.lend(tables);
        tables.raise.meet(&mut self.hints, hints);
        tables.book.meet_owner(&mut self.book, book);
        self.sight.join(know.sight());
    }

    /// The caller goes with what it came with, and has seen what the owner has seen. It may hold the range then.
    pub fn part(&mut self, tables: &Tables<N>, know: &mut Know<N>, hold: bool)
        requires hold { IsTrue hold → HoldsOwn self.old.book }
        ensures book { self.new.book ≡ after_parting the_move.Keep hold self.old.book }
        ensures hints { self.new.hints ≡ self.old.hints }
        ensures range { self.new.range ≡ self.old.range }
        ensures know { know.new ≡ back_with (without_notes self.old.hints)
            (guest_seat the_move.Keep hold self.old.book) know.old }
        ensures sound { IsSound N.setting know.new.hints know.new.seen }
    {
        let hints = tables.raise.split(&mut self.hints);
        let book = tables
            .book
            .split_owner(&mut self.book, RoomMove::Keep, hold);
        know.take_back(tables, hints, book, &self.sight);
    }

    /// The length of its history, which its guest notes.
    pub fn learn(&mut self, tables: &Tables<N>) -> u64
        ensures sound { IsSound N.setting self.new.hints self.new.book.seen }
        ensures of_range { IsOfRange N.setting self.new.range self.new.book }
        ensures exact { result ≡ length (entries self.old.book.seen self.old.book.history) }
        ensures noted { self.new.book ≡ after_own_learn (N.book.leaves + self.old.range.0) result self.old.book }
        ensures hints { self.new.hints ≡ self.old.hints }
        ensures range { self.new.range ≡ self.old.range }
    {
        tables.book.learn_owner(&mut self.book)
    }

    /// Its history grows by an entry under the guest's number, and is seen so then.
    pub fn append<E: NewEntry>(&mut self, tables: &Tables<N>, sight: RangeSight)
        requires room { length (range_history self.old.book.seen self.old.range) < 2 ^ 62 }
        requires number { (hand_of (guest_purse self.old.book.guest)).own ≡ Some (book_entry_pass E.entry) }
        requires sound { IsSound N.setting self.old.hints
            (with_book_entry (of.Range self.old.range) E.entry self.old.book.seen) }
        requires fits { IsRangeEntry E.entry }
        requires sight { sight ≡ range_sight (range_history
            (with_book_entry (of.Range self.old.range) E.entry self.old.book.seen) self.old.range) }
        ensures appended { self.new.book ≡ after_append E.entry self.old.book }
        ensures hints { self.new.hints ≡ self.old.hints }
        ensures range { self.new.range ≡ self.old.range }
    {
        tables.book.append::<E>(&mut self.book);
        self.sight.note_range(self.range, sight);
    }
}
