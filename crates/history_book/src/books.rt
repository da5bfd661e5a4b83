// The book that threads share.
ghost use Rattle.std.specs.Prelude.{◌≡◌, ◌≤◌, ◌<◌, ◌+◌, ◌^◌, [], ◌∷◌, ◌++◌, map, length, filter, true, Some, None};
ghost use Rattle.std.specs.Prelude.{IfOk, IfSome, IfNone, IsTrue};
ghost use Rattle.history_book.specs.declared.rooms.RoomMove.TheVariants as the_move;
ghost use Rattle.history_book.specs.Books.{HasHistory, IsShaped};
ghost use Rattle.history_book.specs.Histories.{AreFronts, IsFor, IsOfLeaf, entries, histories_in, history_numbered};
ghost use Rattle.history_book.specs.Histories.{is_about, history_number, book_entry_pass};
ghost use Rattle.history_book.specs.Numbers.{is_spent};
ghost use Rattle.history_book.specs.Seats.{HasEveryNumber, HasGuestRoom, HoldsOwn, IsPurseBorneOut, after_append};
ghost use Rattle.history_book.specs.Seats.{after_learn, after_meet};
ghost use Rattle.history_book.specs.Seats.{after_own_learn, after_parting, after_split_numbered, first_seat};
ghost use Rattle.history_book.specs.Seats.{guest_purse, hand_of, new_owner, numbered_seat, guest_seat, times_range};
ghost use Rattle.history_book.specs.Seats.{times_room};
ghost use Rattle.history_book.specs.Seats.{with_guest, without_purse};
ghost use Rattle.history_book.specs.Steps.{CanGiveBack, IsPlainSeat, IsPromised, IsUnited, after_part, dealing};
ghost use Rattle.history_book.specs.Steps.{meeting};
ghost use Rattle.history_book.specs.Steps.{own_history, owner_view, part};
ghost use Rattle.history_book.specs.declared.views.History as a_history;
ghost use Rattle.history_book.specs.declared.views.History.TheVariants as of;
ghost use Rattle.mon_value.specs.declared.positions.Leaf as a_leaf;
ghost use Rattle.mon_value.specs.declared.positions.Range as a_range;

use crate::blanks::{BookBlank, Words};
use crate::names::{BookName, NewEntry};
use crate::numbers::{Hand, NO_HAND, Numbers};
use crate::owners::{BookOwner, BookOwners};
use crate::rooms::RoomMove;
use crate::seats::BookSeat;
use crate::steps::{
    Append, BookSize, Confirm, DealLeaf, DealRange, HandOut, Keep, KeepAndHold, Learn, MakeRoom,
    MakeRoomAndHold, Meet, Part, SplitOff, TakeRoom, TakeRoomAndHold,
};
use crate::views::SeatView;
use atomic_table::Seat;
use mon_value::{ListOf, OutOfMemory};
use std::alloc::Global;
use std::marker::PhantomData;

/// The histories that threads share. Each call on them is a step or two, and takes no lock and no memory.
#[derive(Drop)]
pub struct Book<N: BookName> {
    table: Words,
    size: BookSize,
    name: PhantomData<N>,
    ghost named: { table.shared.table_id ≡ N.book.id },
    ghost sized: { (table.shared.key.leaves ≡ N.book.leaves) × (table.shared.key.ranges ≡ N.book.ranges) },
    ghost told: { (size.leaves ≡ N.book.leaves) × (size.ranges ≡ N.book.ranges) },
    ghost shaped: { IsShaped N.book },
}

impl<N: BookName> Book<N> {
    /// Opens a book under a name that means it: with a seat that has the number 0 and all others to hand out, so that
    /// every number stands in its purse, and the owners of the histories, in order. Where memory runs out the book is
    /// gone.
    pub fn open(
        alloc: Global,
        blank: BookBlank,
    ) -> Result<(Book<N>, BookSeat<N>, BookOwners<N>), OutOfMemory>
        requires named { blank ≡ N.book }
        ensures seat { IfOk result (λ opened. opened.1 ≡ first_seat N.book.leaves N.book.ranges) }
        ensures every { IfOk result (λ opened. HasEveryNumber opened.1.purse) }
        ensures owners { IfOk result (λ opened. opened.2
            ≡ map (new_owner N.book.leaves N.book.ranges) (histories_in N.book.leaves N.book.ranges)) }
    {
        let BookBlank {
            table,
            mut first,
            size,
        } = blank;
        let book = Book {
            table,
            size,
            name: PhantomData,
        };
        let mut owners = ListOf::new(alloc);
        let count = size.leaves as usize + size.ranges as usize;
        for number in 0..count {
            owners.push(book.deal(&mut first, number))?;
        }
        let seat = BookSeat {
            hand: Hand {
                own: Some(0),
                stock: Numbers {
                    from: 1,
                    to: crate::numbers::NUMBER_END,
                },
            },
            seat: first,
            name: PhantomData,
        };
        Ok((book, seat, owners))
    }

    // Splits the owner of the next history off the first seat.
    fn deal(&self, first: &mut Seat<(), SeatView>, number: usize) -> BookOwner<N>
        requires exists { HasHistory N.book number × (number < 2 ^ 33) }
        requires next { (first.old.table_id ≡ N.book.id)
            × (first.old.me ≡ (dealing N.book.leaves N.book.ranges number, [])) }
        ensures next { (first.new.table_id ≡ N.book.id)
            × (first.new.me ≡ (dealing N.book.leaves N.book.ranges (number + 1), [])) }
        ensures owner { result ≡ new_owner N.book.leaves N.book.ranges (history_numbered N.book.leaves number) }
    {
        BookOwner {
            number,
            hand: NO_HAND,
            seat: self.deal_seat(first, number),
            name: PhantomData,
        }
    }

    fn deal_seat(&self, first: &mut Seat<(), SeatView>, number: usize) -> Seat<(), SeatView>
        requires exists { HasHistory N.book number }
        requires next { (first.old.table_id ≡ N.book.id)
            × (first.old.me ≡ (dealing N.book.leaves N.book.ranges number, [])) }
        ensures next { (first.new.table_id ≡ N.book.id)
            × (first.new.me ≡ (dealing N.book.leaves N.book.ranges (number + 1), [])) }
        ensures owner { (result.table_id ≡ N.book.id)
            × (result.me ≡ (owner_view N.book.leaves N.book.ranges number, [])) }
    {
        if number < self.size.leaves as usize {
            self.table.shared.split_seat::<DealLeaf>(first)
        } else {
            self.table.shared.split_seat::<DealRange>(first)
        }
    }

    /// The length of a history, which is at least that of what the seat has seen of it. The seat notes it, and has
    /// seen no more than before. One step.
    pub fn learn(&self, seat: &mut BookSeat<N>, history: u32) -> u64
        requires exists { HasHistory N.book history }
        ensures longer { length (entries seat.old.seen (history_numbered N.book.leaves history)) ≤ result }
        ensures noted { seat.new ≡ after_learn history result seat.old }
    {
        self.table
            .shared
            .load::<Learn<N>>(&mut seat.seat, history as usize + 1)
    }

    /// The length of the owner's history, which is just that of what it has seen of it. Its guest notes it, if there
    /// is one, and else the owner. One step.
    pub fn learn_owner(&self, owner: &mut BookOwner<N>) -> u64
        ensures exact { result ≡ length (entries owner.old.seen owner.old.history) }
        ensures noted { owner.new ≡ after_own_learn (history_number N.book.leaves owner.old.history) result owner.old }
    {
        self.table
            .shared
            .load::<Learn<N>>(&mut owner.seat, owner.number + 1)
    }

    /// The owner's history grows by the entry that `E` names, under the guest's number. One step.
    pub fn append<E: NewEntry>(&self, owner: &mut BookOwner<N>)
        requires room { length (entries owner.old.seen owner.old.history) < 2 ^ 62 }
        requires fits { IsFor owner.old.history E.entry }
        requires number { (hand_of (guest_purse owner.old.guest)).own ≡ Some (book_entry_pass E.entry) }
        requires held { (range : a_range.Range) → IsTrue (is_about range E.entry)
            → 0 < times_range range (owner.old.held ++ (guest_purse owner.old.guest).holds) }
        ensures appended { owner.new ≡ after_append E.entry owner.old }
    {
        self.table
            .shared
            .fetch_add::<Append<E>>(&mut owner.seat, owner.number + 1, 1);
    }

    /// A seat that has seen what this one has seen, and has nothing else. One step.
    pub fn split(&self, seat: &mut BookSeat<N>) -> BookSeat<N>
        ensures kept { seat.new ≡ seat.old }
        ensures split { result ≡ without_purse seat.old }
    {
        BookSeat {
            hand: NO_HAND,
            seat: self.table.shared.split_seat::<SplitOff>(&mut seat.seat),
            name: PhantomData,
        }
    }

    /// A seat that has seen what this one has seen, with the first number of its stock. It is none exactly where the
    /// stock is spent. One step.
    pub fn split_numbered(&self, seat: &mut BookSeat<N>) -> Option<BookSeat<N>>
        ensures spent { IfNone result ((is_spent seat.old.purse.stock ≡ true) × (seat.new ≡ seat.old)) }
        ensures handed { IfSome result (λ new.
            (seat.old.purse.stock.from < seat.old.purse.stock.to) × (new ≡ numbered_seat seat.old)) }
        ensures left { IfSome result (λ new. seat.new ≡ after_split_numbered seat.old) }
    {
        let stock = seat.hand.stock;
        if stock.is_spent() {
            return None;
        }
        let split = self.table.shared.split_seat::<HandOut>(&mut seat.seat);
        seat.hand.stock = stock.after_handing();
        Some(BookSeat {
            hand: Hand {
                own: Some(stock.from),
                stock: stock.handed(),
            },
            seat: split,
            name: PhantomData,
        })
    }

    /// The seat gets what another has: it has seen what either had, and the other's number is met. Two steps.
    pub fn meet(&self, seat: &mut BookSeat<N>, other: BookSeat<N>)
        ensures met { seat.new ≡ after_meet other seat.old }
        ensures fronts { AreFronts seat.old.seen seat.new.seen × AreFronts other.seen seat.new.seen }
        ensures borne_out { IsPurseBorneOut seat.new.seen seat.new.purse }
    {
        let met = other.seat;
        self.unite(&mut seat.seat, met);
    }

    /// Changes nothing, and tells what holds of what the seat has: no number stands there twice, the entries of a
    /// number that were seen are the first of those that are kept, and where every number stands there, each entry
    /// that was seen is kept. One step.
    pub fn confirm(&self, seat: &mut BookSeat<N>)
        ensures kept { seat.new ≡ seat.old }
        ensures borne_out { IsPurseBorneOut seat.old.seen seat.old.purse }
    {
        self.table.shared.load::<Confirm<N>>(&mut seat.seat, 0);
    }

    /// The owner takes a guest. It has seen what either had, and of its own history just what it had. Of each history
    /// every entry about a range that it holds had been seen by it, and every one about a range that the guest holds by
    /// the guest. It promised the rooms that the guest has there. Two steps.
    pub fn meet_owner(&self, owner: &mut BookOwner<N>, other: BookSeat<N>)
        requires free { owner.old.guest ≡ None }
        ensures met { owner.new ≡ with_guest other owner.old }
        ensures whole { entries owner.new.seen owner.old.history ≡ entries owner.old.seen owner.old.history }
        ensures fronts { AreFronts owner.old.seen owner.new.seen × AreFronts other.seen owner.new.seen }
        ensures kept { (range : a_range.Range) (history : a_history.History) → 0 < times_range range owner.old.held
            → filter (is_about range) (entries owner.new.seen history)
            ≡ filter (is_about range) (entries owner.old.seen history) }
        ensures held { (range : a_range.Range) (history : a_history.History) → 0 < times_range range other.purse.holds
            → filter (is_about range) (entries owner.new.seen history)
            ≡ filter (is_about range) (entries other.seen history) }
        ensures borne_out { IsPurseBorneOut owner.new.seen other.purse }
        ensures promised { (leaf : a_leaf.Leaf) → owner.old.history ≡ of.Leaf leaf
            → times_room leaf other.purse.rooms ≤ owner.new.promised }
    {
        let hand = other.hand;
        self.unite(&mut owner.seat, other.seat);
        owner.hand = hand;
    }

    // Two seats become one.
    fn unite(&self, seat: &mut Seat<(), SeatView>, other: Seat<(), SeatView>)
        requires tables { (seat.old.table_id ≡ N.book.id) × (other.table_id ≡ N.book.id) × (other.me.1 ≡ []) }
        requires plain { IsPlainSeat other.me.0 }
        ensures table { (seat.new.table_id ≡ N.book.id) × (seat.new.id ≡ seat.old.id) }
        ensures met { seat.new.me ≡ (meeting seat.old.me.0 other.me.0, seat.old.me.1) }
        ensures united { IsUnited (meeting seat.old.me.0 other.me.0)
            (record {
              mine = seat.old.me.0.seen;
              theirs = other.me.0.seen;
              kept = seat.old.me.0.held ++ (guest_purse seat.old.me.0.purse).holds;
              lent = (guest_purse other.me.0.purse).holds;
            }) }
        ensures borne_out { IfSome (meeting seat.old.me.0 other.me.0).purse
            (IsPurseBorneOut (meeting seat.old.me.0 other.me.0).seen) }
        ensures promised { IsPromised N.book.leaves (meeting seat.old.me.0 other.me.0) }
    {
        self.table.shared.join_seat::<Meet>(seat, other);
        self.table.shared.load::<Confirm<N>>(seat, 0);
    }

    /// The owner's guest goes with what it brought, as a seat that has seen what the owner has seen. It may get a
    /// room more in the owner's history or give one back, and hold the owner's range. One step.
    pub fn split_owner(&self, owner: &mut BookOwner<N>, rooms: RoomMove, hold: bool) -> BookSeat<N>
        requires make { rooms ≡ the_move.Make → IsOfLeaf owner.old.history }
        requires take_back { rooms ≡ the_move.TakeBack → HasGuestRoom owner.old }
        requires hold { IsTrue hold → HoldsOwn owner.old }
        ensures owner { owner.new ≡ after_parting rooms hold owner.old }
        ensures seat { result ≡ guest_seat rooms hold owner.old }
    {
        let hand = owner.hand;
        let seat = self.part(&mut owner.seat, rooms, hold);
        owner.hand = NO_HAND;
        BookSeat {
            hand,
            seat,
            name: PhantomData,
        }
    }

    fn part(&self, seat: &mut Seat<(), SeatView>, rooms: RoomMove, hold: bool) -> Seat<(), SeatView>
        requires table { (seat.old.table_id ≡ N.book.id) × (seat.old.me.1 ≡ []) }
        requires owner { seat.old.me.0.owns ≡ own_history seat.old.me.0.owns ∷ [] }
        requires room { CanGiveBack rooms (own_history seat.old.me.0.owns) (guest_purse seat.old.me.0.purse).rooms }
        ensures left { (seat.new.table_id ≡ N.book.id) × (seat.new.me ≡ (after_part rooms hold seat.old.me.0, [])) }
        ensures right { (result.table_id ≡ N.book.id) × (result.me ≡ (part rooms hold seat.old.me.0, [])) }
    {
        let shared = &self.table.shared;
        match rooms {
            RoomMove::Make if hold => shared.split_seat::<Part<MakeRoomAndHold>>(seat),
            RoomMove::Make => shared.split_seat::<Part<MakeRoom>>(seat),
            RoomMove::Keep if hold => shared.split_seat::<Part<KeepAndHold>>(seat),
            RoomMove::Keep => shared.split_seat::<Part<Keep>>(seat),
            RoomMove::TakeBack if hold => shared.split_seat::<Part<TakeRoomAndHold>>(seat),
            RoomMove::TakeBack => shared.split_seat::<Part<TakeRoom>>(seat),
        }
    }
}
