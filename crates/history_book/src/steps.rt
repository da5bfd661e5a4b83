// The rule of a book's words, and the kinds of step that keep it.
use crate::names::{BookName, NewEntry};
use crate::views::SeatView;
use atomic_table::{Join, Play, Split, TableRule};
use std::marker::PhantomData;

/// How many leaves and ranges have a history.
#[derive(Clone, Copy, PartialEq, Eq)]
pub struct BookSize {
    pub leaves: u32,
    pub ranges: u32,
}

/// The book rule.
pub struct BookRule;

impl TableRule<(), SeatView, BookSize> for BookRule {
    ghost use Rattle.history_book.specs.BookRule.{BookHolds};
    ghost use Rattle.history_book.specs.Steps.{first_view};

    ghost holds = { λ size state. BookHolds size.leaves size.ranges state.words state.views };

    ghost first = { λ size. first_view size.leaves size.ranges };
}

/// A load of a history's word.
pub(crate) struct Learn<N: BookName>(PhantomData<N>);

impl<N: BookName> Play<(), SeatView> for Learn<N> {
    ghost use Rattle.history_book.specs.Steps.{Learns};

    ghost then = { Learns N.book.leaves };
}

/// An owner appends an entry.
pub(crate) struct Append<E: NewEntry>(PhantomData<E>);

impl<E: NewEntry> Play<(), SeatView> for Append<E> {
    ghost use Rattle.history_book.specs.Steps.{Appends};

    ghost then = { Appends E.entry };
}

/// A load of the word that never changes.
pub(crate) struct Confirm<N: BookName>(PhantomData<N>);

impl<N: BookName> Play<(), SeatView> for Confirm<N> {
    ghost use Rattle.history_book.specs.Steps.{Confirms};

    ghost then = { Confirms N.book.leaves };
}

/// The owner of a leaf's history is split off the first seat.
pub(crate) struct DealLeaf;

impl Split<SeatView> for DealLeaf {
    ghost use Rattle.history_book.specs.Steps.{after_deal, dealt};

    ghost left = { after_deal 0 };

    ghost right = { dealt 0 };
}

/// The owner of a range's history is split off the first seat, and holds the range.
pub(crate) struct DealRange;

impl Split<SeatView> for DealRange {
    ghost use Rattle.history_book.specs.Steps.{after_deal, dealt};

    ghost left = { after_deal 1 };

    ghost right = { dealt 1 };
}

/// A seat is split off that has seen as much, and has nothing else.
pub(crate) struct SplitOff;

impl Split<SeatView> for SplitOff {
    ghost use Rattle.history_book.specs.Steps.{split_off};

    ghost left = { λ seat. seat };

    ghost right = { split_off };
}

/// A seat is split off that has the first number of the stock.
pub(crate) struct HandOut;

impl Split<SeatView> for HandOut {
    ghost use Rattle.history_book.specs.Steps.{after_handed_number, handed_number};

    ghost left = { after_handed_number };

    ghost right = { handed_number };
}

/// A seat gets what another has, which is spent.
pub(crate) struct Meet;

impl Join<SeatView> for Meet {
    ghost use Rattle.history_book.specs.Steps.{meeting, spent_view};

    ghost both = { meeting };

    ghost spent = { spent_view };
}

/// What an owner does with rooms and with its range as its guest goes.
pub(crate) trait Parting {
    ghost use Rattle.std.specs.Prelude.{Bool};
    ghost use Rattle.history_book.specs.declared.rooms.RoomMove.{RoomMove};

    ghost rooms: { RoomMove };

    ghost hold: { Bool };
}

/// An owner's guest goes.
pub(crate) struct Part<P: Parting>(PhantomData<P>);

impl<P: Parting> Split<SeatView> for Part<P> {
    ghost use Rattle.history_book.specs.Steps.{after_part, part};

    ghost left = { after_part P.rooms P.hold };

    ghost right = { part P.rooms P.hold };
}

/// With a room more.
pub(crate) struct MakeRoom;

/// With a room more, and the owner's range.
pub(crate) struct MakeRoomAndHold;

/// With the rooms that it had.
pub(crate) struct Keep;

/// With the rooms that it had, and the owner's range.
pub(crate) struct KeepAndHold;

/// With a room less.
pub(crate) struct TakeRoom;

/// With a room less, and the owner's range.
pub(crate) struct TakeRoomAndHold;

impl Parting for MakeRoom {
    ghost use Rattle.std.specs.Prelude.{false};
    ghost use Rattle.history_book.specs.declared.rooms.RoomMove.TheVariants as the_move;

    ghost rooms = { the_move.Make };

    ghost hold = { false };
}

impl Parting for MakeRoomAndHold {
    ghost use Rattle.std.specs.Prelude.{true};
    ghost use Rattle.history_book.specs.declared.rooms.RoomMove.TheVariants as the_move;

    ghost rooms = { the_move.Make };

    ghost hold = { true };
}

impl Parting for Keep {
    ghost use Rattle.std.specs.Prelude.{false};
    ghost use Rattle.history_book.specs.declared.rooms.RoomMove.TheVariants as the_move;

    ghost rooms = { the_move.Keep };

    ghost hold = { false };
}

impl Parting for KeepAndHold {
    ghost use Rattle.std.specs.Prelude.{true};
    ghost use Rattle.history_book.specs.declared.rooms.RoomMove.TheVariants as the_move;

    ghost rooms = { the_move.Keep };

    ghost hold = { true };
}

impl Parting for TakeRoom {
    ghost use Rattle.std.specs.Prelude.{false};
    ghost use Rattle.history_book.specs.declared.rooms.RoomMove.TheVariants as the_move;

    ghost rooms = { the_move.TakeBack };

    ghost hold = { false };
}

impl Parting for TakeRoomAndHold {
    ghost use Rattle.std.specs.Prelude.{true};
    ghost use Rattle.history_book.specs.declared.rooms.RoomMove.TheVariants as the_move;

    ghost rooms = { the_move.TakeBack };

    ghost hold = { true };
}
