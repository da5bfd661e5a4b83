// What threads step with.
ghost use Rattle.std.specs.Prelude.{◌≡◌};
ghost use Rattle.history_book.specs.Seats.{hand_of};

use crate::names::BookName;
use crate::numbers::Hand;
use crate::views::SeatView;
use std::marker::{Model, PhantomData};

/// A seat that has seen a beginning of each history. Contracts see that, and what it has beside it.
#[derive(Drop)]
pub struct BookSeat<N: BookName> {
    pub(crate) hand: Hand,
    pub(crate) seat: atomic_table::Seat<(), SeatView>,
    pub(crate) name: PhantomData<N>,
}

impl<N: BookName> Model for BookSeat<N> {
    ghost use Rattle.std.specs.Prelude.{◌≡◌, []};
    ghost use Rattle.history_book.specs.Seats.{Seat, guest_purse, hand_of};
    ghost use Rattle.history_book.specs.Steps.{IsPlainSeat, seat_of};

    ghost Value = { Seat };

    ghost view = { λ s. seat_of s.seat.me.0 };

    ghost invariant = { λ s. (s.seat.table_id ≡ N.book.id) × (s.seat.me.1 ≡ [])
        × IsPlainSeat s.seat.me.0 × (s.hand ≡ hand_of (guest_purse s.seat.me.0.purse)) };
}

impl<N: BookName> BookSeat<N> {
    /// Its number, if it has one. No memory is taken.
    pub fn number(&self) -> Option<u64>
        ensures number { result ≡ (hand_of self.now.purse).own }
    {
        self.hand.own
    }

    /// What it has, in a type without the book's name, which takes no more steps. No memory is taken.
    pub fn unname(self) -> EndedSeat
        ensures seat { result ≡ self }
    {
        EndedSeat { seat: self.seat }
    }
}

/// A seat that takes no more steps, in a type without the book's name. Contracts see what it has.
#[derive(Drop)]
pub struct EndedSeat {
    seat: atomic_table::Seat<(), SeatView>,
}

impl Model for EndedSeat {
    ghost use Rattle.history_book.specs.Seats.{Seat};
    ghost use Rattle.history_book.specs.Steps.{seat_of};

    ghost Value = { Seat };

    ghost view = { λ s. seat_of s.seat.me.0 };
}
