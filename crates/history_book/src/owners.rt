// The seats of the histories' owners.
ghost use Rattle.std.specs.Prelude.{◌≡◌};

use crate::names::BookName;
use crate::numbers::Hand;
use crate::views::SeatView;
use mon_value::ListOf;
use std::marker::{Model, PhantomData};

/// The seat of a history's owner, which alone appends to it and has seen it all. It takes one other seat as its guest.
#[derive(Drop)]
pub struct BookOwner<N: BookName> {
    pub(crate) number: usize,
    pub(crate) hand: Hand,
    pub(crate) seat: atomic_table::Seat<(), SeatView>,
    pub(crate) name: PhantomData<N>,
}

impl<N: BookName> Model for BookOwner<N> {
    ghost use Rattle.std.specs.Prelude.{◌≡◌, ◌<◌, ◌^◌, [], ◌∷◌};
    ghost use Rattle.history_book.specs.Books.{HasHistory};
    ghost use Rattle.history_book.specs.Histories.{history_numbered};
    ghost use Rattle.history_book.specs.Seats.{Owner, guest_purse, hand_of};
    ghost use Rattle.history_book.specs.Steps.{owner_of};

    ghost Value = { Owner };

    ghost view = { λ s. owner_of (history_numbered N.book.leaves s.number) s.seat.me.0 };

    ghost invariant = { λ s. (s.seat.table_id ≡ N.book.id) × (s.seat.me.1 ≡ [])
        × HasHistory N.book s.number × (s.number < 2 ^ 33)
        × (s.seat.me.0.owns ≡ history_numbered N.book.leaves s.number ∷ [])
        × (s.hand ≡ hand_of (guest_purse s.seat.me.0.purse)) };
}

/// The seats of the histories' owners, in the order of the histories.
pub type BookOwners<N> = ListOf<BookOwner<N>>;
