// What is left of a caller's knowledge, once no more steps are taken with it.
ghost use Rattle.std.specs.Prelude.{◌≡◌};
ghost use Rattle.history_book.specs.Seats.{hand_of};

use history_book::EndedSeat;
use std::marker::Model;

/// What is left of a caller's knowledge, in a type without the store's name. Contracts see its number and the histories
/// that it has seen.
#[derive(Drop)]
pub struct Ended {
    number: Option<u64>,
    book: EndedSeat,
}

impl Model for Ended {
    ghost use Rattle.std.specs.Prelude.{◌≡◌};
    ghost use Rattle.history_book.specs.Seats.{hand_of};
    ghost use Rattle.know.specs.Endings.{Ending};

    ghost Value = { Ending };

    ghost view = { λ e. record { number = e.number; seen = e.book.seen } };

    ghost invariant = { λ e. e.number ≡ (hand_of e.book.purse).own };
}

impl Ended {
    /// What is left of a seat of the book.
    pub(crate) fn new(number: Option<u64>, book: EndedSeat) -> Ended
        requires number { number ≡ (hand_of book.purse).own }
        ensures number { result.number ≡ number }
        ensures seen { result.seen ≡ book.seen }
    {
        Ended { number, book }
    }

    /// The number, if there was one. No memory is taken.
    pub fn number(&self) -> Option<u64>
        ensures number { result ≡ self.now.number }
    {
        self.number
    }
}
