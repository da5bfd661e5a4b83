// What becomes of numbers as they are handed out and met.
ghost use Rattle.std.specs.Prelude.{◌≡◌, ◌<◌, ◌≤◌, ◌+◌, ℕ};
ghost use Rattle.history_book.specs.Numbers.{times_among};
ghost use Rattle.history_book.specs.Seats.{HasEveryNumber, first_handed, met_purse, no_purse, numbered_purse};
ghost use Rattle.history_book.specs.Seats.{times_lost, times_number, with_stock_handed};
ghost use Rattle.history_book.specs.declared.numbers.TheConstants.{NUMBER_END};
ghost use Rattle.history_book.specs.declared.views.Purse.{Purse};

/// What the first seat of a new book has holds each number below the end once, and no other. None is lost or made where
/// numbers are handed out or met: each stands in both purses as often as it stood in the one, and in the one as often
/// as in both. A stock that is met is lost; so who meets a purse without a stock has lost no number, though the list of
/// what is lost is longer.
pub fn numbers_are_counted()
    ensures first { (n : ℕ) → n < NUMBER_END → times_number n (numbered_purse 0 1 NUMBER_END) ≡ 1 }
    ensures beyond { (n : ℕ) → NUMBER_END ≤ n → times_number n (numbered_purse 0 1 NUMBER_END) ≡ 0 }
    ensures every { HasEveryNumber (numbered_purse 0 1 NUMBER_END) }
    ensures none { (n : ℕ) → times_number n no_purse ≡ 0 }
    ensures handed { (n : ℕ) (purse : Purse) → purse.stock.from < purse.stock.to
        → times_number n (with_stock_handed purse) + times_number n (first_handed purse) ≡ times_number n purse }
    ensures met { (n : ℕ) (purse other : Purse)
        → times_number n (met_purse purse other) ≡ times_number n purse + times_number n other }
    ensures lost { (n : ℕ) (purse other : Purse) → times_lost n (met_purse purse other)
        ≡ times_lost n purse + (times_among n other.stock + times_lost n other) }
    ensures plain { (n : ℕ) (purse : Purse) → times_lost n (met_purse purse no_purse) ≡ times_lost n purse }
{}
