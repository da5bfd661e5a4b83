// A book before it has a name.
ghost use Rattle.std.specs.Prelude.{◌≡◌, IfOk};

use crate::steps::{BookRule, BookSize};
use crate::views::SeatView;
use atomic_table::{Seat, Table};
use mon_value::OutOfMemory;
use std::alloc::Global;
use std::marker::Model;

/// The words of a book, their rule and their memory.
pub(crate) type Words = Table<(), SeatView, BookSize, BookRule, Global>;

/// A book without a name. Contracts see which one it is, and how many leaves and ranges have a history in it.
#[derive(Drop)]
pub struct BookBlank {
    pub(crate) table: Words,
    pub(crate) first: Seat<(), SeatView>,
    pub(crate) size: BookSize,
}

impl Model for BookBlank {
    ghost use Rattle.std.specs.Prelude.{◌≡◌, []};
    ghost use Rattle.history_book.specs.Books.{BookIdentity, IsShaped};
    ghost use Rattle.history_book.specs.Steps.{first_view};

    ghost Value = { BookIdentity };

    ghost view = { λ b. record { id = b.table.shared.table_id; leaves = b.size.leaves; ranges = b.size.ranges } };

    ghost invariant = { λ b. (b.table.shared.key ≡ b.size)
        × (b.first.table_id ≡ b.table.shared.table_id)
        × (b.first.me ≡ (first_view b.size.leaves b.size.ranges, []))
        × IsShaped (record { id = b.table.shared.table_id; leaves = b.size.leaves; ranges = b.size.ranges }) };
}

impl BookBlank {
    /// A book in which so many leaves and so many ranges have a history, without an entry.
    pub fn new(alloc: Global, leaves: u32, ranges: u32) -> Result<BookBlank, OutOfMemory>
        ensures shape { IfOk result (λ blank. (blank.leaves ≡ leaves) × (blank.ranges ≡ ranges)) }
    {
        let size = BookSize { leaves, ranges };
        let words = vec![in alloc; 0; leaves as usize + ranges as usize + 1]?;
        let (table, first) = Table::of_words(alloc, words.as_slice(), &size)?;
        Ok(BookBlank { table, first, size })
    }
}
