// Which book is meant, and which entry.
use std::marker::Brand;

/// The part of a store's name that says which book is meant. It has no calls.
pub trait BookName {
    ghost use Rattle.history_book.specs.Books.{BookIdentity};

    ghost book: { BookIdentity };
}

impl BookName for Brand {
    ghost use Rattle.std.specs.Prelude.{[]};

    ghost book = { record {
      id = record { words = 0; slots = 0; views_name = 0; atom = 0; block = 0; offset = 0; slot_names = [] };
      leaves = 0;
      ranges = 0;
    } };
}

/// Names the entry that a call appends. It has no calls.
pub trait NewEntry {
    ghost use Rattle.history_book.specs.declared.views.BookEntry.{BookEntry};

    ghost entry: { BookEntry };
}

impl NewEntry for Brand {
    ghost use Rattle.history_book.specs.declared.views.BookEntry.TheVariants as one;
    ghost use Rattle.mon_value.specs.declared.histories.Entry.TheVariants as entry;

    ghost entry = { one.Leaf (entry.Up 0) };
}
