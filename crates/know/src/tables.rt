// What threads share without a lock.
ghost use Rattle.know.specs.Tables.{AreTablesOf};

use crate::names::Names;
use history_book::Book;
use raise_table::RaiseTable;

/// Both tables of a store. They are as large as what the store is set up with.
#[derive(Drop)]
pub struct Tables<N: Names> {
    pub raise: RaiseTable<N>,
    pub book: Book<N>,
    ghost sized: { AreTablesOf N.setting N.raise N.book },
}
