// How a store is built: its tables are opened under its name, the first replicas of its ranges are opened one by one,
// and its leaves and ranges get their locks.
ghost use Rattle.std.specs.Prelude.{◌≡◌, [], length, map, IfOk};
ghost use Rattle.std.specs.Vec.Iter.{into_iter_items, into_iter_len};
ghost use Rattle.know.specs.Knowledge.{from_seats};
ghost use Rattle.know.specs.Tables.{AreTablesOf};
ghost use Rattle.mon_store.specs.Beginnings.{IsFirst};
ghost use Rattle.mon_store.specs.Blanks.{IsNamed};
ghost use Rattle.mon_store.specs.Openings.{AreOwners};
ghost use Rattle.mon_store.specs.Passes.{IsPass};
ghost use Rattle.mon_store.specs.Stores.{AreLeafCells, AreRangeCells, IsSetUp};
ghost use Rattle.history_book.specs.Seats.{first_seat};
ghost use Rattle.raise_table.specs.Seats as raising;

use crate::blanks::StoreBlank;
use crate::filling::Opening;
use crate::passes::Pass;
use crate::stores::Store;
use history_book::{Book, BookBlank};
use know::{Know, Names, Tables};
use leaf_cell::{LeafCell, NewLeaf};
use mon_config::{Config, RangeGuess};
use mon_topo::Sight;
use mon_value::OutOfMemory;
use raise_table::{RaiseBlank, RaiseTable};
use range_cell::RangeCell;
use std::alloc::Global;

impl<N: Names> Store<N> {
    /// Opens a store under a name that means it, with its first caller. Each range is opened on its first replicas,
    /// which have no rows. Where memory runs out the store is gone.
    pub fn new(alloc: Global, blank: StoreBlank) -> Result<(Store<N>, Pass<N>), OutOfMemory>
        requires named { IsNamed N.raise N.book N.setting blank }
        ensures config { IfOk result (λ opened. opened.0 ≡ blank.config) }
        ensures first { IfOk result (λ opened. IsFirst blank.config opened.1) }
    {
        let StoreBlank {
            raise,
            book,
            config,
        } = blank;
        match stocked::<N>(alloc, raise, book, &config) {
            Ok(stock) => Ok((
                Store {
                    config,
                    tables: stock.tables,
                    leaves: stock.leaves,
                    ranges: stock.ranges,
                },
                Pass {
                    know: stock.know,
                    guess: RangeGuess::new(),
                },
            )),
            Err(fault) => {
                drop(config);
                Err(fault)
            }
        }
    }
}

// What a store has beside its configuration, and what its first caller knows.
#[derive(Drop)]
struct Stock<N: Names> {
    tables: Tables<N>,
    know: Know<N>,
    leaves: Vec<LeafCell<N>>,
    ranges: Vec<RangeCell<N>>,
}

// Opens the tables, and all that a store has.
fn stocked<N: Names>(
    alloc: Global,
    raise: RaiseBlank,
    book: BookBlank,
    config: &Config,
) -> Result<Stock<N>, OutOfMemory>
    requires raise { raise ≡ N.raise }
    requires book { book ≡ N.book }
    requires tables { AreTablesOf N.setting N.raise N.book }
    requires setup { IsSetUp N.setting N.raise config.now }
    ensures first { IfOk result (λ stock. IsFirst config.now stock.know) }
    ensures pass { IfOk result (λ stock. IsPass N.setting stock.know) }
    ensures leaves { IfOk result (λ stock. AreLeafCells N.setting stock.leaves.items) }
    ensures ranges { IfOk result (λ stock. AreRangeCells N.setting stock.ranges.items) }
{
    match begun::<N>(alloc, raise, book, config) {
        Ok(opening) => filled(alloc, config, opening),
        Err(fault) => Err(fault),
    }
}

// Opens the tables.
fn begun<N: Names>(
    alloc: Global,
    raise: RaiseBlank,
    book: BookBlank,
    config: &Config,
) -> Result<Opening<N>, OutOfMemory>
    requires raise { raise ≡ N.raise }
    requires book { book ≡ N.book }
    requires tables { AreTablesOf N.setting N.raise N.book }
    requires setup { IsSetUp N.setting N.raise config.now }
    ensures know { IfOk result (λ opening. opening.know
        ≡ from_seats raising.no_hints (first_seat N.book.leaves N.book.ranges)) }
    ensures owners { IfOk result (λ opening. AreOwners N.raise N.book (into_iter_items opening.hints)
        (into_iter_items opening.books)) }
    ensures counted { IfOk result (λ opening.
        (into_iter_len opening.hints ≡ length (into_iter_items opening.hints))
        × (into_iter_len opening.books ≡ length (into_iter_items opening.books))) }
    ensures no_leaf { IfOk result (λ opening. opening.leaves.items ≡ []) }
    ensures no_range { IfOk result (λ opening. opening.ranges.items ≡ []) }
{
    let sight = Sight::none(alloc, config.topology.leaves(), config.topology.ranges())?;
    let (raise, mut hints, hint_owners) = RaiseTable::<N>::open(alloc, raise)?;
    let (book, seat, book_owners) = Book::<N>::open(alloc, book)?;
    let spare = raise.split(&mut hints);
    let know = Know::new(hints, seat, sight);
    Ok(Opening {
        tables: Tables { raise, book },
        know,
        spare,
        hints: hint_owners.into_vec().into_iter(),
        books: book_owners.into_vec().into_iter(),
        leaves: Vec::new(alloc),
        ranges: Vec::new(alloc),
    })
}

// Opens all first replicas, and locks what is opened.
fn filled<N: Names>(
    alloc: Global,
    config: &Config,
    opening: Opening<N>,
) -> Result<Stock<N>, OutOfMemory>
    requires tables { AreTablesOf N.setting N.raise N.book }
    requires setup { IsSetUp N.setting N.raise config.now }
    requires know { opening.know ≡ from_seats raising.no_hints (first_seat N.book.leaves N.book.ranges) }
    requires owners { AreOwners N.raise N.book (into_iter_items opening.hints)
        (into_iter_items opening.books) }
    requires counted { into_iter_len opening.hints ≡ length (into_iter_items opening.hints) }
    requires counted_books { into_iter_len opening.books ≡ length (into_iter_items opening.books) }
    requires no_leaf { opening.leaves.items ≡ [] }
    requires no_range { opening.ranges.items ≡ [] }
    ensures first { IfOk result (λ stock. IsFirst config.now stock.know) }
    ensures pass { IfOk result (λ stock. IsPass N.setting stock.know) }
    ensures leaves { IfOk result (λ stock. AreLeafCells N.setting stock.leaves.items) }
    ensures ranges { IfOk result (λ stock. AreRangeCells N.setting stock.ranges.items) }
{
    let mut opening = opening;
    match opening.fill(alloc, config) {
        Ok(()) => locked(alloc, opening),
        Err(fault) => {
            drop(opening);
            Err(fault)
        }
    }
}

// Locks what is opened.
fn locked<N: Names>(alloc: Global, opening: Opening<N>) -> Result<Stock<N>, OutOfMemory>
    ensures know { IfOk result (λ stock. stock.know ≡ opening.know) }
    ensures leaves { IfOk result (λ stock. stock.leaves.items ≡ map (λ leaf. leaf.leaf.0) opening.leaves.items) }
    ensures ranges { IfOk result (λ stock. stock.ranges.items ≡ opening.ranges.items) }
{
    let Opening {
        tables,
        know,
        spare: _spare,
        hints: _hints,
        books: _books,
        leaves,
        ranges,
    } = opening;
    match leaf_cells(alloc, leaves) {
        Ok(leaves) => Ok(Stock {
            tables,
            know,
            leaves,
            ranges,
        }),
        Err(fault) => {
            drop(tables);
            drop(know);
            drop(ranges);
            Err(fault)
        }
    }
}

// Locks leaves.
fn leaf_cells<N: Names>(
    alloc: Global,
    leaves: Vec<NewLeaf<N>>,
) -> Result<Vec<LeafCell<N>>, OutOfMemory>
    ensures cells { IfOk result (λ cells. cells.items ≡ map (λ leaf. leaf.leaf.0) leaves.items) }
{
    let mut cells = Vec::new(alloc);
    for leaf in leaves {
        cells.push(LeafCell::new(alloc, leaf)?)?;
    }
    Ok(cells)
}
