// Who writes poured rows, and who is told when a file begins and ends.
ghost use Rattle.std.specs.Prelude.{◌≡◌};
ghost use Rattle.ingest_queue.specs.Offers.{CanBeAnswered};

use http_server::Log;
use ingest_queue::{RowWriter, Starts, Wrote};
use mon_value::{OutOfMemory, Row};
use range_cell::WriteFault;
use std::alloc::AllocError;
use std::sync::atomic::{AtomicBool, Ordering};
use std::thread;

/// So often a reader that is held looks at most whether it may go on.
const TURNS: u32 = 100_000_000;

/// Tells nobody.
#[derive(Drop)]
pub struct Free;

impl Starts for Free {
    fn arrive(&self, _file: u32) {}

    fn leave(&self, _file: u32) {}
}

/// Holds the reader of one file until the other file has left.
#[derive(Drop)]
pub struct Holds {
    file: u32,
    other_left: AtomicBool,
    freed: AtomicBool,
}

impl Holds {
    /// Holds this file.
    pub fn new(file: u32) -> Holds {
        Holds {
            file,
            other_left: AtomicBool::new(false),
            freed: AtomicBool::new(false),
        }
    }

    /// Whether the file that was held found that the other one had left.
    pub fn was_freed(&self) -> bool {
        self.freed.load(Ordering::SeqCst)
    }
}

impl Starts for Holds {
    fn arrive(&self, file: u32) {
        if file == self.file {
            self.freed
                .store(is_raised(&self.other_left), Ordering::SeqCst);
        }
    }

    fn leave(&self, file: u32) {
        if file != self.file {
            self.other_left.store(true, Ordering::SeqCst);
        }
    }
}

// Looks at a flag until it is raised, so many times at most.
fn is_raised(flag: &AtomicBool) -> bool {
    for _ in 0..TURNS {
        if flag.load(Ordering::SeqCst) {
            return true;
        }
        thread::yield_now();
    }
    false
}

/// Writes rows whose start is their file and whose end is their number there, or refuses them, and sees whether those of
/// each file come in their order.
#[derive(Drop)]
pub struct Scribe {
    offers: Log<Row, Wrote>,
    // So many rows are taken before memory runs out.
    most: u64,
    refuses: bool,
    offered: u64,
    first: i64,
    second: i64,
    in_order: bool,
}

impl Scribe {
    /// Was offered nothing.
    pub fn new(most: u64, refuses: bool) -> Scribe {
        Scribe {
            offers: Log::new(),
            most,
            refuses,
            offered: 0,
            first: 0,
            second: 0,
            in_order: true,
        }
    }

    /// How many rows it was offered.
    pub fn offered(&self) -> u64 {
        self.offered
    }

    /// Whether the rows of each file came in their order, none twice and none left out.
    pub fn is_in_order(&self) -> bool {
        self.in_order
    }

    /// Whether it was offered the first so many rows of each file.
    pub fn has_written(&self, first: u32, second: u32) -> bool {
        self.in_order && self.first == i64::from(first) && self.second == i64::from(second)
    }

    // Sees a row of a file with its number there.
    fn see(&mut self, file: i64, number: i64)
        ensures offers { self.new.offers ≡ self.old.offers }
    {
        self.offered = self.offered.wrapping_add(1);
        if file == 0 {
            self.in_order &= number == self.first;
            self.first = self.first.wrapping_add(1);
        } else {
            self.in_order &= number == self.second;
            self.second = self.second.wrapping_add(1);
        }
    }
}

impl RowWriter for Scribe {
    ghost use Rattle.std.specs.Prelude.{map, true};

    ghost takes = { λ scribe row. true };

    ghost offers = { λ scribe. map (λ offer. record { row = offer.0; answer = offer.1 }) scribe.offers.items };

    ghost told = { λ from list now. Unit {0} };

    fn write(&mut self, row: &Row) -> Result<Wrote, OutOfMemory> {
        if self.offered >= self.most {
            return Err(AllocError);
        }
        self.see(row.point.start, row.point.end);
        let answer = answer(self.refuses);
        self.offers = self.offers.and(row, &answer);
        Ok(answer)
    }
}

// What a row is answered.
fn answer(refuses: bool) -> Wrote
    ensures told { CanBeAnswered result }
{
    if refuses {
        return Wrote::Refused(WriteFault::NoZone);
    }
    Wrote::Written
}
