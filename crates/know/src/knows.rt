// A caller's knowledge.
ghost use Rattle.std.specs.Prelude.{◌≡◌, ◌≤◌, ◌<◌, length, slice_get, Some, IfOk, OnOk, OnErr};
ghost use Rattle.mon_topo.specs.HeldHistories.{AreHeld};
ghost use Rattle.mon_topo.specs.RangeHistories.{serving};
ghost use Rattle.mon_topo.specs.Zones.{leaves_in, ranges_in};
ghost use Rattle.mon_value.specs.Answers.{AnswersBy};
ghost use Rattle.mon_value.specs.Histories.{leaf_history, range_history};
ghost use Rattle.history_book.specs.Histories.{AreFronts};
ghost use Rattle.history_book.specs.Seats.{IsPurseBorneOut, hand_of};
ghost use Rattle.raise_table.specs.Seats.{HasKnown, KnowsAll, KnowsAsMuch};
ghost use Rattle.raise_table.specs.Tables.{HasWord};
ghost use Rattle.know.specs.Knowledge.{after_handing, after_load, after_numbering, from_seats, meeting};
ghost use Rattle.know.specs.Knowledge.{numbered_knowledge};
ghost use Rattle.know.specs.Knowledge.{numbers_fault, split_off};
ghost use Rattle.mon_topo.specs.Sights.{sight_of};
ghost use Rattle.know.specs.Sound.{IsSound};

use crate::answers::NumbersSpent;
use crate::ends::Ended;
use crate::names::Names;
use crate::tables::Tables;
use history_book::BookSeat;
use mon_hints::Place;
use mon_topo::Sight;
use mon_value::{Leaf, OutOfMemory, Range, Refusal, Slot, TryCopy};
use raise_table::HintSeat;
use std::alloc::Global;
use std::marker::Model;

/// What a caller of the store knows. Contracts see the known bits, the histories that it has seen, what comes with its
/// seat in the book, and how many rows it was handed. What it has seen is held, and its known bits lead to all of it.
#[derive(Drop)]
pub struct Know<N: Names> {
    pub(crate) hints: HintSeat<N>,
    pub(crate) book: BookSeat<N>,
    pub(crate) sight: Sight,
    handed: u64,
}

impl<N: Names> Model for Know<N> {
    ghost use Rattle.std.specs.Prelude.{◌≡◌};
    ghost use Rattle.know.specs.Knowledge.{Knowledge};
    ghost use Rattle.mon_topo.specs.Sights.{sight_of};
    ghost use Rattle.know.specs.Sound.{IsSound};

    ghost Value = { Knowledge };

    ghost view = { λ k. record { hints = k.hints; seen = k.book.seen; purse = k.book.purse; handed = k.handed } };

    ghost invariant = { λ k. (k.sight ≡ sight_of k.book.seen)
        × IsSound N.setting k.hints k.book.seen };
}

impl<N: Names> Know<N> {
    /// What two seats know, where what the book's has seen is held and the known bits lead to it. No memory is taken.
    pub fn new(hints: HintSeat<N>, book: BookSeat<N>, sight: Sight) -> Know<N>
        requires sound { IsSound N.setting hints book.seen }
        requires sight { sight ≡ sight_of book.seen }
        ensures new { result ≡ from_seats hints book }
    {
        Know {
            hints,
            book,
            sight,
            handed: 0,
        }
    }

    /// Its number, if it has one. No memory is taken.
    pub fn number(&self) -> Option<u64>
        ensures number { result ≡ (hand_of self.now.purse).own }
    {
        self.book.number()
    }

    /// The length of a leaf's history that it has seen. No memory is taken.
    pub fn seen(&self, leaf: Leaf) -> u64
        requires exists { leaf.0 < length (leaves_in N.setting.zones) }
        ensures length { result ≡ length (leaf_history self.now.seen leaf) }
        ensures sound { IsSound N.setting self.now.hints self.now.seen }
    {
        *self.sight.leaves.get(leaf.0 as usize)
    }

    /// The first replica that serves in a range's history as it was seen. No memory is taken.
    pub fn first(&self, range: Range) -> (Slot, Leaf)
        requires exists { range.0 < length (ranges_in N.setting.zones) }
        requires serves { 0 < length (serving (range_history self.now.seen range)) }
        ensures first { slice_get (serving (range_history self.now.seen range)) 0
            ≡ Some (record { slot = result.0; leaf = result.1 }) }
    {
        match self.sight.ranges.get(range.0 as usize).first {
            Some(replica) => (replica.slot, replica.leaf),
            None => unreachable!(),
        }
    }

    /// The word of a place and a bucket. It has every bit that was known, and all of its bits are known then. One step.
    /// No memory is taken.
    pub fn load(&mut self, tables: &Tables<N>, place: Place, bucket: u32) -> u64
        requires exists { HasWord N.raise place bucket }
        ensures known { HasKnown self.old.hints place bucket result }
        ensures noted { self.new ≡ after_load place bucket result self.old }
        ensures learned { KnowsAll self.new.hints place bucket result }
        ensures kept { KnowsAsMuch self.old.hints self.new.hints }
        ensures sound { IsSound N.setting self.new.hints self.new.seen }
    {
        tables.raise.load(&mut self.hints, place, bucket)
    }

    /// Another one that knows and has seen as much, and has nothing else.
    pub fn split(&mut self, alloc: Global, tables: &Tables<N>) -> Result<Know<N>, OutOfMemory>
        ensures split { IfOk result (λ new. new ≡ split_off self.old) }
        ensures kept { self.new ≡ self.old }
        ensures sound { IfOk result (λ new. IsSound N.setting new.hints new.seen) }
    {
        let sight = self.sight.copy(alloc)?;
        let hints = tables.raise.split(&mut self.hints);
        let book = tables.book.split(&mut self.book);
        Ok(Know {
            hints,
            book,
            sight,
            handed: 0,
        })
    }

    /// Another one that knows and has seen as much, with the first number of the stock. It is refused exactly where the
    /// stock is empty. What comes with its seat in the book is borne out, so no entry that it has seen is under its
    /// number.
    pub fn split_numbered(
        &mut self,
        alloc: Global,
        tables: &Tables<N>,
    ) -> Result<Know<N>, Refusal<NumbersSpent>>
        ensures spent { AnswersBy result (numbers_fault self.old) }
        ensures numbered { IfOk result (λ new. new ≡ numbered_knowledge self.old) }
        ensures left { OnOk result (self.new ≡ after_numbering self.old) }
        ensures kept { OnErr result (self.new ≡ self.old) }
        ensures borne_out { IfOk result (λ new. IsPurseBorneOut new.seen new.purse) }
        ensures sound { IfOk result (λ new. IsSound N.setting new.hints new.seen) }
    {
        let sight = self.sight.copy(alloc)?;
        let Some(mut book) = tables.book.split_numbered(&mut self.book) else {
            return Err(Refusal::Fault(NumbersSpent));
        };
        tables.book.confirm(&mut book);
        Ok(Know {
            hints: tables.raise.split(&mut self.hints),
            book,
            sight,
            handed: 0,
        })
    }

    /// Changes nothing, and tells what holds of what comes with its seat in the book: no number stands there twice, and
    /// the entries of a number that it has seen are the first of those that are kept. One step. No memory is taken.
    pub fn confirm(&mut self, tables: &Tables<N>)
        ensures kept { self.new ≡ self.old }
        ensures borne_out { IsPurseBorneOut self.new.seen self.new.purse }
        ensures sound { IsSound N.setting self.new.hints self.new.seen }
    {
        tables.book.confirm(&mut self.book);
    }

    /// It has then seen and knows what either had seen and knew, and the other's number is met. No memory is taken.
    pub fn meet(&mut self, tables: &Tables<N>, other: Know<N>)
        ensures met { self.new ≡ meeting other self.old }
        ensures fronts { AreFronts self.old.seen self.new.seen × AreFronts other.seen self.new.seen }
        ensures knows { KnowsAsMuch self.old.hints self.new.hints × KnowsAsMuch other.hints self.new.hints }
        ensures handed { (self.old.handed ≤ self.new.handed) × (other.handed ≤ self.new.handed) }
        ensures borne_out { IsPurseBorneOut self.new.seen self.new.purse }
        ensures sound { IsSound N.setting self.new.hints self.new.seen }
    {
        let Know {
            hints,
            book,
            sight,
            handed,
        } = other;
        tables.raise.meet(&mut self.hints, hints);
        tables.book.meet(&mut self.book, book);
        self.sight.join(&sight);
        self.handed = self.handed.saturating_add(handed);
    }

    /// Counts rows that were handed to the caller. The count stops at the last value that it can have. No memory is
    /// taken.
    pub fn hand(&mut self, rows: u64)
        ensures handed { self.new ≡ after_handing rows self.old }
        ensures grown { self.old.handed ≤ self.new.handed }
    {
        self.handed = self.handed.saturating_add(rows);
    }

    /// What is left of it, in a type without the store's name. No memory is taken.
    pub fn unname(self) -> Ended
        ensures number { result.number ≡ (hand_of self.purse).own }
        ensures seen { result.seen ≡ self.seen }
        ensures held { AreHeld N.setting.held N.setting.zones N.setting.points result.seen }
    {
        Ended::new(self.book.number(), self.book.unname())
    }
}
