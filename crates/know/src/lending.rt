// How a caller comes to the owner of a history, and goes on with what both have seen.
ghost use Rattle.std.specs.Prelude.{◌≡◌};
ghost use Rattle.know.specs.Lending.{back_with, lent_seat, without_purse};
ghost use Rattle.know.specs.Sound.{IsSound};
ghost use Rattle.mon_topo.specs.Sights.{sight_of};
ghost use Rattle.raise_table.specs.Seats.{KnowsAsMuch, without_notes};

use crate::knows::Know;
use crate::names::Names;
use crate::tables::Tables;
use history_book::BookSeat;
use mon_topo::Sight;
use raise_table::HintSeat;
use std::mem;

impl<N: Names> Know<N> {
    /// What it comes to an owner with: its seat in the book, and a seat that knows as much. It is left with what it has
    /// seen, and nothing else. Two steps. No memory is taken.
    pub fn lend(&mut self, tables: &Tables<N>) -> (HintSeat<N>, BookSeat<N>)
        ensures hints { result.0 ≡ without_notes self.old.hints }
        ensures book { result.1 ≡ lent_seat self.old }
        ensures left { self.new ≡ without_purse self.old }
        ensures sound { IsSound N.setting (without_notes self.old.hints) self.old.seen }
    {
        let hints = tables.raise.split(&mut self.hints);
        let plain = tables.book.split(&mut self.book);
        (hints, mem::replace(&mut self.book, plain))
    }

    /// How far it has seen histories. No memory is taken.
    pub fn sight(&self) -> &Sight
        ensures sight { result.now ≡ sight_of self.now.seen }
        ensures sound { IsSound N.setting self.now.hints self.now.seen }
    {
        &self.sight
    }

    /// It goes on with a seat of the book, how far that has seen, and what leads to all of it. One step. No memory is
    /// taken.
    pub fn take_back(
        &mut self,
        tables: &Tables<N>,
        hints: HintSeat<N>,
        book: BookSeat<N>,
        sight: &Sight,
    )
        requires sound { IsSound N.setting hints book.seen }
        requires sight { sight.now ≡ sight_of book.seen }
        ensures back { self.new ≡ back_with hints book self.old }
        ensures knows { KnowsAsMuch self.old.hints self.new.hints × KnowsAsMuch hints self.new.hints }
        ensures sound { IsSound N.setting self.new.hints self.new.seen }
    {
        tables.raise.meet(&mut self.hints, hints);
        self.sight.assign(sight);
        self.book = book;
    }
}
