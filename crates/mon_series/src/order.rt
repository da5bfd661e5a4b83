// The places of rows in order, in runs of rows that follow one another in one way.
ghost use Rattle.std.specs.Prelude.{◌≡◌, ◌++◌, ◌∷◌, ◌+◌, ◌-◌, ◌<◌, ◌≤◌, ◌^◌, ℕ, [], length, slice_get, IfOk, IfSome};
ghost use Rattle.std.specs.Prelude.{IsTrue, OnOk, Some};
ghost use Rattle.mon_series.specs.within.Orders.{AreRuns, BeginInOrder, IsShortPlace, first_number, first_places};
ghost use Rattle.mon_series.specs.within.Orders.{place_in, places_of};

use crate::placing::Place;
use mon_value::{OutOfMemory, RoomListOf, TryCopy};
use std::alloc::{AllocError, Global};
use std::marker::Model;
use std::mem::size_of;

/// How the rows of a run follow one another.
#[derive(Clone, Copy)]
pub(crate) enum Way {
    /// Each in the next series, with the same number of its point.
    NextSeries,
    /// Each in the same series, as its next point.
    NextPoint,
}

/// Rows that follow one another in one way: the place of the first one, and its number among all rows. How many there
/// are is told by where the next run begins.
#[derive(Clone, Copy)]
pub(crate) struct Run {
    series: u32,
    point: u32,
    first: u32,
    way: Way,
}

const _: () = prove!(size_of::<Run>() == 16);

impl Run {
    // A run of one row, whose number among all rows is `first`.
    fn of(place: Place, first: u32) -> Run
        ensures place { first_places result 1 ≡ place ∷ [] }
        ensures first { result.first ≡ first }
    {
        Run {
            series: place.series,
            point: place.point,
            first,
            way: Way::NextSeries,
        }
    }

    // The run with a row more behind its first `count` ones, if it goes on with that.
    fn with(self, count: u32, place: Place) -> Option<Run>
        ensures longer { IfSome result (λ longer. first_places longer (count + 1)
            ≡ first_places self count ++ place ∷ []) }
        ensures first { IfSome result (λ longer. longer.first ≡ self.first) }
    {
        if self.has(count, place) {
            return Some(self);
        }
        if count == 1 {
            return self.turned_with(place);
        }
        None
    }

    // The run of one row with a row more, if it goes on with that in the other way.
    fn turned_with(self, place: Place) -> Option<Run>
        ensures longer { IfSome result (λ longer. first_places longer 2 ≡ first_places self 1 ++ place ∷ []) }
        ensures first { IfSome result (λ longer. longer.first ≡ self.first) }
    {
        let turned = self.turned();
        if turned.has(1, place) {
            Some(turned)
        } else {
            None
        }
    }

    // The run that begins as this one and goes on in the other way.
    fn turned(self) -> Run
        ensures row { first_places result 1 ≡ first_places self 1 }
        ensures first { result.first ≡ self.first }
    {
        let way = match self.way {
            Way::NextSeries => Way::NextPoint,
            Way::NextPoint => Way::NextSeries,
        };
        Run { way, ..self }
    }

    // Whether the run's row of a number has this place.
    fn has(self, number: u32, place: Place) -> bool
        ensures place { IsTrue result → place ≡ place_in self number }
    {
        match self.way {
            Way::NextSeries => {
                self.point == place.point && is_behind(self.series, number, place.series)
            }
            Way::NextPoint => {
                self.series == place.series && is_behind(self.point, number, place.point)
            }
        }
    }

    // The place of the run's row of a number.
    fn place(self, number: u32) -> Place
        requires short { IsShortPlace (place_in self number) }
        ensures place { result ≡ place_in self number }
    {
        match self.way {
            Way::NextSeries => Place {
                series: self.series + number,
                point: self.point,
            },
            Way::NextPoint => Place {
                series: self.series,
                point: self.point + number,
            },
        }
    }
}

impl TryCopy for Run {
    fn copy(&self, _alloc: Global) -> Result<Run, AllocError> {
        Ok(*self)
    }
}

// Whether a number is so many behind another one.
fn is_behind(first: u32, many: u32, number: u32) -> bool
    ensures behind { IsTrue result → number ≡ first + many }
{
    first.checked_add(many) == Some(number)
}

/// The places of rows, in the order of the rows. They stand in runs, 16 bytes for each: a feed lists its series in one
/// order again and again, or the points of one series after another. Contracts see the places, and for how many more
/// room was made. There are fewer than 2^32.
#[derive(Drop)]
pub(crate) struct Order {
    runs: RoomListOf<Run>,
    last: Run,
    count: u32,
}

impl Model for Order {
    ghost use Rattle.std.specs.Prelude.{◌-◌, ◌^◌, min};
    ghost use Rattle.mon_value.specs.Rooms.{RoomList};
    ghost use Rattle.mon_series.specs.declared.placing.Place.{Place};

    ghost Value = { RoomList Place };

    ghost use Rattle.mon_series.specs.within.Orders.{AreRuns, places_of};

    ghost view = { λ order. record {
      items = places_of order.runs.items order.last order.count;
      spare = min order.runs.spare (2 ^ 32 - 1 - order.count);
    } };

    ghost invariant = { λ order. AreRuns order.runs.items order.last order.count };
}

impl Order {
    /// No places.
    pub(crate) fn new(alloc: Global) -> Order
        ensures empty { result.items ≡ [] }
    {
        Order {
            runs: RoomListOf::new(alloc),
            last: Run {
                series: 0,
                point: 0,
                first: 0,
                way: Way::NextSeries,
            },
            count: 0,
        }
    }

    /// How many places there are.
    pub(crate) fn len(&self) -> usize
        ensures count { result ≡ length self.now.items }
    {
        self.count as usize
    }

    /// The place of the row of a number.
    pub(crate) fn get(&self, number: usize) -> Place
        requires { number < length self.now.items }
        ensures item { slice_get self.now.items number ≡ Some result }
    {
        let runs = self.runs.as_slice();
        let number = number as u32;
        let run = run_at(runs, self.last, number);
        run.place(number - run.first)
    }

    /// A copy of the places, with what room its memory has.
    pub(crate) fn copy(&self, alloc: Global) -> Result<Order, AllocError>
        ensures items { IfOk result (λ copied. copied.items ≡ self.now.items) }
    {
        Ok(Order {
            runs: self.runs.copy(alloc)?,
            last: self.last,
            count: self.count,
        })
    }

    /// Makes room for one place more, so that the next `push` takes no memory.
    pub(crate) fn reserve_one(&mut self) -> Result<(), OutOfMemory>
        ensures room { OnOk result (1 ≤ self.new.spare) }
        ensures kept { self.new.items ≡ self.old.items }
    {
        if self.count == u32::MAX {
            return Err(AllocError);
        }
        self.runs.reserve_one()
    }

    /// Adds a place at the end, in room that was made before.
    pub(crate) fn push(&mut self, place: Place)
        requires { 1 ≤ self.old.spare }
        ensures added { self.new.items ≡ self.old.items ++ place ∷ [] }
    {
        add_place(&mut self.runs, &mut self.last, self.count, place);
        self.count += 1;
    }
}

// Adds a place behind the first `count` ones: to the last run, if that goes on with it, else in a run of its own.
fn add_place(runs: &mut RoomListOf<Run>, last: &mut Run, count: u32, place: Place)
    requires room { 1 ≤ runs.old.spare }
    requires few { count + 1 < 2 ^ 32 }
    requires runs { AreRuns runs.old.items last.old count }
    ensures added { places_of runs.new.items last.new (count + 1)
        ≡ places_of runs.old.items last.old count ++ place ∷ [] }
    ensures runs { AreRuns runs.new.items last.new (count + 1) }
{
    match last.with(count - last.first, place) {
        Some(longer) => *last = longer,
        None => {
            runs.push(*last);
            *last = Run::of(place, count);
        }
    }
}

// The run that has the row of a number: of those that begin by it, the last one.
fn run_at(runs: &[Run], last: Run, number: u32) -> Run
    requires begins { first_number runs.now last ≡ 0 }
    requires ordered { BeginInOrder runs.now last }
    ensures within { result.first ≤ number }
    ensures place { (end : ℕ) → number < end
        → slice_get (places_of runs.now last end) number ≡ Some (place_in result (number - result.first)) }
{
    if number >= last.first {
        return last;
    }
    let begun = runs.partition_point(|run| run.first <= number);
    runs[begun - 1]
}
