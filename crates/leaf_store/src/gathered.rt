// The rows of a replica that stand, gathered from the last one back.
ghost use Rattle.std.specs.Prelude.{◌≡◌, ◌<◌, ◌≤◌, length, map, slice_get, take, IfSome, OnOk};
ghost use Rattle.mon_value.specs.Turns.{Adds, Hides};
ghost use Rattle.leaf_store.specs.within.FromBehind.{behind_turn, behind_turns, is_below, none_standing, with_bound};

use crate::slot_rows::SlotRows;
use mon_value::{OutOfMemory, RowList};
use std::alloc::Global;
use std::marker::Model;

/// The rows of a replica that stand, gathered from the last one back, and the greatest bound of the trims that were met
/// so far: of the rows in front of these none stands that ends before it. Contracts see the rows in the order in which
/// they came.
#[derive(Drop)]
pub(crate) struct Gathered {
    alloc: Global,
    last_first: RowList,
    bound: Option<i64>,
}

impl Model for Gathered {
    ghost use Rattle.std.specs.Prelude.{reverse};
    ghost use Rattle.leaf_store.specs.within.FromBehind.{Standing};

    ghost Value = { Standing };

    ghost view = { λ gathered. record { rows = reverse gathered.last_first; bound = gathered.bound } };
}

impl Gathered {
    /// No rows, and no bound.
    pub(crate) fn new(alloc: Global) -> Gathered
        ensures none { result ≡ none_standing }
    {
        Gathered {
            alloc,
            last_first: RowList::new(alloc),
            bound: None,
        }
    }

    /// The rows in the order in which they came.
    pub(crate) fn into_rows(self) -> RowList
        ensures rows { result ≡ self.rows }
    {
        let mut rows = self.last_first.into_vec();
        rows.reverse();
        RowList::from_vec(rows)
    }

    /// Goes back over a trim.
    pub(crate) fn hide(&mut self, before: i64)
        ensures hidden { self.new ≡ behind_turn (Hides before) self.old }
    {
        self.bound = Some(greater(before, self.bound));
    }

    /// Goes back over a row of a replica.
    pub(crate) fn add(&mut self, slot: &SlotRows, number: usize) -> Result<(), OutOfMemory>
        requires within { number < length slot.now.rows }
        ensures added { OnOk result (IfSome (slice_get slot.now.rows number)
            (λ row. self.new ≡ behind_turn (Adds row) self.old)) }
    {
        let row = slot.row(self.alloc, number)?;
        if ends_below(self.bound, row.point.end) {
            return Ok(());
        }
        self.last_first.push(row)
    }

    /// Goes back over the first so many rows of a replica.
    pub(crate) fn add_front(&mut self, slot: &SlotRows, count: usize) -> Result<(), OutOfMemory>
        requires within { count ≤ length slot.now.rows }
        ensures added { OnOk result (self.new ≡ behind_turns (map Adds (take count slot.now.rows)) self.old) }
    {
        let mut number = count;
        while number > 0 {
            number -= 1;
            self.add(slot, number)?;
        }
        Ok(())
    }
}

// The greater of a bound and one that there may be.
fn greater(bound: i64, other: Option<i64>) -> i64
    ensures greater { result ≡ with_bound bound other }
{
    match other {
        Some(other) if bound < other => other,
        _ => bound,
    }
}

// Whether an end is below a bound that there may be.
fn ends_below(bound: Option<i64>, end: i64) -> bool
    ensures below { result ≡ is_below bound end }
{
    match bound {
        Some(bound) => end < bound,
        None => false,
    }
}
