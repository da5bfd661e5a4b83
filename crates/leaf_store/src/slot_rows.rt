// The rows of a replica.
ghost use Rattle.std.specs.Prelude.{◌≡◌, ◌++◌, ◌<◌, ◌<ℤ◌, [], length, slice_get, option_map, Some, IfErr, IfNone, IfOk};
ghost use Rattle.std.specs.Prelude.{IfSome, OnErr, OnOk, is_some};
ghost use Rattle.mon_value.specs.LeafHistories.{IsSource, last_end, points_of, series_of};
ghost use Rattle.mon_value.specs.Turns.{Adds, Hides};
ghost use Rattle.mon_series.specs.SlotViews.{all_kept};
ghost use Rattle.leaf_store.specs.within.Replicas.{has_row_of, with_turn};

use mon_series::{KeptRows, KeptSeries, Series};
use mon_value::{OutOfMemory, Row, RowList, SeriesKey, Shared};
use std::alloc::{AllocFailed, Global};
use std::marker::Model;

/// The rows of a replica, in the order in which they came. Contracts see two lists: all rows, and those that are kept,
/// which no trim hid. Their series are numbered in the order of their first rows, be they kept or not.
#[derive(Drop)]
pub struct SlotRows {
    rows: KeptRows,
}

impl Model for SlotRows {
    ghost use Rattle.mon_series.specs.SlotViews.{SlotView};

    ghost Value = { SlotView };

    ghost view = { λ slot. slot.rows };
}

impl SlotRows {
    /// Copies of some rows, in their order.
    pub(crate) fn of_rows(alloc: Global, rows: &[Row]) -> Result<SlotRows, OutOfMemory>
        requires source { IsSource rows.now }
        ensures rows { IfOk result (λ slot. slot ≡ all_kept rows.now) }
    {
        Ok(SlotRows {
            rows: KeptRows::of_rows(alloc, rows)?,
        })
    }

    /// Adds a row at the end, whose point ends later than those of its series, and tells whether the series had a row
    /// before. Where the series' number isn't known, it is found by a guess as by `find`. Where memory runs out the
    /// rows stay, and the row is given back.
    pub(crate) fn push(
        &mut self,
        row: Row,
        series: Option<u32>,
        guess: u32,
    ) -> Result<bool, AllocFailed<Row>>
        requires series { IfSome series (λ number. slice_get (series_of self.old.rows) number ≡ Some row.key) }
        requires later { IfSome (last_end (points_of row.key self.old.rows)) (λ last. last <ℤ row.point.end) }
        ensures known { IfOk result (λ known. known ≡ has_row_of row.key self.old.rows) }
        ensures pushed { OnOk result (self.new ≡ with_turn (Adds row) self.old) }
        ensures kept { OnErr result (self.new ≡ self.old) }
        ensures value_returned { IfErr result (λ failed. failed.value ≡ row) }
    {
        match self.number(&row.key, series, guess) {
            Some(number) => {
                self.rows.push_to(number, row)?;
                Ok(true)
            }
            None => {
                self.rows.push_first(row)?;
                Ok(false)
            }
        }
    }

    /// Hides the rows that end before a bound. No memory is taken.
    pub(crate) fn hide(&mut self, before: i64)
        ensures hidden { self.new ≡ with_turn (Hides before) self.old }
    {
        self.rows.hide(before);
    }

    // The number of the series of a key, if it has a row. Only where it isn't known is the series looked for.
    fn number(&self, key: &Shared<SeriesKey>, series: Option<u32>, guess: u32) -> Option<u32>
        requires series { IfSome series (λ number. slice_get (series_of self.now.rows) number ≡ Some key.now) }
        ensures number { IfSome result (λ number. slice_get (series_of self.now.rows) number ≡ Some key.now) }
        ensures known { is_some result ≡ has_row_of key.now self.now.rows }
        ensures none { IfNone result (points_of key.now self.now.rows ≡ []) }
    {
        match series {
            Some(number) => Some(number),
            None => number_of(self.find(key, guess)),
        }
    }

    /// The series of a key, if it has a row. Only where it isn't the series whose number is guessed is it looked up.
    pub(crate) fn find(&self, key: &Shared<SeriesKey>, guess: u32) -> Option<KeptSeries>
        ensures number { IfSome result (λ found. slice_get (series_of self.now.rows) found.number ≡ Some key.now) }
        ensures last { option_map (λ found. found.last) result ≡ last_end (points_of key.now self.now.rows) }
        ensures none { IfNone result (points_of key.now self.now.rows ≡ []) }
    {
        match self.guessed(key, guess) {
            Some(last) => Some(KeptSeries {
                number: guess,
                last,
            }),
            None => self.rows.find(key),
        }
    }

    // The end of the last point of the series of a number, if that is the series of a key.
    fn guessed(&self, key: &Shared<SeriesKey>, number: u32) -> Option<i64>
        ensures number { IfSome result (λ last. slice_get (series_of self.now.rows) number ≡ Some key.now) }
        ensures last { IfSome result (λ last. Some last ≡ last_end (points_of key.now self.now.rows)) }
    {
        if number >= self.rows.series() {
            return None;
        }
        let (own, series) = self.rows.entry(number);
        if own != key {
            return None;
        }
        series.last()
    }

    /// A copy of the row of a number.
    pub(crate) fn row(&self, alloc: Global, number: usize) -> Result<Row, OutOfMemory>
        requires within { number < length self.now.rows }
        ensures row { IfOk result (λ row. slice_get self.now.rows number ≡ Some row) }
    {
        self.rows.row(alloc, number)
    }

    /// Adds copies of the rows that are kept, in their order.
    pub(crate) fn push_kept(&self, alloc: Global, rows: &mut RowList) -> Result<(), OutOfMemory>
        ensures added { OnOk result (rows.new ≡ rows.old ++ self.now.kept) }
    {
        self.rows.push_kept(alloc, rows)
    }

    /// The rows as they are kept.
    pub fn rows(&self) -> &KeptRows
        ensures rows { result.now ≡ self.now }
    {
        &self.rows
    }

    /// How many series have a row, be it kept or not.
    pub fn series(&self) -> u32
        ensures count { result ≡ length (series_of self.now.rows) }
    {
        self.rows.series()
    }

    /// The key of the series of a number.
    pub fn key(&self, i: u32) -> &SeriesKey
        requires within { i < length (series_of self.now.rows) }
        ensures key { slice_get (series_of self.now.rows) i ≡ Some result.now }
    {
        self.rows.key(i)
    }

    /// The points of the series of a number that are kept.
    pub fn points(&self, i: u32) -> &Series
        requires within { i < length (series_of self.now.rows) }
        ensures points { IfSome (slice_get (series_of self.now.rows) i) (λ key. result.now.points ≡ points_of key self.now.kept) }
    {
        self.rows.points(i)
    }
}

// The number of a series.
fn number_of(series: Option<KeptSeries>) -> Option<u32>
    ensures number { result ≡ option_map (λ found. found.number) series }
{
    let found = series?;
    Some(found.number)
}
