// Rows that are kept by series, in the order in which they came.
ghost use Rattle.std.specs.Prelude.{◌≡◌, ◌++◌, ◌<◌, ◌<ℤ◌, [], filter, length, not, slice_get, option_map, Some};
ghost use Rattle.std.specs.Prelude.{IfErr, IfNone, IfOk, IfSome, OnErr, OnOk};
ghost use Rattle.mon_value.specs.LeafHistories.{IsSource, last_end, points_by_series, points_of, series_of};
ghost use Rattle.mon_value.specs.Turns.{ends_before};
ghost use Rattle.mon_series.specs.HeldSeries.{all_series};
ghost use Rattle.mon_series.specs.MetricNumbers.{metric_numbers};
ghost use Rattle.mon_series.specs.SeriesMaps.{hidden_held, series_held};
ghost use Rattle.mon_series.specs.SeriesPoints.{all_points};
ghost use Rattle.mon_series.specs.SlotViews.{all_kept, with_row};

use crate::metrics::{ByMetric, add_number, index_of, make_room, numbers_of};
use crate::order::Order;
use crate::placing::{push_first, push_known, row_in};
use crate::series::Series;
use crate::standing::{hide_in_all, push_standing};
use insertion_map::InsertionMap;
use mon_value::{OutOfMemory, Row, RowList, SeriesKey, Shared, Text, TryCopy};
use std::alloc::{AllocError, AllocFailed, Global};
use std::marker::Model;

/// Series under their keys, in the order of their first rows.
pub type SeriesMap = InsertionMap<Shared<SeriesKey>, Series>;

/// A series that has rows: its number in the order of the first rows, and the end of its last point.
#[derive(Clone, Copy, PartialEq, Eq)]
pub struct KeptSeries {
    pub number: u32,
    pub last: i64,
}

/// Rows in the order in which they came, of which some may be hidden. Contracts see all of them, and those that are
/// kept. Each point stands once, with its series; beside them stand the places of the points, in order, and the numbers
/// of the series under their metrics. There are fewer than 2^32 rows.
#[derive(Drop)]
pub struct KeptRows {
    alloc: Global,
    series: SeriesMap,
    order: Order,
    by_metric: ByMetric,
}

impl Model for KeptRows {
    ghost use Rattle.mon_series.specs.SlotViews.{SlotView};

    ghost Value = { SlotView };

    ghost use Rattle.mon_series.specs.SeriesMaps.{hidden_held, series_held};
    ghost use Rattle.mon_series.specs.within.Hidden.{slot_of};
    ghost use Rattle.mon_series.specs.within.KeptRows.{AreRowsKept};

    ghost view = { λ rows. slot_of (series_held rows.series.entries) (hidden_held rows.series.entries)
        rows.order.items };

    ghost invariant = { λ rows. AreRowsKept (series_held rows.series.entries) rows.order.items rows.by_metric.entries };
}

impl KeptRows {
    /// No rows.
    pub fn new(alloc: Global) -> KeptRows
        ensures empty { result ≡ all_kept [] }
    {
        KeptRows {
            alloc,
            series: SeriesMap::new(alloc),
            order: Order::new(alloc),
            by_metric: ByMetric::new(alloc),
        }
    }

    /// Copies of some rows, in their order.
    pub fn of_rows(alloc: Global, rows: &[Row]) -> Result<KeptRows, OutOfMemory>
        requires source { IsSource rows.now }
        ensures rows { IfOk result (λ kept. kept ≡ all_kept rows.now) }
    {
        let mut kept = KeptRows::new(alloc);
        for row in rows {
            kept.push(row.copy(alloc)?)?;
        }
        Ok(kept)
    }

    /// How many rows there are.
    pub fn len(&self) -> usize
        ensures count { result ≡ length self.now.rows }
    {
        self.order.len()
    }

    /// A copy of the row of a number. The first one has the number 0.
    pub fn row(&self, alloc: Global, number: usize) -> Result<Row, OutOfMemory>
        requires within { number < length self.now.rows }
        ensures row { IfOk result (λ row. slice_get self.now.rows number ≡ Some row) }
    {
        row_in(alloc, &self.series, self.order.get(number))
    }

    /// How many series have a row.
    pub fn series(&self) -> u32
        ensures count { result ≡ length (series_of self.now.rows) }
    {
        self.series.len() as u32
    }

    /// The key of the series of a number.
    pub fn key(&self, number: u32) -> &SeriesKey
        requires within { number < length (series_of self.now.rows) }
        ensures key { slice_get (series_of self.now.rows) number ≡ Some result.now }
    {
        let Some((key, _)) = self.series.get_index(number as usize) else {
            unreachable!();
        };
        key
    }

    /// The series of a number. Those of its points stand that are kept.
    pub fn points(&self, number: u32) -> &Series
        requires within { number < length (series_of self.now.rows) }
        ensures points { IfSome (slice_get (series_of self.now.rows) number) (λ key.
            result.now.points ≡ points_of key self.now.kept) }
    {
        let Some((_, series)) = self.series.get_index(number as usize) else {
            unreachable!();
        };
        series
    }

    /// The key and the points of the series of a number.
    pub fn entry(&self, number: u32) -> (&Shared<SeriesKey>, &Series)
        requires within { number < length (series_of self.now.rows) }
        ensures entry { slice_get (all_series self.now.rows self.now.kept) number
            ≡ Some (result.0.now, result.1.now.points) }
        ensures all { slice_get (points_by_series self.now.rows) number
            ≡ Some (result.0.now, all_points result.1.now) }
    {
        let Some((key, series)) = self.series.get_index(number as usize) else {
            unreachable!();
        };
        (key, series)
    }

    /// The numbers, rising, of the series of a metric.
    pub fn of_metric(&self, metric: &Text) -> &[u32]
        ensures numbers { result.now ≡ metric_numbers metric.now self.now.rows }
    {
        numbers_of(&self.by_metric, metric)
    }

    /// The series of a key, if it has a row, be it hidden or not.
    pub fn find(&self, key: &Shared<SeriesKey>) -> Option<KeptSeries>
        ensures number { IfSome result (λ found. slice_get (series_of self.now.rows) found.number ≡ Some key.now) }
        ensures last { option_map (λ found. found.last) result ≡ last_end (points_of key.now self.now.rows) }
        ensures none { IfNone result (points_of key.now self.now.rows ≡ []) }
    {
        let Some((number, _, series)) = self.series.get_full(key) else {
            return None;
        };
        let Some(last) = series.last() else {
            return None;
        };
        Some(KeptSeries {
            number: number as u32,
            last,
        })
    }

    /// Adds a row at the end, whose point ends later than those of its series. Its series is looked up once. Where
    /// memory runs out the rows stay, and the row is given back.
    pub fn push(&mut self, row: Row) -> Result<(), AllocFailed<Row>>
        requires later { IfSome (last_end (points_of row.key self.old.rows)) (λ last. last <ℤ row.point.end) }
        ensures pushed { OnOk result (self.new ≡ with_row self.old row) }
        ensures kept { OnErr result (self.new ≡ self.old) }
        ensures value_returned { IfErr result (λ failed. failed.value ≡ row) }
    {
        match self.find(&row.key) {
            Some(found) => self.push_to(found.number, row),
            None => self.push_first(row),
        }
    }

    /// Adds a row to the series of a number, which `find` tells. Else it does as `push`.
    pub fn push_to(&mut self, number: u32, row: Row) -> Result<(), AllocFailed<Row>>
        requires series { slice_get (series_of self.old.rows) number ≡ Some row.key }
        requires later { IfSome (last_end (points_of row.key self.old.rows)) (λ last. last <ℤ row.point.end) }
        ensures pushed { OnOk result (self.new ≡ with_row self.old row) }
        ensures kept { OnErr result (self.new ≡ self.old) }
        ensures value_returned { IfErr result (λ failed. failed.value ≡ row) }
    {
        push_known(self.alloc, &mut self.series, &mut self.order, number, row)
    }

    /// Adds the first row of a series. Else it does as `push`.
    pub fn push_first(&mut self, row: Row) -> Result<(), AllocFailed<Row>>
        requires first { points_of row.key self.old.rows ≡ [] }
        ensures pushed { OnOk result (self.new ≡ with_row self.old row) }
        ensures kept { OnErr result (self.new ≡ self.old) }
        ensures value_returned { IfErr result (λ failed. failed.value ≡ row) }
    {
        let number = self.series();
        let Ok(at) = make_room(self.alloc, &mut self.by_metric, &row.key.metric) else {
            return Err(AllocFailed { value: row });
        };
        push_first(self.alloc, &mut self.series, &mut self.order, row)?;
        add_number(&mut self.by_metric, at, number);
        Ok(())
    }

    /// Hides the rows that end before a time. That takes a binary search for each series, and no memory.
    pub fn hide(&mut self, before: i64)
        ensures rows { self.new.rows ≡ self.old.rows }
        ensures kept { self.new.kept ≡ filter (λ row. not (ends_before before row)) self.old.kept }
    {
        hide_in_all(&mut self.series, before);
    }

    /// Adds copies of the kept rows, in their order.
    pub fn push_kept(&self, alloc: Global, rows: &mut RowList) -> Result<(), OutOfMemory>
        ensures added { OnOk result (rows.new ≡ rows.old ++ self.now.kept) }
    {
        push_standing(alloc, &self.series, &self.order, rows)
    }
}

impl TryCopy for KeptRows {
    fn copy(&self, alloc: Global) -> Result<KeptRows, AllocError> {
        Ok(KeptRows {
            alloc,
            series: copied_series(alloc, &self.series)?,
            order: self.order.copy(alloc)?,
            by_metric: index_of(alloc, &self.series)?,
        })
    }
}

// Copies of series, each under its key.
fn copied_series(alloc: Global, groups: &SeriesMap) -> Result<SeriesMap, AllocError>
    ensures groups { IfOk result (λ copied. series_held copied.entries ≡ series_held groups.now.entries) }
    ensures hidden { IfOk result (λ copied. hidden_held copied.entries ≡ hidden_held groups.now.entries) }
{
    let mut copied = SeriesMap::with_capacity(alloc, groups.len())?;
    for (key, series) in groups.entries() {
        let own = key.copy(alloc)?;
        let points = series.copy(alloc)?;
        copied.insert(own, points)?;
    }
    Ok(copied)
}
