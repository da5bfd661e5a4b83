// Points brought to the times of a grid, as rows.
ghost use Rattle.std.specs.Prelude.{◌≡◌, ◌+◌, ◌++◌, filter, length, map, sum_by, IfErr, IfOk, OnOk};
ghost use Rattle.std.specs.List.{AllByRecursion, flat_map};
ghost use Rattle.mon_value.specs.Grids.{aligned_values};
ghost use Rattle.mon_value.specs.Grids as grids;
ghost use Rattle.mon_value.specs.Order.{row_of};
ghost use Rattle.mon_series.specs.HeldSeries.{held_series};
ghost use Rattle.typed_trees.specs.Nodes.{node_tree};
ghost use Rattle.mon_meaning.specs.Central.{all_held};
ghost use Rattle.mon_meaning.specs.Counts.{TellsOver};
ghost use Rattle.mon_meaning.specs.within.FetchViews as views;
ghost use Rattle.mon_meaning.specs.within.FetchViews.{met_rows, points_kept};
ghost use Rattle.mon_meaning.specs.within.MetSeries.{CanAlignMet, is_counted, met_count, series_met};
ghost use Rattle.mon_meaning.specs.within.Readiness.{AreAlignable};
ghost use Rattle.mon_meaning.specs.within.SeriesMeaning.{align_load, series_rows};

use crate::evaluation::EvaluationSetting;
use crate::fetches::{Fetch, series_cells};
use crate::kept_points::{points_in_reach, wanted_series};
use crate::meter::{Meter, OverLimit};
use mon_fold::align;
use mon_series::{KeptRows, Series};
use mon_value::{
    Aligner, Cells, OutOfMemory, Refusal, SeriesKey, Shared, TimedRow, TimedRows, TimedValue,
    TimedValues, TryCopy, Value,
};
use std::alloc::Global;
use typed_trees::Node;

/// The rows of an alignment. The points in reach are counted before a row is made.
pub(crate) fn aligned_rows(
    setting: &EvaluationSetting<'_>,
    by: Aligner,
    input: &Node,
    meter: &mut Meter,
) -> Result<TimedRows, Refusal<OverLimit>>
    requires ready { AreAlignable setting.now.grid by (node_tree input.now) (all_held setting.now.series.now) }
    ensures rows { IfOk result (λ rows. rows
        ≡ flat_map (series_rows setting.now.grid by (node_tree input.now)) (all_held setting.now.series.now)) }
    ensures limit { meter.new.limit ≡ meter.old.limit }
    ensures counted { OnOk result (meter.new.load ≡ meter.old.load
        + align_load setting.now.grid by (node_tree input.now) (all_held setting.now.series.now)) }
    ensures over { IfErr result (TellsOver meter.old.limit (meter.old.load
        + align_load setting.now.grid by (node_tree input.now) (all_held setting.now.series.now))) }
{
    let fetch = match Fetch::new(setting.alloc, input)? {
        Some(fetch) => fetch,
        None => return Ok(TimedRows::new(setting.alloc)),
    };
    let met = met_series(setting, by, &fetch, meter)?;
    rows_of_series(setting, by, &fetch, met, meter)
}

/// A series that meets a fetch, and has points in its reach.
#[derive(Drop)]
pub(crate) struct Met<'a> {
    pub key: &'a Shared<SeriesKey>,
    pub series: &'a Series,
}

// The series that meet a fetch and have points in reach, which are counted.
fn met_series<'a>(
    setting: &EvaluationSetting<'a>,
    by: Aligner,
    fetch: &Fetch<'_>,
    meter: &mut Meter,
) -> Result<Vec<Met<'a>>, Refusal<OverLimit>>
    requires lawful { grids.IsLawfulGrid setting.now.grid }
    requires looks_back { grids.IsDuration (grids.seconds_of by) }
    ensures met { IfOk result (λ met. series_met met.items
        ≡ filter (is_counted setting.now.grid by fetch.now) (all_held setting.now.series.now)) }
    ensures limit { meter.new.limit ≡ meter.old.limit }
    ensures counted { OnOk result (meter.new.load ≡ meter.old.load
        + sum_by (met_count setting.now.grid by fetch.now) (all_held setting.now.series.now)) }
    ensures over { IfErr result (TellsOver meter.old.limit (meter.old.load
        + sum_by (met_count setting.now.grid by fetch.now) (all_held setting.now.series.now))) }
{
    let mut met = Vec::new(setting.alloc);
    for rows in setting.series {
        add_met(setting, by, fetch, rows, &mut met, meter)?;
    }
    Ok(met)
}

// Adds those of some rows. Only series of the fetch's metric are looked at.
fn add_met<'a>(
    setting: &EvaluationSetting<'a>,
    by: Aligner,
    fetch: &Fetch<'_>,
    rows: &'a KeptRows,
    met: &mut Vec<Met<'a>>,
    meter: &mut Meter,
) -> Result<(), Refusal<OverLimit>>
    requires lawful { grids.IsLawfulGrid setting.now.grid }
    requires looks_back { grids.IsDuration (grids.seconds_of by) }
    ensures met { OnOk result (series_met met.new.items ≡ series_met met.old.items
        ++ filter (is_counted setting.now.grid by fetch.now) (held_series rows.now.rows rows.now.kept)) }
    ensures limit { meter.new.limit ≡ meter.old.limit }
    ensures counted { OnOk result (meter.new.load ≡ meter.old.load
        + sum_by (met_count setting.now.grid by fetch.now) (held_series rows.now.rows rows.now.kept)) }
    ensures over { IfErr result (TellsOver meter.old.limit (meter.old.load
        + sum_by (met_count setting.now.grid by fetch.now) (held_series rows.now.rows rows.now.kept))) }
{
    let numbers = rows.of_metric(fetch.metric());
    for number in numbers {
        let (key, series) = rows.entry(*number);
        let one = Met { key, series };
        let reached = reached_count(setting, by, fetch, &one)?;
        if reached > 0 {
            meter.add(reached)?;
            met.push(one)?;
        }
    }
    Ok(())
}

/// How many points in reach a series has, if it meets the fetch.
pub(crate) fn reached_count(
    setting: &EvaluationSetting<'_>,
    by: Aligner,
    fetch: &Fetch<'_>,
    one: &Met<'_>,
) -> Result<usize, OutOfMemory>
    requires lawful { grids.IsLawfulGrid setting.now.grid }
    requires looks_back { grids.IsDuration (grids.seconds_of by) }
    ensures count { IfOk result (λ count. count
        ≡ met_count setting.now.grid by fetch.now (one.now.key.now, one.now.series.now.points)) }
{
    if !fetch.is_met(setting.alloc, one.key)? {
        return Ok(0);
    }
    Ok(points_in_reach(one.series, by, &setting.grid).len())
}

// The rows of series that meet a fetch, which are counted.
fn rows_of_series(
    setting: &EvaluationSetting<'_>,
    by: Aligner,
    fetch: &Fetch<'_>,
    met: Vec<Met<'_>>,
    meter: &mut Meter,
) -> Result<TimedRows, Refusal<OverLimit>>
    requires can { AllByRecursion (CanAlignMet setting.now.grid by fetch.now) (series_met met.items) }
    ensures rows { IfOk result (λ rows.
        rows ≡ flat_map (met_rows setting.now.grid by fetch.now) (series_met met.entry.items)) }
    ensures limit { meter.new.limit ≡ meter.old.limit }
    ensures counted { OnOk result (meter.new.load ≡ meter.old.load
        + length (flat_map (met_rows setting.now.grid by fetch.now) (series_met met.entry.items))) }
    ensures over { IfErr result (TellsOver meter.old.limit (meter.old.load
        + length (flat_map (met_rows setting.now.grid by fetch.now) (series_met met.entry.items)))) }
{
    let mut rows = TimedRows::new(setting.alloc);
    match add_all_met(setting, by, fetch, met, &mut rows, meter) {
        Ok(()) => Ok(rows),
        Err(refusal) => {
            drop(rows);
            Err(refusal)
        }
    }
}

// Adds the rows of series that meet a fetch.
fn add_all_met(
    setting: &EvaluationSetting<'_>,
    by: Aligner,
    fetch: &Fetch<'_>,
    met: Vec<Met<'_>>,
    rows: &mut TimedRows,
    meter: &mut Meter,
) -> Result<(), Refusal<OverLimit>>
    requires can { AllByRecursion (CanAlignMet setting.now.grid by fetch.now) (series_met met.items) }
    ensures rows { OnOk result (rows.new
        ≡ rows.old ++ flat_map (met_rows setting.now.grid by fetch.now) (series_met met.entry.items)) }
    ensures limit { meter.new.limit ≡ meter.old.limit }
    ensures counted { OnOk result (meter.new.load ≡ meter.old.load
        + length (flat_map (met_rows setting.now.grid by fetch.now) (series_met met.entry.items))) }
    ensures over { IfErr result (TellsOver meter.old.limit (meter.old.load
        + length (flat_map (met_rows setting.now.grid by fetch.now) (series_met met.entry.items)))) }
{
    for one in met {
        add_rows_met(setting, by, fetch, &one, rows, meter)?;
    }
    Ok(())
}

// Adds the rows of one of them.
fn add_rows_met(
    setting: &EvaluationSetting<'_>,
    by: Aligner,
    fetch: &Fetch<'_>,
    one: &Met<'_>,
    rows: &mut TimedRows,
    meter: &mut Meter,
) -> Result<(), Refusal<OverLimit>>
    requires can { CanAlignMet setting.now.grid by fetch.now (one.now.key.now, one.now.series.now.points) }
    ensures rows { OnOk result (rows.new ≡ rows.old
        ++ met_rows setting.now.grid by fetch.now (one.now.key.now, one.now.series.now.points)) }
    ensures limit { meter.new.limit ≡ meter.old.limit }
    ensures counted { OnOk result (meter.new.load ≡ meter.old.load
        + length (met_rows setting.now.grid by fetch.now (one.now.key.now, one.now.series.now.points))) }
    ensures over { IfErr result (TellsOver meter.old.limit (meter.old.load
        + length (met_rows setting.now.grid by fetch.now (one.now.key.now, one.now.series.now.points)))) }
{
    let values = series_values(setting, by, fetch, one)?;
    match meter.add(values.len()) {
        Ok(()) => Ok(add_rows(setting.alloc, one.key, values, rows)?),
        Err(refusal) => {
            drop(values);
            Err(refusal)
        }
    }
}

/// The values of a series at the times of the grid.
pub(crate) fn series_values(
    setting: &EvaluationSetting<'_>,
    by: Aligner,
    fetch: &Fetch<'_>,
    met: &Met<'_>,
) -> Result<TimedValues, OutOfMemory>
    requires can { CanAlignMet setting.now.grid by fetch.now (met.now.key.now, met.now.series.now.points) }
    ensures values { IfOk result (λ values. values ≡ aligned_values by setting.now.grid
        (points_kept fetch.now (met.now.key.now, met.now.series.now.points))) }
{
    if fetch.keeps_all() {
        return align(setting.alloc, met.series, by, &setting.grid);
    }
    let wanted = wanted_series(setting.alloc, fetch, met.key, met.series, by, &setting.grid)?;
    align(setting.alloc, &wanted, by, &setting.grid)
}

/// Adds a row for each value of a series.
pub(crate) fn add_rows(
    alloc: Global,
    key: &SeriesKey,
    values: TimedValues,
    rows: &mut TimedRows,
) -> Result<(), OutOfMemory>
    ensures added { OnOk result (rows.new ≡ rows.old ++ map (row_of key.now) values) }
{
    match series_cells(alloc, key) {
        Ok(cells) => {
            let added = add_rows_behind(alloc, &cells, values, rows);
            drop(cells);
            added
        }
        Err(fault) => {
            drop(values);
            Err(fault)
        }
    }
}

// Adds a row for each value, behind the cells of its series.
fn add_rows_behind(
    alloc: Global,
    cells: &Cells,
    values: TimedValues,
    rows: &mut TimedRows,
) -> Result<(), OutOfMemory>
    ensures added { OnOk result (rows.new ≡ rows.old ++ map (views.row_behind cells.now) values) }
{
    for aligned in values {
        let row = row_behind(alloc, cells, aligned)?;
        rows.push(row)?;
    }
    Ok(())
}

// The row of a value, behind the cells of its series.
fn row_behind(alloc: Global, cells: &Cells, aligned: TimedValue) -> Result<TimedRow, OutOfMemory>
    ensures row { IfOk result (λ row. row ≡ views.row_behind cells.now aligned) }
{
    let TimedValue { time, value } = aligned;
    let mut own = cells_with_room(alloc, cells.as_slice())?;
    own.push(value)?;
    Ok(TimedRow {
        time,
        cells: Cells::from_vec(own),
    })
}

// Copies of cells, with room for one more and no other.
fn cells_with_room(alloc: Global, cells: &[Value]) -> Result<Vec<Value>, OutOfMemory>
    ensures cells { IfOk result (λ own. own.items ≡ cells.now) }
{
    let mut own = Vec::with_capacity(alloc, cells.len() + 1)?;
    for cell in cells {
        own.push(cell.copy(alloc)?)?;
    }
    Ok(own)
}
