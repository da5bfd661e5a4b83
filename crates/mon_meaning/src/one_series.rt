// One series of kept rows, brought to the times of a grid by itself.
ghost use Rattle.std.specs.Prelude.{◌≡◌, ◌<◌, length, slice_get, IfOk, IfSome};
ghost use Rattle.mon_value.specs.Grids as grids;
ghost use Rattle.mon_series.specs.HeldSeries.{all_series};
ghost use Rattle.mon_value.specs.LeafHistories.{series_of};
ghost use Rattle.mon_meaning.specs.within.FetchViews.{met_rows};
ghost use Rattle.mon_meaning.specs.within.MetSeries.{CanAlignMet, met_count};

use crate::alignments::{Met, add_rows, reached_count, series_values};
use crate::evaluation::EvaluationSetting;
use crate::fetches::Fetch;
use mon_series::KeptRows;
use mon_value::{Aligner, Grid, OutOfMemory, TimedRows};
use std::alloc::Global;

/// An alignment of kept rows, series by series.
#[derive(Clone, Copy)]
pub struct Alignment {
    pub alloc: Global,
    pub by: Aligner,
    pub grid: Grid,
}

/// How many points in reach the series of a number has, if it meets the fetch.
pub fn points_reached(
    alignment: &Alignment,
    fetch: &Fetch<'_>,
    rows: &KeptRows,
    number: u32,
) -> Result<usize, OutOfMemory>
    requires lawful { grids.IsLawfulGrid alignment.now.grid }
    requires looks_back { grids.IsDuration (grids.seconds_of alignment.now.by) }
    requires within { number < length (series_of rows.now.rows) }
    ensures count { IfOk result (λ count. IfSome (slice_get (all_series rows.now.rows rows.now.kept) number) (λ series.
        count ≡ met_count alignment.now.grid alignment.now.by fetch.now series)) }
{
    let setting = EvaluationSetting {
        alloc: alignment.alloc,
        series: &[rows],
        grid: alignment.grid,
    };
    let (key, series) = rows.entry(number);
    reached_count(&setting, alignment.by, fetch, &Met { key, series })
}

/// The rows of the series of a number, which meets the fetch, the newest time first.
pub fn rows_of_series(
    alignment: &Alignment,
    fetch: &Fetch<'_>,
    rows: &KeptRows,
    number: u32,
) -> Result<TimedRows, OutOfMemory>
    requires within { number < length (series_of rows.now.rows) }
    requires can { IfSome (slice_get (all_series rows.now.rows rows.now.kept) number)
        (CanAlignMet alignment.now.grid alignment.now.by fetch.now) }
    ensures rows { IfOk result (λ made. IfSome (slice_get (all_series rows.now.rows rows.now.kept) number) (λ series.
        made ≡ met_rows alignment.now.grid alignment.now.by fetch.now series)) }
{
    let setting = EvaluationSetting {
        alloc: alignment.alloc,
        series: &[rows],
        grid: alignment.grid,
    };
    let (key, series) = rows.entry(number);
    let values = series_values(&setting, alignment.by, fetch, &Met { key, series })?;
    let mut made = TimedRows::new(alignment.alloc);
    match add_rows(alignment.alloc, key, values, &mut made) {
        Ok(()) => Ok(made),
        Err(fault) => {
            drop(made);
            Err(fault)
        }
    }
}
