// The points of a series that an alignment may see.
ghost use Rattle.std.specs.Prelude.{◌≡◌, ◌≤◌, ◌-ℤ◌, ◌<ℤ◌, ◌≤ℤ◌, ◌++◌, ◌∷◌, [], cond, drop, length, neg_ℤ, IfOk, IfSome};
ghost use Rattle.std.specs.Prelude.{OnOk};
ghost use Rattle.std.specs.Option.{option_to_list};
ghost use Rattle.mon_series.specs.SeriesPoints.{all_points};
ghost use Rattle.mon_series.specs.Splits.{points_until};
ghost use Rattle.mon_value.specs.Grids as grids;
ghost use Rattle.mon_value.specs.LeafHistories.{last_end};
ghost use Rattle.mon_value.specs.Grids.{EndsRise};
ghost use Rattle.mon_meaning.specs.within.FetchViews.{points_kept};
ghost use Rattle.mon_meaning.specs.within.Reach as reach;
ghost use Rattle.mon_meaning.specs.within.Reach.{earlier_wanted, points_wanted, points_within_reach};

use crate::fetches::{Fetch, series_cells};
use mon_series::{KeptPoint, Series};
use mon_value::{Aligner, Grid, LONGEST_DURATION, OutOfMemory, SeriesKey, TryCopy};
use std::alloc::Global;

/// The points in reach: those that end where an alignment may see them at some time of the grid. Their ends find them,
/// and they lie between two places.
pub(crate) fn points_in_reach<'a>(series: &'a Series, by: Aligner, grid: &Grid) -> &'a [KeptPoint]
    requires lawful { grids.IsLawfulGrid grid.now }
    requires looks_back { grids.IsDuration (grids.seconds_of by) }
    ensures reached { result.now ≡ points_within_reach grid.now by series.now.points }
    ensures rises { EndsRise result.now }
{
    let points = series.points();
    let (before, ended) = reached_places(series, least_time(grid), grid.moment, seconds_of(by));
    &points[before..ended]
}

// The places of the points that end in so many seconds up to the least time, or later, up to the moment. A grid of one
// time asks for one window alone.
fn reached_places(series: &Series, least: i64, moment: i64, seconds: i64) -> (usize, usize)
    requires least { neg_ℤ LONGEST_DURATION ≤ℤ least }
    requires ordered { least ≤ℤ moment }
    requires seconds { grids.IsDuration seconds }
    ensures before { result.0 ≡ length (points_until (least -ℤ seconds) series.now.points) }
    ensures ended { result.1 ≡ length (points_until moment series.now.points) }
    ensures starts { result.0 ≤ length series.now.points }
    ensures ends { result.1 ≤ length series.now.points }
{
    if least == moment {
        return series.places(moment, seconds);
    }
    let (before, _) = series.places(least, seconds);
    let (_, ended) = series.places(moment, seconds);
    (before, ended)
}

// How many seconds an aligner looks back.
fn seconds_of(by: Aligner) -> i64
    ensures seconds { result ≡ grids.seconds_of by }
{
    match by {
        Aligner::Delta(seconds) => seconds,
        Aligner::Increase(seconds) => seconds,
        Aligner::NextOlder(seconds) => seconds,
    }
}

// The least of a grid's times.
fn least_time(grid: &Grid) -> i64
    requires lawful { grids.IsLawfulGrid grid.now }
    ensures least { result ≡ grids.least_time grid.now }
{
    let every = grid.every.unsigned_abs();
    let times = (grid.within.unsigned_abs() + (every - 1)) / every;
    let span = (times - 1) * every;
    grid.moment - span as i64
}

/// The end at and below which no point is in reach of an alignment.
pub fn reach_start(by: Aligner, grid: &Grid) -> i64
    requires lawful { grids.IsLawfulGrid grid.now }
    requires looks_back { grids.IsDuration (grids.seconds_of by) }
    ensures start { result ≡ reach.reach_start grid.now by }
{
    least_time(grid) - seconds_of(by)
}

/// A series of the points that an alignment wants of a series that is met: of those in reach the ones that the filters
/// keep, and in front of them for increases the newest earlier one that they keep.
pub(crate) fn wanted_series(
    alloc: Global,
    fetch: &Fetch<'_>,
    key: &SeriesKey,
    series: &Series,
    by: Aligner,
    grid: &Grid,
) -> Result<Series, OutOfMemory>
    requires lawful { grids.IsLawfulGrid grid.now }
    requires looks_back { grids.IsDuration (grids.seconds_of by) }
    ensures rises { EndsRise series.now.points }
    ensures wanted { IfOk result (λ wanted. wanted.points
        ≡ points_wanted grid.now by (points_kept fetch.now (key.now, series.now.points))) }
{
    let earlier = series.before(least_time(grid) - seconds_of(by));
    let first = first_wanted(alloc, fetch, key, by, earlier)?;
    let ended = series.before(grid.moment);
    let wanted = &ended[first..];
    kept_series(alloc, fetch, key, wanted)
}

// The place of the first point that an alignment wants, where these end before its reach.
fn first_wanted(
    alloc: Global,
    fetch: &Fetch<'_>,
    key: &SeriesKey,
    by: Aligner,
    earlier: &[KeptPoint],
) -> Result<usize, OutOfMemory>
    ensures within { IfOk result (λ first. first ≤ length earlier.now) }
    ensures wanted { IfOk result (λ first. points_kept fetch.now (key.now, drop first earlier.now)
        ≡ earlier_wanted by (points_kept fetch.now (key.now, earlier.now))) }
{
    match by {
        Aligner::Delta(_) => Ok(earlier.len()),
        Aligner::NextOlder(_) => Ok(earlier.len()),
        Aligner::Increase(_) => newest_kept(alloc, fetch, key, earlier),
    }
}

// The place of the newest of the points of which all filters hold, or the place behind all where there is none.
fn newest_kept(
    alloc: Global,
    fetch: &Fetch<'_>,
    key: &SeriesKey,
    points: &[KeptPoint],
) -> Result<usize, OutOfMemory>
    ensures within { IfOk result (λ place. place ≤ length points.now) }
    ensures newest { IfOk result (λ place. points_kept fetch.now (key.now, drop place points.now)
        ≡ option_to_list (grids.newest_point (points_kept fetch.now (key.now, points.now)))) }
{
    let mut cells = series_cells(alloc, key)?;
    let mut place = points.len();
    while place > 0 {
        let value = points[place - 1].value(alloc)?;
        let (keeps, again) = fetch.keeps(alloc, cells, value)?;
        cells = again;
        place -= 1;
        if keeps {
            return Ok(place);
        }
    }
    Ok(points.len())
}

// A series of those points of which all filters hold, where the series is met.
fn kept_series(
    alloc: Global,
    fetch: &Fetch<'_>,
    key: &SeriesKey,
    points: &[KeptPoint],
) -> Result<Series, OutOfMemory>
    requires rises { EndsRise points.now }
    ensures kept { IfOk result (λ kept. kept.points ≡ points_kept fetch.now (key.now, points.now)) }
{
    let mut kept = Series::new(alloc);
    match keep_points(alloc, fetch, key, points, &mut kept) {
        Ok(()) => Ok(kept),
        Err(fault) => {
            drop(kept);
            Err(fault)
        }
    }
}

// Adds those points of which all filters hold to a series without points.
fn keep_points(
    alloc: Global,
    fetch: &Fetch<'_>,
    key: &SeriesKey,
    reached: &[KeptPoint],
    kept: &mut Series,
) -> Result<(), OutOfMemory>
    requires none { kept.old.points ≡ [] }
    requires hidden { kept.old.hidden ≡ [] }
    requires rises { EndsRise reached.now }
    ensures kept { OnOk result (kept.new.points ≡ points_kept fetch.now (key.now, reached.now)) }
{
    let mut cells = series_cells(alloc, key)?;
    for point in reached {
        let value = point.value(alloc)?;
        let (keeps, again) = fetch.keeps(alloc, cells, value)?;
        cells = again;
        add_point(alloc, keeps, point, kept)?;
    }
    Ok(())
}

// Adds a copy of a point, if the point is to be kept.
fn add_point(
    alloc: Global,
    keeps: bool,
    point: &KeptPoint,
    kept: &mut Series,
) -> Result<(), OutOfMemory>
    requires rises { IfSome (last_end (all_points kept.old)) (λ last. last <ℤ point.now.end) }
    ensures added { OnOk result (kept.new.points ≡ kept.old.points ++ cond keeps (point.now ∷ []) []) }
    ensures hidden { kept.new.hidden ≡ kept.old.hidden }
{
    if keeps {
        kept.reserve()?;
        kept.push(point.copy(alloc)?);
    }
    Ok(())
}
