// Series brought to the times of a grid.
ghost use Rattle.std.specs.Prelude.{◌≡◌, IfOk, OnOk, ◌++◌, option_map};
ghost use Rattle.mon_value.specs.Grids.{aligned_values, CanAlign, newest_point, timed_values, IsLawfulGrid, time_count};
ghost use Rattle.mon_value.specs.declared.aligners.Aligner.TheVariants.{Delta, Increase, NextOlder};

use crate::growth::{Growth, growth_at};
use crate::sliding::{Window, window_at};
use mon_series::{KeptPoint, Series};
use mon_value::{Aligner, Grid, OutOfMemory, TimedValue, TimedValues, Value};
use std::alloc::Global;

/// The values of a series at the times of a grid, the newest time first. A time has none where no
/// point ends in the aligner's seconds up to it. Where the windows of a delta or of increases overlap, a
/// point is added once and taken off once, for however many times it counts; of a series of totals only
/// the points of the windows are read, and the one before each.
pub fn align(
    alloc: Global,
    points: &Series,
    by: Aligner,
    grid: &Grid,
) -> Result<TimedValues, OutOfMemory>
    requires { CanAlign by grid.now points.now.points }
    ensures aligned_values { IfOk result (λ values. values ≡ aligned_values by grid.now points.now.points) }
{
    match by {
        Aligner::NextOlder(seconds) => newest_values(alloc, points, seconds, grid),
        Aligner::Delta(seconds) => added_values(alloc, points, seconds, grid),
        Aligner::Increase(seconds) => increased_values(alloc, points, seconds, grid),
    }
}

// The newest value in the seconds up to each time.
fn newest_values(
    alloc: Global,
    points: &Series,
    seconds: i64,
    grid: &Grid,
) -> Result<TimedValues, OutOfMemory>
    requires { CanAlign (NextOlder seconds) grid.now points.now.points }
    ensures { IfOk result (λ values. values ≡ aligned_values (NextOlder seconds) grid.now points.now.points) }
{
    let mut values = TimedValues::new(alloc);
    let mut time = grid.moment;
    for _ in 0..times_of(grid) {
        let value = newest_value(alloc, points.window(time, seconds))?;
        add_value(&mut values, time, value)?;
        time -= grid.every;
    }
    Ok(values)
}

// What the points in the seconds up to each time add up to.
fn added_values(
    alloc: Global,
    points: &Series,
    seconds: i64,
    grid: &Grid,
) -> Result<TimedValues, OutOfMemory>
    requires { CanAlign (Delta seconds) grid.now points.now.points }
    ensures { IfOk result (λ values. values ≡ aligned_values (Delta seconds) grid.now points.now.points) }
{
    let mut values = TimedValues::new(alloc);
    let mut window = Window::behind(points.points());
    let mut time = grid.moment;
    for _ in 0..times_of(grid) {
        window = window_at(alloc, points, window, time, seconds)?;
        add_value(&mut values, time, window.total(alloc)?)?;
        time -= grid.every;
    }
    Ok(values)
}

// What the points in the seconds up to each time add to those before them.
fn increased_values(
    alloc: Global,
    points: &Series,
    seconds: i64,
    grid: &Grid,
) -> Result<TimedValues, OutOfMemory>
    requires { CanAlign (Increase seconds) grid.now points.now.points }
    ensures { IfOk result (λ values. values ≡ aligned_values (Increase seconds) grid.now points.now.points) }
{
    let mut values = TimedValues::new(alloc);
    let mut growth = Growth::behind(points.points());
    let mut time = grid.moment;
    for _ in 0..times_of(grid) {
        growth = growth_at(points, growth, time, seconds);
        add_value(&mut values, time, growth.told())?;
        time -= grid.every;
    }
    Ok(values)
}

// How many times a grid has.
fn times_of(grid: &Grid) -> u64
    requires { IsLawfulGrid grid.now }
    ensures { result ≡ time_count grid.now }
{
    let every = grid.every.unsigned_abs();
    (grid.within.unsigned_abs() + (every - 1)) / every
}

// Adds the value at the time, where there is one.
fn add_value(values: &mut TimedValues, time: i64, value: Option<Value>) -> Result<(), OutOfMemory>
    ensures { OnOk result (values.new ≡ values.old ++ timed_values time value) }
{
    if let Some(value) = value {
        values.push(TimedValue { time, value })?;
    }
    Ok(())
}

// The value of the newest point.
fn newest_value(alloc: Global, window: &[KeptPoint]) -> Result<Option<Value>, OutOfMemory>
    ensures { IfOk result (λ value. value ≡ option_map (λ point. point.value) (newest_point window.now)) }
{
    match window.last() {
        Some(point) => Ok(Some(point.value(alloc)?)),
        None => Ok(None),
    }
}
