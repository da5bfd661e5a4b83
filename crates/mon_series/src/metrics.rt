// The series of rows by their metric.
ghost use Rattle.std.specs.Prelude.{◌≡◌, ◌≤◌, ◌<◌, ◌^◌, ℕ, List, length, slice_get, None, IfOk, IfSome, OnOk};
ghost use Rattle.std.specs.Map.{keys_of, lookup};
ghost use Rattle.mon_value.specs.Same.{same_text};
ghost use Rattle.mon_series.specs.within.Metrics.{HasRoom, MoreRoom, NumbersKeys, SameNumbers, TakesNumber};
ghost use Rattle.mon_series.specs.within.Metrics.{numbers_held};

use crate::kept_rows::SeriesMap;
use insertion_map::InsertionMap;
use mon_value::{OutOfMemory, RoomListOf, Text, TryCopy};
use std::alloc::Global;

/// The numbers of series, rising, under the metric that they are of.
pub(crate) type ByMetric = InsertionMap<Text, RoomListOf<u32>>;

/// The numbers under a metric.
pub(crate) fn numbers_of<'a>(index: &'a ByMetric, metric: &Text) -> &'a [u32]
    ensures numbers { result.now ≡ numbers_held index.now.entries metric.now }
{
    match index.get(metric) {
        Some(numbers) => numbers.as_slice(),
        None => &[],
    }
}

/// The numbers of the series of a map, under their metrics.
pub(crate) fn index_of(alloc: Global, series: &SeriesMap) -> Result<ByMetric, OutOfMemory>
    requires few { length series.now.entries < 2 ^ 32 }
    ensures numbers { IfOk result (λ index. NumbersKeys index.entries (keys_of series.now.entries)) }
{
    let mut index = ByMetric::new(alloc);
    let mut number: u32 = 0;
    for (key, _) in series.entries() {
        let at = make_room(alloc, &mut index, &key.metric)?;
        add_number(&mut index, at, number);
        number += 1;
    }
    Ok(index)
}

/// Makes room for a number more under a metric, and gives the metric's place.
pub(crate) fn make_room(
    alloc: Global,
    index: &mut ByMetric,
    metric: &Text,
) -> Result<usize, OutOfMemory>
    ensures numbers { SameNumbers index.old.entries index.new.entries }
    ensures room { IfOk result (HasRoom index.new.entries metric.now) }
{
    match index.get_index_of(metric) {
        Some(at) => more_room(index, at),
        None => add_metric(alloc, index, metric),
    }
}

// Makes room for a number more at a place, and gives it.
fn more_room(index: &mut ByMetric, at: usize) -> Result<usize, OutOfMemory>
    requires there { at < length index.old.entries }
    ensures place { IfOk result (λ place. place ≡ at) }
    ensures more { MoreRoom index.old.entries index.new.entries at }
    ensures room { OnOk result (IfSome (slice_get index.new.entries at) (λ entry. 1 ≤ entry.1.spare)) }
{
    let Some(numbers) = index.get_index_mut(at) else {
        unreachable!();
    };
    numbers.reserve_one()?;
    Ok(at)
}

// Adds a metric without numbers, with room for one, and gives its place.
fn add_metric(alloc: Global, index: &mut ByMetric, metric: &Text) -> Result<usize, OutOfMemory>
    requires absent { lookup (same_text metric.now) index.old.entries ≡ None }
    ensures numbers { SameNumbers index.old.entries index.new.entries }
    ensures room { IfOk result (HasRoom index.new.entries metric.now) }
{
    let at = index.len();
    let mut numbers = RoomListOf::new(alloc);
    numbers.reserve_one()?;
    index.insert(metric.copy(alloc)?, numbers)?;
    Ok(at)
}

/// Adds a number under the metric at a place, in the room that was made for it.
pub(crate) fn add_number(index: &mut ByMetric, at: usize, number: u32)
    requires room { (metric : List ℕ) × HasRoom index.old.entries metric at }
    ensures added { (metric : List ℕ) → HasRoom index.old.entries metric at
        → TakesNumber index.old.entries index.new.entries metric number }
{
    let Some(numbers) = index.get_index_mut(at) else {
        unreachable!();
    };
    numbers.push(number);
}
