// Windows that slide over the points of a series from time to time, and what their points add up to.
ghost use Rattle.std.specs.List.{AllByRecursion};
ghost use Rattle.std.specs.Prelude.{ℕ, ◌≡◌, ◌≤◌, ◌<◌, ◌+◌, neg_ℤ, ◌≤ℤ◌, IfOk, IfSome, [], ◌∷◌};
ghost use Rattle.std.specs.Prelude.{sum, sum_by, length, get_or};
ghost use Rattle.mon_value.specs.Groups.{sum_of, counts_added, counts_of, numbers_in, distributions_in, total_of};
ghost use Rattle.mon_value.specs.Grids.{CanAdd, CanAddAll, most_aligned, SumFits, value_at, values_of, IsDuration};
ghost use Rattle.mon_value.specs.Values.{magnitude};
ghost use Rattle.mon_value.specs.declared.aligners.Aligner.TheVariants.{Delta};
ghost use Rattle.mon_fold.specs.SlidingWindows.{points_between, IsTotalled};

use mon_series::{KeptPoint, Series};
use mon_value::{Counts, LONGEST_DURATION, OutOfMemory, TryCopy, Value};
use std::alloc::Global;

/// Points that follow one another, by the place of the first and that behind the last, and what they
/// add up to.
#[derive(Drop)]
pub(crate) struct Window {
    start: usize,
    end: usize,
    total: Option<Value>,
}

impl Window {
    /// The window without points behind all of them.
    pub(crate) fn behind(all: &[KeptPoint]) -> Window
        ensures { IsTotalled result all.now }
    {
        Window {
            start: all.len(),
            end: all.len(),
            total: None,
        }
    }

    /// A copy of what the points add up to.
    pub(crate) fn total(&self, alloc: Global) -> Result<Option<Value>, OutOfMemory>
        ensures { IfOk result (λ total. total ≡ self.now.total) }
    {
        match &self.total {
            Some(total) => Ok(Some(total.copy(alloc)?)),
            None => Ok(None),
        }
    }
}

/// The window of the points that end in the seconds up to the time, from another window.
pub(crate) fn window_at(
    alloc: Global,
    points: &Series,
    last: Window,
    time: i64,
    seconds: i64,
) -> Result<Window, OutOfMemory>
    requires after { neg_ℤ LONGEST_DURATION ≤ℤ time }
    requires looks_back { IsDuration seconds }
    requires alike { CanAddAll (values_of points.now.points) }
    requires sums { SumFits (Delta seconds) points.now.points time }
    requires totalled { IsTotalled last points.now.points }
    ensures totalled { IfOk result (λ window. IsTotalled window points.now.points) }
    ensures total { IfOk result (λ window. window.total ≡ value_at (Delta seconds) points.now.points time) }
{
    let (start, end) = points.places(time, seconds);
    let total = total_between(alloc, points.points(), last, start, end)?;
    Ok(Window { start, end, total })
}

// What the points between two places add up to, from another window.
fn total_between(
    alloc: Global,
    all: &[KeptPoint],
    last: Window,
    start: usize,
    end: usize,
) -> Result<Option<Value>, OutOfMemory>
    requires alike { CanAddAll (values_of all.now) }
    requires totalled { IsTotalled last all.now }
    requires ordered { start ≤ end }
    requires within { end ≤ length all.now }
    requires sums { sum_by magnitude (values_of (points_between start end all.now)) ≤ most_aligned }
    ensures { IfOk result (λ total. total ≡ total_of (values_of (points_between start end all.now))) }
{
    if start <= last.start && last.start < end && end <= last.end {
        Ok(slid_total(all, last, start, end))
    } else {
        added_value(alloc, &all[start..end])
    }
}

// What the points between two places add up to, from a later window that has some of them: the new
// points are added, and those that are not among them are taken off.
fn slid_total(all: &[KeptPoint], last: Window, start: usize, end: usize) -> Option<Value>
    requires alike { CanAddAll (values_of all.now) }
    requires totalled { IsTotalled last all.now }
    requires earlier { start ≤ last.start }
    requires shared { last.start < end }
    requires no_later { end ≤ last.end }
    requires sums { sum_by magnitude (values_of (points_between start end all.now)) ≤ most_aligned }
    ensures { result ≡ total_of (values_of (points_between start end all.now)) }
{
    let new = &all[start..last.start];
    let gone = &all[end..last.end];
    match last.total? {
        Value::Int(sum) => Some(Value::Int(sum - sum_of_numbers(gone) + sum_of_numbers(new))),
        Value::Dist(counts) => Some(Value::Dist(merge_into(take_off(counts, gone), new))),
        _ => None,
    }
}

// The values of the points added up.
fn added_value(alloc: Global, window: &[KeptPoint]) -> Result<Option<Value>, OutOfMemory>
    requires alike { CanAddAll (values_of window.now) }
    requires within { sum_by magnitude (values_of window.now) ≤ most_aligned }
    ensures { IfOk result (λ value. value ≡ total_of (values_of window.now)) }
{
    let Some((first, rest)) = window.split_first() else {
        return Ok(None);
    };
    if let Some(counts) = first.counts() {
        return Ok(Some(Value::Dist(merge_into(counts.copy(alloc)?, rest))));
    }
    match first.number() {
        Some(_) => Ok(Some(Value::Int(sum_of_numbers(window)))),
        None => Ok(None),
    }
}

// The sum of the points that are numbers.
fn sum_of_numbers(window: &[KeptPoint]) -> i128
    requires within { sum_by magnitude (values_of window.now) ≤ most_aligned }
    ensures { result ≡ sum_of (numbers_in (values_of window.now)) }
{
    match short_sum(window) {
        Some(sum) => sum,
        None => long_sum(window),
    }
}

// The sum of the points, where each is a number that is kept in 64 bits.
fn short_sum(window: &[KeptPoint]) -> Option<i128>
    requires within { sum_by magnitude (values_of window.now) ≤ most_aligned }
    ensures { IfSome result (λ sum. sum ≡ sum_of (numbers_in (values_of window.now))) }
{
    let mut sum = 0;
    for point in window {
        sum += i128::from(point.short_number()?);
    }
    Some(sum)
}

// The sum of the points that are numbers, of whatever size.
fn long_sum(window: &[KeptPoint]) -> i128
    requires within { sum_by magnitude (values_of window.now) ≤ most_aligned }
    ensures { result ≡ sum_of (numbers_in (values_of window.now)) }
{
    let mut sum = 0;
    for point in window {
        sum += number_or_zero(point);
    }
    sum
}

/// The number that a point's value is, and 0 where it is none.
pub(crate) fn number_or_zero(point: &KeptPoint) -> i128
    ensures { result ≡ sum_of (numbers_in (point.now.value ∷ [])) }
{
    match point.number() {
        Some(number) => number,
        None => 0,
    }
}

// The counts with those of the points added.
fn merge_into(mut counts: Counts, points: &[KeptPoint]) -> Counts
    requires alike { AllByRecursion (CanAdd (Value.Dist counts)) (values_of points.now) }
    requires within { sum counts + sum_by magnitude (values_of points.now) ≤ most_aligned }
    ensures { result ≡ counts_added counts (counts_of (distributions_in (values_of points.now))) }
{
    for point in points {
        if let Some(more) = point.counts() {
            counts.merge(more);
        }
    }
    counts
}

// The counts without those of the points, which added again would give the counts.
fn take_off(mut counts: Counts, points: &[KeptPoint]) -> Counts
    requires alike { AllByRecursion (CanAdd (Value.Dist counts)) (values_of points.now) }
    requires held { (k : ℕ) → get_or (counts_of (distributions_in (values_of points.now))) k 0 ≤ get_or counts k 0 }
    ensures buckets { length result ≡ length counts }
    ensures taken { (k : ℕ) →
        get_or result k 0 + get_or (counts_of (distributions_in (values_of points.now))) k 0 ≡ get_or counts k 0 }
{
    for point in points {
        if let Some(less) = point.counts() {
            subtract(counts.as_mut_slice(), less.as_slice());
        }
    }
    counts
}

/// Takes each count of the second off the one in its place in the first.
pub fn subtract(counts: &mut [u128], others: &[u128])
    requires buckets { length others.now ≡ length counts.old }
    requires held { (k : ℕ) → get_or others.now k 0 ≤ get_or counts.old k 0 }
    ensures buckets { length counts.new ≡ length counts.old }
    ensures taken { (k : ℕ) → get_or counts.new k 0 + get_or others.now k 0 ≡ get_or counts.old k 0 }
{
    for (i, other) in others.iter().enumerate() {
        counts[i] -= other;
    }
}
