// What points that carry totals add to those before them, in windows that slide over a series from time to time.
ghost use Rattle.std.specs.List.{AllByRecursion};
ghost use Rattle.std.specs.Option.{option_copied};
ghost use Rattle.std.specs.Prelude.{◌≡◌, ◌≤◌, ◌<◌, ◌+◌, neg_ℤ, ◌≤ℤ◌, [], ◌∷◌, sum_by, length, Some};
ghost use Rattle.mon_value.specs.Groups.{sum_of, numbers_in};
ghost use Rattle.mon_value.specs.Grids.{EndsRise, IsDuration, IsNumber, SumFits, value_at, values_of};
ghost use Rattle.mon_value.specs.Increases as increases;
ghost use Rattle.mon_value.specs.Values.{magnitude};
ghost use Rattle.mon_value.specs.declared.aligners.Aligner.TheVariants.{Increase};
ghost use Rattle.mon_fold.specs.GrowingTotals.{growth_between, increases_between, IsGrown, most_grown, told_growth};

use crate::sliding::number_or_zero;
use mon_series::{KeptPoint, Series};
use mon_value::{LONGEST_DURATION, Value};

/// Points that follow one another, by the place of the first and that behind the last, and how much they add to those
/// before them.
#[derive(Drop)]
pub(crate) struct Growth {
    start: usize,
    end: usize,
    sum: i128,
}

impl Growth {
    /// The window without points behind all of them.
    pub(crate) fn behind(all: &[KeptPoint]) -> Growth
        ensures { IsGrown result all.now }
    {
        Growth {
            start: all.len(),
            end: all.len(),
            sum: 0,
        }
    }

    /// How much the points add; nothing is told of no points.
    pub(crate) fn told(&self) -> Option<Value>
        ensures { result ≡ told_growth self.now.start self.now.end self.now.sum }
    {
        if self.start < self.end {
            Some(Value::Int(self.sum))
        } else {
            None
        }
    }
}

/// How much the points that end in the seconds up to the time add, from another window.
pub(crate) fn growth_at(points: &Series, last: Growth, time: i64, seconds: i64) -> Growth
    requires after { neg_ℤ LONGEST_DURATION ≤ℤ time }
    requires looks_back { IsDuration seconds }
    requires rises { EndsRise points.now.points }
    requires numbers { AllByRecursion IsNumber (values_of points.now.points) }
    requires sums { SumFits (Increase seconds) points.now.points time }
    requires grown { IsGrown last points.now.points }
    ensures grown { IsGrown result points.now.points }
    ensures told { told_growth result.start result.end result.sum
        ≡ value_at (Increase seconds) points.now.points time }
{
    let (start, end) = points.places(time, seconds);
    let sum = slid_growth(points.points(), last, start, end);
    Growth { start, end, sum }
}

// How much the points between two places add, from another window. Where it has some of them the new points are added,
// and those that are not among them are taken off.
fn slid_growth(all: &[KeptPoint], last: Growth, start: usize, end: usize) -> i128
    requires numbers { AllByRecursion IsNumber (values_of all.now) }
    requires grown { IsGrown last all.now }
    requires ordered { start ≤ end }
    requires within { end ≤ length all.now }
    requires fits { sum_by magnitude (values_of (increases_between start end all.now)) ≤ most_grown }
    ensures { result ≡ growth_between start end all.now }
{
    if start <= last.start && last.start < end && end <= last.end {
        last.sum - growth_of(all, end, last.end) + growth_of(all, start, last.start)
    } else {
        growth_of(all, start, end)
    }
}

// How much the points between two places add.
fn growth_of(all: &[KeptPoint], start: usize, end: usize) -> i128
    requires numbers { AllByRecursion IsNumber (values_of all.now) }
    requires ordered { start ≤ end }
    requires within { end ≤ length all.now }
    requires fits { sum_by magnitude (values_of (increases_between start end all.now)) ≤ most_grown }
    ensures { result ≡ growth_between start end all.now }
{
    let mut sum = 0;
    for place in start..end {
        sum += growth_by(all, place);
    }
    sum
}

// How much the point at a place adds.
fn growth_by(all: &[KeptPoint], place: usize) -> i128
    requires numbers { AllByRecursion IsNumber (values_of all.now) }
    requires within { place < length all.now }
    requires fits { sum_by magnitude (values_of (increases_between place (place + 1) all.now)) ≤ most_grown }
    ensures { result ≡ growth_between place (place + 1) all.now }
{
    let earlier = &all[..place];
    increase(earlier.last(), &all[place])
}

// What a point adds to the one before it: where both count from one start, how much more it has, and else what it has,
// since the count began anew.
fn increase(before: Option<&KeptPoint>, point: &KeptPoint) -> i128
    requires number { IsNumber point.now.value }
    requires fits { magnitude (increases.increase (option_copied before) point.now) ≤ most_grown }
    ensures { result ≡ sum_of (numbers_in (increases.increase (option_copied before.entry) point.now ∷ [])) }
{
    match before {
        Some(before) => increase_on(before, point),
        None => number_or_zero(point),
    }
}

// What a point adds to another one before it.
fn increase_on(before: &KeptPoint, point: &KeptPoint) -> i128
    requires number { IsNumber point.now.value }
    requires fits { magnitude (increases.increase (Some before.now) point.now) ≤ most_grown }
    ensures { result ≡ sum_of (numbers_in (increases.increase (Some before.now) point.now ∷ [])) }
{
    if before.start() == point.start() {
        number_or_zero(point) - number_or_zero(before)
    } else {
        number_or_zero(point)
    }
}
