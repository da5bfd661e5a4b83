// A series and its windows.
ghost use Rattle.std.specs.Prelude.{◌≡◌, ◌+◌, ◌-◌, ◌≤◌, ◌<◌, ◌^◌, ◌==◌, ◌-ℤ◌, ◌<ℤ◌, ◌≤ℤ◌, neg_ℤ, [], ◌∷◌, ◌++◌};
ghost use Rattle.std.specs.Prelude.{length, take, drop, filter, not, int_lt, nat_lt, IfOk, IfSome, OnOk, IsTrue};
ghost use Rattle.std.specs.List.{AllByRecursion};
ghost use Rattle.mon_series.specs.SeriesPoints.{all_points};
ghost use Rattle.mon_series.specs.Splits.{points_after, points_until};
ghost use Rattle.mon_value.specs.Grids.{IsDuration, EndsRise, window_of};
ghost use Rattle.mon_value.specs.LeafHistories.{last_end};

use crate::kept_point::KeptPoint;
use mon_value::{LONGEST_DURATION, OutOfMemory, RoomListOf};
use std::alloc::Global;
use std::marker::Model;

/// The points of one series, of which the first ones may be hidden. The ends of all rise strictly. Contracts see both
/// parts in order, and for how many more points room was made.
#[derive(Drop)]
pub struct Series {
    points: RoomListOf<KeptPoint>,
    hidden: usize,
}

impl Model for Series {
    ghost use Rattle.std.specs.Prelude.{◌≤◌, length, take, drop};
    ghost use Rattle.mon_value.specs.Grids.{EndsRise};
    ghost use Rattle.mon_series.specs.SeriesPoints.{SeriesPoints};

    ghost Value = { SeriesPoints };

    ghost view = { λ s. record {
      hidden = take s.hidden s.points.items;
      points = drop s.hidden s.points.items;
      spare = s.points.spare;
    } };

    ghost invariant = { λ s. record {
      rises : EndsRise s.points.items;
      within : s.hidden ≤ length s.points.items;
    } };
}

impl Series {
    /// A series without points, which grows from `alloc`.
    pub fn new(alloc: Global) -> Series
        ensures empty { result.points ≡ [] }
        ensures hidden { result.hidden ≡ [] }
    {
        Series {
            points: RoomListOf::new(alloc),
            hidden: 0,
        }
    }

    /// Makes room for a point.
    pub fn reserve(&mut self) -> Result<(), OutOfMemory>
        ensures room { OnOk result (1 ≤ self.new.spare) }
        ensures kept { self.new.points ≡ self.old.points }
        ensures hidden { self.new.hidden ≡ self.old.hidden }
    {
        self.points.reserve_one()
    }

    /// Adds a point at the end, in the room that `reserve` made. It ends later than the hidden ones too.
    pub fn push(&mut self, point: KeptPoint)
        requires room { 1 ≤ self.old.spare }
        requires rises { IfSome (last_end (all_points self.old)) (λ last. last <ℤ point.end) }
        ensures added { self.new.points ≡ self.old.points ++ point ∷ [] }
        ensures hidden { self.new.hidden ≡ self.old.hidden }
        ensures spent { self.new.spare + 1 ≡ self.old.spare }
    {
        self.points.push(point);
    }

    /// Hides the points that end before a time. One binary search finds them, and nothing is moved.
    pub fn hide(&mut self, before: i64)
        ensures hidden { self.new.hidden
            ≡ self.old.hidden ++ filter (λ point. int_lt point.end before) self.old.points }
        ensures stand { self.new.points ≡ filter (λ point. not (int_lt point.end before)) self.old.points }
        ensures room { self.new.spare ≡ self.old.spare }
    {
        let more = count_before(behind(self.points.as_slice(), self.hidden), before);
        self.hidden += more;
    }

    /// The end of the last point, be it hidden or not. None exactly where there is no point.
    pub fn last(&self) -> Option<i64>
        ensures last { result ≡ last_end (all_points self.now) }
        ensures rises { EndsRise (all_points self.now) }
    {
        self.all_points().last().map(|point| point.end())
    }

    /// Whether no point stands. There are fewer than 2^61 in all, as they lie in memory.
    pub fn is_empty(&self) -> bool
        ensures none { result ≡ (length self.now.points == 0) }
        ensures few { length self.now.points < 2 ^ 61 }
    {
        self.points().is_empty()
    }

    /// The points that stand, in order.
    pub fn points(&self) -> &[KeptPoint]
        ensures points { result.now ≡ self.now.points }
        ensures rises { EndsRise self.now.points }
    {
        behind(self.points.as_slice(), self.hidden)
    }

    /// The points in order, the hidden ones first.
    pub(crate) fn all_points(&self) -> &[KeptPoint]
        ensures points { result.now ≡ all_points self.now }
        ensures rises { EndsRise (all_points self.now) }
    {
        self.points.as_slice()
    }

    /// Whether the point of a number is hidden, where the first of all has the number 0.
    pub(crate) fn hides(&self, number: usize) -> bool
        ensures hides { result ≡ nat_lt number (length self.now.hidden) }
        ensures rises { EndsRise (all_points self.now) }
    {
        number < self.hidden
    }

    /// A series of the same points, of which the same are hidden, with what room its memory has.
    pub fn copy(&self, alloc: Global) -> Result<Series, OutOfMemory>
        ensures points { IfOk result (λ copied. copied.points ≡ self.now.points) }
        ensures hidden { IfOk result (λ copied. copied.hidden ≡ self.now.hidden) }
    {
        Ok(Series {
            points: self.points.copy(alloc)?,
            hidden: self.hidden,
        })
    }

    /// The places of the points that `window` gives: of the first, and the one behind the last. Where it gives
    /// none, both are the place behind the points that end before it.
    pub fn places(&self, time: i64, seconds: i64) -> (usize, usize)
        requires time { neg_ℤ LONGEST_DURATION ≤ℤ time }
        requires seconds { IsDuration seconds }
        ensures before { result.0 ≡ length (points_until (time -ℤ seconds) self.now.points) }
        ensures ended { result.1 ≡ length (points_until time self.now.points) }
        ensures ordered { result.0 ≤ result.1 }
        ensures within { result.1 ≤ length self.now.points }
        ensures window { take (result.1 - result.0) (drop result.0 self.now.points)
            ≡ window_of time seconds self.now.points }
    {
        let (ended, _) = split_at_time(self.points(), time);
        let (before, _) = split_at_time(ended, time - seconds);
        (before.len(), ended.len())
    }

    /// The points that stand and end at the time or before it. At most one binary search finds them, and no memory is taken.
    pub fn before(&self, time: i64) -> &[KeptPoint]
        ensures ended { result.now ≡ points_until time self.now.points }
        ensures rises { EndsRise self.now.points }
    {
        let (ended, _) = split_at_time(self.points(), time);
        ended
    }

    /// The points that stand and end in so many seconds up to the time: above `time - seconds` and at most `time`. A
    /// moment is at least 0, but the times of its grid may lie before it. At most two binary searches find the points.
    pub fn window(&self, time: i64, seconds: i64) -> &[KeptPoint]
        requires time { neg_ℤ LONGEST_DURATION ≤ℤ time }
        requires seconds { IsDuration seconds }
        ensures window { result.now ≡ window_of time seconds self.now.points }
        ensures rises { EndsRise result.now }
    {
        let (ended, _) = split_at_time(self.points(), time);
        let (_, window) = split_at_time(ended, time - seconds);
        window
    }
}

// The points behind the first so many.
fn behind(points: &[KeptPoint], count: usize) -> &[KeptPoint]
    requires rises { EndsRise points.now }
    requires within { count ≤ length points.now }
    ensures behind { result.now ≡ drop count points.now }
    ensures rises { EndsRise result.now }
{
    &points[count..]
}

// How many points end before a time.
fn count_before(points: &[KeptPoint], before: i64) -> usize
    requires { EndsRise points.now }
    ensures within { result ≤ length points.now }
    ensures ended { take result points.now ≡ filter (λ point. int_lt point.end before) points.now }
    ensures later { drop result points.now ≡ filter (λ point. not (int_lt point.end before)) points.now }
{
    points.partition_point(|point| point.end() < before)
}

// The points that end at `time` or before, and those that end after it.
fn split_at_time(points: &[KeptPoint], time: i64) -> (&[KeptPoint], &[KeptPoint])
    requires { EndsRise points.now }
    ensures joined { points.now ≡ result.0.now ++ result.1.now }
    ensures ended { result.0.now ≡ points_until time points.now }
    ensures later { result.1.now ≡ points_after time points.now }
{
    points.split_at(count_until(points, time))
}

// How many points end at `time` or before. Where all do, or none does, nothing is searched.
fn count_until(points: &[KeptPoint], time: i64) -> usize
    requires { EndsRise points.now }
    ensures within { result ≤ length points.now }
    ensures ended { take result points.now ≡ points_until time points.now }
    ensures later { drop result points.now ≡ points_after time points.now }
{
    if all_end_until(points, time) {
        points.len()
    } else if all_end_after(points, time) {
        0
    } else {
        points.partition_point(|point| point.end() <= time)
    }
}

// Whether the last point ends at `time` or before, or there is none.
fn all_end_until(points: &[KeptPoint], time: i64) -> bool
    requires { EndsRise points.now }
    ensures { IsTrue result → AllByRecursion (λ point. point.end ≤ℤ time) points.now }
{
    match points.last() {
        Some(last) => last.end() <= time,
        None => true,
    }
}

// Whether the first point ends after `time`.
fn all_end_after(points: &[KeptPoint], time: i64) -> bool
    requires { EndsRise points.now }
    ensures { IsTrue result → AllByRecursion (λ point. time <ℤ point.end) points.now }
{
    match points.first() {
        Some(first) => first.end() > time,
        None => false,
    }
}
