// How points are brought to the times of a table.
ghost use Rattle.std.specs.Prelude.{◌≡◌, ◌≤◌, ◌+◌, ◌*◌, ◌^◌, ◌++◌, ℕ, ℤ, ◌-ℤ◌, ◌≤ℤ◌, List, Option, None, IfSome};
ghost use Rattle.std.specs.Prelude.{sum_by, length};
ghost use Rattle.std.specs.List.{AllByRecursion};
ghost use Rattle.std.specs.Option.{option_to_list};
ghost use Rattle.mon_value.specs.Grids.{ended_by, EndsRise, IsDuration, newest_or, values_of, window_of, with_earlier};
ghost use Rattle.mon_value.specs.Increases.{increases};
ghost use Rattle.mon_value.specs.Values.{INCREASE_BITS, magnitude, NUMBER_BITS, ROW_BITS};
ghost use Rattle.mon_value.specs.declared.rows.Point.{Point};

use crate::copying::TryCopy;
use std::alloc::{AllocError, Global};

/// What a series has at a time: the sum of its points that end in the seconds before it, the sum of
/// what such points add to those before them, where each has a total, or the newest of them. The
/// number is how many seconds are looked back.
#[derive(Clone, Copy, PartialEq, Eq)]
pub enum Aligner {
    Delta(i64),
    NextOlder(i64),
    Increase(i64),
}

impl TryCopy for Aligner {
    fn copy(&self, _alloc: Global) -> Result<Aligner, AllocError> {
        Ok(*self)
    }
}

/// What the points of a window add is told by the window and the one point before it. An increase is
/// at most twice as large as the largest value, and increases sum to at most twice what the values sum
/// to, with the value before them.
pub fn increases_are_of_windows()
    ensures window { (time seconds : ℤ) (before : Option Point) (points : List Point)
        → IsDuration seconds → EndsRise points
        → window_of time seconds (increases before points)
        ≡ increases (newest_or before (ended_by (time -ℤ seconds) points)) (window_of time seconds points) }
    ensures each { (most : ℕ) (before : Option Point) (points : List Point)
        → IfSome before (λ (point : Point). magnitude point.value ≤ most)
        → AllByRecursion (λ (point : Point). magnitude point.value ≤ most) points
        → AllByRecursion (λ (point : Point). magnitude point.value ≤ most + most) (increases before points) }
    ensures sums { (before : Option Point) (points : List Point)
        → sum_by magnitude (values_of (increases before points))
        ≤ 2 * sum_by magnitude (values_of (option_to_list before ++ points)) }
{}

/// The points that end above a time and the newest of the others come to the same increases in each
/// later window. The increases of as many points as a query may meet have a width that a sum may have.
pub fn earlier_points_are_enough()
    ensures enough { (time seconds start : ℤ) (points : List Point) → IsDuration seconds → EndsRise points
        → start ≤ℤ (time -ℤ seconds)
        → window_of time seconds (increases None (with_earlier start points))
        ≡ window_of time seconds (increases None points) }
    ensures bits { (before : Option Point) (points : List Point)
        → IfSome before (λ (point : Point). magnitude point.value ≤ 2 ^ NUMBER_BITS)
        → AllByRecursion (λ (point : Point). magnitude point.value ≤ 2 ^ NUMBER_BITS) points
        → length points ≤ 2 ^ ROW_BITS
        → sum_by magnitude (values_of (increases before points)) ≤ 2 ^ INCREASE_BITS }
{}
