// The times of a table's rows.
ghost use Rattle.std.specs.Prelude.{◌≡◌, ◌↔◌, ◌<◌, ◌-◌, ◌*◌, ℕ, ℤ, pos, ◌-ℤ◌, ◌<ℤ◌, ◌≤ℤ◌, [], ◌∷◌, length};
ghost use Rattle.std.specs.Prelude.{slice_index_or, unsigned_abs};
ghost use Rattle.mon_value.specs.Grids.{grid_times, IsLawfulGrid, least_time, time_count};

use crate::copying::TryCopy;
use crate::lists::ListOf;
use crate::values::Value;
use std::alloc::{AllocError, Global};

/// The times that a query gives rows for: its moment, and back from it every `every` seconds while they
/// are less than `within` seconds before it. All three are in seconds, the moment from the epoch.
#[derive(Clone, Copy, PartialEq, Eq)]
pub struct Grid {
    pub moment: i64,
    pub every: i64,
    pub within: i64,
}

/// What a series has at a time of the grid, in seconds from the epoch.
#[derive(PartialEq, Eq, Drop)]
pub struct TimedValue {
    pub time: i64,
    pub value: Value,
}

/// The aligned values of one series.
pub type TimedValues = ListOf<TimedValue>;

impl TryCopy for Grid {
    fn copy(&self, _alloc: Global) -> Result<Grid, AllocError> {
        Ok(*self)
    }
}

impl TryCopy for TimedValue {
    fn copy(&self, alloc: Global) -> Result<TimedValue, AllocError> {
        Ok(TimedValue {
            time: self.time,
            value: self.value.copy(alloc)?,
        })
    }
}

/// A grid has just the times that are above `within` seconds before its moment, among those that lie a
/// whole number of steps before it. A grid whose step is as long as its reach has its moment alone.
pub fn grids_reach_back()
    ensures number { (grid : Grid) → length (grid_times grid) ≡ time_count grid }
    ensures steps { (grid : Grid) (k : ℕ) (d : ℤ) → IsLawfulGrid grid → k < time_count grid
        → slice_index_or (grid_times grid) k d ≡ grid.moment -ℤ pos (k * unsigned_abs grid.every) }
    ensures reach { (grid : Grid) (k : ℕ) → IsLawfulGrid grid → (k < time_count grid)
        ↔ ((grid.moment -ℤ grid.within) <ℤ (grid.moment -ℤ pos (k * unsigned_abs grid.every))) }
    ensures once { (grid : Grid) → grid.every ≡ grid.within → pos 1 ≤ℤ grid.within
        → grid_times grid ≡ grid.moment ∷ [] }
    ensures least { (grid : Grid) (k : ℕ) (d : ℤ) → IsLawfulGrid grid → k < time_count grid
        → least_time grid ≤ℤ slice_index_or (grid_times grid) k d }
    ensures last { (grid : Grid) (d : ℤ) → IsLawfulGrid grid
        → slice_index_or (grid_times grid) (time_count grid - 1) d ≡ least_time grid }
{}
