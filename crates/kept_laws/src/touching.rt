// A point more of a series that is brought to the times of a grid.
ghost use Rattle.std.specs.Prelude.{◌≡◌, ◌++◌, ◌∷◌, [], ℤ, List, Some, filter, false, int_lt};
ghost use Rattle.std.specs.List.{flat_map};
ghost use Rattle.mon_value.specs.Grids.{CanAddUnder, EndsRise, IsDuration, IsLawfulGrid, aligned_values, grid_times};
ghost use Rattle.mon_value.specs.Grids.{seconds_of, timed_values, value_at};
ghost use Rattle.mon_value.specs.declared.aligners.Aligner.{Aligner};
ghost use Rattle.mon_value.specs.declared.grids.Grid.{Grid};
ghost use Rattle.mon_value.specs.declared.grids.TimedValue.{TimedValue};
ghost use Rattle.mon_value.specs.declared.rows.Point.{Point};
ghost use Rattle.kept_laws.specs.Touching.{seen_value, touches, value_with};

/// A point that ends later than all of its series changes what the series has at the times that see it, and at no other
/// one: at earlier times all stays, and at later ones there is nothing before or after. What it has there comes of what
/// it had and of the point alone, with the newest point before it where totals are turned into increases.
pub fn points_touch_few_times()
    ensures touched { (grid : Grid) (by : Aligner) (points : List Point) (point : Point) → IsLawfulGrid grid
        → IsDuration (seconds_of by) → EndsRise (points ++ point ∷ []) → CanAddUnder by (points ++ point ∷ [])
        → aligned_values by grid (points ++ point ∷ [])
        ≡ flat_map (λ time. timed_values time (Some (value_with by (value_at by points time)
        (seen_value by points point)))) (filter (touches by point) (grid_times grid))
        ++ filter (λ (one : TimedValue). int_lt one.time point.end) (aligned_values by grid points) }
    ensures untouched { (by : Aligner) (points : List Point) (point : Point) (time : ℤ)
        → touches by point time ≡ false → value_at by (points ++ point ∷ []) time ≡ value_at by points time }
{}
