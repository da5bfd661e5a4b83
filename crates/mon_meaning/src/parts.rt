// A part of a query's tree, over series.
ghost use Rattle.std.specs.Prelude.{◌≡◌, ◌+◌, List, IfErr, IfOk, OnOk};
ghost use Rattle.std.specs.List.Sorted.{IsPermutation};
ghost use Rattle.mon_value.specs.LeafHistories.{points_by_series};
ghost use Rattle.mon_value.specs.declared.rows.Row.{Row};
ghost use Rattle.typed_trees.specs.Meaning.{load_of, rows_meant};
ghost use Rattle.typed_trees.specs.Nodes.{node_tree};
ghost use Rattle.mon_meaning.specs.Central.{IsPartAsked, all_held};
ghost use Rattle.mon_meaning.specs.Counts.{TellsOver};

use crate::evaluation::{EvaluationSetting, rows_of};
use crate::meter::{Meter, OverLimit};
use mon_series::KeptRows;
use mon_value::{Grid, Refusal, TimedRows};
use std::alloc::Global;
use typed_trees::Node;

/// The rows that a part of a query's tree means over series, which are kept in several places, at the times of a
/// grid. They are a bag: their order says nothing. Only the series of a fetch's metric are looked at. The part's load
/// goes on the meter, and it is refused exactly where there is no room for it.
pub fn part_by_series(
    alloc: Global,
    part: &Node,
    series: &[&KeptRows],
    grid: Grid,
    meter: &mut Meter,
) -> Result<TimedRows, Refusal<OverLimit>>
    requires asked { IsPartAsked grid (node_tree part.now) (all_held series.now) }
    ensures rows { (source : List Row) → all_held series.now ≡ points_by_series source
        → IfOk result (λ rows. IsPermutation (rows_meant grid (node_tree part.now) source) rows) }
    ensures limit { meter.new.limit ≡ meter.old.limit }
    ensures counted { (source : List Row) → all_held series.now ≡ points_by_series source
        → OnOk result (meter.new.load ≡ meter.old.load + load_of grid (node_tree part.now) source) }
    ensures over { (source : List Row) → all_held series.now ≡ points_by_series source
        → IfErr result (TellsOver meter.old.limit
        (meter.old.load + load_of grid (node_tree part.now) source)) }
{
    let setting = EvaluationSetting {
        alloc,
        series,
        grid,
    };
    rows_of(&setting, part, meter)
}
