// A leaf's answer.
ghost use Rattle.std.specs.Prelude.{◌≡◌, ◌≤◌, ◌^◌, ◌≤ℤ◌, pos, List};
ghost use Rattle.mon_value.specs.LeafHistories.{points_by_series};
ghost use Rattle.mon_value.specs.declared.limits.TheConstants.{ROW_BITS};
ghost use Rattle.mon_value.specs.declared.rows.Row.{Row};
ghost use Rattle.typed_trees.specs.Nodes.{typed_tree};
ghost use Rattle.mon_meaning.specs.Central.{IsAsked, all_held};
ghost use Rattle.mon_meaning.specs.LeafAnswers.{IsLeafAnswer};

use crate::sent::sent_of;
use mon_fold::{LeafAnswer, Pieces};
use mon_meaning::{Meter, OverLimit, grid_of, part_by_series, piece_of, top_parts};
use mon_series::KeptRows;
use mon_value::Refusal;
use std::alloc::Global;
use typed_trees::{Level, Plan};

/// A leaf's part of a plan that is asked at a moment, over the kept rows of the leaf, which stand by series in several
/// places: a piece for each part that leaves do, their load, and how many rows and groups are sent. It is refused
/// exactly where the load is above the limit, before memory for what is too much is taken.
pub fn answer_by_series(
    alloc: Global,
    plan: &Plan,
    series: &[&KeptRows],
    moment: i64,
    limit: u64,
) -> Result<LeafAnswer, Refusal<OverLimit>>
    requires asked { IsAsked (typed_tree plan.now.typed) (all_held series.now) }
    requires moment { pos 0 ≤ℤ moment }
    requires limit { limit ≤ 2 ^ ROW_BITS }
    ensures answer { (source : List Row) → all_held series.now ≡ points_by_series source
        → IsLeafAnswer (typed_tree plan.now.typed) source moment limit result }
{
    let grid = grid_of(&plan.typed, moment);
    let mut meter = Meter::new(limit);
    let mut pieces = Pieces::new(alloc);
    let mut sent = 0;
    for part in top_parts(alloc, &plan.typed.tree, Level::Leaf)? {
        let rows = part_by_series(alloc, part.part, series, grid, &mut meter)?;
        let piece = piece_of(alloc, &part, rows)?;
        sent += sent_of(&piece) as u64;
        pieces.push(piece)?;
    }
    Ok(LeafAnswer {
        pieces,
        load: limit - meter.room(),
        sent,
    })
}
