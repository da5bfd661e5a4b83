// A leaf's answer over replicas that it holds.
ghost use Rattle.std.specs.Prelude.{◌≡◌, ◌≤◌, ◌^◌, ◌≤ℤ◌, IfOk, IsTrue, map, pos};
ghost use Rattle.mon_value.specs.LeafHistories.{IsWellFormed};
ghost use Rattle.mon_value.specs.declared.limits.TheConstants.{ROW_BITS};
ghost use Rattle.typed_trees.specs.Nodes.{typed_tree};
ghost use Rattle.typed_trees.specs.Soundness.{IsTyped};
ghost use Rattle.mon_meaning.specs.LeafAnswers.{IsLeafAnswer};
ghost use Rattle.leaf_eval.specs.Replicas.{AreReplicasApart, view_of};
ghost use Rattle.mon_meaning.specs.ReadableSlots.{AreOpened, slot_rows};

use crate::answers::answer_by_series;
use leaf_store::LeafState;
use mon_fold::LeafAnswer;
use mon_meaning::OverLimit;
use mon_series::KeptRows;
use mon_value::{OutOfMemory, RangeSlot, RangeSlots, Refusal};
use std::alloc::Global;
use typed_trees::Plan;

/// A leaf's part of a plan that is asked at a moment, over the kept rows of some of the replicas that the leaf holds,
/// none of which is copied. A series keeps its rows in one of them: the points of a series in two replicas would be
/// aligned as those of two series. It is refused exactly where the load is above the limit.
pub fn eval_leaf(
    alloc: Global,
    plan: &Plan,
    leaf: &LeafState,
    slots: &RangeSlots,
    moment: i64,
    limit: u64,
) -> Result<LeafAnswer, Refusal<OverLimit>>
    requires settled { IsTrue leaf.now.settled }
    requires opened { AreOpened leaf.now.history slots.now }
    requires apart { AreReplicasApart leaf.now.history slots.now }
    requires typed { IsTyped (typed_tree plan.now.typed) (slot_rows leaf.now.history slots.now) }
    requires moment { pos 0 ≤ℤ moment }
    requires limit { limit ≤ 2 ^ ROW_BITS }
    ensures answer { IsLeafAnswer (typed_tree plan.now.typed) (slot_rows leaf.now.history slots.now) moment limit
        result }
{
    let held = held_rows(alloc, leaf, slots.as_slice())?;
    answer_by_series(alloc, plan, held.as_slice(), moment, limit)
}

// The rows of replicas as they are held. The history is one that a leaf can have, as `length` tells.
fn held_rows<'a>(
    alloc: Global,
    leaf: &'a LeafState,
    slots: &[RangeSlot],
) -> Result<Vec<&'a KeptRows>, OutOfMemory>
    requires settled { IsTrue leaf.now.settled }
    requires opened { AreOpened leaf.now.history slots.now }
    ensures rows { IfOk result (λ held. map (λ rows. rows.now) held.items
        ≡ map (view_of leaf.now.history) slots.now) }
    ensures formed { IsWellFormed leaf.now.history }
{
    let _length = leaf.length();
    let mut held = Vec::new(alloc);
    for own in slots {
        let Some(replica) = leaf.slot(own.range, own.slot) else {
            unreachable!();
        };
        held.push(replica.rows())?;
    }
    Ok(held)
}
