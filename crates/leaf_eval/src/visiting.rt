// A query's visit of a leaf.
ghost use Rattle.std.specs.Prelude.{◌≡◌, ◌≤◌, ◌^◌, ◌≤ℤ◌, IfOk, map, pos};
ghost use Rattle.leaf_eval.specs.Visits.{IsReadAt, IsVisit};
ghost use Rattle.leaf_store.specs.LeafStates.{key_buckets};
ghost use Rattle.mon_hints.specs.Formulas.{all_named, formula_tree, formulas, AreAmong};
ghost use Rattle.mon_meaning.specs.ReadableSlots.{CanBeRead, slot_rows};
ghost use Rattle.mon_value.specs.declared.limits.TheConstants.{ROW_BITS};
ghost use Rattle.typed_trees.specs.Nodes.{typed_tree};

use crate::leaf::eval_leaf;
use crate::own_buckets::is_met;
use crate::visits::Visit;
use leaf_store::LeafState;
use mon_value::{OutOfMemory, RangeSlots, Refusal};
use std::alloc::{AllocError, Global};
use typed_trees::Plan;

/// Looks at a leaf for a plan that is asked at a moment: whether the leaf is down, whether a formula of the plan holds
/// of the leaf's buckets, and only then what the leaf answers over the rows of these slots. The leaf is settled before
/// it is read; its history stays.
pub fn visit(
    alloc: Global,
    plan: &Plan,
    state: &mut LeafState,
    slots: &RangeSlots,
    moment: i64,
    limit: u64,
) -> Result<Visit, OutOfMemory>
    requires listed { AreAmong (all_named (formulas (map formula_tree plan.now.formulas))) plan.now.buckets }
    requires moment { pos 0 ≤ℤ moment }
    requires limit { limit ≤ 2 ^ ROW_BITS }
    requires readable { CanBeRead (typed_tree plan.now.typed) state.old.history slots.now }
    ensures visit { IfOk result (IsVisit plan.now moment limit state.old.history
        (key_buckets state.old.buckets state.old.schemas) slots.now) }
    ensures schemas { state.new.schemas ≡ state.old.schemas }
    ensures buckets { state.new.buckets ≡ state.old.buckets }
    ensures promised { state.new.promised ≡ state.old.promised }
    ensures history { state.new.history ≡ state.old.history }
{
    let cut = state.length();
    if state.down() {
        return Ok(Visit::Down(cut));
    }
    if !is_met(alloc, plan, state)? {
        return Ok(Visit::Unread(cut));
    }
    read(alloc, plan, state, slots, moment, limit, cut)
}

// What a leaf that is read answers, whose history is so long.
fn read(
    alloc: Global,
    plan: &Plan,
    state: &mut LeafState,
    slots: &RangeSlots,
    moment: i64,
    limit: u64,
    cut: u64,
) -> Result<Visit, OutOfMemory>
    requires moment { pos 0 ≤ℤ moment }
    requires limit { limit ≤ 2 ^ ROW_BITS }
    requires readable { CanBeRead (typed_tree plan.now.typed) state.old.history slots.now }
    ensures read { IfOk result (IsReadAt (typed_tree plan.now.typed) (slot_rows state.old.history slots.now) moment
        limit cut) }
    ensures schemas { state.new.schemas ≡ state.old.schemas }
    ensures buckets { state.new.buckets ≡ state.old.buckets }
    ensures promised { state.new.promised ≡ state.old.promised }
    ensures history { state.new.history ≡ state.old.history }
{
    state.settle()?;
    match eval_leaf(alloc, plan, state, slots, moment, limit) {
        Ok(answer) => Ok(Visit::Read(cut, answer)),
        Err(Refusal::Fault(over)) => Ok(Visit::Over(over.load, cut)),
        Err(Refusal::OutOfMemory) => Err(AllocError),
    }
}
