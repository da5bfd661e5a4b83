// The looks of a query, each at the seat that it needs.
ghost use Rattle.std.specs.Prelude.{◌≡◌, ◌≤◌, ◌≤ℤ◌, ◌<◌, ◌^◌, length, map, pos, IfOk, None};
ghost use Rattle.mon_hints.specs.Formulas.{all_named, formula_tree, formulas, AreAmong};
ghost use Rattle.mon_value.specs.declared.limits.TheConstants.{ROW_BITS};
ghost use Rattle.typed_trees.specs.Nodes.{typed_tree};
ghost use Rattle.query_core.specs.Machine.{slots_of};
ghost use Rattle.mon_meaning.specs.ReadableSlots.{CanBeRead};
ghost use Rattle.weave_core.specs.QueryLooks as spec;
ghost use Rattle.weave_core.specs.QueryLooks.{FindsIf, LooksIf};
ghost use Rattle.mon_topo.specs.Sights.{AreAlike};

use core_store::{LeafSeat, RangeSeat};
use leaf_eval::{Visit, visit};
use mon_topo::Sight;
use mon_value::{Leaf, Leaves, OutOfMemory, Range, SlotLeaf};
use query_core::{QueryMachine, Told};
use std::alloc::Global;

/// A query finds the first replica of a range that serves on none of these leaves, unless someone holds the range.
pub(crate) fn find(
    seat: &mut RangeSeat,
    range: Range,
    avoided: &Leaves,
    sight: &mut Sight,
) -> Option<Told>
    requires alike { AreAlike sight.old seat.old.sight }
    requires there { range.0 < length seat.old.sight.ranges }
    ensures finds { FindsIf range avoided.now seat.old seat.new sight.old sight.new result }
{
    if seat.holder.is_some() {
        return None;
    }
    let told = slot_told(seat.state.resolve(avoided));
    seat.meet(range, sight);
    Some(told)
}

// What a query is told of a range.
fn slot_told(found: Option<SlotLeaf>) -> Told
    ensures told { result ≡ spec.slot_told found }
{
    match found {
        Some(replica) => Told::Slot(replica.slot, replica.leaf),
        None => Told::NoSlot,
    }
}

/// A query looks at a leaf, and reads it where a formula of its plan holds of the leaf's buckets, unless someone
/// holds the leaf.
pub(crate) fn look(
    alloc: Global,
    machine: &QueryMachine,
    moment: i64,
    limit: u64,
    seat: &mut LeafSeat,
    leaf: Leaf,
    sight: &mut Sight,
) -> Result<Option<Told>, OutOfMemory>
    requires alike { AreAlike sight.old seat.old.sight }
    requires there { leaf.0 < length seat.old.sight.leaves }
    requires listed { AreAmong (all_named (formulas (map formula_tree machine.now.setting.plan.formulas)))
        machine.now.setting.plan.buckets }
    requires moment { pos 0 ≤ℤ moment }
    requires limit { limit ≤ 2 ^ ROW_BITS }
    requires readable { seat.old.holder ≡ None → CanBeRead (typed_tree machine.now.setting.plan.typed)
        seat.old.state.history (slots_of machine.now.stage leaf) }
    ensures looks { IfOk result (LooksIf machine.now.setting.plan moment limit
        (slots_of machine.now.stage leaf) leaf seat.old seat.new sight.old sight.new) }
{
    if seat.holder.is_some() {
        return Ok(None);
    }
    let slots = machine.slots(leaf);
    let found = visit(alloc, machine.plan(), &mut seat.state, slots, moment, limit)?;
    seat.meet(leaf, sight);
    Ok(Some(visit_told(found)))
}

// What a query is told of what it found at a leaf.
fn visit_told(found: Visit) -> Told
    ensures told { result ≡ spec.visit_told found }
{
    match found {
        Visit::Down(cut) => Told::Down(cut),
        Visit::Unread(cut) => Told::Unread(cut),
        Visit::Read(cut, answer) => Told::Read(cut, answer),
        Visit::Over(load, cut) => Told::Over(load, cut),
    }
}
