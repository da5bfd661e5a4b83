// What a query asks of the cells of leaves and ranges.
ghost use Rattle.std.specs.Prelude.{◌≡◌, ◌<◌, ◌≤◌, ◌≤ℤ◌, ◌^◌, [], length, map, pos, Err};
ghost use Rattle.know.specs.Knowledge.{Knowledge};
ghost use Rattle.know.specs.Sound.{IsSound};
ghost use Rattle.leaf_cell.specs.PlanVisits.{FindsVisit, HasFoundSo};
ghost use Rattle.leaf_cell.specs.declared.plan_reader.VisitFault.TheVariants as the_fault;
ghost use Rattle.mon_hints.specs.Formulas.{all_named, formula_tree, formulas, AreAmong};
ghost use Rattle.mon_meaning.specs.ReadableSlots.{CanBeRead};
ghost use Rattle.mon_topo.specs.Zones.{leaves_in, ranges_in};
ghost use Rattle.mon_value.specs.Histories.{leaf_history};
ghost use Rattle.mon_value.specs.declared.limits.TheConstants.{ROW_BITS};
ghost use Rattle.typed_trees.specs.Nodes.{typed_tree};
ghost use Rattle.owners.specs.Calls.{HasLooked};
ghost use Rattle.range_cell.specs.Calls.{HasResolved};

use know::{Know, Names};
use leaf_cell::{VisitFault, Visited};
use mon_value::{Leaf, Leaves, Range, RangeSlots, SlotLeaf};
use std::alloc::Global;
use typed_trees::Plan;

/// The locked leaves and ranges of a store, by number.
pub trait QueryCells<N: Names> {
    /// The first replica of a range that serves on none of these leaves. No memory is taken.
    fn resolve(&self, know: &mut Know<N>, range: Range, avoid: &Leaves) -> Option<SlotLeaf>
        requires there { range.0 < length (ranges_in N.setting.zones) }
        requires none { know.old.purse.holds ≡ [] }
        ensures resolved { HasResolved (length (leaves_in N.setting.zones)) range avoid.now result know.old know.new };

    /// A query's visit of a leaf.
    fn visit(
        &self,
        alloc: Global,
        know: &mut Know<N>,
        leaf: Leaf,
        plan: &Plan,
        slots: &RangeSlots,
        moment: i64,
        limit: u64,
    ) -> Result<Visited, VisitFault>
        requires there { leaf.0 < length (leaves_in N.setting.zones) }
        requires listed { AreAmong (all_named (formulas (map formula_tree plan.now.formulas))) plan.now.buckets }
        requires moment { pos 0 ≤ℤ moment }
        requires limit { limit ≤ 2 ^ ROW_BITS }
        requires readable { (later : Knowledge) → HasLooked leaf know.old.purse.rooms know.old later
            → IsSound N.setting later.hints later.seen
            → CanBeRead (typed_tree plan.now.typed) (leaf_history later.seen leaf) slots.now }
        ensures visited { FindsVisit result (λ visit. HasFoundSo plan.now moment limit slots.now N.setting.buckets_of
            leaf visit know.old know.new) }
        ensures refused { result ≡ Err the_fault.OutOfMemory → HasLooked leaf know.old.purse.rooms know.old know.new };
}
