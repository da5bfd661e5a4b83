// The looks of a query at words, ranges and leaves.
ghost use Rattle.std.specs.Prelude.{◌≡◌, ◌<◌, ◌≤◌, ◌≤ℤ◌, ◌^◌, [], length, map, pos, IfOk};
ghost use Rattle.know.specs.Knowledge.{Knowledge};
ghost use Rattle.know.specs.Sound.{IsSound};
ghost use Rattle.mon_hints.specs.Formulas.{all_named, formula_tree, formulas, AreAmong};
ghost use Rattle.mon_meaning.specs.ReadableSlots.{CanBeRead};
ghost use Rattle.mon_topo.specs.Zones.{leaves_in, ranges_in};
ghost use Rattle.mon_value.specs.Histories.{leaf_history};
ghost use Rattle.mon_value.specs.declared.limits.TheConstants.{ROW_BITS};
ghost use Rattle.typed_trees.specs.Nodes.{typed_tree};
ghost use Rattle.owners.specs.Calls.{HasLooked};
ghost use Rattle.raise_table.specs.Tables.{HasWord};
ghost use Rattle.running_query.specs.Looks.{GoesOn};
ghost use Rattle.running_query.specs.Telling as spec;
ghost use Rattle.running_query.specs.Telling.{FindsSo, IsWordTold, LooksSo, told_is};

use crate::cells::QueryCells;
use know::{Know, Names, Tables};
use leaf_cell::{VisitFault, Visited};
use mon_hints::Place;
use mon_value::{Leaf, Leaves, OutOfMemory, Range, RangeSlots, SlotLeaf};
use query_core::{QueryMachine, QuerySide, Seen, Told};
use std::alloc::{AllocError, Global};
use typed_trees::Plan;

/// A store as its queries look at it: the hint words, and the locked leaves and ranges.
#[derive(Drop)]
pub(crate) struct Looks<'a, N: Names, C: QueryCells<N>> {
    pub alloc: Global,
    pub tables: &'a Tables<N>,
    pub cells: &'a C,
}

impl<'a, N: Names, C: QueryCells<N>> QuerySide for Looks<'a, N, C> {
    ghost use Rattle.running_query.specs.Asking.{IsAnswered, IsAskedNow};
    ghost use Rattle.running_query.specs.Looks.{GoesOn};

    type Caller = Know<N>;

    type Found = Told;

    ghost asks = { λ side know query moment asked. IsAskedNow N.setting N.raise moment know query asked };

    ghost tells = { λ side know query moment asked answer after now. IsAnswered N.setting query.setting moment know
        now query asked answer };

    ghost leaves = { λ side know after now. GoesOn N.setting know now };

    fn load(
        &mut self,
        caller: &mut Know<N>,
        _machine: &QueryMachine,
        _moment: i64,
        place: Place,
        bucket: u32,
    ) -> Result<Told, OutOfMemory> {
        load(self.alloc, self.tables, caller, place, bucket)
    }

    fn resolve(
        &mut self,
        caller: &mut Know<N>,
        machine: &QueryMachine,
        _moment: i64,
        range: Range,
    ) -> Result<Told, OutOfMemory> {
        Ok(find(self.cells, caller, range, machine.avoided()))
    }

    fn visit(
        &mut self,
        caller: &mut Know<N>,
        machine: &QueryMachine,
        moment: i64,
        leaf: Leaf,
    ) -> Result<Told, OutOfMemory> {
        let limit = machine.limit();
        let slots = machine.slots(leaf);
        look(
            self.alloc,
            self.cells,
            caller,
            leaf,
            machine.plan(),
            slots,
            moment,
            limit,
        )
    }
}

// A word, and how far its caller had seen then.
fn load<N: Names>(
    alloc: Global,
    tables: &Tables<N>,
    know: &mut Know<N>,
    place: Place,
    bucket: u32,
) -> Result<Told, OutOfMemory>
    requires there { HasWord N.raise place bucket }
    requires few { length know.old.seen.ranges < 2 ^ 32 }
    ensures goes { GoesOn N.setting know.old know.new }
    ensures told { IfOk result (IsWordTold place bucket know.old know.new) }
{
    let seen = Seen::of(alloc, know.sight())?;
    Ok(Told::Word(know.load(tables, place, bucket), seen))
}

// The first replica of a range that serves on none of these leaves.
fn find<N: Names, C: QueryCells<N>>(
    cells: &C,
    know: &mut Know<N>,
    range: Range,
    avoid: &Leaves,
) -> Told
    requires there { range.0 < length (ranges_in N.setting.zones) }
    requires none { know.old.purse.holds ≡ [] }
    ensures goes { GoesOn N.setting know.old know.new }
    ensures finds { FindsSo (length (leaves_in N.setting.zones)) know.old know.new avoid.now range result }
{
    let found = cells.resolve(know, range, avoid);
    let _sight = know.sight();
    slot_told(found)
}

// What a leaf is found to be.
fn look<N: Names, C: QueryCells<N>>(
    alloc: Global,
    cells: &C,
    know: &mut Know<N>,
    leaf: Leaf,
    plan: &Plan,
    slots: &RangeSlots,
    moment: i64,
    limit: u64,
) -> Result<Told, OutOfMemory>
    requires there { leaf.0 < length (leaves_in N.setting.zones) }
    requires listed { AreAmong (all_named (formulas (map formula_tree plan.now.formulas))) plan.now.buckets }
    requires moment { pos 0 ≤ℤ moment }
    requires limit { limit ≤ 2 ^ ROW_BITS }
    requires readable { (later : Knowledge) → HasLooked leaf know.old.purse.rooms know.old later
        → IsSound N.setting later.hints later.seen
        → CanBeRead (typed_tree plan.now.typed) (leaf_history later.seen leaf) slots.now }
    ensures goes { GoesOn N.setting know.old know.new }
    ensures looks { IfOk result (LooksSo N.setting plan.now moment limit slots.now leaf know.old know.new) }
{
    let found = cells.visit(alloc, know, leaf, plan, slots, moment, limit);
    let _sight = know.sight();
    told_of(found)
}

// What a query is told of a range.
fn slot_told(found: Option<SlotLeaf>) -> Told
    ensures told { result ≡ spec.slot_told found }
{
    match found {
        Some(replica) => Told::Slot(replica.slot, replica.leaf),
        None => Told::NoSlot,
    }
}

// What it is told of a leaf.
fn told_of(found: Result<Visited, VisitFault>) -> Result<Told, OutOfMemory>
    ensures told { IfOk result (told_is found) }
{
    match found {
        Ok(Visited::Down(cut)) => Ok(Told::Down(cut)),
        Ok(Visited::Unread(cut)) => Ok(Told::Unread(cut)),
        Ok(Visited::Read(cut, answer)) => Ok(Told::Read(cut, answer)),
        Err(VisitFault::Over { load, cut }) => Ok(Told::Over(load, cut)),
        Err(VisitFault::OutOfMemory) => Err(AllocError),
    }
}
