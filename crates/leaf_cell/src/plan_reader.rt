// A query's visit of a locked leaf.
ghost use Rattle.std.specs.Prelude.{◌≡◌, ◌≤◌, ◌≤ℤ◌, ◌^◌, map, pos, true, is_some, Err, Ok};
ghost use Rattle.know.specs.Knowledge.{Knowledge};
ghost use Rattle.know.specs.Sound.{IsSound};
ghost use Rattle.know.specs.declared.answers.Found.TheVariants as the_found;
ghost use Rattle.leaf_cell.specs.PlanVisits as spec;
ghost use Rattle.leaf_cell.specs.PlanVisits.{FindsVisit, HasFoundSo, IsAnswerOf};
ghost use Rattle.leaf_cell.specs.declared.plan_reader.VisitFault.TheVariants as the_fault;
ghost use Rattle.mon_hints.specs.Formulas.{all_named, formula_tree, formulas, AreAmong};
ghost use Rattle.mon_meaning.specs.ReadableSlots.{CanBeRead};
ghost use Rattle.mon_value.specs.Histories.{leaf_history, leaf_numbered};
ghost use Rattle.mon_value.specs.declared.limits.TheConstants.{ROW_BITS};
ghost use Rattle.typed_trees.specs.Nodes.{typed_tree};
ghost use Rattle.owners.specs.Calls.{HasLooked};

use crate::cells::LeafCell;
use crate::readers::LeafReader;
use know::{Found, Know, Names, Tables};
use leaf_eval::{Visit, visit};
use leaf_store::LeafState;
use mon_fold::LeafAnswer;
use mon_value::{OutOfMemory, RangeSlots};
use std::alloc::Global;
use std::mem;
use std::sync::Wait;
use typed_trees::Plan;

/// What a query finds at a leaf.
#[derive(Drop)]
pub enum Visited {
    /// The leaf is down, with so many entries in its history.
    Down(u64),
    /// No formula of the plan holds of the leaf's buckets, with so many entries in its history.
    Unread(u64),
    /// The leaf's answer, with so many entries in its history.
    Read(u64, LeafAnswer),
}

/// Why a leaf gives no answer.
#[derive(Clone, Copy, PartialEq, Eq)]
pub enum VisitFault {
    /// The leaf's load is above the limit: a number between the two, and how many entries the leaf's history has.
    Over { load: u64, cut: u64 },
    OutOfMemory,
}

// Reads a leaf for a plan, and keeps what it found.
#[derive(Drop)]
struct PlanReader<'a> {
    alloc: Global,
    plan: &'a Plan,
    slots: &'a RangeSlots,
    moment: i64,
    limit: u64,
    found: Option<Visit>,
}

impl<'a> LeafReader for PlanReader<'a> {
    ghost use Rattle.leaf_cell.specs.PlanVisits.{MayVisit, TellsVisit};

    ghost asks = { λ reader buckets_of history. MayVisit reader.plan.now reader.moment reader.limit reader.slots.now
        history };

    ghost tells = { λ old new buckets_of history sent. TellsVisit old.plan.now old.moment old.limit old.slots.now
        buckets_of history new.found sent };

    fn read(&mut self, state: &mut LeafState) -> Result<u64, OutOfMemory> {
        let found = visit(
            self.alloc,
            self.plan,
            state,
            self.slots,
            self.moment,
            self.limit,
        )?;
        let sent = sent_by(&found);
        drop(mem::replace(&mut self.found, Some(found)));
        Ok(sent)
    }
}

impl<N: Names> LeafCell<N> {
    /// Looks at the leaf for a plan that is asked at a moment: where the leaf is up and a formula of the plan holds of
    /// its buckets, it answers over the rows of these slots, which are counted as handed out. Nothing else is handed
    /// out, and the leaf's history stays.
    pub fn visit<R: Wait>(
        &self,
        rt: &R,
        alloc: Global,
        tables: &Tables<N>,
        know: &mut Know<N>,
        plan: &Plan,
        slots: &RangeSlots,
        moment: i64,
        limit: u64,
    ) -> Result<Visited, VisitFault>
        requires listed { AreAmong (all_named (formulas (map formula_tree plan.now.formulas))) plan.now.buckets }
        requires moment { pos 0 ≤ℤ moment }
        requires limit { limit ≤ 2 ^ ROW_BITS }
        requires readable { (later : Knowledge)
            → HasLooked (leaf_numbered self.now) know.old.purse.rooms know.old later
            → IsSound N.setting later.hints later.seen
            → CanBeRead (typed_tree plan.now.typed) (leaf_history later.seen (leaf_numbered self.now)) slots.now }
        ensures visited { FindsVisit result (λ visit. HasFoundSo plan.now moment limit slots.now N.setting.buckets_of
            (leaf_numbered self.now) visit know.old know.new) }
        ensures refused { result ≡ Err the_fault.OutOfMemory
            → HasLooked (leaf_numbered self.now) know.old.purse.rooms know.old know.new }
    {
        let mut reader = PlanReader {
            alloc,
            plan,
            slots,
            moment,
            limit,
            found: None,
        };
        let called = self.read(rt, tables, know, &mut reader);
        answer(called, reader.found)
    }
}

// What is told of a call, and of what its reader found.
fn answer(called: Result<Found, OutOfMemory>, found: Option<Visit>) -> Result<Visited, VisitFault>
    requires found { called ≡ Ok the_found.Up → is_some found ≡ true }
    ensures answer { IsAnswerOf called found result }
{
    match called {
        Ok(Found::Up) => told(found),
        Ok(Found::Down(cut)) => {
            drop(found);
            Ok(Visited::Down(cut))
        }
        Err(_) => {
            drop(found);
            Err(VisitFault::OutOfMemory)
        }
    }
}

// What is told of what was found.
fn told(found: Option<Visit>) -> Result<Visited, VisitFault>
    requires found { is_some found ≡ true }
    ensures told { spec.IsToldOf found result }
{
    match found {
        Some(Visit::Down(cut)) => Ok(Visited::Down(cut)),
        Some(Visit::Unread(cut)) => Ok(Visited::Unread(cut)),
        Some(Visit::Read(cut, answer)) => Ok(Visited::Read(cut, answer)),
        Some(Visit::Over(load, cut)) => Err(VisitFault::Over { load, cut }),
        None => unreachable!(),
    }
}

// How much a leaf sends.
fn sent_by(found: &Visit) -> u64
    ensures sent { result ≡ spec.sent_by found.now }
{
    match found {
        Visit::Read(_, answer) => answer.sent,
        Visit::Down(_) => 0,
        Visit::Unread(_) => 0,
        Visit::Over(_, _) => 0,
    }
}
