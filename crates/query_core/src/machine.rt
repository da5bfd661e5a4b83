// The machine of a query.
ghost use Rattle.std.specs.Prelude.{◌≡◌, ◌≢◌, ◌≤◌, ◌^◌, false, IfOk, IsTrue, OnErr, OnOk};
ghost use Rattle.mon_value.specs.declared.limits.TheConstants.{ROW_BITS};
ghost use Rattle.query_traces.specs.Rounds.{areas_of};
ghost use Rattle.query_core.specs.Machine as spec;
ghost use Rattle.query_core.specs.Mixtures.{LeadsTo, MayBeTold};
ghost use Rattle.query_core.specs.Program.{ask_of};
ghost use Rattle.query_traces.specs.declared.asks.Ask.TheVariants.{Finished};

use crate::mixing::told_so;
use crate::stages::Stage;
use mon_topo::Topology;
use mon_value::{Leaf, Leaves, OutOfMemory, RangeSlots};
use query_traces::{Answer, Ask, Loading, QuerySetting, RoundFault, Told};
use std::alloc::Global;
use std::marker::Model;
use std::mem;
use typed_trees::Plan;

/// A query that is asked of zones. It says what is done next, and is told how that went.
#[derive(Drop)]
pub struct QueryMachine {
    setting: QuerySetting,
    avoided: Leaves,
    nowhere: RangeSlots,
    stage: Stage,
}

impl Model for QueryMachine {
    ghost use Rattle.std.specs.Prelude.{◌≡◌, []};
    ghost use Rattle.query_core.specs.Machine.{Query};
    ghost use Rattle.std.specs.Coded.{codes};
    ghost use Rattle.mon_hints.specs.contracts.formulas.Formula as formula;
    ghost use Rattle.typed_trees.specs.contracts.nodes.Node as node;

    ghost coded = { Prim.hlevel (codes, node.the_row.coded, formula.the_row.coded) };

    ghost Value = { Query };

    ghost view = { λ machine. record {
      setting = machine.setting;
      avoided = machine.avoided;
      stage = machine.stage;
    } };

    ghost invariant = { λ machine. machine.nowhere ≡ [] };
}

impl QueryMachine {
    /// A query that has not begun, with a limit of its load.
    pub fn new(
        alloc: Global,
        plan: Plan,
        topology: &Topology,
        limit: u64,
    ) -> Result<QueryMachine, OutOfMemory>
        requires limit { limit ≤ 2 ^ ROW_BITS }
        ensures new { IfOk result (λ machine. machine
            ≡ spec.new_query (record { plan = plan; areas = areas_of topology.now; limit = limit })) }
    {
        Ok(QueryMachine {
            setting: QuerySetting::new(alloc, plan, topology, limit)?,
            avoided: Leaves::new(alloc),
            nowhere: RangeSlots::new(alloc),
            stage: Stage::Rooting(Loading::none(alloc)),
        })
    }

    /// Its next event.
    pub fn next(&self) -> Ask
        ensures ask { result ≡ ask_of self.now.setting self.now.stage }
    {
        let plan = self.setting.plan();
        match &self.stage {
            Stage::Rooting(loading) => Ask::LoadRoot(loading.next_bucket(plan)),
            Stage::Entering(_, round, loading) | Stage::Reloading(_, round, loading) => {
                Ask::LoadZone(round.area().zone, loading.next_bucket(plan))
            }
            Stage::Resolving(_, _, range) => Ask::Resolve(*range),
            Stage::Visiting(_, _, _, leaf) => Ask::Visit(*leaf),
            Stage::Ended(_) => Ask::Finished,
        }
    }

    /// Whether nothing is left to do.
    pub fn is_finished(&self) -> bool
        ensures finished { IsTrue result → ask_of self.now.setting self.now.stage ≡ Finished }
        ensures goes_on { result ≡ false → ask_of self.now.setting self.now.stage ≢ Finished }
    {
        match self.next() {
            Ask::LoadRoot(_) => false,
            Ask::LoadZone(_, _) => false,
            Ask::Resolve(_) => false,
            Ask::Visit(_) => false,
            Ask::Finished => true,
        }
    }

    /// Its plan.
    pub fn plan(&self) -> &Plan
        ensures plan { result.now ≡ self.now.setting.plan }
    {
        self.setting.plan()
    }

    /// The limit of its load.
    pub fn limit(&self) -> u64
        ensures limit { result ≡ self.now.setting.limit }
        ensures most { result ≤ 2 ^ ROW_BITS }
    {
        self.setting.limit()
    }

    /// The leaves that were found down.
    pub fn avoided(&self) -> &Leaves
        ensures avoided { result.now ≡ self.now.avoided }
    {
        &self.avoided
    }

    /// The slots of this round that resolved to a leaf.
    pub fn slots(&self, leaf: Leaf) -> &RangeSlots
        ensures slots { result.now ≡ spec.slots_of self.now.stage leaf }
    {
        match self.stage.round() {
            Some(round) => match round.slots(leaf) {
                Some(slots) => slots,
                None => &self.nowhere,
            },
            None => &self.nowhere,
        }
    }

    /// Goes on by what its last event came to. Where that is refused, it stands as a query that has not begun.
    pub fn told(&mut self, told: Told) -> Result<(), OutOfMemory>
        requires { MayBeTold self.old.setting self.old.stage told }
        ensures setting { self.new.setting ≡ self.old.setting }
        ensures stage { OnOk result (LeadsTo self.old.setting self.old.stage told self.new.stage) }
        ensures avoided { OnOk result
            (self.new.avoided ≡ spec.avoided_after self.old.avoided self.old.stage told) }
        ensures refused { OnErr result (self.new ≡ spec.new_query self.old.setting) }
    {
        let gone_on = tell(&self.setting, &mut self.avoided, &mut self.stage, told);
        if gone_on.is_err() {
            self.begin_anew();
        }
        gone_on
    }

    // Forgets all that it was told.
    fn begin_anew(&mut self)
        ensures anew { self.new ≡ spec.new_query self.old.setting }
    {
        let alloc = self.setting.alloc();
        self.avoided = Leaves::new(alloc);
        let not_begun = Stage::Rooting(Loading::none(alloc));
        drop(mem::replace(&mut self.stage, not_begun));
    }

    /// How it ended.
    pub fn finish(self) -> Result<Answer, RoundFault>
        requires { ask_of self.setting self.stage ≡ Finished }
        ensures end { spec.EndsSo self.stage result }
    {
        let QueryMachine { stage, .. } = self;
        match stage {
            Stage::Ended(end) => end,
            _ => unreachable!(),
        }
    }
}

// Goes on by an answer.
fn tell(
    setting: &QuerySetting,
    avoided: &mut Leaves,
    stage: &mut Stage,
    told: Told,
) -> Result<(), OutOfMemory>
    requires { MayBeTold setting.now stage.old told }
    ensures stage { OnOk result (LeadsTo setting.now stage.old told stage.new) }
    ensures avoided { OnOk result (avoided.new ≡ spec.avoided_after avoided.old stage.old told) }
{
    avoid(avoided, stage, &told)?;
    advance(setting, stage, told)
}

// Goes on to the stage to which an answer leads.
fn advance(setting: &QuerySetting, stage: &mut Stage, told: Told) -> Result<(), OutOfMemory>
    requires { MayBeTold setting.now stage.old told }
    ensures stage { OnOk result (LeadsTo setting.now stage.old told stage.new) }
{
    let not_begun = Stage::Rooting(Loading::none(setting.alloc()));
    let so_far = mem::replace(stage, not_begun);
    let next = told_so(setting, so_far, told)?;
    drop(mem::replace(stage, next));
    Ok(())
}

// A leaf that was found down at its visit is avoided from then on.
fn avoid(avoided: &mut Leaves, stage: &Stage, told: &Told) -> Result<(), OutOfMemory>
    ensures avoided { OnOk result (avoided.new ≡ spec.avoided_after avoided.old stage.now told.now) }
{
    if let Told::Down(_) = told {
        if let Stage::Visiting(_, _, _, leaf) = stage {
            avoided.push(*leaf)?;
        }
    }
    Ok(())
}
