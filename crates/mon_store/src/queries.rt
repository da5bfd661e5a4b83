// Asking a query.
ghost use Rattle.std.specs.Prelude.{◌≡◌, ◌<◌, ◌≤◌, ◌≤ℤ◌, ◌^◌, pos, IfOk};
ghost use Rattle.history_book.specs.Seats.{IsPurseBorneOut};
ghost use Rattle.know.specs.Sound.{IsSound};
ghost use Rattle.mon_config.specs.Configs.{IsLimited};
ghost use Rattle.mon_store.specs.Gathers.{HasSeenTrace};
ghost use Rattle.mon_store.specs.Passes.{IsPass};
ghost use Rattle.mon_store.specs.Queries as spec;
ghost use Rattle.mon_store.specs.Queries.{IsEnded, IsQueried, IsServed};
ghost use Rattle.mon_store.specs.Stores.{setting_of};
ghost use Rattle.mon_value.specs.declared.limits.TheConstants.{ROW_BITS};
ghost use Rattle.query_core.specs.Machine.{new_query};
ghost use Rattle.query_texts.specs.TextTypes.{IsPlanOver};
ghost use Rattle.running_query.specs.Asking.{IsAskedHere};
ghost use Rattle.running_query.specs.Ends.{EndsRightly};
ghost use Rattle.running_query.specs.Looks.{GoesOn};

use crate::cells::SharedCells;
use crate::passes::Pass;
use crate::stores::Store;
use know::{Know, Names};
use mon_config::Config;
use mon_topo::{ranges_have_replicas, zones_are_few};
use mon_value::{Founds, OutOfMemory, Range, Refusal};
use mql_parse::ParseFault;
use query_core::{Answer, QueryMachine, RoundFault, Trace};
use query_texts::{TextFault, plan_of};
use running_query::looked_up;
use std::alloc::Global;
use std::sync::Wait;
use typed_trees::{Plan, TypeFault};

/// Why a query has no table.
#[derive(Drop)]
pub enum QueryFault {
    /// No tree spells its text.
    Parse(ParseFault),
    /// Its tree has no type over the schemas.
    Typing(TypeFault),
    /// Each slot of the range that serves is on a leaf that was found down; the leaves of the range's zone that were,
    /// in the order in which they were found.
    NoReplica(Range, Founds),
    /// The load is above the limit.
    StepLimit(u64, Trace),
    OutOfMemory,
}

impl<N: Names> Store<N> {
    /// Asks a query's text at a moment, with a limit of its load. The text is read and typed first; then words, ranges
    /// and leaves are looked at, one after another, each under its own lock. Nothing is written. What a table stands on
    /// the caller has then seen, so that it can be gathered.
    pub fn query<R: Wait>(
        &self,
        rt: &R,
        alloc: Global,
        p: &mut Pass<N>,
        text: &[u8],
        moment: i64,
        limit: u64,
    ) -> Result<Answer, QueryFault>
        requires moment { pos 0 ≤ℤ moment }
        requires limit { limit ≤ 2 ^ ROW_BITS }
        ensures queried { IsQueried self.now text.now moment limit p.old p.new result }
        ensures still { GoesOn N.setting p.old p.new }
        ensures seen { IfOk result (λ answer. HasSeenTrace self.now.topology p.new answer.trace) }
    {
        self.query_in(rt, alloc, &mut p.know, text, moment, limit)
    }

    // Reads and types a text, and asks its plan.
    fn query_in<R: Wait>(
        &self,
        rt: &R,
        alloc: Global,
        know: &mut Know<N>,
        text: &[u8],
        moment: i64,
        limit: u64,
    ) -> Result<Answer, QueryFault>
        requires moment { pos 0 ≤ℤ moment }
        requires limit { limit ≤ 2 ^ ROW_BITS }
        requires pass { IsPass N.setting know.old }
        ensures queried { IsQueried self.now text.now moment limit know.old know.new result }
        ensures still { GoesOn N.setting know.old know.new }
        ensures seen { IfOk result (λ answer. HasSeenTrace self.now.topology know.new answer.trace) }
        ensures pass { IsPass N.setting know.new }
    {
        let _sight = know.sight();
        match plan_of(alloc, &self.config.schemas, self.config.buckets, text) {
            Ok(plan) => self.ask(rt, alloc, know, plan, moment, limit),
            Err(Refusal::Fault(TextFault::Parse(fault))) => Err(QueryFault::Parse(fault)),
            Err(Refusal::Fault(TextFault::Typing(fault))) => Err(QueryFault::Typing(fault)),
            Err(Refusal::OutOfMemory) => Err(QueryFault::OutOfMemory),
        }
    }

    // Asks a plan.
    fn ask<R: Wait>(
        &self,
        rt: &R,
        alloc: Global,
        know: &mut Know<N>,
        plan: Plan,
        moment: i64,
        limit: u64,
    ) -> Result<Answer, QueryFault>
        requires moment { pos 0 ≤ℤ moment }
        requires limit { limit ≤ 2 ^ ROW_BITS }
        requires plan { IsPlanOver self.now.schemas self.now.buckets plan }
        requires pass { IsPass N.setting know.old }
        ensures ended { spec.EndsIf (setting_of self.now)
            (record { plan = plan; areas = spec.areas_in self.now; limit = limit }) moment know.old know.new result }
        ensures still { GoesOn N.setting know.old know.new }
        ensures pass { IsPass N.setting know.new }
    {
        served(&self.config);
        let _sight = know.sight();
        match QueryMachine::new(alloc, plan, &self.config.topology, limit) {
            Ok(machine) => self.look_up(rt, alloc, know, machine, moment),
            Err(_) => Err(QueryFault::OutOfMemory),
        }
    }

    // Goes through a query.
    fn look_up<R: Wait>(
        &self,
        rt: &R,
        alloc: Global,
        know: &mut Know<N>,
        machine: QueryMachine,
        moment: i64,
    ) -> Result<Answer, QueryFault>
        requires asked { IsAskedHere N.setting N.raise machine.setting moment know.old }
        requires new { machine ≡ new_query machine.setting }
        requires pass { IsPass N.setting know.old }
        ensures ended { spec.EndsIf N.setting machine.setting moment know.old know.new result }
        ensures still { GoesOn N.setting know.old know.new }
        ensures pass { IsPass N.setting know.new }
    {
        let cells = SharedCells { rt, store: self };
        let ended = looked_up(rt, alloc, &self.tables, &cells, know, machine, moment);
        know.confirm(&self.tables);
        told(ended)
    }
}

// What is known of each configuration.
fn served(config: &Config)
    requires limited { IsLimited config.now }
    ensures served { IsServed config.now }
{
    config.schemas.metrics_are_lawful();
    config.schemas.targets_tell_locations();
    ranges_have_replicas(&config.topology);
    zones_are_few(&config.topology);
    let _zones = config.topology.zones();
}

// How a query ended, as it is told.
fn told(ended: Result<Result<Answer, RoundFault>, OutOfMemory>) -> Result<Answer, QueryFault>
    ensures told { spec.IsToldAs ended result }
{
    match ended {
        Ok(Ok(answer)) => Ok(answer),
        Ok(Err(RoundFault::NoReplica(range, named))) => Err(QueryFault::NoReplica(range, named)),
        Ok(Err(RoundFault::StepLimit(limit, trace))) => Err(QueryFault::StepLimit(limit, trace)),
        Err(_) => Err(QueryFault::OutOfMemory),
    }
}
