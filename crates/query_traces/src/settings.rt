// What stays the same through a query.
ghost use Rattle.std.specs.Prelude.{◌≡◌, ◌≤◌, ◌^◌, length, IfOk};
ghost use Rattle.std.specs.List.{AllByRecursion};
ghost use Rattle.mon_value.specs.declared.limits.TheConstants.{ROW_BITS};
ghost use Rattle.query_traces.specs.Rounds.{areas_of, IsSmall};

use crate::areas::{Area, areas_of};
use mon_topo::Topology;
use mon_value::OutOfMemory;
use std::alloc::Global;
use std::marker::Model;
use typed_trees::Plan;

/// The plan of a query, the zones that it is asked of, and the limit of its load.
#[derive(Drop)]
pub struct QuerySetting {
    alloc: Global,
    plan: Plan,
    areas: Vec<Area>,
    limit: u64,
}

impl Model for QuerySetting {
    ghost use Rattle.std.specs.Prelude.{◌≤◌, ◌^◌, length};
    ghost use Rattle.mon_value.specs.declared.limits.TheConstants.{ROW_BITS};
    ghost use Rattle.std.specs.List.{AllByRecursion};
    ghost use Rattle.query_traces.specs.Rounds.{IsSmall};
    ghost use Rattle.query_traces.specs.Rounds as spec;
    ghost use Rattle.std.specs.Coded.{codes};
    ghost use Rattle.mon_hints.specs.contracts.formulas.Formula as formula;
    ghost use Rattle.typed_trees.specs.contracts.nodes.Node as node;

    ghost coded = { Prim.hlevel (codes, node.the_row.coded, formula.the_row.coded) };

    ghost Value = { spec.QuerySetting };

    ghost view = { λ setting. record { plan = setting.plan; areas = setting.areas.items; limit = setting.limit } };

    ghost invariant = { λ setting. record {
      few : length setting.areas.items ≤ 64;
      small : AllByRecursion IsSmall setting.areas.items;
      most : setting.limit ≤ 2 ^ ROW_BITS;
    } };
}

impl QuerySetting {
    /// A plan that is asked of all zones of a topology.
    pub fn new(
        alloc: Global,
        plan: Plan,
        topology: &Topology,
        limit: u64,
    ) -> Result<QuerySetting, OutOfMemory>
        requires limit { limit ≤ 2 ^ ROW_BITS }
        ensures new { IfOk result (λ setting.
            setting ≡ record { plan = plan; areas = areas_of topology.now; limit = limit }) }
    {
        Ok(QuerySetting {
            alloc,
            plan,
            areas: areas_of(alloc, topology)?,
            limit,
        })
    }

    /// Where its copies and lists take their memory.
    pub fn alloc(&self) -> Global {
        self.alloc
    }

    /// The plan.
    pub fn plan(&self) -> &Plan
        ensures plan { result.now ≡ self.now.plan }
    {
        &self.plan
    }

    /// The limit of the load.
    pub fn limit(&self) -> u64
        ensures limit { result ≡ self.now.limit }
        ensures most { result ≤ 2 ^ ROW_BITS }
    {
        self.limit
    }

    /// The zones, in the order of the configuration.
    pub fn areas(&self) -> &[Area]
        ensures areas { result.now ≡ self.now.areas }
        ensures few { length result.now ≤ 64 }
        ensures small { AllByRecursion IsSmall result.now }
    {
        &self.areas
    }
}
