// The machine of a query's text.
ghost use Rattle.std.specs.Prelude.{IfOk};
ghost use Rattle.core_store.specs.Agreements.{IsServed};
ghost use Rattle.weave_core.specs.QueryPlans.{IsMachineOf, IsQueryTask};

use crate::actors::Task;
use crate::queries::Querying;
use crate::texts::no_plan;
use core_store::Store;
use mon_config::Config;
use mon_value::{OutOfMemory, Refusal, Text};
use query_core::QueryMachine;
use query_texts::{TextFault, plan_of};
use std::alloc::{AllocError, Global};

/// A query's text that is asked at a moment: a query that has not begun, or the line that says why there is none.
pub(crate) fn query_task(store: &Store, moment: i64, text: &Text) -> Result<Task, OutOfMemory>
    requires served { IsServed store.now.config }
    ensures task { IfOk result (IsQueryTask store.now.config moment text.now) }
{
    match machine_of(store.alloc, &store.config, text.as_bytes()) {
        Ok(machine) => Ok(Task::Queries(Querying { moment, machine })),
        Err(Refusal::Fault(fault)) => Ok(Task::Refused(no_plan(store.alloc, fault)?)),
        Err(Refusal::OutOfMemory) => Err(AllocError),
    }
}

// The machine of a query's text, or why it has none.
fn machine_of(
    alloc: Global,
    config: &Config,
    text: &[u8],
) -> Result<QueryMachine, Refusal<TextFault>>
    requires served { IsServed config.now }
    ensures machine { IsMachineOf config.now text.now result }
{
    let plan = plan_of(alloc, &config.schemas, config.buckets, text)?;
    let machine = QueryMachine::new(alloc, plan, &config.topology, config.limit)?;
    Ok(machine)
}
