// Why a query has no table, as it is printed.
ghost use Rattle.std.specs.Prelude.{◌≡◌, IfOk, string_bytes};
ghost use Rattle.query_traces.specs.FaultTexts.{round_fault_text};

use crate::answers::RoundFault;
use mon_topo::{Topology, down_text};
use mon_value::OutOfMemory;
use std::alloc::Global;

/// What a query prints that has no table, without a line's end; leaves and ranges go by their names.
pub fn fault_text(
    alloc: Global,
    topology: &Topology,
    fault: &RoundFault,
) -> Result<String, OutOfMemory>
    ensures text { IfOk result (λ text. string_bytes text ≡ round_fault_text topology.now fault.now) }
{
    match fault {
        RoundFault::NoReplica(range, founds) => {
            let down = down_text(alloc, topology, *range, founds.as_slice())?;
            format!(in alloc; "NoReplica {down}")
        }
        RoundFault::StepLimit(limit, _trace) => format!(in alloc; "StepLimit {limit}"),
    }
}
