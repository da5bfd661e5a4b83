// Queries that come to stand, and ticks whose moment isn't taken.
ghost use Rattle.std.specs.Prelude.{◌≡◌, ◌≤ℤ◌, pos, IfOk, OnOk, string_bytes};
ghost use Rattle.line_runs.specs.Questions as question;
ghost use Rattle.line_runs.specs.StandingLines as spec;
ghost use Rattle.run_traces.specs.LineTexts as line;
ghost use Rattle.standing.specs.DueLists.{add_fault};

use crate::lines::LineRan;
use crate::refusals::refused_for;
use mon_schema::Schemas;
use mon_topo::Topology;
use mon_value::{OutOfMemory, Refusal, Text};
use run_traces::{LineFault, LineTrace};
use standing::{Due, DueFault, Standing};
use std::alloc::{AllocError, Global};

/// Has a query stand under a name, unless another one has the name or its text has a fault.
pub fn add_standing(
    alloc: Global,
    topology: &Topology,
    schemas: &Schemas,
    standing: &mut Standing,
    name: &Text,
    period: i64,
    text: &Text,
) -> Result<LineRan, OutOfMemory>
    requires period { pos 1 ≤ℤ period }
    ensures ran { IfOk result (λ ran. ran ≡ spec.standing_ran topology.now name.now
        (add_fault schemas.now standing.old.queries name.now text.now)) }
    ensures stands { OnOk result (standing.new ≡ spec.standing_then standing.old name.now period text.now
        (add_fault schemas.now standing.old.queries name.now text.now)) }
{
    match standing.add(name, period, text, schemas) {
        Ok(()) => added(alloc, name),
        Err(Refusal::Fault(fault)) => refused_for(alloc, topology, LineFault::Standing(fault)),
        Err(Refusal::OutOfMemory) => Err(AllocError),
    }
}

// A query stands from then on.
fn added(alloc: Global, name: &Text) -> Result<LineRan, OutOfMemory>
    ensures ran { IfOk result (λ ran. ran ≡ spec.added name.now) }
{
    let name = name.as_str();
    Ok(LineRan {
        trace: LineTrace::Done,
        text: Text::from_string(format!(in alloc; "standing {name}: added\n")?)?,
    })
}

/// A tick whose moment isn't taken.
pub fn refuse_tick(
    alloc: Global,
    topology: &Topology,
    fault: DueFault,
) -> Result<LineRan, OutOfMemory>
    ensures ran { IfOk result (λ ran. ran ≡ question.refused_for topology.now (LineFault.Due fault)) }
{
    refused_for(alloc, topology, LineFault::Due(fault))
}

/// The line in front of what a query prints that was due: its name and its time.
pub fn due_heading(alloc: Global, due: &Due) -> Result<String, OutOfMemory>
    ensures heading { IfOk result (λ heading. string_bytes heading ≡ line.due_heading due.now) }
{
    let name = due.name.as_str();
    let at = due.at;
    format!(in alloc; "{name} at {at}:\n")
}
