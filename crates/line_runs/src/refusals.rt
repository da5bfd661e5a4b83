// Why lines are refused.
ghost use Rattle.std.specs.Prelude.{◌≡◌, IfOk, string_bytes};
ghost use Rattle.line_runs.specs.Questions as spec;
ghost use Rattle.line_runs.specs.Questions.{IsRefusedFor};
ghost use Rattle.run_traces.specs.LineTexts as line;
ghost use Rattle.run_traces.specs.LineTexts.{line_fault_text, refused_line};

use crate::controls::control_text;
use crate::lines::LineRan;
use mon_store::QueryFault;
use mon_topo::{Topology, down_text};
use mon_value::{OutOfMemory, Text};
use run_traces::{LineFault, LineTrace, QuestionFault};
use standing::{DueFault, StandingFault};
use std::alloc::{AllocError, Global};

/// A line whose query is refused. Where memory ran out the line has not run.
pub(crate) fn refused(
    alloc: Global,
    topology: &Topology,
    fault: QueryFault,
) -> Result<LineRan, OutOfMemory>
    ensures refused { IfOk result (IsRefusedFor topology.now fault) }
{
    match question_fault(fault) {
        Some(told) => refused_for(alloc, topology, LineFault::Question(told)),
        None => Err(AllocError),
    }
}

// Why a question has no table, unless memory ran out.
fn question_fault(fault: QueryFault) -> Option<QuestionFault>
    ensures told { result ≡ spec.told_fault fault }
{
    match fault {
        QueryFault::Parse(fault) => Some(QuestionFault::Parse(fault)),
        QueryFault::Typing(fault) => Some(QuestionFault::Typing(fault)),
        QueryFault::NoReplica(range, founds) => Some(QuestionFault::NoReplica(range, founds)),
        QueryFault::StepLimit(limit, trace) => Some(QuestionFault::StepLimit(limit, trace)),
        QueryFault::OutOfMemory => None,
    }
}

/// A line that is refused for a fault.
pub(crate) fn refused_for(
    alloc: Global,
    topology: &Topology,
    fault: LineFault,
) -> Result<LineRan, OutOfMemory>
    ensures ran { IfOk result (λ ran. ran ≡ spec.refused_for topology.now fault) }
{
    match refused_text(alloc, topology, &fault) {
        Ok(text) => Ok(LineRan {
            trace: LineTrace::Refused(fault),
            text,
        }),
        Err(failed) => {
            drop(fault);
            Err(failed)
        }
    }
}

// What it prints.
fn refused_text(alloc: Global, topology: &Topology, fault: &LineFault) -> Result<Text, OutOfMemory>
    ensures text { IfOk result (λ text. text ≡ refused_line topology.now fault.now) }
{
    let why = fault_text(alloc, topology, fault)?;
    Text::from_string(format!(in alloc; "refused: {why}\n")?)
}

// A fault with its kind in front; leaves and ranges go by their names.
fn fault_text(alloc: Global, topology: &Topology, fault: &LineFault) -> Result<String, OutOfMemory>
    ensures text { IfOk result (λ text. string_bytes text ≡ line_fault_text topology.now fault.now) }
{
    match fault {
        LineFault::Question(fault) => question_text(alloc, topology, fault),
        LineFault::Control(fault) => control_text(alloc, topology, fault),
        LineFault::Standing(fault) => standing_text(alloc, *fault),
        LineFault::Due(fault) => due_text(alloc, *fault),
        LineFault::NotIncremental => String::from_str(alloc, "NotIncremental"),
    }
}

fn question_text(
    alloc: Global,
    topology: &Topology,
    fault: &QuestionFault,
) -> Result<String, OutOfMemory>
    ensures text { IfOk result (λ text. string_bytes text ≡ line.question_fault_text topology.now fault.now) }
{
    match fault {
        QuestionFault::Parse(fault) => format!(in alloc; "Parse {fault}"),
        QuestionFault::Typing(fault) => format!(in alloc; "Typing {fault}"),
        QuestionFault::NoReplica(range, founds) => {
            let down = down_text(alloc, topology, *range, founds.as_slice())?;
            format!(in alloc; "NoReplica {down}")
        }
        QuestionFault::StepLimit(limit, _trace) => format!(in alloc; "StepLimit {limit}"),
    }
}

fn standing_text(alloc: Global, fault: StandingFault) -> Result<String, OutOfMemory>
    ensures text { IfOk result (λ text. string_bytes text ≡ line.standing_fault_text fault) }
{
    match fault {
        StandingFault::NameTaken => String::from_str(alloc, "NameTaken"),
        StandingFault::Parse(fault) => format!(in alloc; "Parse {fault}"),
        StandingFault::Typing(fault) => format!(in alloc; "Typing {fault}"),
    }
}

fn due_text(alloc: Global, fault: DueFault) -> Result<String, OutOfMemory>
    ensures text { IfOk result (λ text. string_bytes text ≡ line.due_fault_text fault) }
{
    match fault {
        DueFault::TooManyDue(most) => format!(in alloc; "TooManyDue {most}"),
        DueFault::Backwards(last) => format!(in alloc; "Backwards {last}"),
    }
}
