// Hiding rows of ranges that end before a moment.
ghost use Rattle.std.specs.Prelude.{◌≡◌, ◌<◌, ◌≤ℤ◌, pos, length, IfOk, string_bytes};
ghost use Rattle.history_book.specs.Histories.{AreFronts};
ghost use Rattle.line_runs.specs.Controls as spec;
ghost use Rattle.line_runs.specs.Controls.{IsNotTrimmedFor, IsTrimRan};
ghost use Rattle.line_runs.specs.LineWrites.{LineRanSo};
ghost use Rattle.mon_topo.specs.Zones.{ranges_in};
ghost use Rattle.run_traces.specs.LineAsks.{Bound};
ghost use Rattle.run_traces.specs.declared.line_files.LineFiles.{LineFiles};
ghost use Rattle.run_traces.specs.LineTrims.{trim_refusal_text};

use crate::lines::LineRan;
use crate::refusals::refused_for;
use know::Names;
use mon_script::{ControlForm, LineForm, trimmed_text};
use mon_store::{Pass, Store};
use mon_topo::{Topology, down_text};
use mon_value::{Ack, OutOfMemory, Range};
use range_cell::TrimFault;
use run_traces::{ControlDone, ControlFault, LineFault, LineTrace, TrimRefusal};
use std::alloc::{AllocError, Global};
use std::sync::Wait;

/// Hides the rows of a range that end before a moment. Where memory runs out for what is printed, they are hidden all the
/// same.
pub(crate) fn trim<N: Names, R: Wait>(
    rt: &R,
    alloc: Global,
    store: &Store<N>,
    p: &mut Pass<N>,
    range: Range,
    before: i64,
) -> Result<LineRan, OutOfMemory>
    requires there { range.0 < length (ranges_in store.now.topology) }
    requires moment { pos 0 ≤ℤ before }
    ensures wrote { IfOk result (λ ran. (content : LineFiles) → LineRanSo store.now
        (LineForm.Control (ControlForm.Trim range before)) content ran p.old p.new) }
    ensures fronts { AreFronts p.old.seen p.new.seen }
{
    store.is_set_up();
    p.is_sound();
    let trimmed = store.trim(rt, alloc, p, range, before);
    p.is_sound();
    trim_ran(alloc, &store.config().topology, range, before, trimmed)
}

// What a line comes to that trims a range, by how that ended.
fn trim_ran(
    alloc: Global,
    topology: &Topology,
    range: Range,
    before: i64,
    trimmed: Result<Ack, TrimFault>,
) -> Result<LineRan, OutOfMemory>
    ensures ran { IfOk result (IsTrimRan topology.now (record { range = range; before = before }) trimmed) }
{
    match trimmed {
        Ok(ack) => ran_trim(alloc, topology, range, before, ack),
        Err(fault) => not_trimmed(alloc, topology, fault),
    }
}

// A range was trimmed.
fn ran_trim(
    alloc: Global,
    topology: &Topology,
    range: Range,
    before: i64,
    ack: Ack,
) -> Result<LineRan, OutOfMemory>
    ensures ran { IfOk result (λ ran. ran
        ≡ spec.trim_ran topology.now (record { range = range; before = before }) ack) }
{
    match trimmed_text(alloc, topology, range, &ack) {
        Ok(text) => Ok(LineRan {
            trace: LineTrace::Controlled(ControlDone::Trimmed(ack)),
            text,
        }),
        Err(failed) => {
            drop(ack);
            Err(failed)
        }
    }
}

// A line that hid nothing. Where memory ran out the line has not run.
fn not_trimmed(alloc: Global, topology: &Topology, fault: TrimFault) -> Result<LineRan, OutOfMemory>
    ensures refused { IfOk result (IsNotTrimmedFor topology.now fault) }
{
    match trim_refusal(fault) {
        Some(told) => refused_for(alloc, topology, untrimmed(told)),
        None => Err(AllocError),
    }
}

// Why a range is not trimmed, unless memory ran out.
fn trim_refusal(fault: TrimFault) -> Option<TrimRefusal>
    ensures told { result ≡ spec.trim_told fault }
{
    match fault {
        TrimFault::Unavailable(range, founds) => Some(TrimRefusal::Unavailable(range, founds)),
        TrimFault::OutOfMemory => None,
    }
}

fn untrimmed(fault: TrimRefusal) -> LineFault
    ensures told { result ≡ spec.untrimmed_told fault }
{
    LineFault::Control(ControlFault::Trim(fault))
}

/// Why a range was not trimmed, as it is printed.
pub(crate) fn trim_text(
    alloc: Global,
    topology: &Topology,
    fault: &TrimRefusal,
) -> Result<String, OutOfMemory>
    ensures text { IfOk result (λ text. string_bytes text ≡ trim_refusal_text topology.now fault.now) }
{
    match fault {
        TrimRefusal::Unavailable(range, founds) => {
            let down = down_text(alloc, topology, *range, founds.as_slice())?;
            format!(in alloc; "Unavailable {down}")
        }
    }
}
