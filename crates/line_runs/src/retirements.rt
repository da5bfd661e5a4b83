// Retiring ranges' replicas on leaves.
ghost use Rattle.std.specs.Prelude.{◌≡◌, ◌<◌, length, IfOk, string_bytes};
ghost use Rattle.history_book.specs.Histories.{AreFronts};
ghost use Rattle.line_runs.specs.Controls as spec;
ghost use Rattle.line_runs.specs.LineWrites.{LineRanSo};
ghost use Rattle.mon_topo.specs.Zones.{ranges_in};
ghost use Rattle.run_traces.specs.LineAsks.{Withdrawal};
ghost use Rattle.run_traces.specs.declared.line_files.LineFiles.{LineFiles};
ghost use Rattle.run_traces.specs.LineTrims.{retire_refusal_text};

use crate::controls::refusal_text;
use crate::lines::LineRan;
use crate::refusals::refused_for;
use know::Names;
use mon_script::{ControlForm, ControlRefusal, LineForm, retired_text};
use mon_store::{Pass, Store};
use mon_topo::Topology;
use mon_value::{Leaf, OutOfMemory, Range, Slot};
use range_cell::RetireFault;
use run_traces::{ControlDone, ControlFault, LineFault, LineTrace, RetireRefusal};
use std::alloc::Global;
use std::sync::Wait;

/// Retires the replica of a range that serves on a leaf. Where memory runs out for what is printed, it serves no longer
/// all the same.
pub(crate) fn retire<N: Names, R: Wait>(
    rt: &R,
    alloc: Global,
    store: &Store<N>,
    p: &mut Pass<N>,
    range: Range,
    leaf: Leaf,
) -> Result<LineRan, OutOfMemory>
    requires there { range.0 < length (ranges_in store.now.topology) }
    ensures wrote { IfOk result (λ ran. (content : LineFiles) → LineRanSo store.now
        (LineForm.Control (ControlForm.Retire range leaf)) content ran p.old p.new) }
    ensures fronts { AreFronts p.old.seen p.new.seen }
{
    store.is_set_up();
    p.is_sound();
    let retired = store.retire(rt, p, range, leaf);
    p.is_sound();
    retire_ran(alloc, &store.config().topology, range, leaf, retired)
}

// What a line comes to that retires a replica, by how that ended.
fn retire_ran(
    alloc: Global,
    topology: &Topology,
    range: Range,
    leaf: Leaf,
    retired: Result<Slot, RetireFault>,
) -> Result<LineRan, OutOfMemory>
    ensures ran { IfOk result (λ ran. ran
        ≡ spec.retire_ran topology.now (record { range = range; leaf = leaf }) retired) }
{
    match retired {
        Ok(slot) => Ok(LineRan {
            trace: LineTrace::Controlled(ControlDone::Retired(slot)),
            text: retired_text(alloc, topology, range, leaf, slot)?,
        }),
        Err(fault) => refused_for(alloc, topology, unretired(fault)),
    }
}

// Why a replica is not retired.
fn unretired(fault: RetireFault) -> LineFault
    ensures told { result ≡ spec.unretired_told fault }
{
    LineFault::Control(ControlFault::Retirement(retire_refusal(fault)))
}

fn retire_refusal(fault: RetireFault) -> RetireRefusal
    ensures told { result ≡ spec.retire_told fault }
{
    match fault {
        RetireFault::NotServing => RetireRefusal::NotServing,
        RetireFault::LastServing(slot) => RetireRefusal::LastServing(slot),
    }
}

/// Why a replica was not retired, as it is printed.
pub(crate) fn retire_text(alloc: Global, fault: RetireRefusal) -> Result<String, OutOfMemory>
    ensures text { IfOk result (λ text. string_bytes text ≡ retire_refusal_text fault) }
{
    match fault {
        RetireRefusal::NotServing => refusal_text(alloc, ControlRefusal::NotServing),
        RetireRefusal::LastServing(slot) => refusal_text(alloc, ControlRefusal::LastServing(slot)),
    }
}
