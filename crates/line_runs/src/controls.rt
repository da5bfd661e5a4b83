// Controls: taking leaves down and up, and opening ranges' replicas on leaves.
ghost use Rattle.std.specs.Prelude.{◌≡◌, ◌<◌, ℕ, List, [], length, IfOk, string_bytes};
ghost use Rattle.history_book.specs.Histories.{AreFronts};
ghost use Rattle.line_runs.specs.Controls.{IsNotOpenedFor, IsRecoveryRan};
ghost use Rattle.line_runs.specs.Controls as spec;
ghost use Rattle.line_runs.specs.LineWrites.{LineRanSo, LineWrote, ran_line};
ghost use Rattle.mon_script.specs.Controls.{IsLawfulControl, control_refusal_text};
ghost use Rattle.mon_topo.specs.RangeHistories.{IsInZoneOf};
ghost use Rattle.mon_topo.specs.Zones.{leaves_in};
ghost use Rattle.run_traces.specs.LineAsks.{Recovery, Switch};
ghost use Rattle.run_traces.specs.declared.line_files.LineFiles.{LineFiles};
ghost use Rattle.run_traces.specs.LineSwitches.{control_fault_text, recovery_fault_text, switch_fault_text};

use crate::lines::LineRan;
use crate::refusals::refused_for;
use crate::retirements::{retire, retire_text};
use crate::trims::{trim, trim_text};
use know::Names;
use leaf_cell::ControlFault as LeafFault;
use mon_script::{
    ControlForm, ControlRefusal, LineForm, recovered_text, source_down_text, switched_text,
};
use mon_store::{Pass, Store};
use mon_topo::Topology;
use mon_value::{Leaf, OutOfMemory, Range, Slot};
use range_cell::RecoverFault;
use run_traces::{ControlDone, ControlFault, LineFault, LineTrace, RecoveryFault, SwitchFault};
use std::alloc::{AllocError, Global};
use std::sync::Wait;

/// Runs a control. Where memory runs out for what is printed, it is done all the same.
pub(crate) fn run_control<N: Names, R: Wait>(
    rt: &R,
    alloc: Global,
    store: &Store<N>,
    p: &mut Pass<N>,
    what: ControlForm,
) -> Result<LineRan, OutOfMemory>
    requires lawful { IsLawfulControl store.now.topology what }
    ensures wrote { IfOk result (λ ran. (content : LineFiles) → LineRanSo store.now (LineForm.Control what) content ran
        p.old p.new) }
    ensures fronts { AreFronts p.old.seen p.new.seen }
{
    match what {
        ControlForm::Down(leaf) => take_down(rt, alloc, store, p, leaf),
        ControlForm::Up(leaf) => take_up(rt, alloc, store, p, leaf),
        ControlForm::Recover(range, leaf) => recover(rt, alloc, store, p, range, leaf),
        ControlForm::Trim(range, before) => trim(rt, alloc, store, p, range, before),
        ControlForm::Retire(range, leaf) => retire(rt, alloc, store, p, range, leaf),
    }
}

// Takes a leaf down. Where memory runs out for what is printed, it is down all the same.
fn take_down<N: Names, R: Wait>(
    rt: &R,
    alloc: Global,
    store: &Store<N>,
    p: &mut Pass<N>,
    leaf: Leaf,
) -> Result<LineRan, OutOfMemory>
    requires there { leaf.0 < length (leaves_in store.now.topology) }
    ensures wrote { IfOk result (λ ran. (content : LineFiles) → LineWrote store.now
        (ran_line (LineForm.Control (ControlForm.Down leaf)) content ran.trace []) ran.text p.old p.new) }
    ensures fronts { AreFronts p.old.seen p.new.seen }
{
    store.is_set_up();
    p.is_sound();
    let switched = store.leaf_down(rt, p, leaf);
    p.is_sound();
    switch_ran(alloc, &store.config().topology, leaf, true, switched)
}

// Takes a leaf that is down up again. Where memory runs out for what is printed, it is up all the same.
fn take_up<N: Names, R: Wait>(
    rt: &R,
    alloc: Global,
    store: &Store<N>,
    p: &mut Pass<N>,
    leaf: Leaf,
) -> Result<LineRan, OutOfMemory>
    requires there { leaf.0 < length (leaves_in store.now.topology) }
    ensures wrote { IfOk result (λ ran. (content : LineFiles) → LineWrote store.now
        (ran_line (LineForm.Control (ControlForm.Up leaf)) content ran.trace []) ran.text p.old p.new) }
    ensures fronts { AreFronts p.old.seen p.new.seen }
{
    store.is_set_up();
    p.is_sound();
    let switched = store.leaf_up(rt, p, leaf);
    p.is_sound();
    switch_ran(alloc, &store.config().topology, leaf, false, switched)
}

// What a line comes to that switches a leaf, by how that ended.
fn switch_ran(
    alloc: Global,
    topology: &Topology,
    leaf: Leaf,
    down: bool,
    switched: Result<u64, LeafFault>,
) -> Result<LineRan, OutOfMemory>
    ensures ran { IfOk result (λ ran. ran
        ≡ spec.switch_ran topology.now (record { leaf = leaf; down = down }) switched) }
{
    match switched {
        Ok(cut) => Ok(LineRan {
            trace: LineTrace::Controlled(ControlDone::Switched(cut)),
            text: switched_text(alloc, topology, leaf, down)?,
        }),
        Err(fault) => refused_for(alloc, topology, unswitched(fault)),
    }
}

// Why a leaf isn't switched.
fn unswitched(fault: LeafFault) -> LineFault
    ensures told { result ≡ spec.control_told fault }
{
    LineFault::Control(ControlFault::Switch(switch_fault(fault)))
}

fn switch_fault(fault: LeafFault) -> SwitchFault
    ensures told { result ≡ spec.switch_told fault }
{
    match fault {
        LeafFault::AlreadyDown(cut) => SwitchFault::AlreadyDown(cut),
        LeafFault::AlreadyUp(cut) => SwitchFault::AlreadyUp(cut),
        LeafFault::SwitchesSpent(count) => SwitchFault::SwitchesSpent(count),
    }
}

// Opens one replica more of a range on a leaf. Where memory runs out for what is printed, it is opened all the same.
fn recover<N: Names, R: Wait>(
    rt: &R,
    alloc: Global,
    store: &Store<N>,
    p: &mut Pass<N>,
    range: Range,
    leaf: Leaf,
) -> Result<LineRan, OutOfMemory>
    requires zoned { IsInZoneOf store.now.topology range leaf }
    ensures wrote { IfOk result (λ ran. (content : LineFiles) → LineWrote store.now
        (ran_line (LineForm.Control (ControlForm.Recover range leaf)) content ran.trace []) ran.text p.old p.new) }
    ensures fronts { AreFronts p.old.seen p.new.seen }
{
    store.is_set_up();
    p.is_sound();
    let recovered = store.recover(rt, alloc, p, range, leaf);
    p.is_sound();
    recovery_ran(alloc, &store.config().topology, range, leaf, recovered)
}

// What a line comes to that recovers a range to a leaf, by how that ended.
fn recovery_ran(
    alloc: Global,
    topology: &Topology,
    range: Range,
    leaf: Leaf,
    recovered: Result<Slot, RecoverFault>,
) -> Result<LineRan, OutOfMemory>
    ensures ran { IfOk result
        (IsRecoveryRan topology.now (record { range = range; leaf = leaf }) recovered) }
{
    match recovered {
        Ok(slot) => Ok(LineRan {
            trace: LineTrace::Controlled(ControlDone::Recovered(slot)),
            text: recovered_text(alloc, topology, range, leaf, slot)?,
        }),
        Err(fault) => not_opened(alloc, topology, fault),
    }
}

// A line that opened no replica. Where memory ran out the line has not run.
fn not_opened(
    alloc: Global,
    topology: &Topology,
    fault: RecoverFault,
) -> Result<LineRan, OutOfMemory>
    ensures refused { IfOk result (IsNotOpenedFor topology.now fault) }
{
    match recovery_fault(fault) {
        Some(told) => refused_for(alloc, topology, unopened(told)),
        None => Err(AllocError),
    }
}

// Why no replica is opened, unless memory ran out.
fn recovery_fault(fault: RecoverFault) -> Option<RecoveryFault>
    ensures told { result ≡ spec.recover_told fault }
{
    match fault {
        RecoverFault::Serving(slot) => Some(RecoveryFault::Serving(slot)),
        RecoverFault::ThreeServing => Some(RecoveryFault::ThreeServing),
        RecoverFault::SlotsSpent(count) => Some(RecoveryFault::SlotsSpent(count)),
        RecoverFault::SourceDown(founds) => Some(RecoveryFault::SourceDown(founds)),
        RecoverFault::TargetDown(cut) => Some(RecoveryFault::TargetDown(cut)),
        RecoverFault::OutOfMemory => None,
    }
}

fn unopened(fault: RecoveryFault) -> LineFault
    ensures told { result ≡ spec.recovery_told fault }
{
    LineFault::Control(ControlFault::Recovery(fault))
}

/// Why a control was not done, as it is printed.
pub(crate) fn control_text(
    alloc: Global,
    topology: &Topology,
    fault: &ControlFault,
) -> Result<String, OutOfMemory>
    ensures text { IfOk result (λ text. string_bytes text ≡ control_fault_text topology.now fault.now) }
{
    match fault {
        ControlFault::Switch(fault) => switch_text(alloc, *fault),
        ControlFault::Recovery(fault) => recovery_text(alloc, topology, fault),
        ControlFault::Trim(fault) => trim_text(alloc, topology, fault),
        ControlFault::Retirement(fault) => retire_text(alloc, *fault),
    }
}

fn switch_text(alloc: Global, fault: SwitchFault) -> Result<String, OutOfMemory>
    ensures text { IfOk result (λ text. string_bytes text ≡ switch_fault_text fault) }
{
    match fault {
        SwitchFault::AlreadyDown(cut) => refusal_text(alloc, ControlRefusal::AlreadyDown(cut)),
        SwitchFault::AlreadyUp(cut) => refusal_text(alloc, ControlRefusal::AlreadyUp(cut)),
        SwitchFault::SwitchesSpent(most) => {
            refusal_text(alloc, ControlRefusal::SwitchesSpent(u64::from(most)))
        }
    }
}

fn recovery_text(
    alloc: Global,
    topology: &Topology,
    fault: &RecoveryFault,
) -> Result<String, OutOfMemory>
    ensures text { IfOk result (λ text. string_bytes text ≡ recovery_fault_text topology.now fault.now) }
{
    match fault {
        RecoveryFault::Serving(slot) => refusal_text(alloc, ControlRefusal::Serving(*slot)),
        RecoveryFault::ThreeServing => refusal_text(alloc, ControlRefusal::ThreeServing),
        RecoveryFault::SlotsSpent(count) => refusal_text(
            alloc,
            ControlRefusal::SlotsSpent(u64::from(*count)),
        ),
        RecoveryFault::SourceDown(founds) => source_down_text(alloc, topology, founds.as_slice()),
        RecoveryFault::TargetDown(cut) => refusal_text(alloc, ControlRefusal::TargetDown(*cut)),
    }
}

/// Why something was not done that takes no list of leaves, as it is printed.
pub(crate) fn refusal_text(alloc: Global, why: ControlRefusal) -> Result<String, OutOfMemory>
    ensures text { IfOk result (λ text. string_bytes text ≡ control_refusal_text why) }
{
    format!(in alloc; "{why}")
}
