// What an actor prints that ends.
ghost use Rattle.std.specs.Prelude.{◌≡◌, IfOk, string_bytes};
ghost use Rattle.core_store.specs.Writers.{change_turn};
ghost use Rattle.mon_script.specs.Controls.{control_refusal_text, source_down_text};
ghost use Rattle.query_traces.specs.FaultTexts.{round_fault_text};
ghost use Rattle.weave_core.specs.EndTexts as spec;
ghost use Rattle.core_store.specs.Switches.{switch_told};
ghost use Rattle.write_core.specs.RangeAnswers.{refused_text};

use core_store::{Change, Retiring, Switched, Switching};
use mon_script::{
    ControlRefusal, recovered_text, retired_text, source_down_text, switched_text, trimmed_text,
};
use mon_table::print;
use mon_topo::{Topology, down_text};
use mon_value::{Ack, FoundDown, Leaf, OutOfMemory, Range, Text};
use query_core::{Answer, RoundFault, fault_text};
use query_texts::TextFault;
use std::alloc::Global;
use write_core::{Denial, Outcome, Refused, Retirement, WriteEnd};

/// What an actor does that writes to a range.
#[derive(Clone, Copy)]
pub(crate) enum Deed {
    /// It writes a row.
    Write,
    /// It trims the range.
    Trim,
}

/// What an actor does that brings this change to a range.
pub(crate) fn deed_of(change: &Change) -> Deed
    ensures deed { result ≡ spec.deed_of (change_turn change.now) }
{
    match change {
        Change::Adds(_, _) => Deed::Write,
        Change::Hides(_) => Deed::Trim,
    }
}

/// The text of a write to a range, or of a trim, that ended so.
pub(crate) fn write_end_text(
    alloc: Global,
    topology: &Topology,
    deed: Deed,
    range: Range,
    end: &WriteEnd,
) -> Result<Text, OutOfMemory>
    ensures text { IfOk result (λ text. text ≡ spec.write_end_text topology.now deed range end.now) }
{
    match end {
        WriteEnd::Written(ack) => done_text(alloc, topology, deed, range, ack),
        WriteEnd::OldPoint(last) => write_refused(alloc, Refused::OldPoint(*last)),
        WriteEnd::RangeFull(limit) => write_refused(alloc, Refused::RangeFull(*limit)),
        WriteEnd::Unavailable(founds) => {
            let down = down_text(alloc, topology, range, founds.as_slice())?;
            Text::from_string(format!(in alloc; "refused: Unavailable {down}\n")?)
        }
    }
}

// The text of a write or a trim that some replica took.
fn done_text(
    alloc: Global,
    topology: &Topology,
    deed: Deed,
    range: Range,
    ack: &Ack,
) -> Result<Text, OutOfMemory>
    ensures text { IfOk result (λ text. text ≡ spec.done_text topology.now deed range ack.now) }
{
    match deed {
        Deed::Write => written_text(alloc, ack),
        Deed::Trim => trimmed_text(alloc, topology, range, ack),
    }
}

// The text of a write that some replica took.
fn written_text(alloc: Global, ack: &Ack) -> Result<Text, OutOfMemory>
    ensures text { IfOk result (λ text. text ≡ spec.written_text ack.now) }
{
    let took = ack.took.len();
    let missed = ack.missed.len();
    Text::from_string(format!(in alloc; "written: took {took}, missed {missed}\n")?)
}

// The text of a write that its range refuses.
fn write_refused(alloc: Global, why: Refused) -> Result<Text, OutOfMemory>
    ensures text { IfOk result (λ text. text ≡ spec.refused_line (refused_text why)) }
{
    Text::from_string(format!(in alloc; "refused: {why}\n")?)
}

/// The text of a switch of which this came.
pub(crate) fn switch_text(
    alloc: Global,
    topology: &Topology,
    switching: Switching,
    came: Switched,
) -> Result<Text, OutOfMemory>
    ensures text { IfOk result (λ text.
        text ≡ spec.switch_text topology.now switching.leaf switching.down (switch_told came)) }
{
    match came {
        Switched::Done(_) => switched_text(alloc, topology, switching.leaf, switching.down),
        Switched::AlreadyDown(cut) => control_refused(alloc, ControlRefusal::AlreadyDown(cut)),
        Switched::AlreadyUp(cut) => control_refused(alloc, ControlRefusal::AlreadyUp(cut)),
        Switched::Spent(count) => control_refused(alloc, ControlRefusal::SwitchesSpent(count)),
    }
}

// The line of a leaf that is not switched, or of a range that is not recovered or retired.
fn control_refused(alloc: Global, why: ControlRefusal) -> Result<Text, OutOfMemory>
    ensures text { IfOk result (λ text. text ≡ spec.refused_line (control_refusal_text why)) }
{
    Text::from_string(format!(in alloc; "refused: {why}\n")?)
}

/// The text of a retirement of which this came.
pub(crate) fn retire_text(
    alloc: Global,
    topology: &Topology,
    retiring: Retiring,
    came: Retirement,
) -> Result<Text, OutOfMemory>
    ensures text { IfOk result (λ text. text ≡ spec.retire_text topology.now retiring.range retiring.leaf came) }
{
    match came {
        Retirement::WasRetired(slot) => retired_text(
            alloc,
            topology,
            retiring.range,
            retiring.leaf,
            slot,
        ),
        Retirement::NotServing => control_refused(alloc, ControlRefusal::NotServing),
        Retirement::LastServing(slot) => control_refused(alloc, ControlRefusal::LastServing(slot)),
    }
}

/// The text of a recovery of a range onto a leaf that came out so.
pub(crate) fn recover_text(
    alloc: Global,
    topology: &Topology,
    range: Range,
    leaf: Leaf,
    outcome: &Outcome,
) -> Result<Text, OutOfMemory>
    ensures text { IfOk result (λ text. text ≡ spec.recover_text topology.now range leaf outcome.now) }
{
    match outcome {
        Outcome::Opens(slot) => recovered_text(alloc, topology, range, leaf, *slot),
        Outcome::Denied(why) => control_refused(alloc, denial_told(*why)),
        Outcome::NoSource(founds) => no_source(alloc, topology, founds.as_slice()),
        Outcome::NoTarget(cut) => control_refused(alloc, ControlRefusal::TargetDown(*cut)),
    }
}

// The line of a range whose replicas were found down.
fn no_source(alloc: Global, topology: &Topology, founds: &[FoundDown]) -> Result<Text, OutOfMemory>
    ensures text { IfOk result (λ text. text ≡ spec.refused_line (source_down_text topology.now founds.now)) }
{
    let down = source_down_text(alloc, topology, founds)?;
    Text::from_string(format!(in alloc; "refused: {down}\n")?)
}

// Why a range opens no replica on a leaf.
fn denial_told(why: Denial) -> ControlRefusal
    ensures told { result ≡ spec.denial_told why }
{
    match why {
        Denial::ServesThere(slot) => ControlRefusal::Serving(slot),
        Denial::ServesFully => ControlRefusal::ThreeServing,
        Denial::SlotsSpent(count) => ControlRefusal::SlotsSpent(count),
    }
}

/// The text of a write of a row whose location no zone lists.
pub(crate) fn no_zone(alloc: Global) -> Result<Text, OutOfMemory>
    ensures text { IfOk result (λ text. text ≡ spec.no_zone_line) }
{
    Text::from_str(alloc, "refused: NoZone\n")
}

/// The text of a query whose text has no plan.
pub(crate) fn no_plan(alloc: Global, fault: TextFault) -> Result<Text, OutOfMemory>
    ensures text { IfOk result (λ text. text ≡ spec.no_plan_line fault) }
{
    Text::from_string(format!(in alloc; "refused: {fault}\n")?)
}

/// The text of a query that ended so.
pub(crate) fn query_text(
    alloc: Global,
    topology: &Topology,
    end: Result<Answer, RoundFault>,
) -> Result<Text, OutOfMemory>
    ensures text { IfOk result (λ text. text ≡ spec.query_text topology.now end) }
{
    match end {
        Ok(answer) => print(alloc, &answer.table),
        Err(fault) => no_table(alloc, topology, &fault),
    }
}

// The line of why a query has no table.
fn no_table(alloc: Global, topology: &Topology, fault: &RoundFault) -> Result<Text, OutOfMemory>
    ensures line { IfOk result (λ line. line ≡ spec.refused_line (round_fault_text topology.now fault.now)) }
{
    let why = fault_text(alloc, topology, fault)?;
    Text::from_string(format!(in alloc; "refused: {why}\n")?)
}
