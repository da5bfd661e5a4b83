// What feeds and pours print.
ghost use Rattle.std.specs.Prelude.{◌≡◌, ◌++◌, length, IfOk, OnOk, string_bytes};
ghost use Rattle.std.specs.List.{flat_map};
ghost use Rattle.ingest_queue.specs.Ends.{refused_at};
ghost use Rattle.run_traces.specs.LineTexts as spec;

use mon_topo::{Topology, down_text};
use mon_value::{OutOfMemory, Text};
use range_cell::WriteFault;
use run_traces::{FileEnd, Poured, RowRefusal, RowRefusals, RowRefused};
use std::alloc::Global;

/// How many records a feed accepted and refused, and a line for each that it refused.
pub(crate) fn feed_text(
    alloc: Global,
    topology: &Topology,
    name: &Text,
    end: &FileEnd,
) -> Result<Text, OutOfMemory>
    ensures text { IfOk result (λ text. text
        ≡ spec.feed_text topology.now name.now (length end.now.accepted) end.now.refused) }
{
    let mut text = String::new(alloc);
    push_feed(alloc, topology, name, end, &mut text)?;
    Text::from_string(text)
}

/// The same of two files that were poured, one behind the other.
pub(crate) fn pour_text(
    alloc: Global,
    topology: &Topology,
    first: &Text,
    second: &Text,
    ends: &Poured,
) -> Result<Text, OutOfMemory>
    ensures text { IfOk result (λ text. text ≡ spec.pour_text topology.now first.now second.now ends.now) }
{
    let mut text = String::new(alloc);
    push_feed(alloc, topology, first, &ends.first, &mut text)?;
    push_feed(alloc, topology, second, &ends.second, &mut text)?;
    Text::from_string(text)
}

// Adds what a feed prints.
fn push_feed(
    alloc: Global,
    topology: &Topology,
    name: &Text,
    end: &FileEnd,
    text: &mut String,
) -> Result<(), OutOfMemory>
    ensures text { OnOk result (string_bytes text.new ≡ string_bytes text.old
        ++ spec.feed_text topology.now name.now (length end.now.accepted) end.now.refused) }
{
    let summary = feed_summary(alloc, name.as_str(), end.accepted.len(), end.refused.len())?;
    text.push_str(summary.as_str())?;
    push_refusals(alloc, topology, &end.refused, text)
}

// The first line of a feed.
fn feed_summary(
    alloc: Global,
    name: &str,
    accepted: usize,
    refused: usize,
) -> Result<String, OutOfMemory>
    ensures text { IfOk result (λ text. string_bytes text ≡ spec.feed_summary name.now accepted refused) }
{
    format!(in alloc; "feed {name}: {accepted} accepted, {refused} refused\n")
}

// Adds the lines of records that were refused.
fn push_refusals(
    alloc: Global,
    topology: &Topology,
    refused: &RowRefusals,
    text: &mut String,
) -> Result<(), OutOfMemory>
    ensures lines { OnOk result (string_bytes text.new
        ≡ string_bytes text.old ++ flat_map (spec.refusal_line topology.now) refused.now) }
{
    for refusal in refused.as_slice() {
        push_refusal(alloc, topology, refusal, text)?;
    }
    Ok(())
}

// Adds the line of a record that was refused.
fn push_refusal(
    alloc: Global,
    topology: &Topology,
    refusal: &RowRefusal,
    text: &mut String,
) -> Result<(), OutOfMemory>
    ensures line { OnOk result (string_bytes text.new
        ≡ string_bytes text.old ++ spec.refusal_line topology.now refusal.now) }
{
    let number = refusal.number;
    let line = match &refusal.fault {
        RowRefused::Read(fault) => format!(in alloc; "row {number}: {fault}\n")?,
        RowRefused::Write(fault) => unwritten_line(alloc, topology, number, fault)?,
    };
    text.push_str(line.as_str())
}

// The line of a record whose row was not written.
fn unwritten_line(
    alloc: Global,
    topology: &Topology,
    number: u32,
    fault: &WriteFault,
) -> Result<String, OutOfMemory>
    ensures line { IfOk result (λ line. string_bytes line
        ≡ spec.refusal_line topology.now (refused_at number (RowRefused.Write fault.now))) }
{
    let why = why_unwritten(alloc, topology, fault)?;
    format!(in alloc; "row {number}: {why}\n")
}

// Why a row was not written.
fn why_unwritten(
    alloc: Global,
    topology: &Topology,
    fault: &WriteFault,
) -> Result<String, OutOfMemory>
    ensures text { IfOk result (λ text. string_bytes text ≡ spec.unwritten_text topology.now fault.now) }
{
    match fault {
        WriteFault::NoZone => String::from_str(alloc, "NoZone"),
        WriteFault::OldPoint(last) => format!(in alloc; "OldPoint {last}"),
        WriteFault::RangeFull(limit) => format!(in alloc; "RangeFull {limit}"),
        WriteFault::Unavailable(range, founds) => {
            let down = down_text(alloc, topology, *range, founds.as_slice())?;
            format!(in alloc; "Unavailable {down}")
        }
        WriteFault::OutOfMemory => Ok(String::new(alloc)),
    }
}
