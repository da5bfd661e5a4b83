// What explains an answer: the level of each operation, and which leaves were read.
ghost use Rattle.std.specs.Prelude.{◌≡◌, ◌<◌, ◌++◌, [], false, length, get_or, IfOk, string_bytes};
ghost use Rattle.std.specs.List.{flat_map, slice_index_or};
ghost use Rattle.mon_table.specs.Tables.{printed_table};
ghost use Rattle.mon_topo.specs.Zones.{leaves_in};
ghost use Rattle.run_traces.specs.LineTexts as spec;

use mon_table::print;
use mon_topo::Topology;
use mon_value::{Leaf, OutOfMemory, Text};
use query_traces::{Answer, Trace};
use std::alloc::Global;
use typed_trees::{Level, OpLevel, OpLevels, OpWord};

/// The table, a line for each operation, in the order of the query's text, and one for each leaf, in their order.
pub(crate) fn explained_text(
    alloc: Global,
    topology: &Topology,
    answer: &Answer,
) -> Result<Text, OutOfMemory>
    requires read { length answer.now.trace.read ≡ length (leaves_in topology.now) }
    requires sent { length answer.now.trace.sent ≡ length (leaves_in topology.now) }
    ensures text { IfOk result (λ text. text ≡ printed_table answer.now.table
        ++ (flat_map spec.op_line answer.now.levels ++ spec.leaf_lines answer.now.trace 0 (leaves_in topology.now))) }
{
    let table = print(alloc, &answer.table)?;
    let explanation = explanation(alloc, topology, answer)?;
    let table = table.as_str();
    Text::from_string(format!(in alloc; "{table}{explanation}")?)
}

// The lines behind the table.
fn explanation(alloc: Global, topology: &Topology, answer: &Answer) -> Result<String, OutOfMemory>
    requires read { length answer.now.trace.read ≡ length (leaves_in topology.now) }
    requires sent { length answer.now.trace.sent ≡ length (leaves_in topology.now) }
    ensures text { IfOk result (λ text. string_bytes text
        ≡ flat_map spec.op_line answer.now.levels ++ spec.leaf_lines answer.now.trace 0 (leaves_in topology.now)) }
{
    let levels = level_lines(alloc, &answer.levels)?;
    let leaves = leaf_lines(alloc, topology, &answer.trace)?;
    format!(in alloc; "{levels}{leaves}")
}

// A line for each operation.
fn level_lines(alloc: Global, levels: &OpLevels) -> Result<String, OutOfMemory>
    ensures text { IfOk result (λ text. string_bytes text ≡ flat_map spec.op_line levels.now) }
{
    let mut text = String::new(alloc);
    for level in levels.as_slice() {
        let line = level_line(alloc, *level)?;
        text.push_str(line.as_str())?;
    }
    Ok(text)
}

// The line of an operation.
fn level_line(alloc: Global, level: OpLevel) -> Result<String, OutOfMemory>
    ensures line { IfOk result (λ line. string_bytes line ≡ spec.op_line level) }
{
    let word = word_text(level.word);
    let at = level_text(level.level);
    format!(in alloc; "{word} {at}\n")
}

// What an operation is called.
fn word_text(word: OpWord) -> &'static str
    ensures word { result.now ≡ spec.word_text word }
{
    match word {
        OpWord::Fetch => "fetch",
        OpWord::Filter => "filter",
        OpWord::Align => "align",
        OpWord::GroupBy => "group_by",
        OpWord::Value => "value",
        OpWord::Top => "top",
        OpWord::Join => "join",
        OpWord::Union => "union",
    }
}

// What a level is called.
fn level_text(level: Level) -> &'static str
    ensures word { result.now ≡ spec.level_text level }
{
    match level {
        Level::Leaf => "leaf",
        Level::Zone => "zone",
        Level::Root => "root",
    }
}

// A line for each leaf.
fn leaf_lines(alloc: Global, topology: &Topology, trace: &Trace) -> Result<String, OutOfMemory>
    requires read { length trace.now.read ≡ length (leaves_in topology.now) }
    requires sent { length trace.now.sent ≡ length (leaves_in topology.now) }
    ensures text { IfOk result (λ text. string_bytes text ≡ spec.leaf_lines trace.now 0 (leaves_in topology.now)) }
{
    let mut text = String::new(alloc);
    for number in 0..topology.leaves() {
        let line = leaf_line(alloc, topology, trace, Leaf(number))?;
        text.push_str(line.as_str())?;
    }
    Ok(text)
}

// The line of a leaf: how much it sent, where it was read.
fn leaf_line(
    alloc: Global,
    topology: &Topology,
    trace: &Trace,
    leaf: Leaf,
) -> Result<String, OutOfMemory>
    requires there { leaf.0 < length (leaves_in topology.now) }
    requires read { length trace.now.read ≡ length (leaves_in topology.now) }
    requires sent { length trace.now.sent ≡ length (leaves_in topology.now) }
    ensures line { IfOk result (λ line. string_bytes line ≡ spec.leaf_line
        (slice_index_or (leaves_in topology.now) leaf.0 []) (get_or trace.now.read leaf.0 false)
        (get_or trace.now.sent leaf.0 0)) }
{
    let name = topology.leaf_name(leaf).as_str();
    let sent = *trace.sent.get(leaf.0 as usize);
    if *trace.read.get(leaf.0 as usize) {
        format!(in alloc; "leaf {name} read {sent}\n")
    } else {
        format!(in alloc; "leaf {name} unread 0\n")
    }
}
