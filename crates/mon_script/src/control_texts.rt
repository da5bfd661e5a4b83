// What is printed of a leaf that was switched, and of a range that was recovered, trimmed or retired from a leaf.
ghost use Rattle.std.specs.Prelude.{◌≡◌, IfOk, string_bytes};
ghost use Rattle.mon_script.specs.Controls as spec;

use mon_topo::{Leaf, Range, Slot, Topology, founds_text, leaf_text, range_text};
use mon_value::{Ack, FoundDown, OutOfMemory, Text};
use std::alloc::Global;
use std::fmt;

/// Why a leaf is not switched, or a range is not recovered onto a leaf or retired from one.
#[derive(Clone, Copy, PartialEq, Eq)]
pub enum ControlRefusal {
    /// The leaf was down already, after so many entries of its history.
    AlreadyDown(u64),
    /// The leaf was up already, after so many entries.
    AlreadyUp(u64),
    /// The leaf was switched so often that it may not be again.
    SwitchesSpent(u64),
    /// The range serves on the leaf already, in this slot.
    Serving(Slot),
    /// Three slots of the range serve.
    ThreeServing,
    /// The range has had so many slots, and opens no more.
    SlotsSpent(u64),
    /// The leaf that was to have the replica is down, after so many entries.
    TargetDown(u64),
    /// The range doesn't serve on the leaf.
    NotServing,
    /// The range serves on the leaf, in this slot, and nowhere else.
    LastServing(Slot),
}

impl fmt::Display for ControlRefusal {
    ghost use Rattle.std.specs.Prelude.{Some};
    ghost use Rattle.mon_script.specs.Controls.{control_refusal_text};

    ghost output = { λ why. Some (control_refusal_text why) };

    fn fmt<W: fmt::Write>(&self, f: &mut fmt::Formatter<W>) -> fmt::Result {
        match self {
            ControlRefusal::AlreadyDown(cut) => write!(f, "AlreadyDown {cut}"),
            ControlRefusal::AlreadyUp(cut) => write!(f, "AlreadyUp {cut}"),
            ControlRefusal::SwitchesSpent(count) => write!(f, "SwitchesSpent {count}"),
            ControlRefusal::Serving(slot) => write!(f, "Serving {}", slot.0),
            ControlRefusal::ThreeServing => f.write_str("ThreeServing"),
            ControlRefusal::SlotsSpent(count) => write!(f, "SlotsSpent {count}"),
            ControlRefusal::TargetDown(cut) => write!(f, "TargetDown {cut}"),
            ControlRefusal::NotServing => f.write_str("NotServing"),
            ControlRefusal::LastServing(slot) => write!(f, "LastServing {}", slot.0),
        }
    }
}

/// Each replica that serves is on a leaf that was found down, which are named with their cuts: none of them has the
/// rows.
pub fn source_down_text(
    alloc: Global,
    topology: &Topology,
    founds: &[FoundDown],
) -> Result<String, OutOfMemory>
    ensures text { IfOk result (λ text. string_bytes text ≡ spec.source_down_text topology.now founds.now) }
{
    let down = founds_text(alloc, topology, founds)?;
    format!(in alloc; "SourceDown:{down}")
}

/// What is printed of a leaf that went down, or came up.
pub fn switched_text(
    alloc: Global,
    topology: &Topology,
    leaf: Leaf,
    down: bool,
) -> Result<Text, OutOfMemory>
    ensures text { IfOk result (λ text. text ≡ spec.switched_text topology.now leaf down) }
{
    let name = leaf_text(topology, leaf);
    let way = way_text(down);
    Text::from_string(format!(in alloc; "{way} {name}: done\n")?)
}

// Which way a leaf goes.
fn way_text(down: bool) -> &'static str
    ensures way { result.now ≡ spec.way_text down }
{
    if down { "down" } else { "up" }
}

/// What is printed of a range that was recovered onto a leaf, in a slot.
pub fn recovered_text(
    alloc: Global,
    topology: &Topology,
    range: Range,
    leaf: Leaf,
    slot: Slot,
) -> Result<Text, OutOfMemory>
    ensures text { IfOk result (λ text. text ≡ spec.recovered_text topology.now range leaf slot) }
{
    let range = range_text(alloc, topology, range)?;
    let name = leaf_text(topology, leaf);
    let number = slot.0;
    Text::from_string(format!(in alloc; "recover {range} {name}: slot {number}\n")?)
}

/// What is printed of a range that was trimmed: how many replicas took the bound, and how many missed it.
pub fn trimmed_text(
    alloc: Global,
    topology: &Topology,
    range: Range,
    ack: &Ack,
) -> Result<Text, OutOfMemory>
    ensures text { IfOk result (λ text. text ≡ spec.trimmed_text topology.now range ack.now) }
{
    let range = range_text(alloc, topology, range)?;
    let took = ack.took.len();
    let missed = ack.missed.len();
    Text::from_string(format!(in alloc; "trim {range}: took {took}, missed {missed}\n")?)
}

/// What is printed of a range that was retired from a leaf, where it had a slot.
pub fn retired_text(
    alloc: Global,
    topology: &Topology,
    range: Range,
    leaf: Leaf,
    slot: Slot,
) -> Result<Text, OutOfMemory>
    ensures text { IfOk result (λ text. text ≡ spec.retired_text topology.now range leaf slot) }
{
    let range = range_text(alloc, topology, range)?;
    let name = leaf_text(topology, leaf);
    let number = slot.0;
    Text::from_string(format!(in alloc; "retire {range} {name}: slot {number}\n")?)
}
