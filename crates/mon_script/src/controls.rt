// Lines that take a leaf down or up, or that open, trim or retire a range's replicas.
ghost use Rattle.std.specs.Prelude.{◌≡◌, IfOk};
ghost use Rattle.mon_script.specs.Controls as spec;
ghost use Rattle.mon_script.specs.Controls.{IsLawfulControl};

use crate::faults::ScriptKind;
use crate::lines::cut_at;
use crate::words::moment_of;
use mon_topo::{Leaf, Range, Topology, share_zone};

/// What a line says that switches a leaf, or recovers, trims or retires a range's replicas.
#[derive(Clone, Copy)]
pub enum ControlForm {
    /// Take a leaf down.
    Down(Leaf),
    /// Take a leaf that is down up again.
    Up(Leaf),
    /// Open one replica more of a range on a leaf of its zone.
    Recover(Range, Leaf),
    /// Hide the rows of a range whose end is below a moment, in seconds from the epoch.
    Trim(Range, i64),
    /// Have the replica of a range that serves on a leaf serve no more.
    Retire(Range, Leaf),
}

/// The first word of such a line.
#[derive(Clone, Copy)]
pub enum ControlWord {
    Down,
    Up,
    Recover,
    Trim,
    Retire,
}

/// Which of these words it is.
pub fn control_word(word: &[u8]) -> Option<ControlWord>
    ensures word { result ≡ spec.control_word word.now }
{
    if word == b"down".as_slice() {
        Some(ControlWord::Down)
    } else if word == b"up".as_slice() {
        Some(ControlWord::Up)
    } else if word == b"recover".as_slice() {
        Some(ControlWord::Recover)
    } else if word == b"trim".as_slice() {
        Some(ControlWord::Trim)
    } else if word == b"retire".as_slice() {
        Some(ControlWord::Retire)
    } else {
        None
    }
}

/// What stands behind such a word, or why it says nothing.
pub fn control_of(
    topology: &Topology,
    word: ControlWord,
    rest: &[u8],
) -> Result<ControlForm, ScriptKind>
    ensures control { result ≡ spec.control_of topology.now word rest.now }
    ensures lawful { IfOk result (IsLawfulControl topology.now) }
{
    control_behind(topology, word, rest)
}

// What stands behind a word.
fn control_behind(
    topology: &Topology,
    word: ControlWord,
    rest: &[u8],
) -> Result<ControlForm, ScriptKind>
    ensures control { result ≡ spec.control_of topology.now word rest.now }
{
    match word {
        ControlWord::Down => Ok(ControlForm::Down(leaf_of(topology, rest)?)),
        ControlWord::Up => Ok(ControlForm::Up(leaf_of(topology, rest)?)),
        ControlWord::Recover => match cut_at(rest, b' ') {
            Some((range, leaf)) => recover_of(topology, range, leaf),
            None => Err(ScriptKind::BadWord),
        },
        ControlWord::Trim => match cut_at(rest, b' ') {
            Some((range, before)) => trim_of(topology, range, before),
            None => Err(ScriptKind::BadWord),
        },
        ControlWord::Retire => match cut_at(rest, b' ') {
            Some((range, leaf)) => retire_of(topology, range, leaf),
            None => Err(ScriptKind::BadWord),
        },
    }
}

// The leaf of a name.
fn leaf_of(topology: &Topology, name: &[u8]) -> Result<Leaf, ScriptKind>
    ensures leaf { result ≡ spec.leaf_of topology.now name.now }
{
    if name.contains(&b' ') {
        return Err(ScriptKind::BadWord);
    }
    match topology.leaf_named(name) {
        Some(leaf) => Ok(leaf),
        None => Err(ScriptKind::UnknownLeaf),
    }
}

// The range of a name.
fn range_of(topology: &Topology, name: &[u8]) -> Result<Range, ScriptKind>
    ensures range { result ≡ spec.range_of topology.now name.now }
{
    match topology.range_named(name) {
        Some(range) => Ok(range),
        None => Err(ScriptKind::UnknownRange),
    }
}

// The time that a word spells.
fn time_of(word: &[u8]) -> Result<i64, ScriptKind>
    ensures time { result ≡ spec.time_of word.now }
{
    if word.contains(&b' ') {
        return Err(ScriptKind::BadWord);
    }
    match moment_of(word) {
        Some(time) => Ok(time),
        None => Err(ScriptKind::BadNumber),
    }
}

// The name of a range, and that of a leaf in its zone.
fn recover_of(topology: &Topology, range: &[u8], leaf: &[u8]) -> Result<ControlForm, ScriptKind>
    ensures control { result ≡ spec.recover_control topology.now range.now leaf.now }
{
    let leaf = leaf_of(topology, leaf)?;
    let range = range_of(topology, range)?;
    if share_zone(topology, range, leaf) {
        Ok(ControlForm::Recover(range, leaf))
    } else {
        Err(ScriptKind::NotInZone)
    }
}

// The name of a range, and the time below which its rows are to be hidden.
fn trim_of(topology: &Topology, range: &[u8], before: &[u8]) -> Result<ControlForm, ScriptKind>
    ensures control { result ≡ spec.trim_control topology.now range.now before.now }
{
    let before = time_of(before)?;
    let range = range_of(topology, range)?;
    Ok(ControlForm::Trim(range, before))
}

// The name of a range, and that of a leaf in whichever zone.
fn retire_of(topology: &Topology, range: &[u8], leaf: &[u8]) -> Result<ControlForm, ScriptKind>
    ensures control { result ≡ spec.retire_control topology.now range.now leaf.now }
{
    let leaf = leaf_of(topology, leaf)?;
    let range = range_of(topology, range)?;
    Ok(ControlForm::Retire(range, leaf))
}
