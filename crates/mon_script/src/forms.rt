// What a line says by itself.
ghost use Rattle.std.specs.Prelude.{◌≡◌};
ghost use Rattle.mon_value.specs.Answers.{Gives};
ghost use Rattle.mon_script.specs.Forms as spec;

use crate::controls::{ControlForm, control_of, control_word};
use crate::faults::ScriptKind;
use crate::follows::{Moments, follow_form};
use crate::lines::cut_at;
use crate::questions::{How, Question, how_named, question_of};
use crate::standing_lines::{StandingLine, stand_of, tick_of};
use mon_topo::Topology;
use mon_value::{Refusal, Text};
use std::alloc::Global;

/// What a line of a script says.
#[derive(Drop)]
pub enum LineForm {
    /// Feed the records of a file.
    Feed(Text),
    /// Pour the records of two files, each in its order, through one queue.
    Pour { first: Text, second: Text },
    /// Ask a text.
    Ask(Question),
    /// Ask a text at the first of some moments, and tell what its rows mean at each.
    Follow { moments: Moments, text: Text },
    /// Switch a leaf, or open, trim or retire a range's replicas.
    Control(ControlForm),
    /// Have a query stand, or ask those that are due.
    Standing(StandingLine),
    /// Begin a block or end it.
    Block(BlockMark),
}

/// A line at an end of a block, whose lines stand between the two.
#[derive(Clone, Copy)]
pub enum BlockMark {
    /// Run the lines up to the next end beside each other.
    Together,
    /// The block ends.
    End,
}

/// What a line says.
pub(crate) fn form_of(
    alloc: Global,
    topology: &Topology,
    line: &[u8],
) -> Result<LineForm, Refusal<ScriptKind>>
    ensures form { Gives result (spec.form_of topology.now line.now) }
{
    match cut_at(line, b' ') {
        Some((word, rest)) => form_by(alloc, topology, word, rest),
        None => lone_form(line),
    }
}

// A word that stands alone.
fn lone_form(word: &[u8]) -> Result<LineForm, Refusal<ScriptKind>>
    ensures form { Gives result (spec.lone_form word.now) }
{
    if word == b"together".as_slice() {
        Ok(LineForm::Block(BlockMark::Together))
    } else if word == b"end".as_slice() {
        Ok(LineForm::Block(BlockMark::End))
    } else {
        Err(Refusal::Fault(ScriptKind::BadWord))
    }
}

// What the first word and the rest of a line say.
fn form_by(
    alloc: Global,
    topology: &Topology,
    word: &[u8],
    rest: &[u8],
) -> Result<LineForm, Refusal<ScriptKind>>
    ensures form { Gives result (spec.form_by topology.now word.now rest.now) }
{
    if word == b"feed".as_slice() {
        return feed_form(alloc, rest);
    }
    if word == b"pour".as_slice() {
        return pour_form(alloc, rest);
    }
    match how_named(word) {
        Some(how) => asked_form(alloc, how, rest),
        None => other_form(alloc, topology, word, rest),
    }
}

// A feed of a file.
fn feed_form(alloc: Global, name: &[u8]) -> Result<LineForm, Refusal<ScriptKind>>
    ensures form { Gives result (spec.feed_form name.now) }
{
    Ok(LineForm::Feed(file_name(alloc, name)?))
}

// A pour of two files.
fn pour_form(alloc: Global, names: &[u8]) -> Result<LineForm, Refusal<ScriptKind>>
    ensures form { Gives result (spec.pour_form names.now) }
{
    match cut_at(names, b' ') {
        Some((first, second)) => poured(alloc, first, second),
        None => Err(Refusal::Fault(ScriptKind::BadWord)),
    }
}

fn poured(alloc: Global, first: &[u8], second: &[u8]) -> Result<LineForm, Refusal<ScriptKind>>
    ensures form { Gives result (spec.poured first.now second.now) }
{
    let first = file_name(alloc, first)?;
    match file_name(alloc, second) {
        Ok(second) => Ok(LineForm::Pour { first, second }),
        Err(fault) => {
            drop(first);
            Err(fault)
        }
    }
}

// The name of a file.
fn file_name(alloc: Global, name: &[u8]) -> Result<Text, Refusal<ScriptKind>>
    ensures name { Gives result (spec.file_name name.now) }
{
    if name.is_empty() || name.contains(&b' ') {
        return Err(Refusal::Fault(ScriptKind::BadWord));
    }
    match Text::from_utf8(alloc, name)? {
        Some(name) => Ok(name),
        None => Err(Refusal::Fault(ScriptKind::BadWord)),
    }
}

// A question.
fn asked_form(alloc: Global, how: How, rest: &[u8]) -> Result<LineForm, Refusal<ScriptKind>>
    ensures form { Gives result (spec.asked_form how rest.now) }
{
    Ok(LineForm::Ask(question_of(alloc, how, rest)?))
}

// What a line says that names no file and doesn't ask.
fn other_form(
    alloc: Global,
    topology: &Topology,
    word: &[u8],
    rest: &[u8],
) -> Result<LineForm, Refusal<ScriptKind>>
    ensures form { Gives result (spec.other_form topology.now word.now rest.now) }
{
    if word == b"standing".as_slice() {
        return Ok(LineForm::Standing(stand_of(alloc, rest)?));
    }
    if word == b"follow".as_slice() {
        return follow_form(alloc, rest);
    }
    match plain_form(topology, word, rest) {
        Ok(form) => Ok(form),
        Err(kind) => Err(Refusal::Fault(kind)),
    }
}

// What a line says that has no text.
fn plain_form(topology: &Topology, word: &[u8], rest: &[u8]) -> Result<LineForm, ScriptKind>
    ensures form { result ≡ spec.plain_form topology.now word.now rest.now }
{
    match control_word(word) {
        Some(control) => Ok(LineForm::Control(control_of(topology, control, rest)?)),
        None => tick_or_none(word, rest),
    }
}

// A line that asks the standing queries that are due.
fn tick_or_none(word: &[u8], rest: &[u8]) -> Result<LineForm, ScriptKind>
    ensures form { result ≡ spec.tick_or_none word.now rest.now }
{
    if word == b"tick".as_slice() {
        Ok(LineForm::Standing(tick_of(rest)?))
    } else {
        Err(ScriptKind::BadWord)
    }
}
