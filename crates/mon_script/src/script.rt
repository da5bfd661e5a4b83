// A script is read in one pass: each line is cut off, and read, before the next one.
ghost use Rattle.std.specs.Prelude.{◌≡◌, ◌≤◌, ◌++◌, length, IfOk, None, OnOk};
ghost use Rattle.std.specs.List.{AllByRecursion};
ghost use Rattle.mon_script.specs.Blocks.{AreInBlocks};
ghost use Rattle.mon_script.specs.Lawful.{IsLawfulLine};
ghost use Rattle.mon_script.specs.Lines.{lines_of};
ghost use Rattle.mon_value.specs.Answers.{Gives};
ghost use Rattle.mon_script.specs.Scripts as spec;

use crate::faults::{ScriptFault, ScriptKind};
use crate::forms::{LineForm, form_of};
use crate::lines::{is_remark, next_line};
use crate::places::{MOST_LINES, mark_of, stand_at};
use mon_topo::Topology;
use mon_value::{ListOf, OutOfMemory, Refusal};
use std::alloc::Global;

/// A line that does something. Lines are numbered from 1.
#[derive(Drop)]
pub struct ScriptLine {
    pub number: u32,
    pub what: LineForm,
}

/// The lines of a script that do something, in order.
pub type Script = ListOf<ScriptLine>;

// A line that was read: what it says, if it does something, and where the next one stands.
#[derive(Drop)]
pub(crate) struct LineRead {
    pub what: Option<LineForm>,
    pub next: Option<u32>,
}

/// The script that a text spells over a topology, or the first of its lines that is refused. A block without an end
/// is refused at its first line.
pub fn read_script(
    alloc: Global,
    text: &[u8],
    topology: &Topology,
) -> Result<Script, Refusal<ScriptFault>>
    ensures exact { Gives result (spec.script_in topology.now text.now) }
    ensures lawful { IfOk result (λ script. AllByRecursion (IsLawfulLine topology.now) script) }
    ensures few { IfOk result (λ script. length script ≤ MOST_LINES) }
    ensures blocks { IfOk result (λ script. AreInBlocks None script) }
{
    let mut script = Script::new(alloc);
    let mut number = 0u32;
    let mut place = None;
    let mut rest = text;
    while let Some((line, left)) = next_line(rest) {
        number += 1;
        rest = left;
        let read = line_at(alloc, topology, number, place, line, left)?;
        place = read.next;
        push_line(&mut script, number, read.what)?;
    }
    Ok(script)
}

// The line of a number comes behind the others, if it does something.
fn push_line(script: &mut Script, number: u32, what: Option<LineForm>) -> Result<(), OutOfMemory>
    ensures pushed { OnOk result (script.new ≡ script.old ++ spec.lines_read number what) }
{
    match what {
        Some(what) => Ok(script.push(ScriptLine { number, what })?),
        None => Ok(()),
    }
}

// The line of a number, which stands at a place, in front of the text that is left.
fn line_at(
    alloc: Global,
    topology: &Topology,
    number: u32,
    place: Option<u32>,
    line: &[u8],
    left: &[u8],
) -> Result<LineRead, Refusal<ScriptFault>>
    ensures exact { Gives result (spec.line_at topology.now number place line.now (lines_of left.now)) }
    ensures few { IfOk result (λ read. number ≤ MOST_LINES) }
{
    match line_read(alloc, topology, number, place, line, left) {
        Ok(read) => Ok(read),
        Err(Refusal::Fault(kind)) => Err(Refusal::Fault(ScriptFault { line: number, kind })),
        Err(Refusal::OutOfMemory) => Err(Refusal::OutOfMemory),
    }
}

fn line_read(
    alloc: Global,
    topology: &Topology,
    number: u32,
    place: Option<u32>,
    line: &[u8],
    left: &[u8],
) -> Result<LineRead, Refusal<ScriptKind>>
    ensures exact { Gives result (spec.line_read topology.now number place line.now (lines_of left.now)) }
    ensures few { IfOk result (λ read. number ≤ MOST_LINES) }
{
    if is_remark(line) {
        return remark_read(number, place);
    }
    match form_of(alloc, topology, line) {
        Ok(form) => form_read(number, place, form, left),
        Err(refusal) => Err(refusal),
    }
}

// A line that does nothing.
fn remark_read(number: u32, place: Option<u32>) -> Result<LineRead, Refusal<ScriptKind>>
    ensures exact { Gives result (spec.remark_read number place) }
    ensures few { IfOk result (λ read. number ≤ MOST_LINES) }
{
    if number > MOST_LINES {
        return Err(Refusal::Fault(ScriptKind::TooManyLines));
    }
    Ok(LineRead {
        what: None,
        next: place,
    })
}

// A line of a form.
fn form_read(
    number: u32,
    place: Option<u32>,
    form: LineForm,
    left: &[u8],
) -> Result<LineRead, Refusal<ScriptKind>>
    ensures exact { Gives result (spec.form_read number place form (lines_of left.now)) }
    ensures few { IfOk result (λ read. number ≤ MOST_LINES) }
{
    match stand_at(number, place, mark_of(&form), left) {
        Ok(next) => Ok(LineRead {
            what: Some(form),
            next,
        }),
        Err(kind) => Err(Refusal::Fault(kind)),
    }
}
