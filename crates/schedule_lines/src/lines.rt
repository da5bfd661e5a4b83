// What a line of a schedule says.
ghost use Rattle.std.specs.Prelude.{◌≡◌, true, List, option_map, IfOk, IfSome};
ghost use Rattle.mon_schema.specs.Fits.{fits};
ghost use Rattle.mon_schema.specs.Names.{SchemaLists};
ghost use Rattle.std.specs.List.{AllByRecursion};
ghost use Rattle.mon_points.specs.Fitting.{ReadFits};
ghost use Rattle.mon_topo.specs.declared.zones.ZoneSpec.{ZoneSpec};
ghost use Rattle.schedule_lines.specs.LawfulLines.{IsActorNumber, IsLawfulForm, IsMoment};
ghost use Rattle.schedule_lines.specs.ScheduleLines as spec;

use crate::calls::Call;
use crate::events::{Event, event_named};
use crate::limits::LAST_ACTOR;
use mon_points::{RowRead, RowReads, read_rows};
use mon_schema::Schemas;
use mon_script::{ControlForm, ControlWord, control_of, control_word, cut_at, moment_of};
use mon_topo::Topology;
use mon_value::{OutOfMemory, Row, Text, read_number};
use std::alloc::Global;

/// What a line says.
#[derive(Drop)]
pub enum LineForm {
    /// An actor is to do this.
    Declare(u32, Call),
    /// An actor that has not begun sees what another one, which has ended, has seen.
    Meet(u32, u32),
    /// An actor does one event.
    Step(u32),
    /// An actor goes on until its next event is this one.
    Until(u32, Event),
    /// An actor goes on until it ends.
    Finish(u32),
}

/// What a line says, where it is of a form.
pub fn form_of(
    alloc: Global,
    schemas: &Schemas,
    topology: &Topology,
    line: &[u8],
) -> Result<Option<LineForm>, OutOfMemory>
    ensures form { IfOk result (λ form. form ≡ spec.schedule_form schemas.now topology.now line.now) }
    ensures lawful { IfOk result (λ form. IfSome form (IsLawfulForm schemas.now topology.now)) }
{
    let Some((word, rest)) = cut_at(line, b' ') else {
        return Ok(None);
    };
    if word == b"write".as_slice() {
        write_form(alloc, schemas, rest)
    } else if word == b"query".as_slice() {
        query_form(alloc, rest)
    } else {
        Ok(switch_form(topology, word, rest))
    }
}

// A write of the one row that the rest of the line spells.
fn write_form(
    alloc: Global,
    schemas: &Schemas,
    rest: &[u8],
) -> Result<Option<LineForm>, OutOfMemory>
    ensures form { IfOk result (λ form. form ≡ spec.write_form schemas.now rest.now) }
    ensures lawful { (zones : List ZoneSpec) → IfOk result (λ form. IfSome form (IsLawfulForm schemas.now zones)) }
{
    let Some((actor, record)) = actor_and_rest(rest) else {
        return Ok(None);
    };
    match only_row(read_rows(alloc, record, schemas)?) {
        Some(row) => Ok(Some(LineForm::Declare(actor, Call::Write(row)))),
        None => Ok(None),
    }
}

// The one row that was read, where nothing else was.
fn only_row(reads: RowReads) -> Option<Row>
    ensures row { result ≡ spec.only_row reads }
    ensures fits { (held : SchemaLists) → AllByRecursion (ReadFits held) reads
        → IfSome result (λ row. fits held row ≡ true) }
{
    let mut reads = reads.into_vec();
    let last = reads.pop()?;
    match last {
        RowRead::Row(row) if reads.is_empty() => Some(row),
        _ => None,
    }
}

// A query at a moment. Its text is any text of UTF-8.
fn query_form(alloc: Global, rest: &[u8]) -> Result<Option<LineForm>, OutOfMemory>
    ensures form { IfOk result (λ form. form ≡ spec.schedule_query_form rest.now) }
    ensures lawful { (held : SchemaLists) (zones : List ZoneSpec)
        → IfOk result (λ form. IfSome form (IsLawfulForm held zones)) }
{
    let Some((actor, rest)) = actor_and_rest(rest) else {
        return Ok(None);
    };
    let Some((moment, text)) = moment_and_rest(rest) else {
        return Ok(None);
    };
    match Text::from_utf8(alloc, text)? {
        Some(text) => Ok(Some(LineForm::Declare(actor, Call::Query(moment, text)))),
        None => Ok(None),
    }
}

// What says what is done to a leaf or a range, or whose turn it is.
fn switch_form(topology: &Topology, word: &[u8], rest: &[u8]) -> Option<LineForm>
    ensures form { result ≡ spec.switch_form topology.now word.now rest.now }
    ensures lawful { (held : SchemaLists) → IfSome result (IsLawfulForm held topology.now) }
{
    match control_word(word) {
        Some(what) => control_form(topology, what, rest),
        None => turn_form(word, rest),
    }
}

// An actor, and what it does to a leaf or a range.
fn control_form(topology: &Topology, what: ControlWord, rest: &[u8]) -> Option<LineForm>
    ensures form { result ≡ spec.schedule_control_form topology.now what rest.now }
    ensures lawful { (held : SchemaLists) → IfSome result (IsLawfulForm held topology.now) }
{
    let (actor, rest) = actor_and_rest(rest)?;
    match control_of(topology, what, rest) {
        Ok(what) => Some(LineForm::Declare(actor, call_of(what))),
        Err(_why) => None,
    }
}

// What is done to a leaf or a range.
fn call_of(what: ControlForm) -> Call
    ensures call { result ≡ spec.call_of what }
{
    match what {
        ControlForm::Down(leaf) => Call::Down(leaf),
        ControlForm::Up(leaf) => Call::Up(leaf),
        ControlForm::Recover(range, leaf) => Call::Recover(range, leaf),
        ControlForm::Trim(range, before) => Call::Trim(range, before),
        ControlForm::Retire(range, leaf) => Call::Retire(range, leaf),
    }
}

// What says whose turn it is, or who meets whom.
fn turn_form(word: &[u8], rest: &[u8]) -> Option<LineForm>
    ensures form { result ≡ spec.turn_form word.now rest.now }
    ensures lawful { (held : SchemaLists) (zones : List ZoneSpec) → IfSome result (IsLawfulForm held zones) }
{
    if word == b"meet".as_slice() {
        meet_form(rest)
    } else if word == b"step".as_slice() {
        actor_of(rest).map(LineForm::Step)
    } else if word == b"until".as_slice() {
        until_form(rest)
    } else if word == b"finish".as_slice() {
        actor_of(rest).map(LineForm::Finish)
    } else {
        None
    }
}

// Two actors that are not the same.
fn meet_form(rest: &[u8]) -> Option<LineForm>
    ensures form { result ≡ spec.meet_form rest.now }
    ensures lawful { (held : SchemaLists) (zones : List ZoneSpec) → IfSome result (IsLawfulForm held zones) }
{
    let (actor, other) = actor_and_rest(rest)?;
    let other = actor_of(other)?;
    if actor == other {
        return None;
    }
    Some(LineForm::Meet(actor, other))
}

// An actor and the name of an event.
fn until_form(rest: &[u8]) -> Option<LineForm>
    ensures form { result ≡ spec.until_form rest.now }
    ensures lawful { (held : SchemaLists) (zones : List ZoneSpec) → IfSome result (IsLawfulForm held zones) }
{
    let (actor, name) = actor_and_rest(rest)?;
    Some(LineForm::Until(actor, event_named(name)?))
}

// The actor that the first word names, and what stands behind the space.
fn actor_and_rest(text: &[u8]) -> Option<(u32, &[u8])>
    ensures words { option_map (λ words. (words.0, words.1.now)) result ≡ spec.actor_and_rest text.now }
    ensures actor { IfSome result (λ words. IsActorNumber words.0) }
{
    let (word, rest) = cut_at(text, b' ')?;
    Some((actor_of(word)?, rest))
}

// The moment that the first word spells, and what stands behind the space.
fn moment_and_rest(text: &[u8]) -> Option<(i64, &[u8])>
    ensures words { option_map (λ words. (words.0, words.1.now)) result ≡ spec.moment_and_rest text.now }
    ensures moment { IfSome result (λ words. IsMoment words.0) }
{
    let (word, rest) = cut_at(text, b' ')?;
    Some((moment_of(word)?, rest))
}

// The actor that a word names.
fn actor_of(word: &[u8]) -> Option<u32>
    ensures actor { result ≡ spec.actor_of word.now }
    ensures lawful { IfSome result IsActorNumber }
{
    let number = read_number(word)?;
    if number < 1 || number > i128::from(LAST_ACTOR) {
        return None;
    }
    Some(number as u32)
}
