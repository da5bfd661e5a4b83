// Lines by which a query comes to stand, and at which those that are due are asked.
ghost use Rattle.std.specs.Prelude.{◌≡◌, true};
ghost use Rattle.mon_schema.specs.Names.{is_name as named};
ghost use Rattle.mon_value.specs.Answers.{Gives};
ghost use Rattle.mon_script.specs.StandingLines as spec;

use crate::faults::ScriptKind;
use crate::lines::cut_at;
use crate::words::moment_of;
use mon_schema::is_name;
use mon_value::{Refusal, Text, read_number};
use std::alloc::Global;

/// The longest time from one moment of a standing query to the next, in seconds.
const LONGEST_PERIOD: i128 = 1_000_000_000;

/// What may stand outside of blocks alone.
#[derive(Drop)]
pub enum StandingLine {
    /// Have a query of a name, a period in seconds and a text stand.
    Stand { name: Text, period: i64, text: Text },
    /// Ask the standing queries that are due at a moment, in seconds from the epoch.
    Tick(i64),
}

/// A name, a period and a text, each behind one space.
pub(crate) fn stand_of(alloc: Global, rest: &[u8]) -> Result<StandingLine, Refusal<ScriptKind>>
    ensures line { Gives result (spec.stand_of rest.now) }
{
    match cut_at(rest, b' ') {
        Some((name, rest)) => behind_name(alloc, name, rest),
        None => Err(Refusal::Fault(ScriptKind::BadWord)),
    }
}

// A period and a text behind a name.
fn behind_name(alloc: Global, name: &[u8], rest: &[u8]) -> Result<StandingLine, Refusal<ScriptKind>>
    ensures line { Gives result (spec.behind_name name.now rest.now) }
{
    if !is_name(name) {
        return Err(Refusal::Fault(ScriptKind::BadWord));
    }
    match cut_at(rest, b' ') {
        Some((period, text)) => texts_of(alloc, name, period, text),
        None => Err(Refusal::Fault(ScriptKind::BadWord)),
    }
}

fn texts_of(
    alloc: Global,
    name: &[u8],
    period: &[u8],
    text: &[u8],
) -> Result<StandingLine, Refusal<ScriptKind>>
    requires named { named name.now ≡ true }
    ensures line { Gives result (spec.texts_of name.now period.now text.now) }
{
    match Text::from_utf8(alloc, name)? {
        Some(name) => text_of(alloc, name, period, text),
        None => unreachable!(),
    }
}

fn text_of(
    alloc: Global,
    name: Text,
    period: &[u8],
    text: &[u8],
) -> Result<StandingLine, Refusal<ScriptKind>>
    ensures line { Gives result (spec.texts_of name period.now text.now) }
{
    match Text::from_utf8(alloc, text) {
        Ok(Some(text)) => timed(name, period, text),
        Ok(None) => {
            drop(name);
            Err(Refusal::Fault(ScriptKind::BadWord))
        }
        Err(failed) => {
            drop(name);
            Err(Refusal::from(failed))
        }
    }
}

fn timed(name: Text, period: &[u8], text: Text) -> Result<StandingLine, Refusal<ScriptKind>>
    ensures line { Gives result (spec.timed name period.now text) }
{
    match period_of(period) {
        Some(period) => Ok(StandingLine::Stand { name, period, text }),
        None => Err(Refusal::Fault(ScriptKind::BadNumber)),
    }
}

/// The period that a word spells, in seconds.
pub(crate) fn period_of(word: &[u8]) -> Option<i64>
    ensures period { result ≡ spec.period_of word.now }
{
    let number = read_number(word)?;
    if number < 1 || number > LONGEST_PERIOD {
        return None;
    }
    Some(number as i64)
}

/// A moment.
pub(crate) fn tick_of(word: &[u8]) -> Result<StandingLine, ScriptKind>
    ensures line { result ≡ spec.tick_of word.now }
{
    if word.contains(&b' ') {
        return Err(ScriptKind::BadWord);
    }
    match moment_of(word) {
        Some(moment) => Ok(StandingLine::Tick(moment)),
        None => Err(ScriptKind::BadNumber),
    }
}
