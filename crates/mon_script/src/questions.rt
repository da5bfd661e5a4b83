// Lines that ask a text at a moment.
ghost use Rattle.std.specs.Prelude.{◌≡◌};
ghost use Rattle.mon_script.specs.Forms as spec;
ghost use Rattle.mon_value.specs.Answers.{Gives};

use crate::faults::ScriptKind;
use crate::lines::cut_at;
use crate::words::moment_of;
use mon_value::{Refusal, Text};
use std::alloc::Global;

/// How a text is asked.
#[derive(Clone, Copy)]
pub enum How {
    /// For the table that it means.
    Query,
    /// For the table, evaluated in one place over the rows that a query stands on.
    Check,
    /// For the table, the level of each operation, and which leaves were read.
    Explain,
}

/// A text that is asked at a moment, in seconds from the epoch.
#[derive(Drop)]
pub struct Question {
    pub how: How,
    pub moment: i64,
    pub text: Text,
}

/// How a word asks.
pub(crate) fn how_named(word: &[u8]) -> Option<How>
    ensures how { result ≡ spec.how_named word.now }
{
    if word == b"query".as_slice() {
        Some(How::Query)
    } else if word == b"check".as_slice() {
        Some(How::Check)
    } else if word == b"explain".as_slice() {
        Some(How::Explain)
    } else {
        None
    }
}

/// A moment and a text. The text is all that stands behind the moment and one space.
pub(crate) fn question_of(
    alloc: Global,
    how: How,
    rest: &[u8],
) -> Result<Question, Refusal<ScriptKind>>
    ensures question { Gives result (spec.question_of how rest.now) }
{
    match cut_at(rest, b' ') {
        Some((word, text)) => asked_at(alloc, how, word, text),
        None => Err(Refusal::Fault(ScriptKind::BadWord)),
    }
}

// A text at the moment that a word spells.
fn asked_at(
    alloc: Global,
    how: How,
    word: &[u8],
    text: &[u8],
) -> Result<Question, Refusal<ScriptKind>>
    ensures question { Gives result (spec.asked_at how word.now text.now) }
{
    match Text::from_utf8(alloc, text)? {
        Some(text) => timed(how, word, text),
        None => Err(Refusal::Fault(ScriptKind::BadWord)),
    }
}

fn timed(how: How, word: &[u8], text: Text) -> Result<Question, Refusal<ScriptKind>>
    ensures question { Gives result (spec.timed how word.now text) }
{
    match moment_of(word) {
        Some(moment) => Ok(Question { how, moment, text }),
        None => Err(Refusal::Fault(ScriptKind::BadNumber)),
    }
}
