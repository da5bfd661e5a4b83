// Names and metrics.
ghost use Rattle.std.specs.Prelude.{true, string_bytes};
ghost use Rattle.mql_ast.specs.Tokens.{word_here};
ghost use Rattle.mql_parse.specs.Outcomes as outcomes;
ghost use Rattle.mql_parse.specs.Outcomes.{rest_of, Reads, itself, Adds};
ghost use Rattle.mql_parse.specs.TokenReading as reading;

use crate::bytes::{is_letter, is_metric_byte, is_word_byte};
use crate::cursor::{Cursor, Read};
use crate::faults::{ParseFault, What};
use mon_value::{Refusal, Text};
use mql_ast::Name;
use std::alloc::Global;

/// A name.
#[tactic(auto, unfolding(crate::specs::TokenReading::name))]
pub fn name<'a>(alloc: Global, from: Cursor<'a>) -> Read<'a, Name>
    ensures read { Reads itself result (reading.name (rest_of from.entry)) }
{
    let from = from.skip();
    if is_letter(from.head()) {
        word(alloc, from)
    } else {
        Err(from.unexpected(What::Name))
    }
}

/// The letters, digits and `_` that stand here.
#[tactic(auto, using(crate::proofs::WordLemmas::word_shorter))]
pub fn word<'a>(alloc: Global, from: Cursor<'a>) -> Read<'a, Name>
    ensures read { Reads itself result (outcomes.outcome_of (word_here (rest_of from.entry))) }
{
    let at = from.at;
    let mut text = String::new(alloc);
    let mut from = from;
    while is_word_byte(from.head()) {
        text.push(char::from(from.head()))?;
        from = from.behind();
    }
    Ok((
        Name {
            at,
            text: Text::from_string(text)?,
        },
        from,
    ))
}

/// A metric's name.
#[tactic(auto, unfolding(crate::specs::TokenReading::metric))]
pub fn metric<'a>(alloc: Global, from: Cursor<'a>) -> Read<'a, Name>
    ensures read { Reads itself result (reading.metric (rest_of from.entry)) }
{
    let start = from.skip();
    let from = start.exact(b"/", What::Metric)?;
    let mut text = String::from_str(alloc, "/")?;
    let from = metric_bytes(&mut text, from)?;
    Ok((
        Name {
            at: start.at,
            text: Text::from_string(text)?,
        },
        from,
    ))
}

// The bytes of a metric behind its first slash, which are put behind the text.
fn metric_bytes<'a>(text: &mut String, from: Cursor<'a>) -> Result<Cursor<'a>, Refusal<ParseFault>>
    ensures read { Adds (string_bytes text.old) (string_bytes text.new) result
        (reading.metric_from true from.entry.at from.entry.bytes.now) }
{
    let mut from = from;
    let mut after_slash = true;
    loop {
        let byte = from.head();
        if is_metric_byte(byte) {
            after_slash = false;
        } else if byte == b'/' && !after_slash {
            after_slash = true;
        } else if after_slash {
            return Err(from.unexpected(What::Metric));
        } else {
            return Ok(from);
        }
        text.push(char::from(byte))?;
        from = from.behind();
    }
}
