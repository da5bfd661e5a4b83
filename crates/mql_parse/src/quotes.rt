// Texts in quotes.
ghost use Rattle.std.specs.Prelude.{◌≡◌};
ghost use Rattle.mon_value.specs.Values.{text_in};
ghost use Rattle.mql_ast.specs.Quotes as quotes;
ghost use Rattle.mql_ast.specs.Tokens.{behind};
ghost use Rattle.mql_parse.specs.Outcomes.{rest_of, Reads, itself};
ghost use Rattle.mql_parse.specs.TokenReading as reading;
ghost use Rattle.mql_parse.specs.Steps.{open_seen, open_maybe, text_step_seen};

use crate::cursor::{Cursor, Read};
use crate::faults::{ParseKind, What};
use mon_value::Text;
use std::alloc::Global;

/// What the bytes so far leave open in a text in quotes.
#[derive(Clone, Copy)]
pub enum Open {
    /// A character may begin.
    Character,
    /// A backslash was read.
    Escape,
    /// So many further bytes of a character come, the next one between these.
    Bytes(u8, u8, u8),
}

/// What the first byte of a character leaves open, or that it begins none.
pub fn begins_character(byte: u8) -> Option<Open>
    ensures seen { open_maybe result ≡ quotes.begins_character byte }
{
    if 32 <= byte && byte <= 127 {
        Some(Open::Character)
    } else if 194 <= byte && byte <= 223 {
        Some(Open::Bytes(1, 128, 191))
    } else if byte == 224 {
        Some(Open::Bytes(2, 160, 191))
    } else if byte == 237 {
        Some(Open::Bytes(2, 128, 159))
    } else if 225 <= byte && byte <= 239 {
        Some(Open::Bytes(2, 128, 191))
    } else {
        begins_long_character(byte)
    }
}

// The same of characters of four bytes.
fn begins_long_character(byte: u8) -> Option<Open>
    ensures seen { open_maybe result ≡ quotes.begins_long_character byte }
{
    if byte == 240 {
        Some(Open::Bytes(3, 144, 191))
    } else if 241 <= byte && byte <= 243 {
        Some(Open::Bytes(3, 128, 191))
    } else if byte == 244 {
        Some(Open::Bytes(3, 128, 143))
    } else {
        None
    }
}

/// What is open behind a further byte of a character.
pub fn further(left: u8) -> Open
    ensures seen { open_seen result ≡ quotes.further left }
{
    if left <= 1 {
        Open::Character
    } else {
        Open::Bytes(left - 1, 128, 191)
    }
}

// What a byte does in a text.
#[derive(Clone, Copy)]
enum TextStep {
    // It ends the text.
    End,
    // It is the backslash of an escape.
    Pass(Open),
    // It stands in the text.
    Keep(Open),
    // It can't stand here.
    Bad,
}

/// A text in quotes, from behind the first quote.
#[tactic(auto, unfolding(crate::specs::TokenReading::text), using(crate::proofs::QuoteLemmas::texts))]
pub fn text<'a>(alloc: Global, from: Cursor<'a>) -> Read<'a, Text>
    ensures read { Reads itself result (reading.text (rest_of from.entry)) }
{
    let mut content = Vec::new(alloc);
    let mut state = Open::Character;
    let mut from = from;
    'bytes: while !from.is_end() {
        let byte = from.head();
        match text_step(state, byte) {
            TextStep::End => return text_end(alloc, content.as_slice(), from),
            TextStep::Pass(next) => state = next,
            TextStep::Keep(next) => {
                content.push(byte)?;
                state = next;
            }
            TextStep::Bad => return Err(from.fault(ParseKind::BadToken)),
        }
        from = from.behind();
    }
    Err(from.fault(ParseKind::Expected(What::Text)))
}

fn text_step(state: Open, byte: u8) -> TextStep
    ensures step { text_step_seen result ≡ quotes.text_step (open_seen state) byte }
{
    match state {
        Open::Character => {
            if byte == b'"' {
                return TextStep::End;
            }
            if byte == b'\\' {
                return TextStep::Pass(Open::Escape);
            }
            match begins_character(byte) {
                Some(next) => TextStep::Keep(next),
                None => TextStep::Bad,
            }
        }
        Open::Escape => {
            if byte == b'"' || byte == b'\\' {
                TextStep::Keep(Open::Character)
            } else {
                TextStep::Bad
            }
        }
        Open::Bytes(left, low, high) => {
            if low <= byte && byte <= high {
                TextStep::Keep(further(left))
            } else {
                TextStep::Bad
            }
        }
    }
}

// The text of the content up to the quote here.
fn text_end<'a>(alloc: Global, content: &[u8], from: Cursor<'a>) -> Read<'a, Text>
    ensures read { Reads itself result
        (reading.text_end (text_in content.now) (rest_of from.entry) (behind (rest_of from.entry))) }
{
    match Text::from_utf8(alloc, content)? {
        Some(text) => Ok((text, from.behind())),
        None => Err(from.fault(ParseKind::BadToken)),
    }
}
