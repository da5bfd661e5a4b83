// Patterns.
ghost use Rattle.std.specs.Prelude.{◌≡◌};
ghost use Rattle.mon_value.specs.Values.{text_in};
ghost use Rattle.mql_ast.specs.Quotes as quotes;
ghost use Rattle.mql_ast.specs.Tokens.{behind};
ghost use Rattle.mql_parse.specs.Outcomes.{rest_of, Reads, itself};
ghost use Rattle.mql_parse.specs.TokenReading as reading;
ghost use Rattle.mql_parse.specs.Steps.{open_seen, sign_seen, pattern_step_seen, PieceGiven};

use crate::cursor::{Cursor, Read};
use crate::faults::{ParseFault, ParseKind, What};
use crate::quotes::{Open, begins_character, further};
use mon_value::{Refusal, Text};
use mql_ast::Pieces;
use std::alloc::Global;

// What the signs so far leave open.
#[derive(Clone, Copy)]
enum Sign {
    // A sign may begin.
    Whole,
    // A dot was read, which needs its star.
    Dot,
    // A backslash was read, which needs what it stands before.
    Backslash,
}

// What a byte does.
#[derive(Clone, Copy)]
enum PatternStep {
    // It ends the pattern.
    End,
    // It ends a piece.
    Cut,
    // It is part of a sign.
    Pass(Open, Sign),
    // It stands in the piece.
    Keep(Open, Sign),
    // It could stand in a text, and not here.
    Unfit,
    // It can't stand in a text here.
    Bad,
}

/// A pattern in quotes, from behind the first quote.
#[tactic(auto, unfolding(crate::specs::TokenReading::pattern), using(crate::proofs::QuoteLemmas::patterns))]
pub fn pattern<'a>(alloc: Global, from: Cursor<'a>) -> Read<'a, Pieces>
    ensures read { Reads itself result (reading.pattern (rest_of from.entry)) }
{
    let mut pieces = Pieces::new(alloc);
    let mut content = Vec::new(alloc);
    let mut state = Open::Character;
    let mut sign = Sign::Whole;
    let mut from = from;
    'bytes: while !from.is_end() {
        let byte = from.head();
        match pattern_step(state, sign, byte) {
            PatternStep::End => {
                pieces.push(piece(alloc, content.as_slice(), from)?)?;
                return Ok((pieces, from.behind()));
            }
            PatternStep::Cut => {
                pieces.push(piece(alloc, content.as_slice(), from)?)?;
                content = Vec::new(alloc);
                state = Open::Character;
                sign = Sign::Whole;
            }
            PatternStep::Pass(next, mark) => {
                state = next;
                sign = mark;
            }
            PatternStep::Keep(next, mark) => {
                content.push(byte)?;
                state = next;
                sign = mark;
            }
            PatternStep::Unfit => return Err(from.fault(ParseKind::BadPattern)),
            PatternStep::Bad => return Err(from.fault(ParseKind::BadToken)),
        }
        from = from.behind();
    }
    Err(from.fault(ParseKind::Expected(What::Text)))
}

// The text of a piece that ends here.
fn piece(alloc: Global, content: &[u8], from: Cursor<'_>) -> Result<Text, Refusal<ParseFault>>
    ensures read { PieceGiven result (text_in content.now) (rest_of from.entry) }
{
    match Text::from_utf8(alloc, content)? {
        Some(text) => Ok(text),
        None => Err(from.fault(ParseKind::BadToken)),
    }
}

fn pattern_step(state: Open, sign: Sign, byte: u8) -> PatternStep
    ensures step { pattern_step_seen result ≡ quotes.pattern_step (open_seen state) (sign_seen sign) byte }
{
    match state {
        Open::Character => character_step(sign, byte),
        Open::Escape => escape_step(sign, byte),
        Open::Bytes(left, low, high) => {
            if low <= byte && byte <= high {
                PatternStep::Keep(further(left), Sign::Whole)
            } else {
                PatternStep::Bad
            }
        }
    }
}

fn character_step(sign: Sign, byte: u8) -> PatternStep
    ensures step { pattern_step_seen result ≡ quotes.character_step (sign_seen sign) byte }
{
    match sign {
        Sign::Whole => sign_step(byte),
        Sign::Dot => {
            if byte == b'*' {
                PatternStep::Cut
            } else {
                unfit(byte)
            }
        }
        Sign::Backslash => {
            if byte == b'\\' {
                PatternStep::Pass(Open::Escape, Sign::Backslash)
            } else if is_mark(byte) {
                PatternStep::Keep(Open::Character, Sign::Whole)
            } else {
                unfit(byte)
            }
        }
    }
}

fn sign_step(byte: u8) -> PatternStep
    ensures step { pattern_step_seen result ≡ quotes.sign_step byte }
{
    if byte == b'"' {
        return PatternStep::End;
    }
    if byte == b'\\' {
        return PatternStep::Pass(Open::Escape, Sign::Whole);
    }
    if byte == b'.' {
        return PatternStep::Pass(Open::Character, Sign::Dot);
    }
    if is_mark(byte) {
        return PatternStep::Unfit;
    }
    match begins_character(byte) {
        Some(next) => PatternStep::Keep(next, Sign::Whole),
        None => PatternStep::Bad,
    }
}

// Behind a backslash of the text: `\"` is a quote, and `\\` is a backslash of the pattern.
fn escape_step(sign: Sign, byte: u8) -> PatternStep
    ensures step { pattern_step_seen result ≡ quotes.escape_step (sign_seen sign) byte }
{
    match sign {
        Sign::Whole => {
            if byte == b'"' {
                PatternStep::Keep(Open::Character, Sign::Whole)
            } else if byte == b'\\' {
                PatternStep::Pass(Open::Character, Sign::Backslash)
            } else {
                PatternStep::Bad
            }
        }
        Sign::Dot => PatternStep::Bad,
        Sign::Backslash => {
            if byte == b'\\' {
                PatternStep::Keep(Open::Character, Sign::Whole)
            } else if byte == b'"' {
                PatternStep::Unfit
            } else {
                PatternStep::Bad
            }
        }
    }
}

// What a byte does that doesn't go on a sign.
fn unfit(byte: u8) -> PatternStep
    ensures step { pattern_step_seen result ≡ quotes.unfit (quotes.begins_character byte) }
{
    match begins_character(byte) {
        Some(_) => PatternStep::Unfit,
        None => PatternStep::Bad,
    }
}

// What stands in a pattern only behind a backslash, or in `.*`.
fn is_mark(byte: u8) -> bool
    ensures { result ≡ quotes.is_mark byte }
{
    byte == b'.'
        || byte == b'*'
        || byte == b'+'
        || byte == b'?'
        || byte == b'('
        || byte == b')'
        || byte == b'['
        || byte == b']'
        || byte == b'{'
        || byte == b'}'
        || byte == b'|'
        || byte == b'^'
        || byte == b'$'
}
