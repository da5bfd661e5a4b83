// Numbers and durations.
ghost use Rattle.std.specs.Prelude.{◌≡◌, ◌≤◌, IfOk};
ghost use Rattle.mql_ast.specs.Tokens as tokens;
ghost use Rattle.mql_ast.specs.Tokens.{minus};
ghost use Rattle.mql_parse.specs.Outcomes.{rest_of, Reads, itself};
ghost use Rattle.mql_parse.specs.TokenReading as reading;

use crate::bytes::is_digit;
use crate::cursor::{Cursor, Read};
use crate::faults::{ParseKind, What};
use mon_value::LONGEST_DURATION;

/// The greatest magnitude of a negative number.
const MOST_NEGATIVE: u64 = 9223372036854775808;

/// The longest duration, in seconds.
const LONGEST: u64 = LONGEST_DURATION as u64;

/// A number without a sign, from 0 to the greatest that may stand here.
#[tactic(auto, unfolding(crate::specs::TokenReading::number))]
pub fn number<'a>(from: Cursor<'a>, most: u64) -> Read<'a, u64>
    requires { 9 ≤ most }
    ensures read { Reads itself result (reading.number most (rest_of from.entry)) }
    ensures range { IfOk result (λ x. x.0 ≤ most) }
{
    let start = from.skip();
    if start.head() == b'0' {
        Ok((0, start.behind()))
    } else {
        positive(from, most)
    }
}

/// A number from 1 to the greatest that may stand here.
#[tactic(auto, unfolding(crate::specs::TokenReading::positive))]
pub fn positive<'a>(from: Cursor<'a>, most: u64) -> Read<'a, u64>
    requires { 9 ≤ most }
    ensures read { Reads itself result (reading.positive most (rest_of from.entry)) }
    ensures range { IfOk result (λ x. x.0 ≤ most) }
{
    let start = from.skip();
    let byte = start.head();
    if is_digit(byte) && byte != b'0' {
        digits(u64::from(byte - b'0'), start.behind(), most)
    } else {
        Err(start.unexpected(What::Number))
    }
}

// The further digits of a number.
#[tactic(auto, using(crate::proofs::WordLemmas::digit_shorter))]
fn digits<'a>(first: u64, from: Cursor<'a>, most: u64) -> Read<'a, u64>
    requires { first ≤ most }
    ensures read { Reads itself result (reading.digits most first from.entry.at from.entry.bytes.now) }
    ensures range { IfOk result (λ x. x.0 ≤ most) }
{
    let mut value = first;
    let mut from = from;
    while is_digit(from.head()) {
        let next = u128::from(value) * 10 + u128::from(from.head() - b'0');
        if u128::from(most) < next {
            return Err(from.fault(ParseKind::NumberTooLarge));
        }
        value = next as u64;
        from = from.behind();
    }
    Ok((value, from))
}

/// A whole number, with a sign or without.
#[tactic(auto, unfolding(crate::specs::TokenReading::signed_reading))]
pub fn signed<'a>(from: Cursor<'a>) -> Read<'a, i64>
    ensures read { Reads itself result (reading.signed_reading (rest_of from.entry)) }
{
    let start = from.skip();
    if start.head() == b'-' {
        let (magnitude, rest) = number(start.behind(), MOST_NEGATIVE)?;
        Ok((negative(magnitude), rest))
    } else {
        let (magnitude, rest) = number(from, MOST_NEGATIVE - 1)?;
        Ok((magnitude as i64, rest))
    }
}

fn negative(magnitude: u64) -> i64
    requires { magnitude ≤ MOST_NEGATIVE }
    ensures { result ≡ minus magnitude }
{
    (-i128::from(magnitude)) as i64
}

/// A duration in seconds.
#[tactic(auto, unfolding(crate::specs::TokenReading::duration))]
pub fn duration<'a>(from: Cursor<'a>) -> Read<'a, i64>
    ensures read { Reads itself result (reading.duration (rest_of from.entry)) }
{
    let (value, unit) = positive(from, LONGEST)?;
    units(value, unit)
}

// So many of the units that stand here, unless that is longer than a duration may be.
fn units<'a>(value: u64, unit: Cursor<'a>) -> Read<'a, i64>
    requires { value ≤ LONGEST }
    ensures read { Reads itself result (reading.units (value, rest_of unit.entry)) }
{
    let length = unit_seconds(unit.head());
    if length == 0 {
        return Err(unit.unexpected(What::Unit));
    }
    let seconds = value * length;
    if seconds <= LONGEST {
        Ok((seconds as i64, unit.behind()))
    } else {
        Err(unit.fault(ParseKind::NumberTooLarge))
    }
}

// How many seconds a unit has, or 0 where the byte is none.
fn unit_seconds(byte: u8) -> u64
    ensures seconds { result ≡ tokens.unit_seconds byte }
    ensures bound { result ≤ 86400 }
{
    if byte == b's' {
        1
    } else if byte == b'm' {
        60
    } else if byte == b'h' {
        3_600
    } else if byte == b'd' {
        86_400
    } else {
        0
    }
}
