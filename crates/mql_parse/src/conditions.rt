// The conditions of which predicates are made.
ghost use Rattle.mql_parse.specs.Outcomes.{rest_of, Reads, itself};
ghost use Rattle.mql_parse.specs.PredicateReading as predicates;
ghost use Rattle.mql_parse.specs.PredicateViews.{compared_seen};
ghost use Rattle.mql_ast.specs.Trees.{predicate_tree};

use crate::bytes::is_digit;
use crate::cursor::{Cursor, Read};
use crate::faults::What;
use crate::numbers::signed;
use crate::patterns::pattern;
use crate::quotes::text;
use crate::words::word;
use mon_value::FieldValue;
use mql_ast::{Comparison, Literal, Name, Pattern, Predicate};
use std::alloc::Global;

// How a condition compares.
#[derive(Clone, Copy)]
enum Compared {
    // With a value.
    Value(Comparison),
    // With a pattern.
    Pattern,
}

/// A column that is compared with a value or a pattern, whose name stands here.
#[tactic(auto, unfolding(crate::specs::PredicateReading::condition))]
pub fn condition<'a>(alloc: Global, here: Cursor<'a>) -> Read<'a, Predicate>
    ensures read { Reads predicate_tree result (predicates.condition (rest_of here.entry)) }
{
    let (column, from) = word(alloc, here)?;
    let (how, from) = how_compared(from)?;
    match how {
        Compared::Value(comparison) => comparison_with(alloc, column, comparison, from),
        Compared::Pattern => likeness(alloc, column, from),
    }
}

fn comparison_with<'a>(
    alloc: Global,
    column: Name,
    how: Comparison,
    from: Cursor<'a>,
) -> Read<'a, Predicate>
    ensures read { Reads predicate_tree result (predicates.compares column how (rest_of from.entry)) }
{
    let at = from.skip().at;
    let (value, from) = literal_value(alloc, from)?;
    Ok((Predicate::Compare(column, how, Literal { at, value }), from))
}

fn likeness<'a>(alloc: Global, column: Name, from: Cursor<'a>) -> Read<'a, Predicate>
    ensures read { Reads predicate_tree result (predicates.likens column (rest_of from.entry)) }
{
    let at = from.skip().at;
    let quote = from.sign(b'"', What::Text)?;
    let (pieces, from) = pattern(alloc, quote)?;
    Ok((Predicate::Like(column, Pattern { at, pieces }), from))
}

#[tactic(auto, unfolding(crate::specs::PredicateReading::comparison_kind))]
fn how_compared<'a>(from: Cursor<'a>) -> Read<'a, Compared>
    ensures read { Reads compared_seen result (predicates.comparison_kind (rest_of from.entry)) }
{
    let here = from.skip();
    let byte = here.head();
    if byte == b'=' {
        behind_equals(here.behind())
    } else if byte == b'!' {
        let from = here.behind().exact(b"=", What::Comparison)?;
        Ok((Compared::Value(Comparison::NotEqual), from))
    } else if byte == b'<' {
        maybe_equal(Comparison::Less, Comparison::AtMost, here.behind())
    } else if byte == b'>' {
        maybe_equal(Comparison::Greater, Comparison::AtLeast, here.behind())
    } else {
        Err(here.unexpected(What::Comparison))
    }
}

fn behind_equals<'a>(from: Cursor<'a>) -> Read<'a, Compared>
    ensures read { Reads compared_seen result (predicates.behind_equals (rest_of from.entry)) }
{
    let byte = from.head();
    if byte == b'=' {
        Ok((Compared::Value(Comparison::Equal), from.behind()))
    } else if byte == b'~' {
        Ok((Compared::Pattern, from.behind()))
    } else {
        Err(from.unexpected(What::Comparison))
    }
}

// The one comparison, or the other where an equals sign stands here.
fn maybe_equal<'a>(without: Comparison, with: Comparison, from: Cursor<'a>) -> Read<'a, Compared>
    ensures read { Reads compared_seen result (predicates.maybe_equal without with (rest_of from.entry)) }
{
    if from.head() == b'=' {
        Ok((Compared::Value(with), from.behind()))
    } else {
        Ok((Compared::Value(without), from))
    }
}

#[tactic(auto, unfolding(crate::specs::PredicateReading::literal_value))]
fn literal_value<'a>(alloc: Global, from: Cursor<'a>) -> Read<'a, FieldValue>
    ensures read { Reads itself result (predicates.literal_value (rest_of from.entry)) }
{
    let here = from.skip();
    let byte = here.head();
    if byte == b'"' {
        let (text, from) = text(alloc, here.behind())?;
        Ok((FieldValue::Text(text), from))
    } else if byte == b't' {
        let from = here.exact(b"true", What::Truth)?;
        Ok((FieldValue::Bool(true), from))
    } else if byte == b'f' {
        let from = here.exact(b"false", What::Truth)?;
        Ok((FieldValue::Bool(false), from))
    } else if byte == b'-' || is_digit(byte) {
        let (number, from) = signed(from)?;
        Ok((FieldValue::Int(number), from))
    } else {
        Err(here.unexpected(What::Text))
    }
}
