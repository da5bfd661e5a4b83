// Sums.
ghost use Rattle.std.specs.Prelude.{◌≡◌, IfOk};
ghost use Rattle.mql_ast.specs.Tokens.{behind, word_here};
ghost use Rattle.mql_parse.specs.Outcomes.{rest_of, Reads};
ghost use Rattle.mql_parse.specs.Repeats.{repetition};
ghost use Rattle.mql_ast.specs.Trees as SumTree;
ghost use Rattle.mql_parse.specs.SumReading as sums;
ghost use Rattle.mql_parse.specs.TurnViews.{Turns};
ghost use Rattle.mql_parse.specs.Views.{sum_seen};

use crate::bytes::{is_digit, is_letter};
use crate::cursor::{Cursor, Read};
use crate::faults::{ParseKind, What};
use crate::numbers::{positive, signed};
use crate::turns::{Turn, Turned};
use crate::words::{name, word};
use mql_ast::{Expr, Name};
use std::alloc::{AllocError, Global};

/// The greatest percentile.
const MOST_PERCENT: u64 = 100;

/// A sum that was read. Where it ends in the bare word `percentile`, a parenthesis may come.
#[derive(Drop)]
pub struct SumRead {
    pub sum: Expr,
    pub bare: bool,
}

/// A sum, with so many levels left for parentheses.
#[cycle(sums)]
#[tactic(auto, unfolding(crate::specs::SumReading::sum_with))]
pub fn sum<'a>(alloc: Global, levels: u32, from: Cursor<'a>) -> Read<'a, SumRead>
    ensures read { Reads sum_seen result (sums.sum levels (rest_of from.entry)) }
{
    let (first, from) = term(alloc, levels, from)?;
    further_terms(alloc, levels, first, from)
}

// A sum that goes on as far as there are operators.
#[cycle(sums)]
fn further_terms<'a>(
    alloc: Global,
    levels: u32,
    first: SumRead,
    from: Cursor<'a>,
) -> Read<'a, SumRead>
    ensures read { Reads sum_seen result
        (repetition (sums.term_turn (sums.term levels)) (sum_seen first) (rest_of from.entry)) }
{
    let mut left = first;
    let mut from = from;
    'terms: loop {
        match further_term(alloc, levels, left, from) {
            Ok(Turned::Done(sum, rest)) => return Ok((sum, rest)),
            Ok(Turned::Again(sum, rest)) => {
                left = sum;
                from = rest;
            }
            Err(refusal) => return Err(refusal),
        }
    }
}

// A sum with a further term, where an operator stands here.
#[cycle(sums)]
#[tactic(auto, unfolding(crate::specs::SumReading::term_turn))]
fn further_term<'a>(
    alloc: Global,
    levels: u32,
    left: SumRead,
    from: Cursor<'a>,
) -> Turn<'a, SumRead>
    ensures turn { Turns sum_seen result (sums.term_turn (sums.term levels) (sum_seen left) (rest_of from.entry)) }
{
    let sign = from.skip();
    let byte = sign.head();
    if byte == b'+' {
        let (right, rest) = term(alloc, levels, sign.behind())?;
        Ok(Turned::Again(added(alloc, left, right)?, rest))
    } else if byte == b'-' {
        let (right, rest) = term(alloc, levels, sign.behind())?;
        Ok(Turned::Again(taken(alloc, left, right)?, rest))
    } else {
        Ok(Turned::Done(left, from))
    }
}

// A sum and a further term.
fn added(alloc: Global, left: SumRead, right: SumRead) -> Result<SumRead, AllocError>
    ensures sum { IfOk result (λ x. sum_seen x ≡ sums.sum_plus (sum_seen left) (sum_seen right)) }
{
    let bare = right.bare;
    let left = Box::new(alloc, left.sum)?;
    let right = Box::new(alloc, right.sum)?;
    Ok(SumRead {
        sum: Expr::Plus(left, right),
        bare,
    })
}

// A sum without a further term.
fn taken(alloc: Global, left: SumRead, right: SumRead) -> Result<SumRead, AllocError>
    ensures sum { IfOk result (λ x. sum_seen x ≡ sums.sum_minus (sum_seen left) (sum_seen right)) }
{
    let bare = right.bare;
    let left = Box::new(alloc, left.sum)?;
    let right = Box::new(alloc, right.sum)?;
    Ok(SumRead {
        sum: Expr::Minus(left, right),
        bare,
    })
}

#[cycle(sums)]
#[tactic(auto, unfolding(crate::specs::SumReading::term_with))]
fn term<'a>(alloc: Global, levels: u32, from: Cursor<'a>) -> Read<'a, SumRead>
    ensures read { Reads sum_seen result (sums.term levels (rest_of from.entry)) }
{
    let here = from.skip();
    let byte = here.head();
    if byte == b'(' {
        group(alloc, levels, here)
    } else if byte == b'-' || is_digit(byte) {
        number_term(from)
    } else if is_letter(byte) {
        word_term(alloc, here)
    } else {
        Err(here.unexpected(What::Name))
    }
}

// A sum in parentheses, whose first stands here.
#[cycle(sums)]
#[tactic(auto, using(crate::proofs::SumSound::sum_group_deeper, crate::proofs::SumSound::sum_group_too_deep))]
fn group<'a>(alloc: Global, levels: u32, here: Cursor<'a>) -> Read<'a, SumRead>
    ensures read { Reads sum_seen result (sums.sum_group levels (rest_of here.entry) (behind (rest_of here.entry))) }
{
    if levels == 0 {
        return Err(here.fault(ParseKind::TooDeep));
    }
    let (inner, from) = sum(alloc, levels - 1, here.behind())?;
    closed(inner, from)
}

// A sum that was read, up to the parenthesis behind it.
fn closed<'a>(inner: SumRead, from: Cursor<'a>) -> Read<'a, SumRead>
    ensures read { Reads sum_seen result (sums.sum_end (sum_seen inner, rest_of from.entry)) }
{
    let from = from.sign(b')', behind_sum(inner.bare))?;
    Ok((
        SumRead {
            sum: inner.sum,
            bare: false,
        },
        from,
    ))
}

// What may come behind a sum in parentheses.
fn behind_sum(bare: bool) -> What
    ensures { result ≡ sums.behind_sum bare }
{
    if bare {
        What::OpenParenthesis
    } else {
        What::CloseParenthesis
    }
}

fn number_term<'a>(from: Cursor<'a>) -> Read<'a, SumRead>
    ensures read { Reads sum_seen result (sums.number_term (rest_of from.entry)) }
{
    let at = from.skip().at;
    let (value, from) = signed(from)?;
    Ok((
        SumRead {
            sum: Expr::Number { at, value },
            bare: false,
        },
        from,
    ))
}

// A column, or a percentile of one.
fn word_term<'a>(alloc: Global, here: Cursor<'a>) -> Read<'a, SumRead>
    ensures read { Reads sum_seen result (sums.word_read (word_here (rest_of here.entry))) }
{
    let (column, from) = word(alloc, here)?;
    if !is_percentile(&column) {
        return Ok((of_column(column, false), from));
    }
    let next = from.skip();
    if next.head() == b'(' {
        percentile(alloc, here.at, next.behind())
    } else {
        Ok((of_column(column, true), from))
    }
}

fn is_percentile(word: &Name) -> bool
    ensures { result ≡ sums.is_percentile word.now.text }
{
    word.text.as_bytes() == b"percentile".as_slice()
}

fn of_column(column: Name, bare: bool) -> SumRead
    ensures { sum_seen result ≡ sums.as_sum_seen (SumTree.Column column) bare }
{
    SumRead {
        sum: Expr::Column(column),
        bare,
    }
}

// A percentile, from behind its parenthesis.
#[tactic(auto, unfolding(crate::specs::SumReading::percentile))]
fn percentile<'a>(alloc: Global, at: u32, from: Cursor<'a>) -> Read<'a, SumRead>
    ensures read { Reads sum_seen result (sums.percentile at (rest_of from.entry)) }
{
    let (column, from) = name(alloc, from)?;
    let from = from.sign(b',', What::Comma)?;
    let (p, from) = positive(from, MOST_PERCENT)?;
    let from = from.sign(b')', What::CloseParenthesis)?;
    let sum = Expr::Percentile {
        at,
        column,
        p: p as u8,
    };
    Ok((SumRead { sum, bare: false }, from))
}
