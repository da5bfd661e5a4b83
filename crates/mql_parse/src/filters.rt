// The predicates of filters.
ghost use Rattle.std.specs.Prelude.{◌≡◌};
ghost use Rattle.mql_ast.specs.Trees.{predicate_tree};
ghost use Rattle.mql_parse.specs.Outcomes.{rest_of, Reads};
ghost use Rattle.mql_parse.specs.Repeats.{repetition};
ghost use Rattle.mql_parse.specs.PredicateReading as predicates;
ghost use Rattle.mql_parse.specs.TurnViews.{Turns};
ghost use Rattle.mql_parse.specs.Views.{filter_seen};

use crate::cursor::{Cursor, Read};
use crate::predicates::{conjunction, either};
use crate::turns::{Turn, Turned};
use mql_ast::Predicate;
use std::alloc::Global;

/// A filter's predicate, and whether the bar behind it was read too.
#[derive(Drop)]
pub struct FilterRead {
    pub predicate: Predicate,
    pub bar: bool,
}

/// The predicate of a filter, outside parentheses, where one bar ends it.
#[tactic(auto, unfolding(crate::specs::PredicateReading::predicate))]
pub fn predicate<'a>(alloc: Global, levels: u32, from: Cursor<'a>) -> Read<'a, FilterRead>
    ensures read { Reads filter_seen result (predicates.predicate levels (rest_of from.entry)) }
{
    let (first, from) = conjunction(alloc, levels, from)?;
    let first = FilterRead {
        predicate: first,
        bar: false,
    };
    further_conjunctions(alloc, levels, first, from)
}

fn further_conjunctions<'a>(
    alloc: Global,
    levels: u32,
    first: FilterRead,
    from: Cursor<'a>,
) -> Read<'a, FilterRead>
    ensures read { Reads filter_seen result
        (repetition (predicates.filter_turn (predicates.conjunction levels)) (filter_seen first) (rest_of from.entry)) }
{
    let mut left = first;
    let mut from = from;
    'parts: loop {
        match further_conjunction(alloc, levels, left, from) {
            Ok(Turned::Done(whole, rest)) => return Ok((whole, rest)),
            Ok(Turned::Again(whole, rest)) => {
                left = whole;
                from = rest;
            }
            Err(refusal) => return Err(refusal),
        }
    }
}

#[tactic(auto, unfolding(crate::specs::PredicateReading::filter_turn))]
fn further_conjunction<'a>(
    alloc: Global,
    levels: u32,
    left: FilterRead,
    from: Cursor<'a>,
) -> Turn<'a, FilterRead>
    ensures turn { Turns filter_seen result
        (predicates.filter_turn (predicates.conjunction levels) (filter_seen left) (rest_of from.entry)) }
{
    let predicate = left.predicate;
    let bar = from.skip();
    if bar.head() != b'|' {
        return Ok(Turned::Done(read(predicate, false), from));
    }
    let second = bar.behind();
    if second.head() != b'|' {
        return Ok(Turned::Done(read(predicate, true), second));
    }
    let (right, rest) = conjunction(alloc, levels, second.behind())?;
    let whole = either(alloc, predicate, right)?;
    Ok(Turned::Again(read(whole, false), rest))
}

fn read(predicate: Predicate, bar: bool) -> FilterRead
    ensures { filter_seen result ≡ (predicate_tree predicate, bar) }
{
    FilterRead { predicate, bar }
}
