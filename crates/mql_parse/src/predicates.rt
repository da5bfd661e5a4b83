// Predicates.
ghost use Rattle.std.specs.Prelude.{◌≡◌, IfOk};
ghost use Rattle.mql_ast.specs.Tokens.{behind};
ghost use Rattle.mql_ast.specs.Trees as PredicateTree;
ghost use Rattle.mql_ast.specs.Trees.{predicate_tree};
ghost use Rattle.mql_parse.specs.Outcomes.{rest_of, Reads};
ghost use Rattle.mql_parse.specs.Repeats.{repetition};
ghost use Rattle.mql_parse.specs.PredicateReading as predicates;
ghost use Rattle.mql_parse.specs.TurnViews.{Turns};

use crate::bytes::is_letter;
use crate::conditions::condition;
use crate::cursor::{Cursor, Read};
use crate::faults::{ParseKind, What};
use crate::turns::{Turn, Turned};
use mql_ast::Predicate;
use std::alloc::{AllocError, Global};

/// Conditions joined by `&&`, with so many levels left for parentheses and `!`.
#[cycle(predicates)]
#[tactic(auto, unfolding(crate::specs::PredicateReading::conjunction_with))]
pub fn conjunction<'a>(alloc: Global, levels: u32, from: Cursor<'a>) -> Read<'a, Predicate>
    ensures read { Reads predicate_tree result (predicates.conjunction levels (rest_of from.entry)) }
{
    let (first, from) = negation(alloc, levels, from)?;
    further_negations(alloc, levels, first, from)
}

#[cycle(predicates)]
fn further_negations<'a>(
    alloc: Global,
    levels: u32,
    first: Predicate,
    from: Cursor<'a>,
) -> Read<'a, Predicate>
    ensures read { Reads predicate_tree result
        (repetition (predicates.and_turn (predicates.negation levels)) (predicate_tree first) (rest_of from.entry)) }
{
    let mut left = first;
    let mut from = from;
    'parts: loop {
        match further_negation(alloc, levels, left, from) {
            Ok(Turned::Done(whole, rest)) => return Ok((whole, rest)),
            Ok(Turned::Again(whole, rest)) => {
                left = whole;
                from = rest;
            }
            Err(refusal) => return Err(refusal),
        }
    }
}

#[cycle(predicates)]
#[tactic(auto, unfolding(crate::specs::PredicateReading::and_turn))]
fn further_negation<'a>(
    alloc: Global,
    levels: u32,
    left: Predicate,
    from: Cursor<'a>,
) -> Turn<'a, Predicate>
    ensures turn { Turns predicate_tree result
        (predicates.and_turn (predicates.negation levels) (predicate_tree left) (rest_of from.entry)) }
{
    let sign = from.skip();
    if sign.head() != b'&' {
        return Ok(Turned::Done(left, from));
    }
    let second = sign.behind();
    if second.head() != b'&' {
        return Err(second.unexpected(What::And));
    }
    let (right, rest) = negation(alloc, levels, second.behind())?;
    Ok(Turned::Again(both(alloc, left, right)?, rest))
}

// Conditions joined by `||`, in parentheses, where a bar needs its second.
#[cycle(predicates)]
#[tactic(auto, unfolding(crate::specs::PredicateReading::disjunction_with))]
fn disjunction<'a>(alloc: Global, levels: u32, from: Cursor<'a>) -> Read<'a, Predicate>
    ensures read { Reads predicate_tree result (predicates.disjunction levels (rest_of from.entry)) }
{
    let (first, from) = conjunction(alloc, levels, from)?;
    further_conjunctions(alloc, levels, first, from)
}

#[cycle(predicates)]
fn further_conjunctions<'a>(
    alloc: Global,
    levels: u32,
    first: Predicate,
    from: Cursor<'a>,
) -> Read<'a, Predicate>
    ensures read { Reads predicate_tree result
        (repetition (predicates.or_turn (predicates.conjunction levels)) (predicate_tree first) (rest_of from.entry)) }
{
    let mut left = first;
    let mut from = from;
    'parts: loop {
        match further_conjunction(alloc, levels, left, from) {
            Ok(Turned::Done(whole, rest)) => return Ok((whole, rest)),
            Ok(Turned::Again(whole, rest)) => {
                left = whole;
                from = rest;
            }
            Err(refusal) => return Err(refusal),
        }
    }
}

#[cycle(predicates)]
#[tactic(auto, unfolding(crate::specs::PredicateReading::or_turn))]
fn further_conjunction<'a>(
    alloc: Global,
    levels: u32,
    left: Predicate,
    from: Cursor<'a>,
) -> Turn<'a, Predicate>
    ensures turn { Turns predicate_tree result
        (predicates.or_turn (predicates.conjunction levels) (predicate_tree left) (rest_of from.entry)) }
{
    let sign = from.skip();
    if sign.head() != b'|' {
        return Ok(Turned::Done(left, from));
    }
    let second = sign.behind();
    if second.head() != b'|' {
        return Err(second.unexpected(What::Or));
    }
    let (right, rest) = conjunction(alloc, levels, second.behind())?;
    Ok(Turned::Again(either(alloc, left, right)?, rest))
}

// A condition, the opposite of one, or a predicate in parentheses.
#[cycle(predicates)]
#[tactic(auto, unfolding(crate::specs::PredicateReading::negation_with))]
fn negation<'a>(alloc: Global, levels: u32, from: Cursor<'a>) -> Read<'a, Predicate>
    ensures read { Reads predicate_tree result (predicates.negation levels (rest_of from.entry)) }
{
    let here = from.skip();
    let byte = here.head();
    if byte == b'!' {
        opposite(alloc, levels, here)
    } else if byte == b'(' {
        group(alloc, levels, here)
    } else if is_letter(byte) {
        condition(alloc, here)
    } else {
        Err(here.unexpected(What::Name))
    }
}

// The opposite of what stands behind the sign here.
#[cycle(predicates)]
#[tactic(auto, using(crate::proofs::PredicateSound::opposite_deeper, crate::proofs::PredicateSound::too_deep))]
fn opposite<'a>(alloc: Global, levels: u32, here: Cursor<'a>) -> Read<'a, Predicate>
    ensures read { Reads predicate_tree result
        (predicates.deeper levels predicates.Opposite (rest_of here.entry) (behind (rest_of here.entry))) }
{
    if levels == 0 {
        return Err(here.fault(ParseKind::TooDeep));
    }
    let (inner, from) = negation(alloc, levels - 1, here.behind())?;
    Ok((not(alloc, inner)?, from))
}

// A predicate in parentheses, whose first stands here.
#[cycle(predicates)]
#[tactic(auto, using(crate::proofs::PredicateSound::group_deeper, crate::proofs::PredicateSound::too_deep))]
fn group<'a>(alloc: Global, levels: u32, here: Cursor<'a>) -> Read<'a, Predicate>
    ensures read { Reads predicate_tree result
        (predicates.deeper levels predicates.Group (rest_of here.entry) (behind (rest_of here.entry))) }
{
    if levels == 0 {
        return Err(here.fault(ParseKind::TooDeep));
    }
    let (inner, from) = disjunction(alloc, levels - 1, here.behind())?;
    let from = from.sign(b')', What::CloseParenthesis)?;
    Ok((inner, from))
}

fn not(alloc: Global, inner: Predicate) -> Result<Predicate, AllocError>
    ensures tree { IfOk result (λ x. predicate_tree x ≡ PredicateTree.Not (predicate_tree inner)) }
{
    Ok(Predicate::Not(Box::new(alloc, inner)?))
}

fn both(alloc: Global, left: Predicate, right: Predicate) -> Result<Predicate, AllocError>
    ensures tree { IfOk result
        (λ x. predicate_tree x ≡ PredicateTree.And (predicate_tree left) (predicate_tree right)) }
{
    let left = Box::new(alloc, left)?;
    let right = Box::new(alloc, right)?;
    Ok(Predicate::And(left, right))
}

/// The one predicate or the other.
pub fn either(alloc: Global, left: Predicate, right: Predicate) -> Result<Predicate, AllocError>
    ensures tree { IfOk result (λ x. predicate_tree x ≡ PredicateTree.Or (predicate_tree left) (predicate_tree right)) }
{
    let left = Box::new(alloc, left)?;
    let right = Box::new(alloc, right)?;
    Ok(Predicate::Or(left, right))
}
