// The names and aggregates of `group_by`.
ghost use Rattle.std.specs.Prelude.{[]};
ghost use Rattle.mql_parse.specs.Outcomes.{rest_of, Reads, itself};
ghost use Rattle.mql_parse.specs.Repeats.{list_turn, repetition};
ghost use Rattle.mql_parse.specs.TokenReading as reading;
ghost use Rattle.mql_parse.specs.Folds as folds;
ghost use Rattle.mql_parse.specs.TurnViews.{Turns};

use crate::cursor::{Cursor, Read};
use crate::faults::What;
use crate::fold_words::{fold_named, fold_word};
use crate::turns::{Turn, Turned};
use crate::words::name;
use mql_ast::{Aggregate, Aggregates, FoldWord, Name, Names};
use std::alloc::Global;

/// Names between brackets, from behind the first.
#[tactic(auto, unfolding(crate::specs::Folds::names))]
pub fn names<'a>(alloc: Global, from: Cursor<'a>) -> Read<'a, Names>
    ensures read { Reads itself result (folds.names (rest_of from.entry)) }
{
    let end = from.skip();
    if end.head() == b']' {
        Ok((Names::new(alloc), end.behind()))
    } else {
        some_names(alloc, from)
    }
}

fn some_names<'a>(alloc: Global, from: Cursor<'a>) -> Read<'a, Names>
    ensures read { Reads itself result
        (repetition (list_turn 93 What.CloseBracket reading.name) [] (rest_of from.entry)) }
{
    let mut names = Names::new(alloc);
    let mut from = from;
    'names: loop {
        match further_name(alloc, names, from) {
            Ok(Turned::Done(whole, rest)) => return Ok((whole, rest)),
            Ok(Turned::Again(whole, rest)) => {
                names = whole;
                from = rest;
            }
            Err(refusal) => return Err(refusal),
        }
    }
}

// The names with a further one, and what stands behind it.
fn further_name<'a>(alloc: Global, names: Names, from: Cursor<'a>) -> Turn<'a, Names>
    ensures turn { Turns itself result (list_turn 93 What.CloseBracket reading.name names (rest_of from.entry)) }
{
    let mut names = names;
    let (name, from) = name(alloc, from)?;
    names.push(name)?;
    let end = from.skip();
    let byte = end.head();
    if byte == b',' {
        Ok(Turned::Again(names, end.behind()))
    } else if byte == b']' {
        Ok(Turned::Done(names, end.behind()))
    } else {
        Err(end.unexpected(What::CloseBracket))
    }
}

/// Aggregates with a comma between each two.
#[tactic(auto, unfolding(crate::specs::Folds::aggregates))]
pub fn aggregates<'a>(alloc: Global, from: Cursor<'a>) -> Read<'a, Aggregates>
    ensures read { Reads itself result (folds.aggregates (rest_of from.entry)) }
{
    let mut aggregates = Aggregates::new(alloc);
    let mut from = from;
    'aggregates: loop {
        match further_aggregate(alloc, aggregates, from) {
            Ok(Turned::Done(whole, rest)) => return Ok((whole, rest)),
            Ok(Turned::Again(whole, rest)) => {
                aggregates = whole;
                from = rest;
            }
            Err(refusal) => return Err(refusal),
        }
    }
}

// The aggregates with a further one, and whether a comma stands behind it.
#[tactic(auto, unfolding(crate::specs::Folds::aggregate_turn))]
fn further_aggregate<'a>(
    alloc: Global,
    aggregates: Aggregates,
    from: Cursor<'a>,
) -> Turn<'a, Aggregates>
    ensures turn { Turns itself result (folds.aggregate_turn aggregates (rest_of from.entry)) }
{
    let mut aggregates = aggregates;
    let (aggregate, from) = aggregate(alloc, from)?;
    aggregates.push(aggregate)?;
    let end = from.skip();
    if end.head() == b',' {
        Ok(Turned::Again(aggregates, end.behind()))
    } else {
        Ok(Turned::Done(aggregates, from))
    }
}

// A fold of a column, with a name or without.
#[tactic(auto, unfolding(crate::specs::Folds::aggregate))]
fn aggregate<'a>(alloc: Global, from: Cursor<'a>) -> Read<'a, Aggregate>
    ensures read { Reads itself result (folds.aggregate (rest_of from.entry)) }
{
    let (first, from) = name(alloc, from)?;
    let next = from.skip();
    if next.head() == b':' {
        labelled_fold(alloc, first, next.behind())
    } else {
        bare_fold(alloc, first.at, fold_named(first.text.as_bytes()), next)
    }
}

fn labelled_fold<'a>(alloc: Global, label: Name, from: Cursor<'a>) -> Read<'a, Aggregate>
    ensures read { Reads itself result (folds.labelled_fold label (rest_of from.entry)) }
{
    let here = from.skip();
    let (fold, from) = fold_word(here)?;
    let from = from.sign(b'(', What::OpenParenthesis)?;
    folded(alloc, here.at, Some(label), fold, from)
}

fn bare_fold<'a>(
    alloc: Global,
    at: u32,
    fold: Option<FoldWord>,
    here: Cursor<'a>,
) -> Read<'a, Aggregate>
    ensures read { Reads itself result (folds.bare_fold at fold (rest_of here.entry)) }
{
    let Some(fold) = fold else {
        return Err(here.unexpected(What::Colon));
    };
    if here.head() == b'(' {
        folded(alloc, at, None, fold, here.behind())
    } else {
        Err(here.unexpected(What::OpenParenthesis))
    }
}

// A fold from behind its parenthesis.
#[tactic(auto, unfolding(crate::specs::Folds::fold_call))]
fn folded<'a>(
    alloc: Global,
    at: u32,
    label: Option<Name>,
    fold: FoldWord,
    from: Cursor<'a>,
) -> Read<'a, Aggregate>
    ensures read { Reads itself result (folds.fold_call at label fold (rest_of from.entry)) }
{
    let (column, from) = folded_column(alloc, fold, from)?;
    let from = from.sign(b')', What::CloseParenthesis)?;
    let aggregate = Aggregate {
        at,
        name: label,
        fold,
        column,
    };
    Ok((aggregate, from))
}

// The column of a fold. A count has none.
fn folded_column<'a>(alloc: Global, fold: FoldWord, from: Cursor<'a>) -> Read<'a, Option<Name>>
    ensures read { Reads itself result (folds.fold_column fold (rest_of from.entry)) }
{
    match fold {
        FoldWord::Count => Ok((None, from)),
        FoldWord::Sum
        | FoldWord::Min
        | FoldWord::Max
        | FoldWord::Mean
        | FoldWord::Merge
        | FoldWord::Aggregate => some_column(alloc, from),
    }
}

fn some_column<'a>(alloc: Global, from: Cursor<'a>) -> Read<'a, Option<Name>>
    ensures read { Reads itself result (folds.some_column (rest_of from.entry)) }
{
    let (column, from) = name(alloc, from)?;
    Ok((Some(column), from))
}
