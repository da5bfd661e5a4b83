// Operations.
ghost use Rattle.std.specs.Prelude.{◌≡◌, codes};
ghost use Rattle.mql_ast.specs.Trees as DeedTree;
ghost use Rattle.mql_ast.specs.Trees.{deed_tree};
ghost use Rattle.mql_parse.specs.Outcomes.{rest_of, Reads, Leaves, itself};
ghost use Rattle.mql_parse.specs.PipeReading as pipes;
ghost use Rattle.mql_parse.specs.Views.{op_seen};

use crate::aggregates::{aggregates, names};
use crate::cursor::{Cursor, Read};
use crate::faults::{ParseFault, What};
use crate::filters::predicate;
use crate::items::items;
use crate::numbers::{duration, positive};
use crate::words::name;
use mon_value::{Aligner, Refusal};
use mql_ast::{Op, OpKind};
use std::alloc::Global;

/// The greatest number of `top`.
const MOST_ROWS: u64 = 16_777_216;

/// An operation, and whether the bar behind it was read too.
#[derive(Drop)]
pub struct OpRead {
    pub op: Op,
    pub bar: bool,
}

/// An operation, from behind its bar.
#[tactic(auto, unfolding(crate::specs::PipeReading::operation))]
pub fn operation<'a>(alloc: Global, levels: u32, from: Cursor<'a>) -> Read<'a, OpRead>
    ensures read { Reads op_seen result (pipes.operation levels (rest_of from.entry)) }
{
    let here = from.skip();
    if here.head() == b'f' {
        filter(alloc, levels, here)
    } else {
        let (what, from) = deed(alloc, levels, here)?;
        Ok((read(here.at, what, false), from))
    }
}

fn read(at: u32, what: OpKind, bar: bool) -> OpRead
    ensures { op_seen result ≡ (pipes.op_at at (deed_tree what), bar) }
{
    OpRead {
        op: Op { at, what },
        bar,
    }
}

fn filter<'a>(alloc: Global, levels: u32, here: Cursor<'a>) -> Read<'a, OpRead>
    ensures read { Reads op_seen result (pipes.filter_here levels (rest_of here.entry)) }
{
    let from = word_apart(b"filter", What::Name, here)?;
    let (filter, from) = predicate(alloc, levels, from)?;
    Ok((
        read(here.at, OpKind::Filter(filter.predicate), filter.bar),
        from,
    ))
}

// What is left behind a keyword behind which a name or a number comes, which needs a blank.
fn word_apart<'a>(
    word: &[u8],
    next: What,
    here: Cursor<'a>,
) -> Result<Cursor<'a>, Refusal<ParseFault>>
    ensures rest { Leaves result (pipes.word_apart word.now next (rest_of here.entry)) }
{
    let from = here.exact(word, What::Operation)?;
    from.apart(next)
}

// An operation other than a filter, from its first byte on.
#[tactic(auto, unfolding(crate::specs::PipeReading::deed_here))]
fn deed<'a>(alloc: Global, levels: u32, here: Cursor<'a>) -> Read<'a, OpKind>
    ensures read { Reads deed_tree result (pipes.deed_here levels (rest_of here.entry)) }
{
    let byte = here.head();
    if byte == b'a' {
        align(here)
    } else if byte == b'g' {
        group_by(alloc, here)
    } else if byte == b'v' {
        value(alloc, levels, here)
    } else if byte == b't' {
        top(alloc, here)
    } else if byte == b'e' {
        every(here)
    } else if byte == b'w' {
        within(here)
    } else {
        Err(here.unexpected(What::Operation))
    }
}

#[tactic(auto, unfolding(crate::specs::PipeReading::duration_deed))]
fn every<'a>(here: Cursor<'a>) -> Read<'a, OpKind>
    ensures read { Reads deed_tree result (pipes.duration_deed DeedTree.Every (codes "every") (rest_of here.entry)) }
{
    let from = word_apart(b"every", What::Number, here)?;
    let (seconds, from) = duration(from)?;
    Ok((OpKind::Every(seconds), from))
}

#[tactic(auto, unfolding(crate::specs::PipeReading::duration_deed))]
fn within<'a>(here: Cursor<'a>) -> Read<'a, OpKind>
    ensures read { Reads deed_tree result (pipes.duration_deed DeedTree.Within (codes "within") (rest_of here.entry)) }
{
    let from = word_apart(b"within", What::Number, here)?;
    let (seconds, from) = duration(from)?;
    Ok((OpKind::Within(seconds), from))
}

#[tactic(auto, unfolding(crate::specs::PipeReading::align))]
fn align<'a>(here: Cursor<'a>) -> Read<'a, OpKind>
    ensures read { Reads deed_tree result (pipes.align (rest_of here.entry)) }
{
    let from = word_apart(b"align", What::Aligner, here)?;
    aligner(from.skip())
}

fn aligner<'a>(here: Cursor<'a>) -> Read<'a, OpKind>
    ensures read { Reads deed_tree result (pipes.aligner_here (rest_of here.entry)) }
{
    let byte = here.head();
    if byte == b'd' {
        let (seconds, from) = aligned(b"delta", here)?;
        Ok((OpKind::Align(Aligner::Delta(seconds)), from))
    } else if byte == b'n' {
        let (seconds, from) = aligned(b"next_older", here)?;
        Ok((OpKind::Align(Aligner::NextOlder(seconds)), from))
    } else {
        Err(here.unexpected(What::Aligner))
    }
}

// The duration of an aligner of this word, which stands here.
fn aligned<'a>(word: &[u8], here: Cursor<'a>) -> Read<'a, i64>
    ensures read { Reads itself result (pipes.aligned_for word.now (rest_of here.entry)) }
{
    let from = here.exact(word, What::Aligner)?;
    let from = from.sign(b'(', What::OpenParenthesis)?;
    let (seconds, from) = duration(from)?;
    let from = from.sign(b')', What::CloseParenthesis)?;
    Ok((seconds, from))
}

#[tactic(auto, unfolding(crate::specs::PipeReading::group_by))]
fn group_by<'a>(alloc: Global, here: Cursor<'a>) -> Read<'a, OpKind>
    ensures read { Reads deed_tree result (pipes.group_by (rest_of here.entry)) }
{
    let from = here.exact(b"group_by", What::Operation)?;
    let from = from.sign(b'[', What::OpenBracket)?;
    let (names, from) = names(alloc, from)?;
    let from = from.sign(b',', What::Comma)?;
    let (aggregates, from) = aggregates(alloc, from)?;
    Ok((OpKind::GroupBy(names, aggregates), from))
}

#[tactic(auto, unfolding(crate::specs::PipeReading::value))]
fn value<'a>(alloc: Global, levels: u32, here: Cursor<'a>) -> Read<'a, OpKind>
    ensures read { Reads deed_tree result (pipes.value levels (rest_of here.entry)) }
{
    let from = here.exact(b"value", What::Operation)?;
    let from = from.sign(b'[', What::OpenBracket)?;
    let (items, from) = items(alloc, levels, from)?;
    Ok((OpKind::Value(items), from))
}

#[tactic(auto, unfolding(crate::specs::PipeReading::top))]
fn top<'a>(alloc: Global, here: Cursor<'a>) -> Read<'a, OpKind>
    ensures read { Reads deed_tree result (pipes.top (rest_of here.entry)) }
{
    let from = word_apart(b"top", What::Number, here)?;
    let (n, from) = positive(from, MOST_ROWS)?;
    let from = from.sign(b',', What::Comma)?;
    let (column, from) = name(alloc, from)?;
    Ok((OpKind::Top(n as u32, column), from))
}
