// Pipes and their sources.
ghost use Rattle.std.specs.Prelude.{◌≡◌};
ghost use Rattle.mql_ast.specs.Tokens.{behind};
ghost use Rattle.mql_ast.specs.Trees.{Branches, branches, deed_tree, pipe_tree, source_tree};
ghost use Rattle.mql_parse.specs.Outcomes.{rest_of, Reads, itself};
ghost use Rattle.mql_parse.specs.Repeats.{repetition};
ghost use Rattle.mql_parse.specs.PipeReading as reading;
ghost use Rattle.mql_parse.specs.TurnViews.{Turns};
ghost use Rattle.mql_parse.specs.Views.{op_trees, ops_seen, vec_trees};

use crate::cursor::{Cursor, Read};
use crate::faults::{ParseKind, What};
use crate::operations::operation;
use crate::turns::{Turn, Turned};
use crate::words::{metric, name};
use mql_ast::{How, Op, OpKind, Ops, Pipe, Source};
use std::alloc::Global;

/// A pipe, with so many levels left for braces, parentheses and `!`.
#[cycle(pipes)]
#[tactic(auto, unfolding(crate::specs::PipeReading::pipe_with))]
pub fn pipe<'a>(alloc: Global, levels: u32, from: Cursor<'a>) -> Read<'a, Pipe>
    ensures read { Reads pipe_tree result (reading.pipe levels (rest_of from.entry)) }
{
    let (source, from) = source(alloc, levels, from)?;
    let (ops, from) = operations(alloc, levels, from)?;
    Ok((Pipe { source, ops }, from))
}

#[cycle(pipes)]
#[tactic(auto, unfolding(crate::specs::PipeReading::source_with))]
fn source<'a>(alloc: Global, levels: u32, from: Cursor<'a>) -> Read<'a, Source>
    ensures read { Reads source_tree result (reading.source levels (rest_of from.entry)) }
{
    let here = from.skip();
    let byte = here.head();
    if byte == b'f' {
        fetch(alloc, here)
    } else if byte == b'{' {
        group(alloc, levels, here)
    } else {
        Err(here.unexpected(What::Fetch))
    }
}

#[tactic(auto, unfolding(crate::specs::PipeReading::fetch))]
fn fetch<'a>(alloc: Global, here: Cursor<'a>) -> Read<'a, Source>
    ensures read { Reads source_tree result (reading.fetch (rest_of here.entry)) }
{
    let at = here.at;
    let from = here.exact(b"fetch", What::Fetch)?;
    let from = from.apart(What::Name)?;
    let (schema, from) = name(alloc, from)?;
    let from = from.skip().exact(b"::", What::Colons)?;
    let (metric, from) = metric(alloc, from)?;
    Ok((Source::Fetch { at, schema, metric }, from))
}

// Branches, whose brace stands here.
#[cycle(pipes)]
#[tactic(auto, using(crate::proofs::PipeSound::group_deeper, crate::proofs::PipeSound::group_too_deep))]
fn group<'a>(alloc: Global, levels: u32, here: Cursor<'a>) -> Read<'a, Source>
    ensures read { Reads source_tree result
        (reading.pipe_group levels (rest_of here.entry) (behind (rest_of here.entry))) }
{
    if levels == 0 {
        return Err(here.fault(ParseKind::TooDeep));
    }
    branches(alloc, levels - 1, here.at, here.behind())
}

// Branches from behind their brace.
#[cycle(pipes)]
#[tactic(auto, unfolding(crate::specs::PipeReading::branches_with))]
fn branches<'a>(alloc: Global, levels: u32, at: u32, from: Cursor<'a>) -> Read<'a, Source>
    ensures read { Reads source_tree result (reading.branches_with (reading.pipe levels) at (rest_of from.entry)) }
{
    let (first, from) = pipe(alloc, levels, from)?;
    let from = from.sign(b';', behind_branch(&first))?;
    let mut pipes = Vec::new(alloc);
    pipes.push(first)?;
    let (pipes, from) = further_branches(alloc, levels, pipes, from)?;
    joined(at, pipes, from)
}

#[cycle(pipes)]
fn further_branches<'a>(
    alloc: Global,
    levels: u32,
    first: Vec<Pipe>,
    from: Cursor<'a>,
) -> Read<'a, Vec<Pipe>>
    ensures read { Reads vec_trees result
        (repetition (reading.branch_turn (reading.pipe levels)) (vec_trees first) (rest_of from.entry)) }
{
    let mut pipes = first;
    let mut from = from;
    'branches: loop {
        match further_branch(alloc, levels, pipes, from) {
            Ok(Turned::Done(whole, rest)) => return Ok((whole, rest)),
            Ok(Turned::Again(whole, rest)) => {
                pipes = whole;
                from = rest;
            }
            Err(refusal) => return Err(refusal),
        }
    }
}

// The branches with a further one, and what stands behind it.
#[cycle(pipes)]
#[tactic(auto, unfolding(crate::specs::PipeReading::branch_turn))]
fn further_branch<'a>(
    alloc: Global,
    levels: u32,
    pipes: Vec<Pipe>,
    from: Cursor<'a>,
) -> Turn<'a, Vec<Pipe>>
    ensures turn { Turns vec_trees result
        (reading.branch_turn (reading.pipe levels) (vec_trees pipes) (rest_of from.entry)) }
{
    let mut pipes = pipes;
    let (pipe, from) = pipe(alloc, levels, from)?;
    pipes.push(pipe)?;
    let end = from.skip();
    let byte = end.head();
    if byte == b';' {
        Ok(Turned::Again(pipes, end.behind()))
    } else if byte == b'}' {
        Ok(Turned::Done(pipes, end.behind()))
    } else {
        Err(end.unexpected(What::CloseBrace))
    }
}

// What becomes of branches that were read, behind their last brace.
#[tactic(auto, unfolding(crate::specs::PipeReading::branches_how))]
fn joined<'a>(at: u32, pipes: Vec<Pipe>, from: Cursor<'a>) -> Read<'a, Source>
    ensures read { Reads source_tree result (reading.branches_how at (vec_trees pipes) (rest_of from.entry)) }
{
    let from = from.sign(b'|', What::Bar)?;
    let start = from.skip();
    let (how, from) = how(start)?;
    Ok((branches_at(at, pipes, how, start.at), from))
}

fn branches_at(at: u32, pipes: Vec<Pipe>, how: How, how_at: u32) -> Source
    ensures { source_tree result ≡ Branches at (branches (vec_trees pipes)) how how_at }
{
    Source::Branches {
        at,
        pipes,
        how,
        how_at,
    }
}

fn how<'a>(here: Cursor<'a>) -> Read<'a, How>
    ensures read { Reads itself result (reading.how_here (rest_of here.entry)) }
{
    let byte = here.head();
    if byte == b'j' {
        let from = here.exact(b"join", What::How)?;
        Ok((How::Join, from))
    } else if byte == b'u' {
        let from = here.exact(b"union", What::How)?;
        Ok((How::Union, from))
    } else {
        Err(here.unexpected(What::How))
    }
}

/// Operations that were read, and whether the bar behind them was read too.
#[derive(Drop)]
pub struct OpsRead {
    pub ops: Ops,
    pub bar: bool,
}

// Operations, each behind a bar.
#[tactic(auto, unfolding(crate::specs::PipeReading::operations))]
fn operations<'a>(alloc: Global, levels: u32, from: Cursor<'a>) -> Read<'a, Ops>
    ensures read { Reads op_trees result (reading.operations levels (rest_of from.entry)) }
{
    let none = OpsRead {
        ops: Ops::new(alloc),
        bar: false,
    };
    let (read, from) = further_operations(alloc, levels, none, from)?;
    Ok((read.ops, from))
}

fn further_operations<'a>(
    alloc: Global,
    levels: u32,
    first: OpsRead,
    from: Cursor<'a>,
) -> Read<'a, OpsRead>
    ensures read { Reads ops_seen result
        (repetition (reading.operation_turn levels) (ops_seen first) (rest_of from.entry)) }
{
    let mut read = first;
    let mut from = from;
    'operations: loop {
        match further_operation(alloc, levels, read, from) {
            Ok(Turned::Done(whole, rest)) => return Ok((whole, rest)),
            Ok(Turned::Again(whole, rest)) => {
                read = whole;
                from = rest;
            }
            Err(refusal) => return Err(refusal),
        }
    }
}

// The operations with a further one, where its bar was read or stands here.
#[tactic(auto, unfolding(crate::specs::PipeReading::operation_turn))]
fn further_operation<'a>(
    alloc: Global,
    levels: u32,
    read: OpsRead,
    from: Cursor<'a>,
) -> Turn<'a, OpsRead>
    ensures turn { Turns ops_seen result (reading.operation_turn levels (ops_seen read) (rest_of from.entry)) }
{
    if read.bar {
        return operation_from(alloc, levels, read.ops, from);
    }
    let bar = from.skip();
    if bar.head() == b'|' {
        operation_from(alloc, levels, read.ops, bar.behind())
    } else {
        Ok(Turned::Done(read, from))
    }
}

fn operation_from<'a>(alloc: Global, levels: u32, ops: Ops, from: Cursor<'a>) -> Turn<'a, OpsRead>
    ensures turn { Turns ops_seen result (reading.operation_from levels (op_trees ops) (rest_of from.entry)) }
{
    let mut ops = ops;
    let (read, from) = operation(alloc, levels, from)?;
    ops.push(read.op)?;
    let bar = read.bar;
    Ok(Turned::Again(OpsRead { ops, bar }, from))
}

// What may come behind the first of several branches, where it is not another operation.
fn behind_branch(pipe: &Pipe) -> What
    ensures { result ≡ reading.behind_branch (pipe_tree pipe.now) }
{
    if groups_last(pipe.ops.as_slice()) {
        What::Comma
    } else {
        What::Semicolon
    }
}

/// What may come behind a whole query.
pub fn behind_query(pipe: &Pipe) -> What
    ensures { result ≡ reading.behind_query (pipe_tree pipe.now) }
{
    if groups_last(pipe.ops.as_slice()) {
        What::Comma
    } else {
        What::Bar
    }
}

// Whether the last operation is one that a further aggregate may go on.
fn groups_last(ops: &[Op]) -> bool
    ensures { result ≡ reading.groups_last (op_trees ops.now) }
{
    let mut groups = false;
    for op in ops {
        groups = is_group_by(&op.what);
    }
    groups
}

fn is_group_by(what: &OpKind) -> bool
    ensures { result ≡ reading.is_group_by (deed_tree what.now) }
{
    match what {
        OpKind::GroupBy(_, _) => true,
        OpKind::Filter(_)
        | OpKind::Align(_)
        | OpKind::Value(_)
        | OpKind::Top(_, _)
        | OpKind::Every(_)
        | OpKind::Within(_) => false,
    }
}
