// What a query says of its times, and where `every` and `within` may stand.
ghost use Rattle.std.specs.Prelude.{◌≡◌, ◌||◌, nat_lt, map, false, if◌then◌else◌};
ghost use Rattle.mql_ast.specs.Trees.{op_tree, deed_tree, pipe_tree, source_tree, branches};
ghost use Rattle.typed_trees.specs.Faults.{first_with};
ghost use Rattle.typed_trees.specs.Times as spec;

use mql_ast::{Op, OpKind, Pipe, Source};
use typed_trees::{Faults, Times, TypeKind};

/// Hears what a pipe says of the times, and tells each `every` and `within` that is misplaced.
#[cycle(times)]
#[tactic(auto, using(crate::proofs::TimesLemmas::times_said))]
pub(crate) fn hear_pipe(pipe: &Pipe, branch: bool, times: &mut Times, found: &mut Faults)
    ensures times { times.new ≡ spec.said_of times.old (spec.pipe_ops (pipe_tree pipe.now)) }
    ensures faults { found.new.first
        ≡ first_with found.old.first (spec.pipe_order_faults branch (pipe_tree pipe.now)) }
{
    hear_source(&pipe.source, times, found);
    hear_ops(pipe.ops.as_slice(), times);
    tell_order(pipe.ops.as_slice(), branch, found);
}

#[cycle(times)]
fn hear_source(source: &Source, times: &mut Times, found: &mut Faults)
    ensures times { times.new ≡ spec.said_of times.old (spec.source_ops (source_tree source.now)) }
    ensures faults { found.new.first
        ≡ first_with found.old.first (spec.source_order_faults (source_tree source.now)) }
{
    match source {
        Source::Fetch { .. } => {}
        Source::Branches { pipes, .. } => hear_branches(pipes.as_slice(), times, found),
    }
}

#[cycle(times)]
#[tactic(auto, using(crate::proofs::TimesLemmas::times_said))]
fn hear_branches(pipes: &[Pipe], times: &mut Times, found: &mut Faults)
    ensures times { times.new ≡ spec.said_of times.old (spec.branch_ops (branches (map pipe_tree pipes.now))) }
    ensures faults { found.new.first
        ≡ first_with found.old.first (spec.branch_order_faults (branches (map pipe_tree pipes.now))) }
{
    for pipe in pipes {
        hear_pipe(pipe, true, times, found);
    }
}

fn hear_ops(ops: &[Op], times: &mut Times)
    ensures times { times.new ≡ spec.said_of times.old (map op_tree ops.now) }
{
    for op in ops {
        times.hear(op);
    }
}

// Tells each `every` and `within` of a pipe that doesn't stand behind all other operations, or stands twice, or stands
// in a branch.
fn tell_order(ops: &[Op], branch: bool, found: &mut Faults)
    ensures faults { found.new.first
        ≡ first_with found.old.first (spec.order_faults branch false false (map op_tree ops.now)) }
{
    let steps = steps_length(ops);
    let mut stood = Stood {
        every: false,
        within: false,
    };
    for (place, op) in ops.iter().enumerate() {
        stood.tell_op(is_misplaced(branch, place + 1, steps), op, found);
    }
}

// Whether an `every` or `within` in front of a place is one of a branch, or has operations behind it.
fn is_misplaced(branch: bool, place: usize, steps: usize) -> bool
    ensures misplaced { result ≡ (branch || nat_lt place steps) }
{
    branch || place < steps
}

// Whether an `every` stood before, and whether a `within` did.
#[derive(Clone, Copy)]
struct Stood {
    every: bool,
    within: bool,
}

impl Stood {
    // Tells an `every` or `within` that is misplaced or stood before.
    fn tell_op(&mut self, misplaced: bool, op: &Op, found: &mut Faults)
        ensures every { self.new.every ≡ (self.old.every || spec.is_every (deed_tree op.now.what)) }
        ensures within { self.new.within ≡ (self.old.within || spec.is_within_deed (deed_tree op.now.what)) }
        ensures faults { found.new.first ≡ first_with found.old.first
            (spec.order_fault (deed_tree op.now.what) misplaced self.old.every self.old.within op.now.at) }
    {
        match &op.what {
            OpKind::Every(_) => {
                found.tell_where(misplaced || self.every, op.at, TypeKind::BadOrder);
                self.every = true;
            }
            OpKind::Within(_) => {
                found.tell_where(misplaced || self.within, op.at, TypeKind::BadOrder);
                self.within = true;
            }
            OpKind::Filter(_)
            | OpKind::Align(_)
            | OpKind::GroupBy(..)
            | OpKind::Value(_)
            | OpKind::Top(..) => {}
        }
    }
}

// How many operations there are up to the last that is neither `every` nor `within`.
#[tactic(auto, using(crate::proofs::StepLemmas::steps))]
fn steps_length(ops: &[Op]) -> usize
    ensures length { result ≡ spec.steps_length (map op_tree ops.now) }
{
    let mut steps = 0;
    for (place, op) in ops.iter().enumerate() {
        steps = length_with(&op.what, place + 1, steps);
    }
    steps
}

// The length up to an operation that is neither `every` nor `within`, or else what it was before.
fn length_with(what: &OpKind, length: usize, before: usize) -> usize
    ensures length { result ≡ (if spec.is_step (deed_tree what.now) then length else before) }
{
    if is_step(what) { length } else { before }
}

// Whether an operation is neither `every` nor `within`.
fn is_step(what: &OpKind) -> bool
    ensures step { result ≡ spec.is_step (deed_tree what.now) }
{
    match what {
        OpKind::Every(_) | OpKind::Within(_) => false,
        _ => true,
    }
}
