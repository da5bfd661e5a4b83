// How many points lines accepted and refused.
ghost use Rattle.std.specs.Prelude.{◌≡◌, ◌<◌, ◌++◌, ◌^◌, length};
ghost use Rattle.run_traces.specs.RanLines.{trace_rows};
ghost use Rattle.trials.specs.Summaries as spec;

use run_traces::{LineTrace, Poured};

/// How many points the lines accepted.
pub(crate) fn accepted_in(traces: &[LineTrace]) -> u128
    ensures accepted { result ≡ spec.accepted_in traces.now }
    ensures few { result < 2 ^ 127 }
{
    let mut accepted = 0;
    for trace in traces {
        accepted += accepted_by(trace) as u128;
    }
    accepted
}

/// How many points they refused.
pub(crate) fn refused_in(traces: &[LineTrace]) -> u128
    ensures refused { result ≡ spec.refused_in traces.now }
    ensures few { result < 2 ^ 127 }
{
    let mut refused = 0;
    for trace in traces {
        refused += refused_by(trace) as u128;
    }
    refused
}

// How many points a line accepted.
fn accepted_by(trace: &LineTrace) -> usize
    ensures accepted { result ≡ length (trace_rows trace.now) }
{
    match trace {
        LineTrace::Fed { accepted, .. } => accepted.len(),
        LineTrace::Poured { ends, .. } => ends.accepted.len(),
        LineTrace::Asked { .. } => 0,
        LineTrace::Followed { .. } => 0,
        LineTrace::Ticked(_) => 0,
        LineTrace::Controlled(_) => 0,
        LineTrace::Refused(_) => 0,
        LineTrace::Done => 0,
    }
}

// How many it refused.
fn refused_by(trace: &LineTrace) -> usize
    ensures refused { result ≡ length (spec.refusals_in trace.now) }
{
    match trace {
        LineTrace::Fed { refused, .. } => refused.len(),
        LineTrace::Poured { ends, .. } => refused_by_two(ends),
        LineTrace::Asked { .. } => 0,
        LineTrace::Followed { .. } => 0,
        LineTrace::Ticked(_) => 0,
        LineTrace::Controlled(_) => 0,
        LineTrace::Refused(_) => 0,
        LineTrace::Done => 0,
    }
}

// How many of two files.
fn refused_by_two(ends: &Poured) -> usize
    ensures refused { result ≡ length (ends.now.first.refused ++ ends.now.second.refused) }
{
    ends.first.refused.as_slice().len() + ends.second.refused.as_slice().len()
}
