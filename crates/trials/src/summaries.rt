// The summary of a trial.
ghost use Rattle.std.specs.Prelude.{◌≡◌, ◌<◌, ◌≤◌, ◌+◌, ◌-◌, ◌++◌, ◌^◌, drop, IfOk, OnOk, string_bytes};
ghost use Rattle.mon_script.specs.Lines.{lines_of};
ghost use Rattle.trials.specs.Reading.{place_of};
ghost use Rattle.trials.specs.Summaries as spec;

use crate::counts::{accepted_in, refused_in};
use crate::tables::{Table, lines_behind, table_at};
use mon_script::next_line;
use mon_value::{ListOf, OutOfMemory};
use run_traces::{LineTrace, RowRefusals};
use std::alloc::Global;

/// How far a summary has come: the number of the next query, and what is left of the printed text.
#[derive(Clone, Copy)]
pub(crate) struct At<'a> {
    pub number: u64,
    pub left: &'a [u8],
}

/// The summary of a run, by what its lines came to and by what they printed: how many points there were, how many were
/// accepted and refused, and what each query came to.
pub fn summary(
    alloc: Global,
    traces: &[LineTrace],
    printed: &[u8],
) -> Result<ListOf<u8>, OutOfMemory>
    ensures summary { IfOk result (λ text. text ≡ spec.summary_text traces.now printed.now) }
{
    let mut text = Vec::new(alloc);
    push_points(alloc, &mut text, accepted_in(traces), refused_in(traces))?;
    push_queries(alloc, &mut text, traces, printed)?;
    Ok(ListOf::from_vec(text))
}

// Adds how many points there were, and how many were accepted and refused.
fn push_points(
    alloc: Global,
    text: &mut Vec<u8>,
    accepted: u128,
    refused: u128,
) -> Result<(), OutOfMemory>
    requires few { accepted + refused < 2 ^ 128 }
    ensures points { OnOk result (text.new.items ≡ text.old.items ++ spec.points_text accepted refused) }
{
    push_count(alloc, text, "points ", accepted + refused)?;
    push_count(alloc, text, "accepted ", accepted)?;
    push_count(alloc, text, "refused ", refused)
}

// Adds the line of a count.
fn push_count(alloc: Global, text: &mut Vec<u8>, word: &str, count: u128) -> Result<(), OutOfMemory>
    ensures count { OnOk result (text.new.items ≡ text.old.items ++ spec.count_line word.now count) }
{
    let line = format!(in alloc; "{word}{count}\n")?;
    text.extend_from_slice(line.as_bytes())?;
    Ok(())
}

// Adds what each query came to.
fn push_queries(
    alloc: Global,
    text: &mut Vec<u8>,
    traces: &[LineTrace],
    printed: &[u8],
) -> Result<(), OutOfMemory>
    ensures queries { OnOk result (text.new.items
        ≡ text.old.items ++ spec.queries_text (spec.place 1 (lines_of printed.now)) traces.now) }
{
    let mut at = At {
        number: 1,
        left: printed,
    };
    for trace in traces {
        at = push_line(alloc, text, at, trace)?;
    }
    Ok(())
}

// Adds what is said of a line, and goes on behind what it printed.
fn push_line<'a>(
    alloc: Global,
    text: &mut Vec<u8>,
    at: At<'a>,
    trace: &LineTrace,
) -> Result<At<'a>, OutOfMemory>
    requires few { at.number < 2 ^ 64 - 1 }
    ensures text { OnOk result (text.new.items ≡ text.old.items ++ spec.line_text (place_of at.entry) trace.now) }
    ensures behind { IfOk result (λ next. place_of next ≡ spec.behind (place_of at.entry) trace.now) }
    ensures few { IfOk result (λ next. next.number ≤ at.entry.number + 1) }
{
    match trace {
        LineTrace::Fed { refused, .. } => Ok(At {
            number: at.number,
            left: behind_feed(refused, at.left),
        }),
        LineTrace::Poured { ends, .. } => Ok(At {
            number: at.number,
            left: behind_feed(
                &ends.second.refused,
                behind_feed(&ends.first.refused, at.left),
            ),
        }),
        LineTrace::Asked { .. } => push_table(alloc, text, at),
        LineTrace::Refused(_) => push_refusal(alloc, text, at),
        LineTrace::Followed { .. } => Ok(at),
        LineTrace::Ticked(_) => Ok(at),
        LineTrace::Controlled(_) => Ok(at),
        LineTrace::Done => Ok(at),
    }
}

// What stands behind the lines that a feed printed.
fn behind_feed<'a>(refused: &RowRefusals, left: &'a [u8]) -> &'a [u8]
    ensures behind { lines_of result.now ≡ spec.behind_feed refused.now (lines_of left.now) }
{
    lines_behind(lines_behind(left, 1), refused.len())
}

// Adds what is said of a query with a table.
fn push_table<'a>(alloc: Global, text: &mut Vec<u8>, at: At<'a>) -> Result<At<'a>, OutOfMemory>
    requires few { at.number < 2 ^ 64 - 1 }
    ensures text { OnOk result (text.new.items ≡ text.old.items ++ spec.query_line at.entry.number
        (spec.table_text (spec.table_behind (lines_of at.entry.left.now)))) }
    ensures behind { IfOk result (λ next. place_of next
        ≡ spec.place (at.entry.number + 1) (spec.table_behind (lines_of at.entry.left.now)).rest) }
{
    let table = table_at(at.left);
    let sum = sum_text(alloc, table.sum)?;
    push_query(alloc, text, at.number, table.count, sum.as_bytes())?;
    Ok(At {
        number: at.number + 1,
        left: table.rest,
    })
}

// Adds why a query was refused, as it was printed.
fn push_refusal<'a>(alloc: Global, text: &mut Vec<u8>, at: At<'a>) -> Result<At<'a>, OutOfMemory>
    requires few { at.number < 2 ^ 64 - 1 }
    ensures text { OnOk result (text.new.items
        ≡ text.old.items ++ spec.query_line at.entry.number (spec.first_line (lines_of at.entry.left.now))) }
    ensures behind { IfOk result (λ next. place_of next ≡ spec.place (at.entry.number + 1) (drop 1 (lines_of at.entry.left.now))) }
{
    let (line, left) = first_line(at.left);
    push_query(alloc, text, at.number, line, &[])?;
    Ok(At {
        number: at.number + 1,
        left,
    })
}

// The first line of a text, and what stands behind it.
fn first_line(text: &[u8]) -> (&[u8], &[u8])
    ensures line { result.0.now ≡ spec.first_line (lines_of text.now) }
    ensures left { lines_of result.1.now ≡ drop 1 (lines_of text.now) }
{
    match next_line(text) {
        Some(cut) => cut,
        None => (text, text),
    }
}

// The sum of a table's last column, if it has one.
fn sum_text(alloc: Global, sum: Option<i128>) -> Result<String, OutOfMemory>
    ensures text { IfOk result (λ text. string_bytes text ≡ spec.sum_text sum) }
{
    match sum {
        Some(sum) => format!(in alloc; ", sum {sum}"),
        None => String::from_str(alloc, ", no sum"),
    }
}

// Adds the line of a query.
fn push_query(
    alloc: Global,
    text: &mut Vec<u8>,
    number: u64,
    front: &[u8],
    back: &[u8],
) -> Result<(), OutOfMemory>
    ensures line { OnOk result
        (text.new.items ≡ text.old.items ++ spec.query_line number (front.now ++ back.now)) }
{
    let name = format!(in alloc; "query {number}: ")?;
    text.extend_from_slice(name.as_bytes())?;
    text.extend_from_slice(front)?;
    text.extend_from_slice(back)?;
    text.extend_from_slice(b"\n")?;
    Ok(())
}
