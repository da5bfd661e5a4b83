// Standing queries that are due are asked.
ghost use Rattle.std.specs.Prelude.{◌≡◌, ◌≤ℤ◌, pos, ◌∷◌, ◌++◌, [], map, IfOk, OnOk, string_bytes};
ghost use Rattle.std.specs.List.{AllByRecursion};
ghost use Rattle.history_book.specs.Histories.{AreFronts};
ghost use Rattle.history_book.specs.Seats.{HasEveryNumber};
ghost use Rattle.line_runs.specs.LineWrites.{ran_line};
ghost use Rattle.part_runs.specs.PartsDone.{AloneDid, PartTells};
ghost use Rattle.part_runs.specs.Ticks.{DueAsked, DuesAsked, IsKept, TickRan};
ghost use Rattle.run_theory.specs.Parts.{Alone};
ghost use Rattle.run_traces.specs.LineDues.{end_trace};
ghost use Rattle.run_traces.specs.LineAsks.{query_form};
ghost use Rattle.run_traces.specs.LineForms.{IsAnswered};
ghost use Rattle.run_traces.specs.RanLines.{no_files};
ghost use Rattle.run_traces.specs.LineTexts as line;
ghost use Rattle.run_traces.specs.declared.traces.DueTrace.{DueTrace as Asked};
ghost use Rattle.run_traces.specs.declared.traces.LineTrace.TheVariants.{Ticked};
ghost use Rattle.standing.proofs.MomentLemmas.{HasMoment};

use know::Names;
use line_runs::{LineRan, due_heading, refuse_tick, run_query};
use mon_script::{LineForm, StandingLine};
use mon_store::{Pass, Store};
use mon_value::{ListOf, OutOfMemory, Refusal, Text};
use run_traces::{DueEnd, DueTrace, LineFiles, LineTrace, runs_go_on, texts_stay};
use standing::{Due, Dues, Standing};
use std::alloc::{AllocError, Global};
use std::sync::Wait;

/// Asks the standing queries that are due at a moment, in their order. Where memory runs out the moment may have been
/// taken.
pub(crate) fn tick<N: Names, R: Wait>(
    rt: &R,
    alloc: Global,
    store: &Store<N>,
    p: &mut Pass<N>,
    standing: &mut Standing,
    moment: i64,
    content: &LineFiles,
) -> Result<LineRan, OutOfMemory>
    requires moment { pos 0 ≤ℤ moment }
    requires every { HasEveryNumber p.old.purse }
    ensures ran { IfOk result (λ ran. AloneDid store.now (LineForm.Standing (StandingLine.Tick moment)) content.now ran
        p.old p.new standing.old standing.new) }
    ensures stock { OnOk result (p.new.purse.stock ≡ p.old.purse.stock) }
    ensures fronts { AreFronts p.old.seen p.new.seen }
{
    runs_go_on();
    texts_stay();
    p.is_sound();
    match standing.due(moment) {
        Ok(dues) => ask_dues(rt, alloc, store, p, dues),
        Err(Refusal::Fault(fault)) => refuse_tick(alloc, &store.config().topology, fault),
        Err(Refusal::OutOfMemory) => Err(AllocError),
    }
}

// Asks queries one after another.
fn ask_dues<N: Names, R: Wait>(
    rt: &R,
    alloc: Global,
    store: &Store<N>,
    p: &mut Pass<N>,
    dues: Dues,
) -> Result<LineRan, OutOfMemory>
    requires moments { AllByRecursion HasMoment dues }
    requires every { HasEveryNumber p.old.purse }
    ensures asked { IfOk result (λ ran. TickRan store.now dues ran p.old p.new) }
    ensures fronts { AreFronts p.old.seen p.new.seen }
{
    let mut traces = Vec::new(alloc);
    let mut text = String::new(alloc);
    match ask_all(rt, alloc, store, p, dues, &mut traces, &mut text) {
        Ok(()) => Ok(LineRan {
            trace: LineTrace::Ticked(ListOf::from_vec(traces)),
            text: Text::from_string(text)?,
        }),
        Err(failed) => Err(failed),
    }
}

// Asks queries behind those that were asked before.
fn ask_all<N: Names, R: Wait>(
    rt: &R,
    alloc: Global,
    store: &Store<N>,
    p: &mut Pass<N>,
    dues: Dues,
    traces: &mut Vec<DueTrace>,
    text: &mut String,
) -> Result<(), OutOfMemory>
    requires moments { AllByRecursion HasMoment dues }
    requires every { HasEveryNumber p.old.purse }
    requires none { traces.old.items ≡ [] }
    requires nothing { string_bytes text.old ≡ [] }
    ensures asked { OnOk result (DuesAsked store.now traces.new.items (string_bytes text.new) p.old p.new) }
    ensures all { OnOk result (map (λ (one : Asked). one.due) traces.new.items ≡ dues) }
    ensures fronts { AreFronts p.old.seen p.new.seen }
{
    for due in dues.into_vec() {
        ask_due(rt, alloc, store, p, due, traces, text)?;
    }
    Ok(())
}

// Asks a query that is due, and keeps what it came to and what it prints.
fn ask_due<N: Names, R: Wait>(
    rt: &R,
    alloc: Global,
    store: &Store<N>,
    p: &mut Pass<N>,
    due: Due,
    traces: &mut Vec<DueTrace>,
    text: &mut String,
) -> Result<(), OutOfMemory>
    requires moment { HasMoment due }
    requires every { HasEveryNumber p.old.purse }
    ensures asked { OnOk result (DueAsked store.now due traces.old.items traces.new.items (string_bytes text.old)
        (string_bytes text.new) p.old p.new) }
    ensures fronts { AreFronts p.old.seen p.new.seen }
{
    match query_due(rt, alloc, store, p, &due) {
        Ok(ran) => keep(alloc, due, ran, traces, text),
        Err(failed) => {
            drop(due);
            Err(failed)
        }
    }
}

// Asks the text of a query at its time.
fn query_due<N: Names, R: Wait>(
    rt: &R,
    alloc: Global,
    store: &Store<N>,
    p: &mut Pass<N>,
    due: &Due,
) -> Result<LineRan, OutOfMemory>
    requires moment { HasMoment due.now }
    requires every { HasEveryNumber p.old.purse }
    ensures tells { IfOk result (λ ran. PartTells store.now
        (Alone (ran_line (query_form due.now.at due.now.text) no_files ran.trace [])) (ran.text ∷ []) p.old p.new) }
    ensures answered { IfOk result (λ ran. IsAnswered due.now.at ran.trace) }
    ensures stock { OnOk result (p.new.purse.stock ≡ p.old.purse.stock) }
    ensures fronts { AreFronts p.old.seen p.new.seen }
{
    runs_go_on();
    texts_stay();
    p.is_sound();
    let ran = run_query(rt, alloc, store, p, due.at, &due.text);
    p.is_sound();
    ran
}

// Keeps what a query came to behind the others, and its text behind theirs.
fn keep(
    alloc: Global,
    due: Due,
    ran: LineRan,
    traces: &mut Vec<DueTrace>,
    text: &mut String,
) -> Result<(), OutOfMemory>
    requires answered { IsAnswered due.at ran.trace }
    ensures kept { OnOk result (IsKept due ran traces.old.items traces.new.items) }
    ensures text { OnOk result (string_bytes text.new
        ≡ string_bytes text.old ++ (line.due_heading due ++ ran.text)) }
{
    match push_text(alloc, &due, &ran.text, text) {
        Ok(()) => Ok(traces.push(due_trace(due, ran.trace))?),
        Err(failed) => {
            drop(due);
            drop(ran);
            Err(failed)
        }
    }
}

// Adds what a query prints.
fn push_text(alloc: Global, due: &Due, told: &Text, text: &mut String) -> Result<(), OutOfMemory>
    ensures text { OnOk result (string_bytes text.new
        ≡ string_bytes text.old ++ (line.due_heading due.now ++ told.now)) }
{
    let heading = due_heading(alloc, due)?;
    text.push_str(heading.as_str())?;
    text.push_str(told.as_str())
}

// What a query came to that was due.
fn due_trace(due: Due, trace: LineTrace) -> DueTrace
    requires answered { IsAnswered due.at trace }
    ensures due { result.due ≡ due }
    ensures end { end_trace due.at result.end ≡ trace }
{
    match trace {
        LineTrace::Asked { moment: _, trace } => DueTrace {
            due,
            end: DueEnd::Answered(trace),
        },
        LineTrace::Refused(fault) => DueTrace {
            due,
            end: DueEnd::Refused(fault),
        },
        LineTrace::Fed { .. } => unreachable!(),
        LineTrace::Poured { .. } => unreachable!(),
        LineTrace::Followed { .. } => unreachable!(),
        LineTrace::Ticked(_) => unreachable!(),
        LineTrace::Controlled(_) => unreachable!(),
        LineTrace::Done => unreachable!(),
    }
}
