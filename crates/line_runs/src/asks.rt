// Asking a query.
ghost use Rattle.std.specs.Prelude.{◌≡◌, ◌≤ℤ◌, pos, ℕ, List, [], IfOk};
ghost use Rattle.history_book.specs.Histories.{AreFronts};
ghost use Rattle.line_runs.specs.LineWrites.{LineWrote, ran_line};
ghost use Rattle.line_runs.specs.Questions.{IsAnswerTo, IsPrinted, asked_line, question};
ghost use Rattle.mon_store.specs.Gathers.{HasSeenTrace};
ghost use Rattle.mon_store.specs.Passes.{OwnsTheSame};
ghost use Rattle.mon_topo.specs.HeldHistories.{AreHeld};
ghost use Rattle.run_traces.specs.declared.line_files.LineFiles.{LineFiles};
ghost use Rattle.run_traces.specs.LineTexts.{line_text};
ghost use Rattle.run_traces.specs.declared.traces.LineTrace.TheVariants as came;

use crate::checks::checked_text;
use crate::explanations::explained_text;
use crate::lines::LineRan;
use crate::refusals::refused;
use know::Names;
use mon_script::{How, LineForm, Question};
use mon_store::{Pass, Store};
use mon_table::{equal_bags_print_alike, print};
use mon_value::{OutOfMemory, Text};
use query_traces::{Answer, traces_stay};
use run_traces::LineTrace;
use std::alloc::Global;
use std::sync::Wait;

/// Asks a question.
pub(crate) fn ask_question<N: Names, R: Wait>(
    rt: &R,
    alloc: Global,
    store: &Store<N>,
    p: &mut Pass<N>,
    asked: &Question,
) -> Result<LineRan, OutOfMemory>
    requires moment { pos 0 ≤ℤ asked.now.moment }
    ensures wrote { IfOk result (λ ran. (content : LineFiles) → LineWrote store.now
        (ran_line (LineForm.Ask asked.now) content ran.trace []) ran.text p.old p.new) }
    ensures fronts { AreFronts p.old.seen p.new.seen }
{
    ask(rt, alloc, store, p, asked.how, asked.moment, &asked.text)
}

/// Asks a text at a moment.
pub(crate) fn ask<N: Names, R: Wait>(
    rt: &R,
    alloc: Global,
    store: &Store<N>,
    p: &mut Pass<N>,
    what: How,
    moment: i64,
    text: &Text,
) -> Result<LineRan, OutOfMemory>
    requires moment { pos 0 ≤ℤ moment }
    ensures wrote { IfOk result (λ ran. (content : LineFiles) → LineWrote store.now
        (ran_line (question what moment text.now) content ran.trace []) ran.text p.old p.new) }
    ensures fronts { AreFronts p.old.seen p.new.seen }
{
    traces_stay();
    store.is_set_up();
    p.is_sound();
    match store.query(rt, alloc, p, text.as_bytes(), moment, store.config().limit) {
        Ok(answer) => answered(rt, alloc, store, p, what, moment, text, answer),
        Err(fault) => refused(alloc, &store.config().topology, fault),
    }
}

// Prints an answer.
fn answered<N: Names, R: Wait>(
    rt: &R,
    alloc: Global,
    store: &Store<N>,
    p: &mut Pass<N>,
    what: How,
    moment: i64,
    text: &Text,
    answer: Answer,
) -> Result<LineRan, OutOfMemory>
    requires moment { pos 0 ≤ℤ moment }
    requires answer { IsAnswerTo store.now text.now moment p.old answer }
    requires seen { HasSeenTrace store.now.topology p.old answer.trace }
    ensures printed { IfOk result (IsPrinted store.now what moment text.now p.old answer.trace) }
    ensures held { IfOk result (λ ran. AreHeld N.setting.held N.setting.zones N.setting.points p.new.seen) }
    ensures same { OwnsTheSame p.old p.new }
{
    match answer_text(rt, alloc, store, p, what, moment, text, &answer) {
        Ok(text) => {
            p.is_sound();
            Ok(ran_question(moment, answer, text))
        }
        Err(fault) => {
            drop(answer);
            Err(fault)
        }
    }
}

// A question that ran, with what it prints.
fn ran_question(moment: i64, answer: Answer, text: Text) -> LineRan
    ensures trace { result.trace ≡ came.Asked moment answer.trace }
    ensures text { result.text ≡ text }
{
    LineRan {
        trace: LineTrace::Asked {
            moment,
            trace: answer.trace,
        },
        text,
    }
}

// What is printed of an answer.
fn answer_text<N: Names, R: Wait>(
    rt: &R,
    alloc: Global,
    store: &Store<N>,
    p: &mut Pass<N>,
    what: How,
    moment: i64,
    text: &Text,
    answer: &Answer,
) -> Result<Text, OutOfMemory>
    requires moment { pos 0 ≤ℤ moment }
    requires answer { IsAnswerTo store.now text.now moment p.old answer.now }
    requires seen { HasSeenTrace store.now.topology p.old answer.now.trace }
    ensures text { IfOk result (λ printed. printed
        ≡ line_text store.now p.old.seen (asked_line what moment text.now (came.Asked moment answer.now.trace))) }
    ensures same { OwnsTheSame p.old p.new }
{
    equal_bags_print_alike();
    store.is_set_up();
    p.is_sound();
    match what {
        How::Query => print(alloc, &answer.table),
        How::Check => checked_text(rt, alloc, store, p, moment, text, &answer.trace),
        How::Explain => explained_text(alloc, &store.config().topology, answer),
    }
}
