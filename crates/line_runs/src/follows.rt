// Following a query from one moment to later ones.
ghost use Rattle.std.specs.Prelude.{◌≡◌, ◌≤ℤ◌, pos, [], Err, IfOk};
ghost use Rattle.history_book.specs.Histories.{AreFronts};
ghost use Rattle.line_runs.specs.Following as spec;
ghost use Rattle.line_runs.specs.Following.{IsFollowRan, IsFollowedBy};
ghost use Rattle.line_runs.specs.LineWrites.{LineWrote, ran_line};
ghost use Rattle.line_runs.specs.Questions.{CanBeChecked, IsAnswerTo};
ghost use Rattle.mon_config.specs.Configs.{IsLimited};
ghost use Rattle.mon_script.specs.Follows.{AreLawfulMoments, all_moments};
ghost use Rattle.mon_store.specs.Gathers.{HasSeenTrace};
ghost use Rattle.mon_store.specs.Passes.{OwnsTheSame};
ghost use Rattle.mon_topo.specs.HeldHistories.{AreHeld};
ghost use Rattle.query_traces.specs.Traces.{source_of};
ghost use Rattle.run_traces.specs.declared.line_files.LineFiles.{LineFiles};
ghost use Rattle.run_traces.specs.declared.traces.LineTrace.TheVariants as came;

use crate::followed_tables::{NotFollowed, tables_over};
use crate::lines::LineRan;
use crate::refusals::{refused, refused_for};
use know::Names;
use mon_config::Config;
use mon_script::{LineForm, Moments};
use mon_store::{Pass, Store};
use mon_value::{OutOfMemory, Refusal, RowList, Text};
use query_texts::plan_of;
use query_traces::{Answer, Trace, traces_stay};
use run_traces::{LineFault, LineTrace, QuestionFault};
use std::alloc::{AllocError, Global};
use std::sync::Wait;

/// Asks a text at the first of some moments, gathers the rows that its table stands on, and prints what it means over
/// them at each moment.
pub fn follow<N: Names, R: Wait>(
    rt: &R,
    alloc: Global,
    store: &Store<N>,
    p: &mut Pass<N>,
    moments: Moments,
    text: &Text,
) -> Result<LineRan, OutOfMemory>
    requires moments { AreLawfulMoments moments }
    ensures wrote { IfOk result (λ ran. (content : LineFiles) → LineWrote store.now
        (ran_line (LineForm.Follow moments text.now) content ran.trace []) ran.text p.old p.new) }
    ensures fronts { AreFronts p.old.seen p.new.seen }
{
    traces_stay();
    store.is_set_up();
    p.is_sound();
    match store.query(
        rt,
        alloc,
        p,
        text.as_bytes(),
        moments.first,
        store.config().limit,
    ) {
        Ok(answer) => answered(rt, alloc, store, p, moments, text, answer),
        Err(fault) => refused(alloc, &store.config().topology, fault),
    }
}

// Follows a query that has a table at the first moment.
fn answered<N: Names, R: Wait>(
    rt: &R,
    alloc: Global,
    store: &Store<N>,
    p: &mut Pass<N>,
    moments: Moments,
    text: &Text,
    answer: Answer,
) -> Result<LineRan, OutOfMemory>
    requires moments { AreLawfulMoments moments }
    requires answer { IsAnswerTo store.now text.now moments.first p.old answer }
    requires seen { HasSeenTrace store.now.topology p.old answer.trace }
    ensures ran { IfOk result (IsFollowRan store.now moments text.now p.old answer.trace) }
    ensures held { IfOk result (λ ran. AreHeld N.setting.held N.setting.zones N.setting.points p.new.seen) }
    ensures same { OwnsTheSame p.old p.new }
{
    store.is_set_up();
    p.is_sound();
    match gathered_tables(rt, alloc, store, p, moments, text, &answer.trace) {
        Ok(text) => {
            p.is_sound();
            Ok(ran_follow(moments.first, answer, text))
        }
        Err(Refusal::Fault(why)) => {
            p.is_sound();
            not_followed(alloc, store.config(), answer, why)
        }
        Err(Refusal::OutOfMemory) => {
            drop(answer);
            Err(AllocError)
        }
    }
}

// A query that was followed, with what it prints.
fn ran_follow(moment: i64, answer: Answer, text: Text) -> LineRan
    ensures ran { result ≡ spec.ran_follow moment answer.trace text }
{
    LineRan {
        trace: LineTrace::Followed {
            moment,
            trace: answer.trace,
        },
        text,
    }
}

// One that was not, though it has a table.
fn not_followed(
    alloc: Global,
    config: &Config,
    answer: Answer,
    why: NotFollowed,
) -> Result<LineRan, OutOfMemory>
    ensures ran { IfOk result (λ ran. ran ≡ spec.not_followed config.now answer.trace why) }
{
    let fault = follow_fault(config.limit, answer, why);
    refused_for(alloc, &config.topology, fault)
}

fn follow_fault(limit: u64, answer: Answer, why: NotFollowed) -> LineFault
    ensures fault { result ≡ spec.follow_fault limit answer.trace why }
{
    match why {
        NotFollowed::Form => {
            drop(answer);
            LineFault::NotIncremental
        }
        NotFollowed::Load => LineFault::Question(QuestionFault::StepLimit(limit, answer.trace)),
    }
}

// Gathers the rows of a trace, and prints what a text means over them at each moment.
fn gathered_tables<N: Names, R: Wait>(
    rt: &R,
    alloc: Global,
    store: &Store<N>,
    p: &mut Pass<N>,
    moments: Moments,
    text: &Text,
    trace: &Trace,
) -> Result<Text, Refusal<NotFollowed>>
    requires moments { AreLawfulMoments moments }
    requires seen { HasSeenTrace store.now.topology p.old trace.now }
    requires can { CanBeChecked store.now text.now moments.first (source_of p.old.seen trace.now) }
    ensures followed { IsFollowedBy store.now text.now (source_of p.old.seen trace.now) (all_moments moments) result }
    ensures same { OwnsTheSame p.old p.new }
{
    store.is_set_up();
    match store.gather(rt, alloc, p, trace) {
        Ok(rows) => {
            let tables = text_tables(alloc, store.config(), text, moments, &rows);
            drop(rows);
            tables
        }
        Err(_failed) => Err(Refusal::OutOfMemory),
    }
}

// The tables of a text over rows.
fn text_tables(
    alloc: Global,
    config: &Config,
    text: &Text,
    moments: Moments,
    rows: &RowList,
) -> Result<Text, Refusal<NotFollowed>>
    requires limited { IsLimited config.now }
    requires moments { AreLawfulMoments moments }
    requires can { CanBeChecked config.now text.now moments.first rows.now }
    ensures followed { IsFollowedBy config.now text.now rows.now (all_moments moments) result }
{
    match plan_of(alloc, &config.schemas, config.buckets, text.as_bytes()) {
        Ok(plan) => tables_over(alloc, plan.typed, rows, moments, config.limit),
        Err(Refusal::Fault(_fault)) => unreachable!(),
        Err(Refusal::OutOfMemory) => Err(Refusal::OutOfMemory),
    }
}
