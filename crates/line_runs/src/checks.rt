// The table that a text means, evaluated in one place over the rows that a query stands on.
ghost use Rattle.std.specs.Prelude.{◌≡◌, ◌≤◌, ◌≤ℤ◌, ◌^◌, pos, Ok, IfOk};
ghost use Rattle.line_runs.specs.Questions.{CanBeChecked, meant_text};
ghost use Rattle.mon_config.specs.Configs.{IsLimited};
ghost use Rattle.mon_store.specs.Gathers.{HasSeenTrace};
ghost use Rattle.mon_store.specs.Passes.{OwnsTheSame};
ghost use Rattle.mon_value.specs.LeafHistories.{IsSource};
ghost use Rattle.mon_value.specs.declared.limits.TheConstants.{ROW_BITS};
ghost use Rattle.typed_trees.specs.Meaning.{load};
ghost use Rattle.typed_trees.specs.Nodes.{typed_tree};
ghost use Rattle.typed_trees.specs.Soundness.{IsTyped};
ghost use Rattle.query_traces.specs.Traces.{source_of};
ghost use Rattle.query_texts.specs.TextTypes.{text_type};

use know::Names;
use mon_config::Config;
use mon_meaning::central;
use mon_store::{Pass, Store};
use mon_table::{equal_bags_print_alike, print};
use mon_value::{OutOfMemory, Refusal, RowList, Text};
use query_texts::plan_of;
use query_traces::Trace;
use std::alloc::{AllocError, Global};
use std::sync::Wait;
use typed_trees::Typed;

/// Gathers the rows of a trace, and prints what the text means over them.
pub(crate) fn checked_text<N: Names, R: Wait>(
    rt: &R,
    alloc: Global,
    store: &Store<N>,
    p: &mut Pass<N>,
    moment: i64,
    text: &Text,
    trace: &Trace,
) -> Result<Text, OutOfMemory>
    requires moment { pos 0 ≤ℤ moment }
    requires seen { HasSeenTrace store.now.topology p.old trace.now }
    requires can { CanBeChecked store.now text.now moment (source_of p.old.seen trace.now) }
    ensures text { IfOk result (λ printed. printed
        ≡ meant_text (text_type store.now.schemas text.now) (source_of p.old.seen trace.now) moment) }
    ensures same { OwnsTheSame p.old p.new }
{
    store.is_set_up();
    match store.gather(rt, alloc, p, trace) {
        Ok(rows) => {
            let text = text_over(alloc, store.config(), text, moment, &rows);
            drop(rows);
            text
        }
        Err(fault) => Err(fault),
    }
}

// What a text means over rows, as it is printed.
fn text_over(
    alloc: Global,
    config: &Config,
    text: &Text,
    moment: i64,
    rows: &RowList,
) -> Result<Text, OutOfMemory>
    requires limited { IsLimited config.now }
    requires moment { pos 0 ≤ℤ moment }
    requires can { CanBeChecked config.now text.now moment rows.now }
    ensures text { IfOk result (λ printed. printed
        ≡ meant_text (text_type config.now.schemas text.now) rows.now moment) }
{
    match plan_of(alloc, &config.schemas, config.buckets, text.as_bytes()) {
        Ok(plan) => {
            let text = typed_text(alloc, &plan.typed, rows, moment, config.limit);
            drop(plan);
            text
        }
        Err(Refusal::Fault(_fault)) => unreachable!(),
        Err(Refusal::OutOfMemory) => Err(AllocError),
    }
}

// The same of a typed query, whose load over the rows is within the limit.
fn typed_text(
    alloc: Global,
    typed: &Typed,
    rows: &RowList,
    moment: i64,
    limit: u64,
) -> Result<Text, OutOfMemory>
    requires typed { IsTyped (typed_tree typed.now) rows.now }
    requires source { IsSource rows.now }
    requires moment { pos 0 ≤ℤ moment }
    requires limit { limit ≤ 2 ^ ROW_BITS }
    requires within { load (typed_tree typed.now) rows.now moment ≤ limit }
    ensures text { IfOk result (λ printed. printed ≡ meant_text (Ok (typed_tree typed.now)) rows.now moment) }
{
    equal_bags_print_alike();
    match central(alloc, typed, rows, moment, limit) {
        Ok(table) => {
            let text = print(alloc, &table);
            drop(table);
            text
        }
        Err(Refusal::Fault(_over)) => unreachable!(),
        Err(Refusal::OutOfMemory) => Err(AllocError),
    }
}
