// The rows of a typed tree.
ghost use Rattle.std.specs.Prelude.{◌≡◌, ◌+◌, ◌≤◌, IfErr, IfOk, OnOk};
ghost use Rattle.typed_trees.specs.Nodes.{node_tree};
ghost use Rattle.mon_meaning.specs.Central.{all_held};
ghost use Rattle.mon_meaning.specs.Counts.{TellsOver};
ghost use Rattle.mon_meaning.specs.within.Paths as way;
ghost use Rattle.mon_meaning.specs.within.Paths.{first_input, HasNoInput, other_load, own_load};
ghost use Rattle.mon_meaning.specs.within.Readiness.{IsNodeReady};
ghost use Rattle.mon_meaning.specs.within.SeriesMeaning.{load_by_series, rows_by_series};

use crate::alignments::aligned_rows;
use crate::meter::{Meter, OverLimit};
use crate::paths::{Path, path_down};
use crate::same_trees::are_same_tree;
use crate::steps::operation_rows;
use mon_series::KeptRows;
use mon_value::{Grid, Refusal, TimedRows, TryCopy};
use std::alloc::Global;
use typed_trees::Node;

/// What every part is evaluated over: the series, and the times of the query.
#[derive(Clone, Copy)]
pub(crate) struct EvaluationSetting<'a> {
    pub alloc: Global,
    pub series: &'a [&'a KeptRows],
    pub grid: Grid,
}

/// The rows of a tree, and its load on the meter. Only right sides recurse: a text nests them, where it repeats
/// operations and left sides.
#[cycle(evaluation)]
pub(crate) fn rows_of(
    setting: &EvaluationSetting<'_>,
    tree: &Node,
    meter: &mut Meter,
) -> Result<TimedRows, Refusal<OverLimit>>
    requires ready { IsNodeReady setting.now.grid (node_tree tree.now) (all_held setting.now.series.now) }
    ensures rows { IfOk result (λ rows. rows
        ≡ rows_by_series setting.now.grid (node_tree tree.now) (all_held setting.now.series.now)) }
    ensures limit { meter.new.limit ≡ meter.old.limit }
    ensures counted { OnOk result (meter.new.load ≡ meter.old.load
        + load_by_series setting.now.grid (node_tree tree.now) (all_held setting.now.series.now)) }
    ensures over { IfErr result (TellsOver meter.old.limit (meter.old.load
        + load_by_series setting.now.grid (node_tree tree.now) (all_held setting.now.series.now))) }
{
    let Path { above, source } = path_down(setting.alloc, tree)?;
    let mut above = above;
    let before = meter.counted();
    let mut rows = source_rows(setting, source, meter)?;
    while let Some(node) = above.pop() {
        let load = meter.counted() - before;
        rows = rows_above(setting, node, rows, load, meter)?;
    }
    Ok(rows)
}

// The rows that others come from: those of an alignment, and none of points that aren't aligned.
fn source_rows(
    setting: &EvaluationSetting<'_>,
    source: &Node,
    meter: &mut Meter,
) -> Result<TimedRows, Refusal<OverLimit>>
    requires ready { IsNodeReady setting.now.grid (node_tree source.now) (all_held setting.now.series.now) }
    requires source { HasNoInput (node_tree source.now) }
    ensures rows { IfOk result (λ rows. rows
        ≡ rows_by_series setting.now.grid (node_tree source.now) (all_held setting.now.series.now)) }
    ensures limit { meter.new.limit ≡ meter.old.limit }
    ensures counted { OnOk result (meter.new.load ≡ meter.old.load
        + load_by_series setting.now.grid (node_tree source.now) (all_held setting.now.series.now)) }
    ensures over { IfErr result (TellsOver meter.old.limit (meter.old.load
        + load_by_series setting.now.grid (node_tree source.now) (all_held setting.now.series.now))) }
{
    match source {
        Node::Align { info: _, by, input } => aligned_rows(setting, *by, input, meter),
        _ => Ok(TimedRows::new(setting.alloc)),
    }
}

// The rows of an operation on the rows that flow into it first, which have this load.
#[cycle(evaluation)]
fn rows_above(
    setting: &EvaluationSetting<'_>,
    node: &Node,
    rows: TimedRows,
    load: u64,
    meter: &mut Meter,
) -> Result<TimedRows, Refusal<OverLimit>>
    requires ready { IsNodeReady setting.now.grid (node_tree node.now) (all_held setting.now.series.now) }
    requires rows { rows
        ≡ rows_by_series setting.now.grid (first_input (node_tree node.now)) (all_held setting.now.series.now) }
    requires load { load
        ≡ load_by_series setting.now.grid (first_input (node_tree node.now)) (all_held setting.now.series.now) }
    requires counted { load ≤ meter.old.load }
    ensures rows { IfOk result (λ rows. rows
        ≡ rows_by_series setting.now.grid (node_tree node.now) (all_held setting.now.series.now)) }
    ensures limit { meter.new.limit ≡ meter.old.limit }
    ensures counted { OnOk result (meter.new.load ≡ meter.old.load
        + own_load setting.now.grid (node_tree node.now) (all_held setting.now.series.now)) }
    ensures over { IfErr result (TellsOver meter.old.limit (meter.old.load
        + own_load setting.now.grid (node_tree node.now) (all_held setting.now.series.now))) }
{
    let others = other_rows(setting, node, &rows, load, meter)?;
    operation_rows(setting.alloc, node, rows, others, meter)
}

// The rows of an operation's right side, and none where it has no such side. Those that flow in first have this load.
#[cycle(evaluation)]
fn other_rows(
    setting: &EvaluationSetting<'_>,
    node: &Node,
    rows: &TimedRows,
    load: u64,
    meter: &mut Meter,
) -> Result<TimedRows, Refusal<OverLimit>>
    requires ready { IsNodeReady setting.now.grid (node_tree node.now) (all_held setting.now.series.now) }
    requires rows { rows.now
        ≡ rows_by_series setting.now.grid (first_input (node_tree node.now)) (all_held setting.now.series.now) }
    requires load { load
        ≡ load_by_series setting.now.grid (first_input (node_tree node.now)) (all_held setting.now.series.now) }
    ensures rows { IfOk result (λ rows. rows
        ≡ way.other_rows setting.now.grid (node_tree node.now) (all_held setting.now.series.now)) }
    ensures limit { meter.new.limit ≡ meter.old.limit }
    ensures counted { OnOk result (meter.new.load ≡ meter.old.load
        + other_load setting.now.grid (node_tree node.now) (all_held setting.now.series.now)) }
    ensures over { IfErr result (TellsOver meter.old.limit (meter.old.load
        + other_load setting.now.grid (node_tree node.now) (all_held setting.now.series.now))) }
{
    match node {
        Node::Join {
            info: _,
            left,
            right,
        } => right_rows(setting, left, right, rows, load, meter),
        Node::Union {
            info: _,
            left,
            right,
        } => right_rows(setting, left, right, rows, load, meter),
        _ => Ok(TimedRows::new(setting.alloc)),
    }
}

// The rows of a right side, beside those of the left one and their load. Sides that are the same are evaluated once.
#[cycle(evaluation)]
fn right_rows(
    setting: &EvaluationSetting<'_>,
    left: &Node,
    right: &Node,
    rows: &TimedRows,
    load: u64,
    meter: &mut Meter,
) -> Result<TimedRows, Refusal<OverLimit>>
    requires ready { IsNodeReady setting.now.grid (node_tree right.now) (all_held setting.now.series.now) }
    requires rows { rows.now
        ≡ rows_by_series setting.now.grid (node_tree left.now) (all_held setting.now.series.now) }
    requires load { load ≡ load_by_series setting.now.grid (node_tree left.now) (all_held setting.now.series.now) }
    ensures rows { IfOk result (λ rows. rows
        ≡ rows_by_series setting.now.grid (node_tree right.now) (all_held setting.now.series.now)) }
    ensures limit { meter.new.limit ≡ meter.old.limit }
    ensures counted { OnOk result (meter.new.load ≡ meter.old.load
        + load_by_series setting.now.grid (node_tree right.now) (all_held setting.now.series.now)) }
    ensures over { IfErr result (TellsOver meter.old.limit (meter.old.load
        + load_by_series setting.now.grid (node_tree right.now) (all_held setting.now.series.now))) }
{
    if are_same_tree(left, right) {
        return copied_rows(setting.alloc, rows, load, meter);
    }
    rows_of(setting, right, meter)
}

// Rows once more, with their load.
fn copied_rows(
    alloc: Global,
    rows: &TimedRows,
    load: u64,
    meter: &mut Meter,
) -> Result<TimedRows, Refusal<OverLimit>>
    ensures rows { IfOk result (λ copied. copied ≡ rows.now) }
    ensures limit { meter.new.limit ≡ meter.old.limit }
    ensures counted { OnOk result (meter.new.load ≡ meter.old.load + load) }
    ensures over { IfErr result (TellsOver meter.old.limit (meter.old.load + load)) }
{
    meter.add(load as usize)?;
    Ok(rows.copy(alloc)?)
}
