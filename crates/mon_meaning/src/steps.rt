// One operation of a tree.
ghost use Rattle.std.specs.Prelude.{◌≡◌, ◌+◌, [], length, IfErr, IfOk, OnOk};
ghost use Rattle.mon_value.specs.Tables.{IsWhole};
ghost use Rattle.typed_trees.specs.Nodes.{columns_of, node_tree};
ghost use Rattle.mon_meaning.specs.Operations as meant;
ghost use Rattle.mon_meaning.specs.Operations.{CanOperate, operation_load};
ghost use Rattle.mon_meaning.specs.Counts.{TellsOver};
ghost use Rattle.mon_meaning.specs.within.Sides.{HasOneSide, side_pairs, table_pairs};

use crate::meter::{Meter, OverLimit};
use crate::operations::{filtered_rows, grouped_rows, joined_rows, table_of, united_rows};
use crate::tops::top_rows;
use crate::value_rows::value_rows;
use mon_value::{OutOfMemory, Refusal, Table, TimedRows};
use std::alloc::Global;
use typed_trees::Node;

/// The rows of an operation on those of its input, or on those of its left side and its right one. The pairs of a
/// join are counted, and more than there is room for are not made. Rows move.
pub fn operation_rows(
    alloc: Global,
    node: &Node,
    rows: TimedRows,
    others: TimedRows,
    meter: &mut Meter,
) -> Result<TimedRows, Refusal<OverLimit>>
    requires can { CanOperate (node_tree node.now) rows others }
    ensures rows { IfOk result (λ made. made ≡ meant.operation_rows (node_tree node.now) rows others) }
    ensures limit { meter.new.limit ≡ meter.old.limit }
    ensures counted { OnOk result (meter.new.load
        ≡ meter.old.load + operation_load (node_tree node.now) rows others) }
    ensures over { IfErr result (TellsOver meter.old.limit
        (meter.old.load + operation_load (node_tree node.now) rows others)) }
{
    match node {
        Node::Join {
            info: _,
            left,
            right,
        } => join_rows(alloc, left, right, rows, others, meter),
        Node::Union {
            info: _,
            left: _,
            right: _,
        } => Ok(united_rows(rows, others)?),
        _ => {
            drop(others);
            Ok(one_sided_rows(alloc, node, rows)?)
        }
    }
}

// The pairs of a left side's rows with a right one's, which are counted.
fn join_rows(
    alloc: Global,
    left: &Node,
    right: &Node,
    rows: TimedRows,
    others: TimedRows,
    meter: &mut Meter,
) -> Result<TimedRows, Refusal<OverLimit>>
    requires left { IsWhole (record { columns = columns_of (node_tree left.now); rows = rows }) }
    requires right { IsWhole (record { columns = columns_of (node_tree right.now); rows = others }) }
    ensures rows { IfOk result (λ made. made ≡ side_pairs (node_tree left.now) (node_tree right.now) rows others) }
    ensures limit { meter.new.limit ≡ meter.old.limit }
    ensures counted { OnOk result (meter.new.load
        ≡ meter.old.load + length (side_pairs (node_tree left.now) (node_tree right.now) rows others)) }
    ensures over { IfErr result (TellsOver meter.old.limit
        (meter.old.load + length (side_pairs (node_tree left.now) (node_tree right.now) rows others))) }
{
    match table_of(alloc, &left.info().columns, rows) {
        Ok(table) => {
            let pairs = pairs_with(alloc, &table, right, others, meter);
            drop(table);
            pairs
        }
        Err(_fault) => {
            drop(others);
            Err(Refusal::OutOfMemory)
        }
    }
}

// The pairs of a table with the rows of a right side, which are counted.
fn pairs_with(
    alloc: Global,
    left: &Table,
    right: &Node,
    others: TimedRows,
    meter: &mut Meter,
) -> Result<TimedRows, Refusal<OverLimit>>
    requires left { IsWhole left.now }
    requires right { IsWhole (record { columns = columns_of (node_tree right.now); rows = others }) }
    ensures rows { IfOk result (λ made. made ≡ table_pairs left.now (node_tree right.now) others) }
    ensures limit { meter.new.limit ≡ meter.old.limit }
    ensures counted { OnOk result (meter.new.load
        ≡ meter.old.load + length (table_pairs left.now (node_tree right.now) others)) }
    ensures over { IfErr result (TellsOver meter.old.limit
        (meter.old.load + length (table_pairs left.now (node_tree right.now) others))) }
{
    let right = table_of(alloc, &right.info().columns, others)?;
    let pairs = joined_rows(alloc, left, &right, meter);
    drop(right);
    pairs
}

/// The rows of an operation that only one table flows into, on those that do; a source passes on what it has. Nothing is
/// counted.
pub fn one_sided_rows(alloc: Global, node: &Node, rows: TimedRows) -> Result<TimedRows, OutOfMemory>
    requires one { HasOneSide (node_tree node.now) }
    requires can { CanOperate (node_tree node.now) rows [] }
    ensures rows { IfOk result (λ made. made ≡ meant.operation_rows (node_tree node.now) rows []) }
{
    match node {
        Node::Filter { info, by, input: _ } => filtered_rows(alloc, &info.columns, by, rows),
        Node::GroupBy {
            info: _,
            by,
            with,
            input,
        } => grouped_rows(alloc, &input.info().columns, by, with, rows),
        Node::Value {
            info: _,
            items,
            input,
        } => value_rows(alloc, &input.info().columns, items.as_slice(), rows),
        Node::Top {
            info: _,
            most,
            column,
            input: _,
        } => top_rows(alloc, *most, *column, rows),
        Node::Fetch {
            info: _,
            schema: _,
            metric: _,
        } => Ok(rows),
        Node::Align {
            info: _,
            by: _,
            input: _,
        } => Ok(rows),
        Node::Join {
            info: _,
            left: _,
            right: _,
        } => unreachable!(),
        Node::Union {
            info: _,
            left: _,
            right: _,
        } => unreachable!(),
    }
}
