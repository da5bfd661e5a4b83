// Operations on a part of a query.
ghost use Rattle.std.specs.Prelude.{◌≡◌, IfOk, OnOk, map, Some, unwrap_or};
ghost use Rattle.mql_ast.specs.Trees.{deed_tree, item_tree, op_tree, predicate_tree};
ghost use Rattle.typed_trees.specs.Faults.{first_with};
ghost use Rattle.typed_trees.specs.Fetches.{condition_faults, predicate_faults};
ghost use Rattle.typed_trees.specs.FixedColumns.{fixed_by, with_fixed};
ghost use Rattle.typed_trees.specs.Groupings.{group_faults, place_found};
ghost use Rattle.typed_trees.specs.Items.{is_number_type, value_faults};
ghost use Rattle.typed_trees.specs.declared.faults.TypeWord.TheVariants as word;
ghost use Rattle.typed_trees.specs.Nodes as node;
ghost use Rattle.typed_trees.specs.Nodes.{columns_of, node_tree};
ghost use Rattle.mql_types.specs.PartViews.{part_view};
ghost use Rattle.typed_trees.specs.Typing as spec;

use crate::aligning::{align_node, aligned_as, aligned_tree, tell_align};
use crate::parts::{Part, table};
use mon_value::{Aligner, Column, Shared, TryCopy};
use mql_ast::{Aggregate, Items, Name, Op, OpKind, Predicate};
use std::alloc::{AllocError, Global};
use typed_columns::{
    Grouping, NamedColumns, TypingSetting, column_number, filtered_fixed, key_fixed,
    tell_predicate, value_columns,
};
use typed_trees::{Faults, Level, Node, NodeInfo};

/// A part with operations more. Tells what is wrong in them.
#[tactic(auto, using(typed_columns::proofs::FaultLemmas::faults))]
pub(crate) fn ops_part(
    setting: TypingSetting<'_>,
    part: Part,
    ops: &[Op],
    found: &mut Faults,
) -> Result<Part, AllocError>
    ensures part { IfOk result (λ made. part_view made
        ≡ spec.ops_part setting.entry.schemas.now setting.entry.every (part_view part) (map op_tree ops.now)) }
    ensures faults { OnOk result (found.new.first ≡ first_with found.old.first
        (spec.ops_faults setting.entry.schemas.now setting.entry.every (part_view part) (map op_tree ops.now))) }
{
    let mut made = part;
    for op in ops {
        made = op_part(setting, made, op, found)?;
    }
    Ok(made)
}

// A part with an operation more.
fn op_part(
    setting: TypingSetting<'_>,
    part: Part,
    op: &Op,
    found: &mut Faults,
) -> Result<Part, AllocError>
    ensures part { IfOk result (λ made. part_view made ≡ spec.deed_part setting.entry.schemas.now setting.entry.every
        (part_view part) op.now.at (deed_tree op.now.what)) }
    ensures faults { OnOk result (found.new.first ≡ first_with found.old.first
        (spec.deed_faults setting.entry.every (part_view part) op.now.at (deed_tree op.now.what))) }
{
    match &op.what {
        OpKind::Filter(predicate) => filter_part(setting.alloc, part, op.at, predicate, found),
        OpKind::Align(by) => align_part(setting.alloc, part, op.at, *by, found),
        OpKind::GroupBy(names, aggregates) => group_part(
            setting,
            part,
            op.at,
            names.as_slice(),
            aggregates.as_slice(),
            found,
        ),
        OpKind::Value(items) => value_part(setting, part, op.at, items, found),
        OpKind::Top(most, column) => top_part(setting, part, op.at, *most, column, found),
        OpKind::Every(_) | OpKind::Within(_) => Ok(part),
    }
}

// A filter leaves the columns and the level, and fixes what its equalities say.
fn filter_part(
    alloc: Global,
    part: Part,
    at: u32,
    predicate: &Predicate,
    found: &mut Faults,
) -> Result<Part, AllocError>
    ensures part { IfOk result (λ made. part_view made
        ≡ spec.filter_part at (predicate_tree predicate.now) (part_view part)) }
    ensures faults { OnOk result (found.new.first ≡ first_with found.old.first
        (predicate_faults (columns_of (node_tree part.node)) (predicate_tree predicate.now))) }
{
    match told_filter(alloc, part.node.columns(), predicate, found) {
        Ok(by) => filtered_part(alloc, part, at, by),
        Err(stop) => {
            drop(part);
            Err(stop)
        }
    }
}

// A copy of a filter. Tells each of its conditions that its column doesn't meet.
fn told_filter(
    alloc: Global,
    columns: &[Shared<Column>],
    predicate: &Predicate,
    found: &mut Faults,
) -> Result<Predicate, AllocError>
    ensures copied { IfOk result (λ copied. predicate_tree copied ≡ predicate_tree predicate.now) }
    ensures faults { OnOk result (found.new.first
        ≡ first_with found.old.first (predicate_faults columns.now (predicate_tree predicate.now))) }
{
    tell_predicate(alloc, columns, predicate, found)?;
    predicate.copy(alloc)
}

// A part behind a filter.
fn filtered_part(alloc: Global, part: Part, at: u32, by: Predicate) -> Result<Part, AllocError>
    ensures part { IfOk result (λ made. part_view made
        ≡ spec.filter_part at (predicate_tree by) (part_view part)) }
{
    match filter_info(alloc, at, part.node.info(), &by) {
        Ok(info) => {
            let points = part.points;
            match Box::new(alloc, part.node) {
                Ok(input) => Ok(Part {
                    node: Node::Filter { info, by, input },
                    points,
                }),
                Err(stop) => {
                    drop(by);
                    drop(info);
                    Err(stop.into())
                }
            }
        }
        Err(stop) => {
            drop(by);
            drop(part);
            Err(stop)
        }
    }
}

// A part that is aligned as the query says.
fn align_part(
    alloc: Global,
    part: Part,
    at: u32,
    by: Aligner,
    found: &mut Faults,
) -> Result<Part, AllocError>
    ensures part { IfOk result (λ made. part_view made
        ≡ spec.table (spec.align_node (Some at) (spec.aligned_as part.points by) (node_tree part.node))) }
    ensures faults { OnOk result (found.new.first ≡ first_with found.old.first (spec.align_faults part.points at by)) }
{
    tell_align(part.points, at, by, found);
    let by = aligned_as(part.points, by);
    Ok(table(align_node(alloc, Some(at), by, part.node)?))
}

// What is told of a filter.
fn filter_info(
    alloc: Global,
    at: u32,
    input: &NodeInfo,
    by: &Predicate,
) -> Result<NodeInfo, AllocError>
    ensures info { IfOk result (λ made. made ≡ spec.info (Some at) input.now.columns
        (with_fixed input.now.fixed (fixed_by (predicate_tree by.now))) input.now.level) }
{
    Ok(NodeInfo {
        at: Some(at),
        columns: input.columns.copy(alloc)?,
        fixed: filtered_fixed(alloc, &input.fixed, by)?,
        level: input.level,
    })
}

// A part whose rows are grouped.
fn group_part(
    setting: TypingSetting<'_>,
    part: Part,
    at: u32,
    names: &[Name],
    aggregates: &[Aggregate],
    found: &mut Faults,
) -> Result<Part, AllocError>
    ensures part { IfOk result (λ made. part_view made
        ≡ spec.table (spec.group_node setting.entry.schemas.now at names.now aggregates.now
        (spec.aligned_tree setting.entry.every (part_view part)))) }
    ensures faults { OnOk result (found.new.first ≡ first_with found.old.first (group_faults
        (columns_of (spec.aligned_tree setting.entry.every (part_view part))) names.now aggregates.now)) }
{
    let input = aligned_tree(setting.alloc, setting.every, part)?;
    match Grouping::new(setting, &input, names, aggregates, found) {
        Ok(grouping) => Ok(table(group_node(setting.alloc, at, grouping, input)?)),
        Err(stop) => {
            drop(input);
            Err(stop)
        }
    }
}

// Groups are made where rows meet that agree in the listed columns, and in those that are fixed.
fn group_node(alloc: Global, at: u32, grouping: Grouping, input: Node) -> Result<Node, AllocError>
    ensures node { IfOk result (λ made. node_tree made ≡ node.GroupBy
        (spec.info (Some at) grouping.columns grouping.fixed grouping.level) grouping.places grouping.aggregates
        (node_tree input)) }
{
    Ok(Node::GroupBy {
        info: NodeInfo::new(
            alloc,
            Some(at),
            grouping.columns,
            grouping.fixed,
            grouping.level,
        )?,
        by: grouping.places,
        with: grouping.aggregates,
        input: Box::new(alloc, input)?,
    })
}

// A part whose columns are computed.
fn value_part(
    setting: TypingSetting<'_>,
    part: Part,
    at: u32,
    items: &Items,
    found: &mut Faults,
) -> Result<Part, AllocError>
    ensures part { IfOk result (λ made. part_view made ≡ spec.table (spec.value_node at
        (map item_tree items.now) (spec.aligned_tree setting.entry.every (part_view part)))) }
    ensures faults { OnOk result (found.new.first ≡ first_with found.old.first (value_faults
        (columns_of (spec.aligned_tree setting.entry.every (part_view part))) (map item_tree items.now))) }
{
    let input = aligned_tree(setting.alloc, setting.every, part)?;
    Ok(table(value_node(setting.alloc, at, items, input, found)?))
}

fn value_node(
    alloc: Global,
    at: u32,
    items: &Items,
    input: Node,
    found: &mut Faults,
) -> Result<Node, AllocError>
    ensures node { IfOk result (λ made. node_tree made
        ≡ spec.value_node at (map item_tree items.now) (node_tree input)) }
    ensures faults { OnOk result (found.new.first ≡ first_with found.old.first
        (value_faults (columns_of (node_tree input)) (map item_tree items.now))) }
{
    let columns = value_columns(alloc, input.columns(), items.as_slice(), found)?;
    let fixed = key_fixed(alloc, input.columns(), input.fixed())?;
    Ok(Node::Value {
        info: NodeInfo::new(alloc, Some(at), columns, fixed, input.info().level)?,
        items: copied_items(alloc, items)?,
        input: Box::new(alloc, input)?,
    })
}

fn copied_items(alloc: Global, items: &Items) -> Result<Items, AllocError>
    ensures items { IfOk result (λ copied. map item_tree copied ≡ map item_tree items.now) }
{
    let mut copied = Items::new(alloc);
    for item in items {
        copied.push(item.copy(alloc)?)?;
    }
    Ok(copied)
}

// A part of the rows that come first.
fn top_part(
    setting: TypingSetting<'_>,
    part: Part,
    at: u32,
    most: u32,
    column: &Name,
    found: &mut Faults,
) -> Result<Part, AllocError>
    ensures part { IfOk result (λ made. part_view made ≡ spec.table (spec.top_node at most column.now
        (spec.aligned_tree setting.entry.every (part_view part)))) }
    ensures faults { OnOk result (found.new.first ≡ first_with found.old.first (condition_faults
        (columns_of (spec.aligned_tree setting.entry.every (part_view part))) column.now is_number_type word.Int)) }
{
    let input = aligned_tree(setting.alloc, setting.every, part)?;
    Ok(table(top_node(setting.alloc, at, most, column, input, found)?))
}

// The rows that come first are known at the root alone. Tells a column that isn't there or isn't of numbers, by which
// rows are ranked.
fn top_node(
    alloc: Global,
    at: u32,
    most: u32,
    column: &Name,
    input: Node,
    found: &mut Faults,
) -> Result<Node, AllocError>
    ensures node { IfOk result (λ made. node_tree made ≡ spec.top_node at most column.now (node_tree input)) }
    ensures faults { OnOk result (found.new.first ≡ first_with found.old.first
        (condition_faults (columns_of (node_tree input)) column.now is_number_type word.Int)) }
{
    let place = ranked_place(alloc, input.columns(), column, found)?;
    let info = top_info(alloc, at, input.info())?;
    Ok(Node::Top {
        info,
        most,
        column: column_number(place)?,
        input: Box::new(alloc, input)?,
    })
}

// What is told of a top.
fn top_info(alloc: Global, at: u32, input: &NodeInfo) -> Result<NodeInfo, AllocError>
    ensures info { IfOk result (λ made. made
        ≡ spec.info (Some at) input.now.columns input.now.fixed Level.Root) }
{
    Ok(NodeInfo {
        at: Some(at),
        columns: input.columns.copy(alloc)?,
        fixed: input.fixed.copy(alloc)?,
        level: Level::Root,
    })
}

// Where the column stands by which rows are ranked.
fn ranked_place(
    alloc: Global,
    columns: &[Shared<Column>],
    name: &Name,
    found: &mut Faults,
) -> Result<usize, AllocError>
    ensures place { IfOk result (λ place. place ≡ unwrap_or (place_found name.now.text columns.now) 0) }
    ensures faults { OnOk result (found.new.first ≡ first_with found.old.first
        (condition_faults columns.now name.now is_number_type word.Int)) }
{
    let columns = NamedColumns::new(alloc, columns)?;
    columns.number(name, found);
    Ok(columns.place(&name.text).unwrap_or(0))
}
