// The way from a query's result down to a table that is kept, and up again.
ghost use Rattle.std.specs.Prelude.{◌≡◌, ◌<◌, ◌∷◌, [], IfOk, IfSome, IsNone};
ghost use Rattle.typed_trees.specs.ExplanationParts.{nodes};
ghost use Rattle.typed_trees.specs.Nodes.{node_tree};
ghost use Rattle.mon_meaning.specs.Incremental.{is_incremental};
ghost use Rattle.mon_meaning.specs.within.Paths.{trees_of};
ghost use Rattle.standing_incr.specs.Ways.{CanGoThrough, nodes_above, part_at};
ghost use Rattle.standing_incr.specs.Ways as spec;

use mon_meaning::one_sided_rows;
use mon_value::{OutOfMemory, TimedRows};
use std::alloc::Global;
use typed_trees::Node;

/// Where a way down a tree ends: at the alignment, or before it where rows are grouped.
#[derive(Clone, Copy)]
pub enum Stop {
    Alignment,
    Grouping,
}

/// The nodes from the top of a tree down to one, without it, and that one.
#[derive(Drop)]
pub(crate) struct Way<'a> {
    pub above: Vec<&'a Node>,
    pub end: &'a Node,
}

/// The way down a tree. A loop goes down, since a query may have many thousand operations.
pub(crate) fn way_down<'a>(
    alloc: Global,
    tree: &'a Node,
    stop: Stop,
) -> Result<Way<'a>, OutOfMemory>
    ensures above { IfOk result (λ way. trees_of way.above.items ≡ nodes_above stop (node_tree tree.now)) }
    ensures end { IfOk result (λ way. node_tree way.end.now ≡ part_at stop (node_tree tree.now)) }
{
    let mut above = Vec::new(alloc);
    let mut end = tree;
    while let Some(input) = input_before(end, stop) {
        above.push(end)?;
        end = input;
    }
    Ok(Way { above, end })
}

// What flows into a node, unless the way ends there.
fn input_before(node: &Node, stop: Stop) -> Option<&Node>
    ensures above { IfSome result (λ input.
        nodes_above stop (node_tree node.now) ≡ node_tree node.now ∷ nodes_above stop (node_tree input.now)) }
    ensures part { IfSome result (λ input. part_at stop (node_tree node.now) ≡ part_at stop (node_tree input.now)) }
    ensures smaller { IfSome result (λ input. nodes (node_tree input.now) < nodes (node_tree node.now)) }
    ensures none { IsNone result → nodes_above stop (node_tree node.now) ≡ [] }
    ensures end { IsNone result → part_at stop (node_tree node.now) ≡ node_tree node.now }
{
    match node {
        Node::Filter { input, .. } => Some(input),
        Node::Value { input, .. } => Some(input),
        Node::Top { input, .. } => Some(input),
        Node::GroupBy { input, .. } => match stop {
            Stop::Alignment => Some(input),
            Stop::Grouping => None,
        },
        Node::Fetch { .. } => None,
        Node::Align { .. } => None,
        Node::Join { .. } => None,
        Node::Union { .. } => None,
    }
}

/// What the operations of a way make of the rows at its end, the last one first.
pub(crate) fn rows_through(
    alloc: Global,
    above: Vec<&Node>,
    rows: TimedRows,
) -> Result<TimedRows, OutOfMemory>
    requires can { CanGoThrough (trees_of above.items) rows }
    ensures rows { IfOk result (λ made. made ≡ spec.rows_through (trees_of above.entry.items) rows) }
{
    let mut rest = above;
    let mut made = rows;
    while let Some(node) = rest.pop() {
        made = one_sided_rows(alloc, node, made)?;
    }
    Ok(made)
}

/// Whether a result of a tree can be kept: it neither joins nor unites, and groups once at most. A loop goes down.
pub(crate) fn is_incremental(tree: &Node) -> bool
    ensures incremental { result ≡ is_incremental (node_tree tree.now) }
{
    let mut groups = 0u32;
    let mut rest = tree;
    loop {
        match rest {
            Node::Fetch { .. } => return groups <= 1,
            Node::Filter { input, .. } => rest = input,
            Node::Align { input, .. } => rest = input,
            Node::GroupBy { input, .. } => {
                if groups == 1 {
                    return false;
                }
                groups = 1;
                rest = input;
            }
            Node::Value { input, .. } => rest = input,
            Node::Top { input, .. } => rest = input,
            Node::Join { .. } => return false,
            Node::Union { .. } => return false,
        }
    }
}
