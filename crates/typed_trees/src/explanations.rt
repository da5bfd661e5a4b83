// What explains a query: its sources and operations, each with its level.
ghost use Rattle.std.specs.Prelude.{◌≡◌, ◌+◌, ◌++◌, ℕ, Option, IfOk, OnOk};
ghost use Rattle.typed_trees.specs.ExplanationParts.{nodes, remaining_lines, remaining_nodes};
ghost use Rattle.typed_trees.specs.Plans as spec;
ghost use Rattle.typed_trees.specs.Nodes.{info_of, node_tree, typed_tree};

use crate::levels::Level;
use crate::nodes::{Node, Typed};
use mon_value::{ListOf, OutOfMemory};
use std::alloc::Global;

/// The word of a source or an operation.
#[derive(Clone, Copy, PartialEq, Eq)]
pub enum OpWord {
    Fetch,
    Filter,
    Align,
    GroupBy,
    Value,
    Top,
    Join,
    Union,
}

/// A source or an operation, and the level at which it is done.
#[derive(Clone, Copy, PartialEq, Eq)]
pub struct OpLevel {
    pub word: OpWord,
    pub level: Level,
}

/// The sources and operations of a query, in the order of its text.
pub type OpLevels = ListOf<OpLevel>;

/// A part of a typed tree, and the place of the node that it flows into.
#[derive(Clone, Copy)]
pub(crate) struct Below<'a> {
    pub(crate) node: &'a Node,
    pub(crate) above: Option<u32>,
}

/// A line for each source and operation of a query, in the order of its text. An alignment by default has none, and a
/// join or a union of several branches has one, with the level of its last node. The parts to come are kept in a list,
/// since a query may have many thousand operations or branches; the lines are found from the last one back.
pub fn op_levels(alloc: Global, typed: &Typed) -> Result<OpLevels, OutOfMemory>
    ensures lines { IfOk result (λ lines. lines ≡ spec.op_levels (typed_tree typed.now)) }
{
    let mut lines = Vec::new(alloc);
    let mut parts = Vec::new(alloc);
    parts.push(Below {
        node: &typed.tree,
        above: None,
    })?;
    while let Some(part) = parts.pop() {
        push_line(part, &mut lines)?;
        push_inputs(part.node, &mut parts)?;
    }
    lines.reverse();
    Ok(OpLevels::from_vec(lines))
}

// The line of a node, where it has one.
fn push_line(part: Below<'_>, lines: &mut Vec<OpLevel>) -> Result<(), OutOfMemory>
    ensures line { OnOk result (lines.new.items ≡ lines.old.items ++ spec.own_line part.entry.above
        (spec.word_of (node_tree part.entry.node.now)) (info_of (node_tree part.entry.node.now))) }
{
    let info = part.node.info();
    if info.at.is_some() && info.at != part.above {
        lines.push(OpLevel {
            word: word_of(part.node),
            level: info.level,
        })?;
    }
    Ok(())
}

// What flows into a node comes next, the last of it first.
#[tactic(auto, using(crate::proofs::ExplanationLemmas::parts_to_come))]
fn push_inputs<'a>(node: &'a Node, parts: &mut Vec<Below<'a>>) -> Result<(), OutOfMemory>
    ensures lines { OnOk result ((above : Option ℕ) → remaining_lines parts.new.items
        ++ spec.own_line above (spec.word_of (node_tree node.now)) (info_of (node_tree node.now))
        ≡ remaining_lines parts.old.items ++ spec.lines_below above (node_tree node.now)) }
    ensures less { OnOk result (remaining_nodes parts.new.items + 1
        ≡ remaining_nodes parts.old.items + nodes (node_tree node.now)) }
{
    match node {
        Node::Fetch { .. } => {}
        Node::Filter { info, input, .. }
        | Node::Align { info, input, .. }
        | Node::GroupBy { info, input, .. }
        | Node::Value { info, input, .. }
        | Node::Top { info, input, .. } => parts.push(Below {
            node: input,
            above: info.at,
        })?,
        Node::Join { info, left, right } | Node::Union { info, left, right } => {
            let above = info.at;
            parts.push(Below { node: left, above })?;
            parts.push(Below { node: right, above })?;
        }
    }
    Ok(())
}

fn word_of(node: &Node) -> OpWord
    ensures word { result ≡ spec.word_of (node_tree node.now) }
{
    match node {
        Node::Fetch { .. } => OpWord::Fetch,
        Node::Filter { .. } => OpWord::Filter,
        Node::Align { .. } => OpWord::Align,
        Node::GroupBy { .. } => OpWord::GroupBy,
        Node::Value { .. } => OpWord::Value,
        Node::Top { .. } => OpWord::Top,
        Node::Join { .. } => OpWord::Join,
        Node::Union { .. } => OpWord::Union,
    }
}
