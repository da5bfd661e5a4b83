// The typed tree of a query.
ghost use Rattle.std.specs.Prelude.{◌≡◌, IfOk};
ghost use Rattle.typed_trees.specs.Nodes.{columns_of, fixed_of, info_of, node_tree};
ghost use Rattle.typed_trees.specs.Typing.{info};

use crate::fixed::FixedColumns;
use crate::levels::Level;
use mon_value::{Aggregates, Aligner, Column, Columns, Positions, Shared, Text};
use mql_ast::{Items, Predicate};
use std::alloc::{AllocError, Global};

/// A query that has a type: its tree, and the grid of its times in seconds. Every table of the tree that is
/// grouped, computed, cut to a top, joined, united or given as the answer is aligned.
#[derive(Drop)]
pub struct Typed {
    pub tree: Node,
    pub every: i64,
    pub within: i64,
}

/// What is told of each node: its place in the text, or none where it is a default alignment; the columns of
/// its table, and those of them that filters fix to a literal; the level at which it is done.
#[derive(Drop)]
pub struct NodeInfo {
    pub at: Option<u32>,
    pub columns: Shared<Columns>,
    pub fixed: Shared<FixedColumns>,
    pub level: Level,
}

impl NodeInfo {
    /// What is told of a node at a place, with columns that it alone has so far.
    pub fn new(
        alloc: Global,
        at: Option<u32>,
        columns: Columns,
        fixed: Shared<FixedColumns>,
        level: Level,
    ) -> Result<NodeInfo, AllocError>
        ensures info { IfOk result (λ made. made ≡ info at columns fixed level) }
    {
        Ok(NodeInfo {
            at,
            columns: Shared::new(alloc, columns)?,
            fixed,
            level,
        })
    }
}

/// A source or an operation, on what flows into it. Joins and unions of several branches are nested from
/// the left.
pub enum Node {
    Fetch {
        info: NodeInfo,
        schema: Text,
        metric: Text,
    },
    Filter {
        info: NodeInfo,
        by: Predicate,
        input: Box<Node>,
    },
    Align {
        info: NodeInfo,
        by: Aligner,
        input: Box<Node>,
    },
    GroupBy {
        info: NodeInfo,
        by: Positions,
        with: Aggregates,
        input: Box<Node>,
    },
    Value {
        info: NodeInfo,
        items: Items,
        input: Box<Node>,
    },
    Top {
        info: NodeInfo,
        most: u32,
        column: u32,
        input: Box<Node>,
    },
    Join {
        info: NodeInfo,
        left: Box<Node>,
        right: Box<Node>,
    },
    Union {
        info: NodeInfo,
        left: Box<Node>,
        right: Box<Node>,
    },
}

impl Node {
    /// What is told of the node.
    pub fn info(&self) -> &NodeInfo
        ensures info { result.now ≡ info_of (node_tree self.now) }
    {
        match self {
            Node::Fetch { info, .. }
            | Node::Filter { info, .. }
            | Node::Align { info, .. }
            | Node::GroupBy { info, .. }
            | Node::Value { info, .. }
            | Node::Top { info, .. }
            | Node::Join { info, .. }
            | Node::Union { info, .. } => info,
        }
    }

    /// The columns of its table.
    pub fn columns(&self) -> &[Shared<Column>]
        ensures columns { result.now ≡ columns_of (node_tree self.now) }
    {
        self.info().columns.as_slice()
    }

    /// Those of them that filters fix to a literal.
    pub fn fixed(&self) -> &Shared<FixedColumns>
        ensures fixed { result.now ≡ fixed_of (node_tree self.now) }
    {
        &self.info().fixed
    }
}

// A loop goes down the input, or the left, since a query may have many thousand operations or branches.
impl Drop for Node {
    fn drop(mut self) {
        loop {
            match self {
                Node::Fetch {
                    info: _,
                    schema: _,
                    metric: _,
                } => return,
                Node::Filter {
                    info: _,
                    by: _,
                    input,
                } => self = Box::into_inner(input),
                Node::Align {
                    info: _,
                    by: _,
                    input,
                } => self = Box::into_inner(input),
                Node::GroupBy {
                    info: _,
                    by: _,
                    with: _,
                    input,
                } => self = Box::into_inner(input),
                Node::Value {
                    info: _,
                    items: _,
                    input,
                } => self = Box::into_inner(input),
                Node::Top {
                    info: _,
                    most: _,
                    column: _,
                    input,
                } => self = Box::into_inner(input),
                Node::Join {
                    info: _,
                    left,
                    right,
                } => {
                    drop(right);
                    self = Box::into_inner(left);
                }
                Node::Union {
                    info: _,
                    left,
                    right,
                } => {
                    drop(right);
                    self = Box::into_inner(left);
                }
            }
        }
    }
}
