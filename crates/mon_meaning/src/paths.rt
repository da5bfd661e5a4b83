// The way down a typed tree to what its rows come from.
ghost use Rattle.std.specs.Prelude.{◌≡◌, ◌<◌, IfOk, IfSome, IsNone};
ghost use Rattle.typed_trees.specs.Nodes.{node_tree};
ghost use Rattle.typed_trees.specs.ExplanationParts.{nodes};
ghost use Rattle.mon_meaning.specs.within.Paths.{first_input, HasNoInput, Leads, trees_of};

use mon_value::OutOfMemory;
use std::alloc::Global;
use typed_trees::Node;

/// The nodes from the top of a tree down to a source of rows: an alignment, or a fetch that isn't aligned. Each one is
/// the input, or the left side, of the one before it.
#[derive(Drop)]
pub(crate) struct Path<'a> {
    pub above: Vec<&'a Node>,
    pub source: &'a Node,
}

/// The way down a tree. A loop goes down the inputs and the left sides, where a query may have many thousand
/// operations or branches.
pub(crate) fn path_down<'a>(alloc: Global, tree: &'a Node) -> Result<Path<'a>, OutOfMemory>
    ensures leads { IfOk result (λ path.
        Leads (trees_of path.above.items) (node_tree tree.now) (node_tree path.source.now)) }
    ensures source { IfOk result (λ path. HasNoInput (node_tree path.source.now)) }
{
    let mut above = Vec::new(alloc);
    let mut source = tree;
    while let Some(input) = input_of(source) {
        above.push(source)?;
        source = input;
    }
    Ok(Path { above, source })
}

/// What rows flow into a node first: its input, or the left side of a join or a union. Rows begin at a fetch and at an
/// alignment, so that nothing flows in there.
pub fn input_of(node: &Node) -> Option<&Node>
    ensures input { IfSome result (λ input. node_tree input.now ≡ first_input (node_tree node.now)) }
    ensures smaller { IfSome result (λ input. nodes (node_tree input.now) < nodes (node_tree node.now)) }
    ensures source { IsNone result → HasNoInput (node_tree node.now) }
{
    match node {
        Node::Filter { input, .. }
        | Node::GroupBy { input, .. }
        | Node::Value { input, .. }
        | Node::Top { input, .. } => Some(input),
        Node::Join { left, .. } | Node::Union { left, .. } => Some(left),
        Node::Fetch { .. } | Node::Align { .. } => None,
    }
}
