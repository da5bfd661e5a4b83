// The way down a typed tree to the first of the parts of which there are pieces.
ghost use Rattle.std.specs.Prelude.{◌≡◌, true, IfOk, IfSome, IsNone};
ghost use Rattle.typed_trees.specs.Nodes.{node_tree};
ghost use Rattle.mon_meaning.specs.TopParts.{up_to};
ghost use Rattle.mon_meaning.specs.within.Paths.{trees_of};
ghost use Rattle.mixer.specs.within.Mixtures.{IsInput, IsWayDown, is_piece};

use mon_meaning::{input_of, is_up_to};
use mon_value::OutOfMemory;
use std::alloc::Global;
use typed_trees::{Level, Node};

/// The nodes from the top of a tree down to the first of which there is a piece, without that one. Each is the input,
/// or the left side, of the one before it. A loop goes down, since a query may have many thousand operations or
/// branches.
pub(crate) fn way_down<'a>(
    alloc: Global,
    tree: &'a Node,
    below: Level,
) -> Result<Vec<&'a Node>, OutOfMemory>
    ensures way { IfOk result (λ above. IsWayDown (up_to below) (trees_of above.items) (node_tree tree.now)) }
{
    let mut above = Vec::new(alloc);
    let mut end = tree;
    while let Some(input) = input_above_pieces(end, below) {
        above.push(end)?;
        end = input;
    }
    Ok(above)
}

// What rows flow in first; none where there is a piece.
#[tactic(auto, using(crate::proofs::NodePieces::source_is_piece))]
fn input_above_pieces(node: &Node, below: Level) -> Option<&Node>
    ensures input { IfSome result (λ input. IsInput (up_to below) (node_tree node.now) (node_tree input.now)) }
    ensures piece { IsNone result → is_piece (up_to below) (node_tree node.now) ≡ true }
{
    if has_piece(node, below) {
        return None;
    }
    input_of(node)
}

// Whether there is a piece of a node: it is done here, or rows begin there, or it groups what is done here.
fn has_piece(node: &Node, below: Level) -> bool
    ensures piece { result ≡ is_piece (up_to below) (node_tree node.now) }
{
    match node {
        Node::Fetch { .. } | Node::Align { .. } => true,
        Node::GroupBy { info, input, .. } => {
            is_up_to(info.level, below) || is_up_to(input.info().level, below)
        }
        Node::Filter { info, .. }
        | Node::Value { info, .. }
        | Node::Top { info, .. }
        | Node::Join { info, .. }
        | Node::Union { info, .. } => is_up_to(info.level, below),
    }
}
