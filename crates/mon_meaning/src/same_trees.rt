// Whether two trees are the same.
ghost use Rattle.std.specs.Prelude.{◌≡◌, IfSome, IsTrue, map};
ghost use Rattle.mql_ast.specs.Trees.{item_tree, predicate_tree};
ghost use Rattle.typed_trees.specs.Nodes as node;
ghost use Rattle.typed_trees.specs.Nodes.{info_of, node_tree};
ghost use Rattle.mon_meaning.specs.within.SameTrees.{bare_items, bare_tree};

use crate::same_columns::{are_same_columns, are_same_folds};
use mon_expr::{are_same_predicate, are_same_sum};
use mon_value::{Aggregates, Aligner, Positions, Text};
use mql_ast::{Item, Predicate};
use typed_trees::Node;

/// Whether two trees are the same, wherever they stand in the text: the same operations over the same columns on the
/// same fetches. A loop goes down the input, or the left, since a query may have many thousand operations or branches;
/// only right sides recurse. No memory is taken.
pub(crate) fn are_same_tree(one: &Node, other: &Node) -> bool
    ensures same { IsTrue result → bare_tree (node_tree one.now) ≡ bare_tree (node_tree other.now) }
{
    let mut one = one;
    let mut other = other;
    loop {
        if !are_same_columns(one.columns(), other.columns()) {
            return false;
        }
        match one {
            Node::Fetch {
                info: _,
                schema,
                metric,
            } => return is_fetch(other, schema, metric),
            Node::Filter { info: _, by, input } => {
                let Some(below) = filtered(other, by) else {
                    return false;
                };
                one = input;
                other = below;
            }
            Node::Align { info: _, by, input } => {
                let Some(below) = aligned(other, *by) else {
                    return false;
                };
                one = input;
                other = below;
            }
            Node::GroupBy {
                info: _,
                by,
                with,
                input,
            } => {
                let Some(below) = grouped(other, by, with) else {
                    return false;
                };
                one = input;
                other = below;
            }
            Node::Value {
                info: _,
                items,
                input,
            } => {
                let Some(below) = computed(other, items.as_slice()) else {
                    return false;
                };
                one = input;
                other = below;
            }
            Node::Top {
                info: _,
                most,
                column,
                input,
            } => {
                let Some(below) = cut(other, *most, *column) else {
                    return false;
                };
                one = input;
                other = below;
            }
            Node::Join {
                info: _,
                left,
                right,
            } => match other {
                Node::Join {
                    info: _,
                    left: lefts,
                    right: rights,
                } => {
                    if !are_same_tree(right, rights) {
                        return false;
                    }
                    one = left;
                    other = lefts;
                }
                _ => return false,
            },
            Node::Union {
                info: _,
                left,
                right,
            } => match other {
                Node::Union {
                    info: _,
                    left: lefts,
                    right: rights,
                } => {
                    if !are_same_tree(right, rights) {
                        return false;
                    }
                    one = left;
                    other = lefts;
                }
                _ => return false,
            },
        }
    }
}

// Whether a tree is the fetch of a metric.
fn is_fetch(tree: &Node, schema: &Text, metric: &Text) -> bool
    ensures same { IsTrue result → bare_tree (node_tree tree.now)
        ≡ bare_tree (node.Fetch (info_of (node_tree tree.now)) schema.now metric.now) }
{
    match tree {
        Node::Fetch {
            info: _,
            schema: named,
            metric: measured,
        } => *schema == *named && *metric == *measured,
        _ => false,
    }
}

// What flows into a tree that is such a filter.
fn filtered<'a>(tree: &'a Node, by: &Predicate) -> Option<&'a Node>
    ensures same { IfSome result (λ below. bare_tree (node_tree tree.now)
        ≡ bare_tree (node.Filter (info_of (node_tree tree.now)) (predicate_tree by.now) (node_tree below.now))) }
{
    match tree {
        Node::Filter {
            info: _,
            by: asked,
            input,
        } => {
            if are_same_predicate(by, asked) {
                Some(input)
            } else {
                None
            }
        }
        _ => None,
    }
}

// What flows into a tree that is such an alignment.
fn aligned(tree: &Node, by: Aligner) -> Option<&Node>
    ensures same { IfSome result (λ below. bare_tree (node_tree tree.now)
        ≡ bare_tree (node.Align (info_of (node_tree tree.now)) by (node_tree below.now))) }
{
    match tree {
        Node::Align {
            info: _,
            by: aligner,
            input,
        } => { if by == *aligner { Some(input) } else { None } }
        _ => None,
    }
}

// What flows into a tree that is such a grouping.
fn grouped<'a>(tree: &'a Node, by: &Positions, with: &Aggregates) -> Option<&'a Node>
    ensures same { IfSome result (λ below. bare_tree (node_tree tree.now)
        ≡ bare_tree (node.GroupBy (info_of (node_tree tree.now)) by.now with.now (node_tree below.now))) }
{
    match tree {
        Node::GroupBy {
            info: _,
            by: places,
            with: folds,
            input,
        } => {
            if *by == *places && are_same_folds(with.as_slice(), folds.as_slice()) {
                Some(input)
            } else {
                None
            }
        }
        _ => None,
    }
}

// What flows into a tree that computes such items.
fn computed<'a>(tree: &'a Node, items: &[Item]) -> Option<&'a Node>
    ensures same { IfSome result (λ below. bare_tree (node_tree tree.now)
        ≡ bare_tree (node.Value (info_of (node_tree tree.now)) (map item_tree items.now) (node_tree below.now))) }
{
    match tree {
        Node::Value {
            info: _,
            items: others,
            input,
        } => {
            if are_same_items(items, others.as_slice()) {
                Some(input)
            } else {
                None
            }
        }
        _ => None,
    }
}

// What flows into a tree that is such a top.
fn cut(tree: &Node, most: u32, column: u32) -> Option<&Node>
    ensures same { IfSome result (λ below. bare_tree (node_tree tree.now)
        ≡ bare_tree (node.Top (info_of (node_tree tree.now)) most column (node_tree below.now))) }
{
    match tree {
        Node::Top {
            info: _,
            most: count,
            column: place,
            input,
        } => {
            if most == *count && column == *place {
                Some(input)
            } else {
                None
            }
        }
        _ => None,
    }
}

// Whether items add up the same.
fn are_same_items(items: &[Item], others: &[Item]) -> bool
    ensures same { IsTrue result
        → bare_items (map item_tree items.now) ≡ bare_items (map item_tree others.now) }
{
    let mut rest = others;
    for item in items {
        let Some((other, left)) = rest.split_first() else {
            return false;
        };
        if !are_same_sum(&item.sum, &other.sum) {
            return false;
        }
        rest = left;
    }
    rest.is_empty()
}
