// The parts of a tree of which pieces go up.
ghost use Rattle.std.specs.Prelude.{◌≡◌, ◌<◌, ◌+◌, ◌++◌, ◌∷◌, [], Bool, false, IfOk, OnOk};
ghost use Rattle.typed_trees.specs.Nodes.{level_of, node_tree};
ghost use Rattle.typed_trees.specs.Levels as spec;
ghost use Rattle.mon_meaning.specs.TopParts.{parts_seen, up_to};
ghost use Rattle.typed_trees.specs.ExplanationParts.{nodes};
ghost use Rattle.mon_meaning.specs.within.PartsToCome.{part_nodes, parts_left, nodes_left};
ghost use Rattle.mon_meaning.specs.within.PartsToCome as come;

use mon_value::{Aggregates, OutOfMemory, Positions};
use std::alloc::Global;
use typed_trees::{Level, Node};

/// What of a part's rows goes up: all of them; their groups, with aggregates that aren't finished; or so many that come
/// first at each time by a column.
#[derive(Clone, Copy)]
pub enum GoesUp<'a> {
    AsRows,
    ToGroup(&'a Positions, &'a Aggregates),
    ToCut(u32, u32),
}

/// A part of a tree, and what of it goes up.
#[derive(Clone, Copy)]
pub struct TopPart<'a> {
    pub part: &'a Node,
    pub goes_up: GoesUp<'a>,
}

impl<'a> TopPart<'a> {
    // A part whose rows go up.
    fn of_rows(part: &'a Node) -> TopPart<'a>
        ensures part { come.part_seen result ≡ come.as_rows (node_tree part.now) }
    {
        TopPart {
            part,
            goes_up: GoesUp::AsRows,
        }
    }
}

/// The topmost parts of a tree that are done at a level or below it, from the left. The parts to come are kept in a
/// list, since a query may have many thousand operations or branches.
#[tactic(auto, using(crate::proofs::PartsToComeLemmas::parts_pushed))]
pub fn top_parts<'a>(
    alloc: Global,
    tree: &'a Node,
    highest: Level,
) -> Result<Vec<TopPart<'a>>, OutOfMemory>
    ensures parts { IfOk result (λ parts.
        parts_seen parts.items ≡ spec.top_parts (up_to highest) (node_tree tree.now)) }
{
    let mut parts = Vec::new(alloc);
    let mut rest = Vec::new(alloc);
    rest.push(TopPart::of_rows(tree))?;
    while let Some(part) = rest.pop() {
        add_part(&mut parts, &mut rest, part, highest)?;
    }
    Ok(parts)
}

// Adds a part that is done here, or puts what flows into it among the parts to come.
fn add_part<'a>(
    parts: &mut Vec<TopPart<'a>>,
    rest: &mut Vec<TopPart<'a>>,
    part: TopPart<'a>,
    highest: Level,
) -> Result<(), OutOfMemory>
    ensures parts { OnOk result (parts_seen parts.new.items ++ parts_left (up_to highest) rest.new.items
        ≡ parts_seen parts.old.items
        ++ (come.parts_of_part (up_to highest) (come.part_seen part.entry)
        ++ parts_left (up_to highest) rest.old.items)) }
    ensures less { OnOk result (nodes_left rest.new.items < nodes_left rest.old.items + part_nodes part.entry) }
{
    if is_up_to(part.part.info().level, highest) {
        parts.push(part)?;
        return Ok(());
    }
    add_below(parts, rest, part.part, highest)
}

// Puts what flows into a node among the parts to come, the first of it last. A source is a part in any case.
fn add_below<'a>(
    parts: &mut Vec<TopPart<'a>>,
    rest: &mut Vec<TopPart<'a>>,
    node: &'a Node,
    highest: Level,
) -> Result<(), OutOfMemory>
    requires higher { up_to highest (level_of (node_tree node.now)) ≡ false }
    ensures parts { OnOk result (parts_seen parts.new.items ++ parts_left (up_to highest) rest.new.items
        ≡ parts_seen parts.old.items
        ++ (spec.top_parts (up_to highest) (node_tree node.now) ++ parts_left (up_to highest) rest.old.items)) }
    ensures less { OnOk result (nodes_left rest.new.items
        < nodes_left rest.old.items + nodes (node_tree node.now)) }
{
    match node {
        Node::Fetch { .. } | Node::Align { .. } => add_source(parts, node),
        Node::Filter { input, .. } | Node::Value { input, .. } => {
            put_part(rest, TopPart::of_rows(input))
        }
        Node::GroupBy {
            info: _,
            by,
            with,
            input,
        } => put_part(
            rest,
            TopPart {
                part: input,
                goes_up: GoesUp::ToGroup(by, with),
            },
        ),
        Node::Top {
            info: _,
            most,
            column,
            input,
        } => put_part(
            rest,
            TopPart {
                part: input,
                goes_up: GoesUp::ToCut(*most, *column),
            },
        ),
        Node::Join { left, right, .. } | Node::Union { left, right, .. } => {
            put_sides(rest, left, right)
        }
    }
}

// Adds a source to the parts.
fn add_source<'a>(parts: &mut Vec<TopPart<'a>>, source: &'a Node) -> Result<(), OutOfMemory>
    ensures added { OnOk result
        (parts_seen parts.new.items ≡ parts_seen parts.old.items ++ come.as_rows (node_tree source.now) ∷ []) }
{
    parts.push(TopPart::of_rows(source))?;
    Ok(())
}

// Puts a part among the parts to come, as the next of them.
#[tactic(auto, using(crate::proofs::PartsToComeLemmas::parts_pushed))]
fn put_part<'a>(rest: &mut Vec<TopPart<'a>>, part: TopPart<'a>) -> Result<(), OutOfMemory>
    ensures left { (here : Level → Bool) → OnOk result (parts_left here rest.new.items
        ≡ come.parts_of_part here (come.part_seen part.entry) ++ parts_left here rest.old.items) }
    ensures nodes { OnOk result (nodes_left rest.new.items ≡ part_nodes part.entry + nodes_left rest.old.items) }
{
    rest.push(part)?;
    Ok(())
}

// Puts both sides of an operation among the parts to come, the left one first.
fn put_sides<'a>(
    rest: &mut Vec<TopPart<'a>>,
    left: &'a Node,
    right: &'a Node,
) -> Result<(), OutOfMemory>
    ensures left { (here : Level → Bool) → OnOk result (parts_left here rest.new.items
        ≡ spec.top_parts here (node_tree left.now) ++ spec.top_parts here (node_tree right.now)
        ++ parts_left here rest.old.items) }
    ensures nodes { OnOk result (nodes_left rest.new.items
        ≡ nodes (node_tree left.now) + nodes (node_tree right.now) + nodes_left rest.old.items) }
{
    rest.push(TopPart::of_rows(right))?;
    rest.push(TopPart::of_rows(left))?;
    Ok(())
}

/// Whether a level is another or below it.
pub fn is_up_to(level: Level, highest: Level) -> bool
    ensures up_to { result ≡ up_to highest level }
{
    match highest {
        Level::Leaf => level == Level::Leaf,
        Level::Zone => level != Level::Root,
        Level::Root => true,
    }
}
