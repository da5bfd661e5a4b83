// The rows of a typed tree, made of the pieces of its parts.
ghost use Rattle.std.specs.Prelude.{◌≡◌, ◌+◌, drop, length, IfErr, IfOk, OnOk};
ghost use Rattle.std.specs.Vec.Iter.{into_iter_items, into_iter_len};
ghost use Rattle.typed_trees.specs.Nodes.{node_tree};
ghost use Rattle.typed_trees.specs.Soundness.{IsWithinRows};
ghost use Rattle.mon_meaning.specs.Counts.{TellsOver};
ghost use Rattle.mon_meaning.specs.Operations as meant;
ghost use Rattle.mon_meaning.specs.Operations.{CanOperate};
ghost use Rattle.mon_meaning.specs.TopParts.{up_to};
ghost use Rattle.mixer.specs.Mixing.{part_count};
ghost use Rattle.mixer.specs.within.Mixtures as made;
ghost use Rattle.mixer.specs.within.Mixtures.{CanMix, OtherCanMix, first_piece_rows, joins_from, other_count};
ghost use Rattle.mixer.specs.within.Mixtures.{other_joins};
ghost use Rattle.mixer.specs.within.Mixtures.{rows_from};

use crate::paths::way_down;
use mon_fold::{Piece, finish_parts};
use mon_meaning::{Meter, OverLimit, operation_rows};
use mon_value::{OutOfMemory, Refusal, TimedRows};
use std::alloc::Global;
use std::vec::IntoIter;
use typed_trees::{Level, Node};

/// How rows are made of pieces: which level's pieces they are.
#[derive(Clone, Copy)]
pub(crate) struct MixtureSetting {
    pub alloc: Global,
    pub below: Level,
}

/// The rows of a tree, made of the next pieces: one for each of its topmost parts. The pairs of joins are counted. Only
/// right sides recurse: a text nests them, where it repeats operations and left sides.
#[cycle(mixtures)]
pub(crate) fn mixed_rows(
    setting: MixtureSetting,
    tree: &Node,
    pieces: &mut IntoIter<Piece>,
    meter: &mut Meter,
) -> Result<TimedRows, Refusal<OverLimit>>
    requires can { CanMix meter.old.load (up_to setting.below) (node_tree tree.now) (into_iter_items pieces.old) }
    requires items { into_iter_len pieces.old ≡ length (into_iter_items pieces.old) }
    ensures rows { IfOk result (λ rows. rows
        ≡ rows_from (up_to setting.below) (node_tree tree.now) (into_iter_items pieces.old)) }
    ensures left { OnOk result (into_iter_items pieces.new
        ≡ drop (part_count (up_to setting.below) (node_tree tree.now)) (into_iter_items pieces.old)) }
    ensures items { into_iter_len pieces.new ≡ length (into_iter_items pieces.new) }
    ensures limit { meter.new.limit ≡ meter.old.limit }
    ensures counted { OnOk result (meter.new.load ≡ meter.old.load
        + joins_from (up_to setting.below) (node_tree tree.now) (into_iter_items pieces.old)) }
    ensures over { IfErr result (TellsOver meter.old.limit (meter.old.load
        + joins_from (up_to setting.below) (node_tree tree.now) (into_iter_items pieces.old))) }
{
    let mut above = way_down(setting.alloc, tree, setting.below)?;
    let mut rows = next_rows(setting.alloc, pieces)?;
    while let Some(node) = above.pop() {
        rows = rows_above(setting, node, rows, pieces, meter)?;
    }
    Ok(rows)
}

// The rows of an operation on those that flow into it first. The next pieces are those of its right side.
#[cycle(mixtures)]
fn rows_above(
    setting: MixtureSetting,
    node: &Node,
    rows: TimedRows,
    pieces: &mut IntoIter<Piece>,
    meter: &mut Meter,
) -> Result<TimedRows, Refusal<OverLimit>>
    requires can { OtherCanMix meter.old.load (up_to setting.below) (node_tree node.now) (into_iter_items pieces.old) }
    requires operates { IsWithinRows (meter.old.load
        + other_joins (up_to setting.below) (node_tree node.now) (into_iter_items pieces.old))
        → CanOperate (node_tree node.now) rows
        (made.other_piece_rows (up_to setting.below) (node_tree node.now) (into_iter_items pieces.old)) }
    requires items { into_iter_len pieces.old ≡ length (into_iter_items pieces.old) }
    ensures rows { IfOk result (λ made_rows. made_rows ≡ meant.operation_rows (node_tree node.now) rows
        (made.other_piece_rows (up_to setting.below) (node_tree node.now) (into_iter_items pieces.old))) }
    ensures left { OnOk result (into_iter_items pieces.new
        ≡ drop (other_count (up_to setting.below) (node_tree node.now)) (into_iter_items pieces.old)) }
    ensures items { into_iter_len pieces.new ≡ length (into_iter_items pieces.new) }
    ensures limit { meter.new.limit ≡ meter.old.limit }
    ensures counted { OnOk result (meter.new.load ≡ meter.old.load
        + made.own_joins (up_to setting.below) (node_tree node.now) rows (into_iter_items pieces.old)) }
    ensures over { IfErr result (TellsOver meter.old.limit (meter.old.load
        + made.own_joins (up_to setting.below) (node_tree node.now) rows (into_iter_items pieces.old))) }
{
    let others = other_rows(setting, node, pieces, meter)?;
    operation_rows(setting.alloc, node, rows, others, meter)
}

// The rows of an operation's right side, and none where it has no such side.
#[cycle(mixtures)]
fn other_rows(
    setting: MixtureSetting,
    node: &Node,
    pieces: &mut IntoIter<Piece>,
    meter: &mut Meter,
) -> Result<TimedRows, Refusal<OverLimit>>
    requires can { OtherCanMix meter.old.load (up_to setting.below) (node_tree node.now) (into_iter_items pieces.old) }
    requires items { into_iter_len pieces.old ≡ length (into_iter_items pieces.old) }
    ensures rows { IfOk result (λ rows. rows
        ≡ made.other_piece_rows (up_to setting.below) (node_tree node.now) (into_iter_items pieces.old)) }
    ensures left { OnOk result (into_iter_items pieces.new
        ≡ drop (other_count (up_to setting.below) (node_tree node.now)) (into_iter_items pieces.old)) }
    ensures items { into_iter_len pieces.new ≡ length (into_iter_items pieces.new) }
    ensures limit { meter.new.limit ≡ meter.old.limit }
    ensures counted { OnOk result (meter.new.load ≡ meter.old.load
        + other_joins (up_to setting.below) (node_tree node.now) (into_iter_items pieces.old)) }
    ensures over { IfErr result (TellsOver meter.old.limit (meter.old.load
        + other_joins (up_to setting.below) (node_tree node.now) (into_iter_items pieces.old))) }
{
    match node {
        Node::Join {
            info: _,
            left: _,
            right,
        } => mixed_rows(setting, right, pieces, meter),
        Node::Union {
            info: _,
            left: _,
            right,
        } => mixed_rows(setting, right, pieces, meter),
        _ => Ok(TimedRows::new(setting.alloc)),
    }
}

// The rows of the next piece: those of a table, or those that groups finish to.
fn next_rows(alloc: Global, pieces: &mut IntoIter<Piece>) -> Result<TimedRows, OutOfMemory>
    requires items { into_iter_len pieces.old ≡ length (into_iter_items pieces.old) }
    ensures rows { IfOk result (λ rows. rows ≡ first_piece_rows (into_iter_items pieces.old)) }
    ensures left { into_iter_items pieces.new ≡ drop 1 (into_iter_items pieces.old) }
    ensures items { into_iter_len pieces.new ≡ length (into_iter_items pieces.new) }
{
    match pieces.next() {
        Some(piece) => rows_of_piece(alloc, piece),
        None => Ok(TimedRows::new(alloc)),
    }
}

fn rows_of_piece(alloc: Global, piece: Piece) -> Result<TimedRows, OutOfMemory>
    ensures rows { IfOk result (λ rows. rows ≡ made.finished_rows piece) }
{
    match piece {
        Piece::Table(table) => Ok(table.rows),
        Piece::Groups(groups) => Ok(finish_parts(alloc, groups)?.rows),
    }
}
