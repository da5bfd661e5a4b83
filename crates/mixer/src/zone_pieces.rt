// What a zone hands up, of what its leaves do.
ghost use Rattle.std.specs.Prelude.{◌≡◌, ◌+◌, length, IfErr, IfOk, OnOk};
ghost use Rattle.std.specs.Vec.Iter.{into_iter_items, into_iter_len};
ghost use Rattle.mon_fold.specs.declared.answers.Piece.TheVariants as piece;
ghost use Rattle.typed_trees.specs.Levels.{is_leaf, in_zone};
ghost use Rattle.typed_trees.specs.Nodes.{node_tree};
ghost use Rattle.typed_trees.specs.Levels as spec;
ghost use Rattle.mon_meaning.specs.Counts.{TellsOver};
ghost use Rattle.mon_meaning.specs.TopParts.{part_seen, use_seen};
ghost use Rattle.mixer.specs.within.Mixtures.{joins_from};
ghost use Rattle.mixer.specs.within.ZonePieces.{AreHandedUp, CanHandUp, CanHandUpAll, IsHandedUp, behind_part};
ghost use Rattle.mixer.specs.within.ZonePieces.{joins_of_parts, piece_cut};

use crate::mixtures::{MixtureSetting, mixed_rows};
use mon_fold::{Piece, Pieces};
use mon_meaning::{GoesUp, Meter, OverLimit, TopPart, is_up_to, piece_of, top_parts, top_rows};
use mon_value::{OutOfMemory, Refusal, Table};
use std::alloc::Global;
use std::vec::IntoIter;
use typed_trees::{Level, Node};

/// A piece for each part of a tree that is topmost in a zone, made of those of its leaves. The pairs of joins are
/// counted.
pub(crate) fn zone_pieces(
    alloc: Global,
    tree: &Node,
    pieces: Pieces,
    meter: &mut Meter,
) -> Result<Pieces, Refusal<OverLimit>>
    requires can { CanHandUpAll meter.old.load (spec.top_parts in_zone (node_tree tree.now)) pieces }
    ensures pieces { IfOk result (λ made. AreHandedUp (spec.top_parts in_zone (node_tree tree.now)) pieces made) }
    ensures limit { meter.new.limit ≡ meter.old.limit }
    ensures counted { OnOk result (meter.new.load
        ≡ meter.old.load + joins_of_parts (spec.top_parts in_zone (node_tree tree.now)) pieces) }
    ensures over { IfErr result (TellsOver meter.old.limit
        (meter.old.load + joins_of_parts (spec.top_parts in_zone (node_tree tree.now)) pieces)) }
{
    let mut pieces = pieces.into_vec().into_iter();
    let mut made = Pieces::new(alloc);
    for part in top_parts(alloc, tree, Level::Zone)? {
        let piece = zone_piece(alloc, &part, &mut pieces, meter)?;
        made.push(piece)?;
    }
    Ok(made)
}

// The piece of a part: the next one, where leaves do all of the part, and else one of the rows that the next are made
// to.
fn zone_piece(
    alloc: Global,
    part: &TopPart<'_>,
    pieces: &mut IntoIter<Piece>,
    meter: &mut Meter,
) -> Result<Piece, Refusal<OverLimit>>
    requires can { CanHandUp meter.old.load (part_seen part.now) (into_iter_items pieces.old) }
    requires items { into_iter_len pieces.old ≡ length (into_iter_items pieces.old) }
    ensures piece { IfOk result (λ made. IsHandedUp (part_seen part.now) (into_iter_items pieces.old) made) }
    ensures left { OnOk result (into_iter_items pieces.new
        ≡ behind_part (part_seen part.now) (into_iter_items pieces.old)) }
    ensures items { into_iter_len pieces.new ≡ length (into_iter_items pieces.new) }
    ensures limit { meter.new.limit ≡ meter.old.limit }
    ensures counted { OnOk result (meter.new.load
        ≡ meter.old.load + joins_from is_leaf (node_tree part.now.part.now) (into_iter_items pieces.old)) }
    ensures over { IfErr result (TellsOver meter.old.limit
        (meter.old.load + joins_from is_leaf (node_tree part.now.part.now) (into_iter_items pieces.old))) }
{
    if is_up_to(part.part.info().level, Level::Leaf) {
        let Some(piece) = pieces.next() else {
            unreachable!()
        };
        return Ok(cut_piece(alloc, part.goes_up, piece)?);
    }
    let setting = MixtureSetting {
        alloc,
        below: Level::Leaf,
    };
    let rows = mixed_rows(setting, part.part, pieces, meter)?;
    Ok(piece_of(alloc, part, rows)?)
}

// A piece of several leaves, cut to the rows that come first where it is to be cut: each leaf sends its own.
fn cut_piece(alloc: Global, goes_up: GoesUp<'_>, piece: Piece) -> Result<Piece, OutOfMemory>
    ensures cut { IfOk result (λ cut. cut ≡ piece_cut (use_seen goes_up.entry) piece) }
{
    match piece {
        Piece::Table(table) => Ok(Piece::Table(cut_table(alloc, goes_up, table)?)),
        Piece::Groups(groups) => Ok(Piece::Groups(groups)),
    }
}

fn cut_table(alloc: Global, goes_up: GoesUp<'_>, table: Table) -> Result<Table, OutOfMemory>
    ensures cut { IfOk result (λ cut. piece.Table cut ≡ piece_cut (use_seen goes_up.entry) (piece.Table table)) }
{
    match goes_up {
        GoesUp::AsRows => Ok(table),
        GoesUp::ToGroup(_, _) => Ok(table),
        GoesUp::ToCut(most, column) => {
            let Table { columns, rows } = table;
            let rows = top_rows(alloc, most, column, rows)?;
            Ok(Table { columns, rows })
        }
    }
}
