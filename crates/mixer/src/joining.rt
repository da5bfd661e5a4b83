// The pieces of several children, part by part.
ghost use Rattle.std.specs.Prelude.{◌≡◌, ◌++◌, IfOk, length};
ghost use Rattle.std.specs.Vec.Iter.{into_iter_items, into_iter_len};
ghost use Rattle.mon_fold.specs.declared.answers.Piece.TheVariants as piece;
ghost use Rattle.std.specs.List.{AllByRecursion};
ghost use Rattle.typed_trees.specs.Nodes.{node_tree};
ghost use Rattle.typed_trees.specs.Levels as spec;
ghost use Rattle.mon_meaning.specs.TopParts.{up_to};
ghost use Rattle.mixer.specs.within.Joined.{AllCanJoin, AllStandEmpty, AreTogether, CanBeEmpty, CanJoin, CanJoinAll};
ghost use Rattle.mixer.specs.within.Joined.{CanJoinChildren, piece_joined, pieces_joined};
ghost use Rattle.mixer.specs.within.Joined as spec_joined;

use mon_fold::{Parts, Piece, Pieces, merge_parts};
use mon_meaning::{piece_of, top_parts};
use mon_value::{OutOfMemory, Table, TimedRows};
use std::alloc::Global;
use std::vec::IntoIter;
use typed_trees::{Level, Node};

/// The pieces of all children for the topmost parts of a tree. What the first child has is moved, and the others are
/// put to it.
pub(crate) fn pieces_together(
    alloc: Global,
    tree: &Node,
    below: Level,
    children: Vec<Pieces>,
) -> Result<Pieces, OutOfMemory>
    requires empty { AllByRecursion CanBeEmpty (spec.top_parts (up_to below) (node_tree tree.now)) }
    requires can { CanJoinAll children.items }
    ensures together { IfOk result (λ pieces.
        AreTogether (spec.top_parts (up_to below) (node_tree tree.now)) children.items pieces) }
{
    let mut children = children.into_iter();
    match children.next() {
        Some(first) => with_children(alloc, first, children),
        None => empty_pieces(alloc, tree, below),
    }
}

// A piece without rows for each topmost part.
fn empty_pieces(alloc: Global, tree: &Node, below: Level) -> Result<Pieces, OutOfMemory>
    requires can { AllByRecursion CanBeEmpty (spec.top_parts (up_to below) (node_tree tree.now)) }
    ensures empty { IfOk result (λ pieces.
        AllStandEmpty (spec.top_parts (up_to below) (node_tree tree.now)) pieces) }
{
    let mut pieces = Pieces::new(alloc);
    for part in top_parts(alloc, tree, below)? {
        pieces.push(piece_of(alloc, &part, TimedRows::new(alloc))?)?;
    }
    Ok(pieces)
}

// Pieces with those of more children.
fn with_children(
    alloc: Global,
    first: Pieces,
    children: IntoIter<Pieces>,
) -> Result<Pieces, OutOfMemory>
    requires can { CanJoinChildren first (into_iter_items children) }
    requires counted { into_iter_len children ≡ length (into_iter_items children) }
    ensures joined { IfOk result (λ joined. joined ≡ spec_joined.with_children first (into_iter_items children)) }
{
    let mut joined = first;
    for child in children {
        joined = joined_pieces(alloc, joined, child)?;
    }
    Ok(joined)
}

// The pieces of two children.
fn joined_pieces(alloc: Global, pieces: Pieces, others: Pieces) -> Result<Pieces, OutOfMemory>
    requires can { AllCanJoin pieces others }
    ensures joined { IfOk result (λ joined. joined ≡ pieces_joined pieces others) }
{
    let mut joined = Pieces::new(alloc);
    let mut others = others.into_vec().into_iter();
    for piece in pieces {
        match others.next() {
            Some(other) => joined.push(joined_piece(alloc, piece, other)?)?,
            None => joined.push(piece)?,
        }
    }
    Ok(joined)
}

// Two pieces of one part: the rows of both tables, or the groups of both, merged.
fn joined_piece(alloc: Global, piece: Piece, other: Piece) -> Result<Piece, OutOfMemory>
    requires can { CanJoin piece other }
    ensures joined { IfOk result (λ joined. joined ≡ piece_joined piece other) }
{
    match piece {
        Piece::Table(table) => Ok(Piece::Table(with_table(table, other)?)),
        Piece::Groups(groups) => Ok(Piece::Groups(with_groups(alloc, groups, other)?)),
    }
}

// The rows of both tables, under the columns of the first.
fn with_table(table: Table, other: Piece) -> Result<Table, OutOfMemory>
    ensures joined { IfOk result (λ joined. piece.Table joined ≡ piece_joined (piece.Table table) other) }
{
    match other {
        Piece::Table(more) => with_rows(table, more.rows),
        Piece::Groups(_groups) => Ok(table),
    }
}

// A table with more rows.
fn with_rows(table: Table, more: TimedRows) -> Result<Table, OutOfMemory>
    ensures rows { IfOk result (λ joined. joined ≡ record { columns = table.columns; rows = table.rows ++ more }) }
{
    let Table { columns, rows } = table;
    let mut rows = rows.into_vec();
    let mut more = more.into_vec();
    rows.append(&mut more)?;
    Ok(Table {
        columns,
        rows: TimedRows::from_vec(rows),
    })
}

// The groups of both, merged.
fn with_groups(alloc: Global, groups: Parts, other: Piece) -> Result<Parts, OutOfMemory>
    requires can { CanJoin (piece.Groups groups) other }
    ensures joined { IfOk result (λ joined. piece.Groups joined ≡ piece_joined (piece.Groups groups) other) }
{
    match other {
        Piece::Groups(more) => merged_groups(alloc, groups, more),
        Piece::Table(table) => {
            drop(table);
            Ok(groups)
        }
    }
}

// Groups, with those of other groups merged into them.
fn merged_groups(alloc: Global, groups: Parts, more: Parts) -> Result<Parts, OutOfMemory>
    requires can { CanJoin (piece.Groups groups) (piece.Groups more) }
    ensures joined { IfOk result (λ joined.
        piece.Groups joined ≡ piece_joined (piece.Groups groups) (piece.Groups more)) }
{
    let mut groups = groups;
    let merged = merge_parts(alloc, &mut groups, &more);
    drop(more);
    match merged {
        Ok(()) => Ok(groups),
        Err(stop) => {
            drop(groups);
            Err(stop)
        }
    }
}
