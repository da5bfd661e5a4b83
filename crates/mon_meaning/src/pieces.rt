// What goes up of a part's rows.
ghost use Rattle.std.specs.Prelude.{◌≡◌, IfOk};
ghost use Rattle.mon_value.specs.Groups as spec;
ghost use Rattle.typed_trees.specs.Nodes.{columns_of, node_tree};
ghost use Rattle.mon_meaning.specs.GoingUp.{CanGoUp};
ghost use Rattle.mon_meaning.specs.Standing.{StandsFor};
ghost use Rattle.mon_meaning.specs.TopParts.{use_seen};

use crate::operations::table_of;
use crate::parts_up::{GoesUp, TopPart};
use crate::tops::top_rows;
use mon_fold::{Piece, group};
use mon_value::{OutOfMemory, Table, TimedRows};
use std::alloc::Global;

/// The piece of a part that has come to these rows.
pub fn piece_of(alloc: Global, part: &TopPart<'_>, rows: TimedRows) -> Result<Piece, OutOfMemory>
    requires can { CanGoUp (columns_of (node_tree part.now.part.now)) (use_seen part.now.goes_up) rows }
    ensures stands { IfOk result (λ piece.
        StandsFor (columns_of (node_tree part.now.part.now)) (use_seen part.now.goes_up, rows) piece) }
{
    let table = table_of(alloc, &part.part.info().columns, rows)?;
    match part.goes_up {
        GoesUp::AsRows => Ok(Piece::Table(table)),
        GoesUp::ToGroup(by, with) => Ok(Piece::Groups(group(alloc, &table, by, with)?)),
        GoesUp::ToCut(most, column) => Ok(Piece::Table(cut_table(alloc, most, column, table)?)),
    }
}

// The rows of a table that come first at each time.
fn cut_table(alloc: Global, most: u32, column: u32, table: Table) -> Result<Table, OutOfMemory>
    ensures cut { IfOk result (λ cut.
        cut ≡ record { columns = table.columns; rows = spec.top_rows most column table.rows }) }
{
    let Table { columns, rows } = table;
    let rows = top_rows(alloc, most, column, rows)?;
    Ok(Table { columns, rows })
}
