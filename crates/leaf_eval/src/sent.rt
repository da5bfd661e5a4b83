// How much is sent.
ghost use Rattle.std.specs.Prelude.{◌≡◌};
ghost use Rattle.mon_meaning.specs.GoingUp.{items_sent};

use mon_fold::Piece;

/// How many rows, or groups, a piece has.
pub(crate) fn sent_of(piece: &Piece) -> usize
    ensures sent { result ≡ items_sent piece.now }
{
    match piece {
        Piece::Table(table) => table.rows.len(),
        Piece::Groups(groups) => groups.len(),
    }
}
