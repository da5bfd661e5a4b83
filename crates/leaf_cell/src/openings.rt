// Replicas that are opened on a leaf.
ghost use Rattle.std.specs.Prelude.{◌≡◌, ℕ, true, IfOk, OnErr};
ghost use Rattle.know.specs.Sound.{known_bits};
ghost use Rattle.leaf_cell.specs.Raising.{HasRaisedRow, rows_unraised};
ghost use Rattle.leaf_cell.specs.Rest.{GoesBy, IsAtRest};
ghost use Rattle.mon_hints.specs.Covers.{IsRaised};
ghost use Rattle.mon_topo.specs.Settings.{zone_of_leaf};
ghost use Rattle.mon_value.specs.declared.histories.Entry.TheVariants as entry;
ghost use Rattle.owners.specs.Calls.{HasLooked};
ghost use Rattle.owners.specs.Openings.{HasOpened, MayOpen};
ghost use Rattle.owners.specs.Puts.{pass_of};

use crate::desks::LeafDesk;
use history_book::RoomMove;
use know::{Found, Know, Names, Tables};
use leaf_store::Entry;
use mon_value::{OutOfMemory, Range, Row, RowList, Slot};
use std::alloc::AllocError;
use std::marker::Brand;

impl<N: Names> LeafDesk<N> {
    /// Opens a replica with these rows, where the leaf is up.
    pub(crate) fn opened(
        &mut self,
        tables: &Tables<N>,
        know: &mut Know<N>,
        range: Range,
        slot: Slot,
        rows: RowList,
    ) -> Result<Found, OutOfMemory>
        requires rest { IsAtRest N.setting N.raise self.old.owner.leaf.0 self.old.state self.old.owner }
        requires may { MayOpen N.setting know.old self.old.owner.leaf range slot rows }
        ensures rest { IsAtRest N.setting N.raise self.old.owner.leaf.0 self.new.state self.new.owner }
        ensures opened { IfOk result (λ found. HasOpened self.old.owner.leaf
            (entry.Opened (pass_of know.old) range slot rows) found know.old know.new) }
        ensures refused { OnErr result (HasLooked self.old.owner.leaf know.old.purse.rooms know.old know.new) }
    {
        let Some(pass) = know.number() else {
            unreachable!();
        };
        let length = self.owner.receive(tables, know);
        if self.state.down() {
            self.owner.part(tables, know, RoomMove::Keep);
            return Ok(Found::Down(length));
        }
        if self.state.reserve_opened(&rows).is_err() {
            self.owner.part(tables, know, RoomMove::Keep);
            return Err(AllocError);
        }
        self.raise_rows(tables, rows.as_slice());
        self.enter::<Brand>(
            tables,
            Entry::Opened {
                pass,
                range,
                slot,
                rows,
            },
            None,
        );
        self.owner.part(tables, know, RoomMove::Keep);
        Ok(Found::Up)
    }

    // Raises what the history lacks of the buckets of some rows' series.
    fn raise_rows(&mut self, tables: &Tables<N>, rows: &[Row])
        requires goes_by { GoesBy N.setting N.raise self.old.state }
        ensures raised { HasRaisedRow (rows_unraised self.old.state.buckets self.old.state.schemas
            self.old.state.history rows.now) self.old.owner.hints self.new.owner.hints }
        ensures leads { (bucket : ℕ) → rows_unraised self.old.state.buckets self.old.state.schemas
            self.old.state.history rows.now bucket ≡ true → IsRaised (known_bits N.setting self.new.owner.hints.hints)
            (zone_of_leaf N.setting self.new.owner.leaf) self.new.owner.leaf bucket }
        ensures book { self.new.owner.book ≡ self.old.owner.book }
        ensures leaf { self.new.owner.leaf ≡ self.old.owner.leaf }
        ensures state { self.new.state ≡ self.old.state }
    {
        for row in rows {
            self.raise_row(tables, &row.key);
        }
    }
}
