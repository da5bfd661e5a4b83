// The leaves of a store, as writes and recoveries meet them.
ghost use Rattle.std.specs.Prelude.{◌≡◌, ◌<◌, length};
ghost use Rattle.mon_topo.specs.Zones.{leaves_in};
ghost use Rattle.mon_store.specs.Stores.{AreLeafCells};

use know::{Copied, Found, Know, Names, Tables};
use leaf_cell::LeafCell;
use mon_value::{Leaf, OutOfMemory, Range, Row, RowList, Slot};
use range_cell::LeafSide;
use std::sync::Wait;

/// The cells of the leaves, with the tables and what waits for their locks.
#[derive(Drop)]
pub(crate) struct SharedLeaves<'a, N: Names, R: Wait> {
    pub rt: &'a R,
    pub tables: &'a Tables<N>,
    pub cells: &'a [LeafCell<N>],
    ghost numbered: { AreLeafCells N.setting cells.now },
}

impl<'a, N: Names, R: Wait> SharedLeaves<'a, N, R> {
    // The cell of a leaf.
    #[tactic(auto, using(crate::proofs::CellLemmas::cell_there, crate::proofs::CellLemmas::cell_is))]
    fn cell(&self, leaf: Leaf) -> &LeafCell<N>
        requires there { leaf.0 < length (leaves_in N.setting.zones) }
        ensures cell { result.now ≡ leaf.0 }
    {
        &self.cells[leaf.0 as usize]
    }
}

impl<'a, N: Names, R: Wait> LeafSide<N> for SharedLeaves<'a, N, R> {
    fn reserve(
        &self,
        leaf: Leaf,
        know: &mut Know<N>,
        range: Range,
        slot: Slot,
        row: &Row,
    ) -> Result<Found, OutOfMemory> {
        self.cell(leaf)
            .reserve(self.rt, self.tables, know, range, slot, row)
    }

    fn put(&self, leaf: Leaf, know: &mut Know<N>, range: Range, slot: Slot, row: Row) -> Found {
        self.cell(leaf)
            .put(self.rt, self.tables, know, range, slot, row)
    }

    fn reserve_trim(
        &self,
        leaf: Leaf,
        know: &mut Know<N>,
        range: Range,
        slot: Slot,
    ) -> Result<Found, OutOfMemory> {
        self.cell(leaf)
            .reserve_trim(self.rt, self.tables, know, range, slot)
    }

    fn trim(&self, leaf: Leaf, know: &mut Know<N>, range: Range, slot: Slot, before: i64) -> Found {
        self.cell(leaf)
            .trim(self.rt, self.tables, know, range, slot, before)
    }

    fn cancel(&self, leaf: Leaf, know: &mut Know<N>) {
        self.cell(leaf).cancel(self.rt, self.tables, know);
    }

    fn copy(
        &self,
        leaf: Leaf,
        know: &mut Know<N>,
        range: Range,
        slot: Slot,
    ) -> Result<Copied, OutOfMemory> {
        self.cell(leaf)
            .copy(self.rt, self.tables, know, range, slot)
    }

    fn opened(
        &self,
        leaf: Leaf,
        know: &mut Know<N>,
        range: Range,
        slot: Slot,
        rows: RowList,
    ) -> Result<Found, OutOfMemory> {
        self.cell(leaf)
            .opened(self.rt, self.tables, know, range, slot, rows)
    }
}
