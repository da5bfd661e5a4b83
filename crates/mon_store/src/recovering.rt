// Opening a replica of a range on one leaf more.
ghost use Rattle.std.specs.Prelude.{◌≡◌, [], IfErr, IfOk, OnErr};
ghost use Rattle.mon_topo.specs.RangeHistories.{IsInZoneOf};
ghost use Rattle.mon_store.specs.Passes.{IsPass};
ghost use Rattle.mon_store.specs.Recoveries.{IsNotRecovered, IsRecovered, IsUnrecovered};

use crate::leaves::SharedLeaves;
use crate::passes::Pass;
use crate::stores::Store;
use know::{Know, Names};
use mon_value::{Leaf, Range, Slot};
use range_cell::RecoverFault;
use std::alloc::Global;
use std::sync::Wait;

impl<N: Names> Store<N> {
    /// Opens one replica more of a range on a leaf of its zone, with the rows that are left of the range: acknowledged,
    /// and hidden by no trim behind them. It tells the slot. The rows are copied from the first replica that serves whose
    /// leaf is up. A leaf that missed rows while it was down is written to and read again once it is recovered. No row of
    /// the range is written meanwhile.
    pub fn recover<R: Wait>(
        &self,
        rt: &R,
        alloc: Global,
        p: &mut Pass<N>,
        range: Range,
        leaf: Leaf,
    ) -> Result<Slot, RecoverFault>
        requires zoned { IsInZoneOf self.now.topology range leaf }
        ensures recovered { IfOk result (IsRecovered self.now range leaf p.old p.new) }
        ensures refused { IfErr result (IsNotRecovered self.now range leaf p.old p.new) }
        ensures nothing { OnErr result (IsUnrecovered p.old p.new) }
    {
        self.recover_in(rt, alloc, &mut p.know, range, leaf)
    }

    // Opens one replica more of a range on a leaf.
    fn recover_in<R: Wait>(
        &self,
        rt: &R,
        alloc: Global,
        know: &mut Know<N>,
        range: Range,
        leaf: Leaf,
    ) -> Result<Slot, RecoverFault>
        requires zoned { IsInZoneOf self.now.topology range leaf }
        requires pass { IsPass N.setting know.old }
        ensures recovered { IfOk result (IsRecovered self.now range leaf know.old know.new) }
        ensures refused { IfErr result (IsNotRecovered self.now range leaf know.old know.new) }
        ensures nothing { OnErr result (IsUnrecovered know.old know.new) }
        ensures pass { IsPass N.setting know.new }
    {
        let tables = &self.tables;
        let leaves = SharedLeaves {
            rt,
            tables,
            cells: self.leaves.as_slice(),
        };
        let cell = self.range_cell(range);
        let recovered = cell.recover(rt, alloc, tables, know, &leaves, leaf);
        know.confirm(tables);
        recovered
    }
}
