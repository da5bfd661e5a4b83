// Retiring replicas.
ghost use Rattle.std.specs.Prelude.{◌<◌, length, IfErr, IfOk, OnErr};
ghost use Rattle.mon_topo.specs.Zones.{ranges_in};
ghost use Rattle.mon_store.specs.Passes.{IsPass};
ghost use Rattle.mon_store.specs.Retirements.{IsNotRetired, IsRetired};
ghost use Rattle.mon_store.specs.Writes.{IsUnwritten};

use crate::passes::Pass;
use crate::stores::Store;
use know::{Know, Names};
use mon_value::{Leaf, Range, Slot};
use range_cell::RetireFault;
use std::sync::Wait;

impl<N: Names> Store<N> {
    /// Ends the service of a range's replica on a leaf, and tells its slot. It is neither written to nor read from then
    /// on, and its leaf may get another one. The last replica that serves goes on. No memory is taken.
    pub fn retire<R: Wait>(
        &self,
        rt: &R,
        p: &mut Pass<N>,
        range: Range,
        leaf: Leaf,
    ) -> Result<Slot, RetireFault>
        requires there { range.0 < length (ranges_in self.now.topology) }
        ensures retired { IfOk result (IsRetired self.now range leaf p.old p.new) }
        ensures refused { IfErr result (IsNotRetired self.now range leaf p.old p.new) }
        ensures nothing { OnErr result (IsUnwritten p.old p.new) }
    {
        self.withdraw(rt, &mut p.know, range, leaf)
    }

    // Ends the service of the replica on a leaf.
    fn withdraw<R: Wait>(
        &self,
        rt: &R,
        know: &mut Know<N>,
        range: Range,
        leaf: Leaf,
    ) -> Result<Slot, RetireFault>
        requires there { range.0 < length (ranges_in self.now.topology) }
        requires pass { IsPass N.setting know.old }
        ensures retired { IfOk result (IsRetired self.now range leaf know.old know.new) }
        ensures refused { IfErr result (IsNotRetired self.now range leaf know.old know.new) }
        ensures nothing { OnErr result (IsUnwritten know.old know.new) }
        ensures pass { IsPass N.setting know.new }
    {
        let tables = &self.tables;
        let cell = self.range_cell(range);
        let retired = cell.retire(rt, tables, know, leaf);
        know.confirm(tables);
        retired
    }
}
