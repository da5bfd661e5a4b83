// Hiding the older rows of a range.
ghost use Rattle.std.specs.Prelude.{◌<◌, ◌≤ℤ◌, length, pos, IfErr, IfOk, OnErr};
ghost use Rattle.mon_topo.specs.Zones.{ranges_in};
ghost use Rattle.mon_store.specs.Passes.{IsPass};
ghost use Rattle.mon_store.specs.Trims.{IsNotTrimmed, IsTrimmed};
ghost use Rattle.mon_store.specs.Writes.{IsUnwritten};

use crate::leaves::SharedLeaves;
use crate::passes::Pass;
use crate::stores::Store;
use know::{Know, Names};
use mon_value::{Ack, Range};
use range_cell::TrimFault;
use std::alloc::Global;
use std::sync::Wait;

impl<N: Names> Store<N> {
    /// Hides the rows of a range that end before a bound, at the replicas that serve, and acknowledges the bound where
    /// some replica took it. A replica that missed it serves no longer. Rows that come later stand, whatever their ends.
    /// Memory is taken before the bound is anywhere, and none is freed.
    pub fn trim<R: Wait>(
        &self,
        rt: &R,
        alloc: Global,
        p: &mut Pass<N>,
        range: Range,
        before: i64,
    ) -> Result<Ack, TrimFault>
        requires there { range.0 < length (ranges_in self.now.topology) }
        requires moment { pos 0 ≤ℤ before }
        ensures trimmed { IfOk result (IsTrimmed self.now range before p.old p.new) }
        ensures refused { IfErr result (IsNotTrimmed self.now range p.old p.new) }
        ensures nothing { OnErr result (IsUnwritten p.old p.new) }
    {
        self.trim_in(rt, alloc, &mut p.know, range, before)
    }

    // Hides the rows of a range that end before a bound.
    fn trim_in<R: Wait>(
        &self,
        rt: &R,
        alloc: Global,
        know: &mut Know<N>,
        range: Range,
        before: i64,
    ) -> Result<Ack, TrimFault>
        requires there { range.0 < length (ranges_in self.now.topology) }
        requires pass { IsPass N.setting know.old }
        ensures trimmed { IfOk result (IsTrimmed self.now range before know.old know.new) }
        ensures refused { IfErr result (IsNotTrimmed self.now range know.old know.new) }
        ensures nothing { OnErr result (IsUnwritten know.old know.new) }
        ensures pass { IsPass N.setting know.new }
    {
        let tables = &self.tables;
        let leaves = SharedLeaves {
            rt,
            tables,
            cells: self.leaves.as_slice(),
        };
        let cell = self.range_cell(range);
        let trimmed = cell.trim(rt, alloc, tables, know, &leaves, before);
        know.confirm(tables);
        trimmed
    }
}
