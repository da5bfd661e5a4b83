// Which replicas of a range serve.
ghost use Rattle.std.specs.Prelude.{◌<◌, length, IfOk};
ghost use Rattle.mon_topo.specs.Zones.{ranges_in};
ghost use Rattle.mon_store.specs.Passes.{IsPass};
ghost use Rattle.mon_store.specs.Serving.{IsListed};
ghost use Rattle.mon_store.specs.Writes.{IsUnwritten};

use crate::passes::Pass;
use crate::stores::Store;
use know::{Know, Names};
use mon_value::{OutOfMemory, Range, SlotLeaves};
use std::sync::Wait;

impl<N: Names> Store<N> {
    /// The replicas of a range that serve, in the order of their slots. Nothing changes but what the caller has seen.
    pub fn serving<R: Wait>(
        &self,
        rt: &R,
        p: &mut Pass<N>,
        range: Range,
    ) -> Result<SlotLeaves, OutOfMemory>
        requires there { range.0 < length (ranges_in self.now.topology) }
        ensures listed { IfOk result (IsListed self.now range p.old p.new) }
        ensures nothing { IsUnwritten p.old p.new }
    {
        self.list(rt, &mut p.know, range)
    }

    // Lists the replicas of a range that serve.
    fn list<R: Wait>(
        &self,
        rt: &R,
        know: &mut Know<N>,
        range: Range,
    ) -> Result<SlotLeaves, OutOfMemory>
        requires there { range.0 < length (ranges_in self.now.topology) }
        requires pass { IsPass N.setting know.old }
        ensures listed { IfOk result (IsListed self.now range know.old know.new) }
        ensures nothing { IsUnwritten know.old know.new }
        ensures pass { IsPass N.setting know.new }
    {
        let tables = &self.tables;
        let cell = self.range_cell(range);
        let told = cell.serving(rt, tables, know);
        know.confirm(tables);
        told
    }
}
