// Writing a row.
ghost use Rattle.std.specs.Prelude.{◌≡◌, ◌<◌, [], length, true, None, Some, IfErr, IfOk, IsErrOf, OnErr};
ghost use Rattle.history_book.specs.Seats.{IsPurseBorneOut, hand_of};
ghost use Rattle.know.specs.Sound.{IsSound};
ghost use Rattle.mon_config.specs.Configs.{range_of_key};
ghost use Rattle.mon_schema.specs.Fits.{fits};
ghost use Rattle.mon_topo.specs.HeldHistories.{IsAtHome};
ghost use Rattle.mon_topo.specs.Zones.{ranges_in};
ghost use Rattle.owners.specs.Puts.{pass_of};
ghost use Rattle.range_cell.specs.Writes.{HasWritten};
ghost use Rattle.mon_store.specs.Writes.{IsRefused, IsUnwritten, IsWritten};

use crate::leaves::SharedLeaves;
use crate::passes::Pass;
use crate::stores::Store;
use know::{Know, Names};
use mon_value::{Ack, Range, Row};
use range_cell::WriteFault;
use std::alloc::Global;
use std::sync::Wait;

impl<N: Names> Store<N> {
    /// Writes a row to the replicas of its range that serve, and acknowledges it where some replica took it. Memory is
    /// taken before the row is anywhere.
    pub fn write<R: Wait>(
        &self,
        rt: &R,
        alloc: Global,
        p: &mut Pass<N>,
        row: &Row,
    ) -> Result<Ack, WriteFault>
        requires fits { fits self.now.schemas row.now ≡ true }
        ensures written { IfOk result (IsWritten self.now row.now p.old p.new) }
        ensures no_zone { range_of_key self.now row.now.key ≡ None → IsErrOf result WriteFault.NoZone }
        ensures refused { IfErr result (IsRefused self.now row.now p.old p.new) }
        ensures nothing { OnErr result (IsUnwritten p.old p.new) }
    {
        match self.config.range_near(&row.key, &mut p.guess) {
            Some(range) => self.write_in(rt, alloc, &mut p.know, range, row),
            None => Err(WriteFault::NoZone),
        }
    }

    // Writes a row of a range.
    fn write_in<R: Wait>(
        &self,
        rt: &R,
        alloc: Global,
        know: &mut Know<N>,
        range: Range,
        row: &Row,
    ) -> Result<Ack, WriteFault>
        requires there { range.0 < length (ranges_in N.setting.zones) }
        requires none { know.old.purse.holds ≡ [] }
        requires number { (hand_of know.old.purse).own ≡ Some (pass_of know.old) }
        requires home { IsAtHome N.setting.held N.setting.zones range row.now }
        ensures written { HasWritten N.book.leaves range row.now N.setting.points (pass_of know.old) know.old know.new
            result }
        ensures borne_out { IsPurseBorneOut know.new.seen know.new.purse }
        ensures sound { IsSound N.setting know.new.hints know.new.seen }
    {
        let leaves = SharedLeaves {
            rt,
            tables: &self.tables,
            cells: self.leaves.as_slice(),
        };
        let cell = self.range_cell(range);
        let written = cell.write(rt, alloc, &self.tables, know, &leaves, row);
        know.confirm(&self.tables);
        written
    }
}
