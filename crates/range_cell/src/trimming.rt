// How rows of a range that end before a bound are hidden.
ghost use Rattle.std.specs.Prelude.{◌≡◌, ◌<◌, [], length, Some, IfOk, OnErr, OnOk};
ghost use Rattle.history_book.specs.Seats.{hand_of};
ghost use Rattle.know.specs.Sound.{IsSound};
ghost use Rattle.mon_topo.specs.RangeHistories.{serving};
ghost use Rattle.mon_topo.specs.Zones.{ranges_in};
ghost use Rattle.owners.specs.Puts.{pass_of};
ghost use Rattle.range_cell.specs.Calls.{HasBegun, HasMetRange};
ghost use Rattle.range_cell.specs.Rest.{IsRangeAtRest, IsRangeHeld};
ghost use Rattle.range_cell.specs.Trims.{HasTrimmed};
ghost use Rattle.write_core.specs.Replays.{HasAckRoom};

use crate::answers::TrimFault;
use crate::deeds::Deed;
use crate::desks::RangeDesk;
use crate::sides::LeafSide;
use know::{Know, Names, Tables};
use mon_value::{Ack, OutOfMemory, Range, SlotLeaves};
use std::alloc::Global;
use std::sync::Wait;
use write_core::RangeReplay;

impl<N: Names> RangeDesk<N> {
    /// Hides the rows that end before a bound, behind the lock of its range, which is this one. Memory is taken at the
    /// lock, and where leaves are asked for room.
    pub(crate) fn trim<R: Wait, S: LeafSide<N>>(
        &mut self,
        rt: &R,
        alloc: Global,
        tables: &Tables<N>,
        know: &mut Know<N>,
        leaves: &S,
        range: Range,
        before: i64,
    ) -> Result<Ack, TrimFault>
        requires rest { IsRangeAtRest self.old.owner.range.0 self.old.replay self.old.owner }
        requires range { range ≡ self.old.owner.range }
        requires none { know.old.purse.holds ≡ [] }
        requires number { (hand_of know.old.purse).own ≡ Some (pass_of know.old) }
        ensures rest { IsRangeAtRest self.old.owner.range.0 self.new.replay self.new.owner }
        ensures trimmed { HasTrimmed N.book.leaves range before (pass_of know.old) know.old know.new result }
    {
        match self.begin_trim(tables, know) {
            Ok(replicas) => self.carry_out(
                rt,
                alloc,
                tables,
                know,
                leaves,
                range,
                Deed::Trims(before),
                replicas,
            ),
            Err(_fault) => Err(TrimFault::OutOfMemory),
        }
    }

    // The replicas that serve, with room for a trim's acknowledgement. Then the caller holds the range.
    fn begin_trim(
        &mut self,
        tables: &Tables<N>,
        know: &mut Know<N>,
    ) -> Result<SlotLeaves, OutOfMemory>
        requires rest { IsRangeAtRest self.old.owner.range.0 self.old.replay self.old.owner }
        requires none { know.old.purse.holds ≡ [] }
        ensures serve { IfOk result (λ replicas. replicas ≡ serving self.old.replay.history) }
        ensures room { OnOk result (HasAckRoom self.new.replay) }
        ensures begun { OnOk result (HasBegun N.book.leaves self.old.owner.range self.old.replay.history know.old know.new
            × IsRangeHeld self.old.owner.range.0 self.new.replay self.new.owner) }
        ensures refused { OnErr result
            (HasMetRange N.book.leaves self.old.owner.range know.old.purse.holds know.old know.new
            × IsRangeAtRest self.old.owner.range.0 self.new.replay self.new.owner) }
        ensures history { self.new.replay.history ≡ self.old.replay.history }
        ensures range { self.new.owner.range ≡ self.old.owner.range }
        ensures sound { IsSound N.setting know.new.hints know.new.seen }
        ensures here { self.old.owner.range.0 < length (ranges_in N.setting.zones) }
    {
        self.receive(tables, know);
        let replicas = with_ack_room(&mut self.replay);
        let hold = replicas.is_ok();
        self.owner.part(tables, know, hold);
        replicas
    }
}

// The replicas that serve, with room for an acknowledgement.
fn with_ack_room(replay: &mut RangeReplay) -> Result<SlotLeaves, OutOfMemory>
    ensures serve { IfOk result (λ replicas. replicas ≡ serving replay.old.history) }
    ensures room { OnOk result (HasAckRoom replay.new) }
    ensures history { replay.new.history ≡ replay.old.history }
{
    replay.reserve()?;
    replay.serving()
}
