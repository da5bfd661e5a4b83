// What a turn does at each replica: copies of a row are put, or a bound hides rows.
ghost use Rattle.std.specs.Prelude.{◌≡◌, ◌+◌, ◌++◌, ◌∷◌, ℕ, [], IfOk, OnErr};
ghost use Rattle.mon_topo.specs.RangeHistories.{turn_ack};
ghost use Rattle.mon_value.specs.LeafHistories.{turn_entry};
ghost use Rattle.owners.specs.Calls.{HasLooked, HasPut, HasReserved};
ghost use Rattle.owners.specs.Puts.{HasSeenOpened, MayTurn, pass_of};
ghost use Rattle.range_cell.specs.Deeds.{IsStocked, turn_of};
ghost use Rattle.write_core.specs.Replays.{HasAckRoom};

use crate::copies::Copies;
use crate::sides::LeafSide;
use know::{Found, Know, Names};
use mon_value::{Ack, Leaf, OutOfMemory, Range, Slot};
use write_core::RangeReplay;

/// What a turn does at each replica.
#[derive(Drop)]
pub(crate) enum Deed {
    /// A row is put, of which each replica takes a copy.
    Puts(Copies),
    /// The rows that end before this second are hidden.
    Trims(i64),
}

impl Deed {
    /// Asks a leaf for room.
    pub(crate) fn reserve<N: Names, S: LeafSide<N>>(
        &self,
        leaves: &S,
        leaf: Leaf,
        know: &mut Know<N>,
        range: Range,
        slot: Slot,
    ) -> Result<Found, OutOfMemory>
        requires seen { HasSeenOpened N.setting know.old leaf range slot }
        ensures reserved { IfOk result (λ found. HasReserved leaf found know.old know.new) }
        ensures refused { OnErr result (HasLooked leaf know.old.purse.rooms know.old know.new) }
    {
        match self {
            Deed::Puts(copies) => leaves.reserve(leaf, know, range, slot, copies.row()),
            Deed::Trims(_) => leaves.reserve_trim(leaf, know, range, slot),
        }
    }

    /// Brings the turn to a leaf where room was made, or gives the room back where the leaf is down.
    pub(crate) fn bring<N: Names, S: LeafSide<N>>(
        &mut self,
        leaves: &S,
        leaf: Leaf,
        know: &mut Know<N>,
        range: Range,
        slot: Slot,
    ) -> Found
        requires may { MayTurn N.setting know.old leaf range slot (turn_of self.old) }
        requires stocked { IsStocked 1 self.old }
        ensures put { HasPut leaf (turn_entry (pass_of know.old) range slot (turn_of self.old)) result know.old know.new }
        ensures turn { turn_of self.new ≡ turn_of self.old }
        ensures stocked { (count : ℕ) → IsStocked (count + 1) self.old → IsStocked count self.new }
    {
        match self {
            Deed::Puts(copies) => leaves.put(leaf, know, range, slot, copies.take()),
            Deed::Trims(before) => leaves.trim(leaf, know, range, slot, *before),
        }
    }

    /// Acknowledges the turn to the range's replay, in room that was made before.
    pub(crate) fn acknowledge(self, replay: &mut RangeReplay, pass: u64, ack: &Ack)
        requires room { HasAckRoom replay.old }
        ensures acknowledged { replay.new.history ≡ replay.old.history ++ turn_ack pass (turn_of self) ack.now ∷ [] }
    {
        match self {
            Deed::Puts(copies) => {
                let (key, row) = copies.into_parts();
                replay.acknowledge(key, pass, row, ack);
            }
            Deed::Trims(before) => replay.trim(pass, before, ack),
        }
    }
}
