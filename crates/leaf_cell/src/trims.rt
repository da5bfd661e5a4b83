// Rows of a replica that are hidden.
ghost use Rattle.std.specs.Prelude.{◌≡◌, ◌+◌, true, OnOk, OnErr};
ghost use Rattle.leaf_cell.specs.Rest.{IsAtRest};
ghost use Rattle.leaf_store.specs.LeafStates.{with_promised, with_settled};
ghost use Rattle.mon_value.specs.LeafHistories.{is_opened};
ghost use Rattle.mon_value.specs.declared.histories.Entry.TheVariants as entry;
ghost use Rattle.owners.specs.Calls.{HasPut};
ghost use Rattle.owners.specs.Puts.{MayTrim, pass_of};

use crate::desks::LeafDesk;
use history_book::RoomMove;
use know::{Found, Know, Names, Tables};
use leaf_store::{Entry, LeafState};
use mon_value::{OutOfMemory, Range, Row, Slot};
use std::marker::Brand;

impl<N: Names> LeafDesk<N> {
    /// Hides the rows of a replica that end before a bound, where room was made for that, or gives the room back where
    /// the leaf is down. Nothing is raised, and it is never refused for want of memory.
    pub(crate) fn trim(
        &mut self,
        tables: &Tables<N>,
        know: &mut Know<N>,
        range: Range,
        slot: Slot,
        before: i64,
    ) -> Found
        requires rest { IsAtRest N.setting N.raise self.old.owner.leaf.0 self.old.state self.old.owner }
        requires may { MayTrim N.setting know.old self.old.owner.leaf range slot }
        ensures rest { IsAtRest N.setting N.raise self.old.owner.leaf.0 self.new.state self.new.owner }
        ensures trimmed { HasPut self.old.owner.leaf (entry.Trim (pass_of know.old) range slot before) result know.old
            know.new }
    {
        let Some(pass) = know.number() else {
            unreachable!();
        };
        let length = self.owner.receive(tables, know);
        if self.state.down() {
            self.state.cancel();
            self.owner.part(tables, know, RoomMove::TakeBack);
            return Found::Down(length);
        }
        self.enter::<Brand>(
            tables,
            Entry::Trim {
                pass,
                range,
                slot,
                before,
            },
            None,
        );
        self.owner.part(tables, know, RoomMove::TakeBack);
        Found::Up
    }
}

/// Promises the place of a replica's next entry: of a row, or of a bound where there is none.
pub(crate) fn reserve_turn(
    state: &mut LeafState,
    range: Range,
    slot: Slot,
    row: Option<&Row>,
) -> Result<(), OutOfMemory>
    requires opened { is_opened range slot state.old.history ≡ true }
    ensures promised { OnOk result (state.new ≡ with_settled (with_promised state.old (state.old.promised + 1))) }
    ensures kept { OnErr result (state.new ≡ state.old) }
{
    match row {
        Some(row) => state.reserve(range, slot, row),
        None => state.reserve_trim(range, slot),
    }
}
