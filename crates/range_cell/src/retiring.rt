// How a replica of a range is retired, and which serve.
ghost use Rattle.std.specs.Prelude.{◌≡◌, ◌<◌, ◌++◌, ◌∷◌, [], Contains, Some, IfOk, OnErr, map};
ghost use Rattle.history_book.specs.Histories.{with_book_entry};
ghost use Rattle.history_book.specs.Seats.{after_append, guest_purse, hand_of};
ghost use Rattle.history_book.specs.declared.views.BookEntry.TheVariants as one;
ghost use Rattle.history_book.specs.declared.views.History.TheVariants as of;
ghost use Rattle.know.specs.Sound.{IsSound};
ghost use Rattle.mon_topo.specs.RangeHistories.{serving};
ghost use Rattle.mon_value.specs.Histories.{range_history};
ghost use Rattle.mon_value.specs.declared.histories.RangeEntry.TheVariants as entry;
ghost use Rattle.owners.specs.Puts.{pass_of};
ghost use Rattle.range_cell.specs.Calls.{HasListed, HasMetRange};
ghost use Rattle.range_cell.specs.Rest.{IsRangeAtRest};
ghost use Rattle.range_cell.specs.Retirements.{HasRetired};

use crate::answers::RetireFault;
use crate::desks::RangeDesk;
use history_book::NewEntry;
use know::{Know, Names, Tables};
use mon_value::{Leaf, OutOfMemory, Slot, SlotLeaves};
use std::marker::Brand;
use write_core::Retirement;

impl<N: Names> RangeDesk<N> {
    /// Retires the replica on a leaf. No memory is taken.
    pub(crate) fn retire(
        &mut self,
        tables: &Tables<N>,
        know: &mut Know<N>,
        leaf: Leaf,
    ) -> Result<Slot, RetireFault>
        requires rest { IsRangeAtRest self.old.owner.range.0 self.old.replay self.old.owner }
        requires none { know.old.purse.holds ≡ [] }
        requires number { (hand_of know.old.purse).own ≡ Some (pass_of know.old) }
        ensures rest { IsRangeAtRest self.old.owner.range.0 self.new.replay self.new.owner }
        ensures retired { HasRetired N.book.leaves self.old.owner.range leaf (pass_of know.old) know.old know.new result }
    {
        let Some(pass) = know.number() else {
            unreachable!();
        };
        self.receive(tables, know);
        match self.replay.retirement(leaf) {
            Retirement::WasRetired(slot) => {
                self.enter_retirement::<Brand>(tables, pass, slot);
                self.owner.part(tables, know, false);
                Ok(slot)
            }
            Retirement::NotServing => {
                self.owner.part(tables, know, false);
                Err(RetireFault::NotServing)
            }
            Retirement::LastServing(slot) => {
                self.owner.part(tables, know, false);
                Err(RetireFault::LastServing(slot))
            }
        }
    }

    // A replica is retired: in the replay, and in the owner's history under the guest's number.
    fn enter_retirement<E: NewEntry>(&mut self, tables: &Tables<N>, pass: u64, slot: Slot)
        requires named { E.entry ≡ one.Range (entry.Retired pass slot) }
        requires serves { Contains (map (λ replica. replica.slot) (serving self.old.replay.history)) slot }
        requires history { range_history self.old.owner.book.seen self.old.owner.range ≡ self.old.replay.history }
        requires number { (hand_of (guest_purse self.old.owner.book.guest)).own ≡ Some pass }
        requires sound { IsSound N.setting self.old.owner.hints
            (with_book_entry (of.Range self.old.owner.range) (one.Range (entry.Retired pass slot))
            self.old.owner.book.seen) }
        ensures history { self.new.replay.history ≡ self.old.replay.history ++ entry.Retired pass slot ∷ [] }
        ensures book { self.new.owner.book ≡ after_append (one.Range (entry.Retired pass slot)) self.old.owner.book }
        ensures hints { self.new.owner.hints ≡ self.old.owner.hints }
        ensures range { self.new.owner.range ≡ self.old.owner.range }
    {
        let length = self.replay.length();
        prove!(length < 1 << 62);
        self.replay.retire(pass, slot);
        self.owner.append::<E>(tables, self.replay.sight());
    }

    /// The replicas that serve.
    pub(crate) fn serving(
        &mut self,
        tables: &Tables<N>,
        know: &mut Know<N>,
    ) -> Result<SlotLeaves, OutOfMemory>
        requires rest { IsRangeAtRest self.old.owner.range.0 self.old.replay self.old.owner }
        requires none { know.old.purse.holds ≡ [] }
        ensures rest { IsRangeAtRest self.old.owner.range.0 self.new.replay self.new.owner }
        ensures listed { IfOk result (λ told. HasListed N.book.leaves self.old.owner.range told know.old know.new) }
        ensures refused { OnErr result
            (HasMetRange N.book.leaves self.old.owner.range know.old.purse.holds know.old know.new) }
    {
        self.receive(tables, know);
        let told = self.replay.serving();
        self.owner.part(tables, know, false);
        told
    }
}
