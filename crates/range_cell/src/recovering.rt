// How a replica of a range is opened on one leaf more, with the rows that another one keeps.
ghost use Rattle.std.specs.Prelude.{◌≡◌, ◌<◌, ◌≤◌, ◌++◌, ◌∷◌, [], length, None, Some, IfErr, IfOk, OnErr, OnOk};
ghost use Rattle.std.specs.List.{AllByRecursion};
ghost use Rattle.history_book.specs.declared.views.BookEntry.TheVariants as one;
ghost use Rattle.history_book.specs.declared.views.History.TheVariants as of;
ghost use Rattle.history_book.specs.Histories.{with_book_entry};
ghost use Rattle.history_book.specs.Seats.{after_append, guest_purse, hand_of, times_range};
ghost use Rattle.know.specs.Sound.{IsSound};
ghost use Rattle.mon_topo.specs.HeldHistories.{first_range_history, BeginsWith};
ghost use Rattle.mon_topo.specs.RangeHistories.{IsInZoneOf, left_rows, serving};
ghost use Rattle.mon_topo.specs.Zones.{leaves_in, ranges_in};
ghost use Rattle.mon_value.specs.Histories.{leaf_history, range_history};
ghost use Rattle.mon_value.specs.LeafHistories.{kept_rows};
ghost use Rattle.mon_value.specs.declared.histories.RangeEntry.TheVariants as entry;
ghost use Rattle.owners.specs.Puts.{pass_of};
ghost use Rattle.range_cell.specs.Calls.{HasBegun, HasEntered, HasMetRange, MayEnter};
ghost use Rattle.range_cell.specs.Copying.{IsHolding};
ghost use Rattle.range_cell.specs.Recoveries.{HasEndedSo, HasEndedThere, HasNotCopied, HasRecovered, IsDeniedAs};
ghost use Rattle.range_cell.specs.Recoveries.{HasSource, IsLooking, after_copying};
ghost use Rattle.range_cell.specs.Rest.{IsRangeAtRest, IsRangeHeld};
ghost use Rattle.write_core.specs.CopySteps.{next_slot};
ghost use Rattle.write_core.specs.Recovering.{denial_of};
ghost use Rattle.write_core.specs.Replays.{HasReplicaRoom};

use crate::answers::RecoverFault;
use crate::desks::RangeDesk;
use crate::sides::LeafSide;
use history_book::NewEntry;
use know::{Copied, Found, Know, Names, Tables};
use mon_topo::MOST_SLOTS;
use mon_value::{FoundDown, Founds, Leaf, OutOfMemory, Range, RowList, Slot, SlotLeaf, SlotLeaves};
use std::alloc::Global;
use std::marker::Brand;
use write_core::{Denial, RangeReplay};

impl<N: Names> RangeDesk<N> {
    /// Opens a replica on a leaf, behind the lock of its range, which is this one. Memory is taken at the lock, for the
    /// rows, and by the leaf.
    pub(crate) fn recover<S: LeafSide<N>>(
        &mut self,
        alloc: Global,
        tables: &Tables<N>,
        know: &mut Know<N>,
        leaves: &S,
        range: Range,
        leaf: Leaf,
    ) -> Result<Slot, RecoverFault>
        requires rest { IsRangeAtRest self.old.owner.range.0 self.old.replay self.old.owner }
        requires range { range ≡ self.old.owner.range }
        requires zoned { IsInZoneOf N.setting.zones range leaf }
        requires begun { BeginsWith (range_history know.old.seen range) (first_range_history N.setting.zones range.0) }
        requires none { know.old.purse.holds ≡ [] }
        requires number { (hand_of know.old.purse).own ≡ Some (pass_of know.old) }
        ensures rest { IsRangeAtRest self.old.owner.range.0 self.new.replay self.new.owner }
        ensures recovered { HasRecovered N.book.leaves range leaf (pass_of know.old) know.old know.new result }
    {
        match self.begin_recovery(tables, know, leaf) {
            Ok(sources) => self.recover_held(alloc, tables, know, leaves, range, leaf, sources),
            Err(fault) => Err(fault),
        }
    }

    // Asks whether a replica may be opened on a leaf. Where it may, room is made for it, and the caller holds the range.
    fn begin_recovery(
        &mut self,
        tables: &Tables<N>,
        know: &mut Know<N>,
        leaf: Leaf,
    ) -> Result<SlotLeaves, RecoverFault>
        requires rest { IsRangeAtRest self.old.owner.range.0 self.old.replay self.old.owner }
        requires none { know.old.purse.holds ≡ [] }
        ensures serve { IfOk result (λ sources. sources ≡ serving self.old.replay.history) }
        ensures may { OnOk result (denial_of self.old.replay.history leaf ≡ None) }
        ensures room { OnOk result (HasReplicaRoom self.new.replay) }
        ensures begun { OnOk result (HasBegun N.book.leaves self.old.owner.range self.old.replay.history know.old know.new
            × IsRangeHeld self.old.owner.range.0 self.new.replay self.new.owner) }
        ensures denied { IfErr result (IsDeniedAs self.old.replay.history leaf) }
        ensures refused { OnErr result
            (HasMetRange N.book.leaves self.old.owner.range know.old.purse.holds know.old know.new
            × IsRangeAtRest self.old.owner.range.0 self.new.replay self.new.owner) }
        ensures history { self.new.replay.history ≡ self.old.replay.history }
        ensures range { self.new.owner.range ≡ self.old.owner.range }
        ensures sound { IsSound N.setting know.new.hints know.new.seen }
        ensures whole { range_history know.new.seen self.old.owner.range ≡ self.old.replay.history }
        ensures here { self.old.owner.range.0 < length (ranges_in N.setting.zones) }
    {
        self.receive(tables, know);
        let offered = offered(&mut self.replay, leaf);
        let hold = offered.is_ok();
        self.owner.part(tables, know, hold);
        offered
    }

    // Opens a replica on a leaf with the rows of one of these, once the caller holds the range.
    fn recover_held<S: LeafSide<N>>(
        &mut self,
        alloc: Global,
        tables: &Tables<N>,
        know: &mut Know<N>,
        leaves: &S,
        range: Range,
        leaf: Leaf,
        sources: SlotLeaves,
    ) -> Result<Slot, RecoverFault>
        requires held { IsRangeHeld self.old.owner.range.0 self.old.replay self.old.owner }
        requires range { range ≡ self.old.owner.range }
        requires room { HasReplicaRoom self.old.replay }
        requires serve { sources ≡ serving self.old.replay.history }
        requires holding { IsHolding N.setting range leaf self.old.replay.history know.old }
        ensures rest { IsRangeAtRest self.old.owner.range.0 self.new.replay self.new.owner }
        ensures ended { HasEndedSo N.book.leaves range leaf self.old.replay.history (pass_of know.old) know.old know.new
            result }
    {
        match self.copied(alloc, know, leaves, range, sources.as_slice()) {
            Ok(rows) => self.open_there(tables, know, leaves, range, leaf, rows),
            Err(fault) => {
                self.give_back(tables, know);
                Err(fault)
            }
        }
    }

    // The rows that the first of these replicas keeps whose leaf is up.
    fn copied<S: LeafSide<N>>(
        &self,
        alloc: Global,
        know: &mut Know<N>,
        leaves: &S,
        range: Range,
        sources: &[SlotLeaf],
    ) -> Result<RowList, RecoverFault>
        requires serve { sources.now ≡ serving self.now.replay.history }
        requires there { AllByRecursion (λ source. source.leaf.0 < length (leaves_in N.setting.zones)) sources.now }
        requires held { 0 < times_range range know.old.purse.holds }
        requires kept { AllByRecursion (λ source. kept_rows range source.slot (leaf_history know.old.seen source.leaf)
            ≡ left_rows self.now.replay.history) sources.now }
        ensures rows { IfOk result (λ rows. rows ≡ left_rows self.now.replay.history) }
        ensures some { OnOk result (0 < length sources.now) }
        ensures source { OnOk result (HasSource know.old know.new (serving self.now.replay.history)) }
        ensures copied { OnOk result
            (IsLooking range (after_copying self.now.replay.history know.old) know.old know.new) }
        ensures refused { IfErr result (HasNotCopied range self.now.replay.history know.old know.new) }
    {
        let mut founds = Vec::new(alloc);
        for source in sources {
            match leaves.copy(source.leaf, know, range, source.slot) {
                Ok(Copied::Rows(rows)) => {
                    drop(founds);
                    return Ok(rows);
                }
                Ok(Copied::Down(cut)) => {
                    let found = FoundDown {
                        leaf: source.leaf,
                        cut,
                    };
                    if founds.push(found).is_err() {
                        return Err(RecoverFault::OutOfMemory);
                    }
                }
                Err(_fault) => return Err(RecoverFault::OutOfMemory),
            }
        }
        Err(RecoverFault::SourceDown(Founds::from_vec(founds)))
    }

    // Opens a replica with these rows on the leaf, in the range's next slot, and then in the range's history.
    fn open_there<S: LeafSide<N>>(
        &mut self,
        tables: &Tables<N>,
        know: &mut Know<N>,
        leaves: &S,
        range: Range,
        leaf: Leaf,
        rows: RowList,
    ) -> Result<Slot, RecoverFault>
        requires held { IsRangeHeld self.old.owner.range.0 self.old.replay self.old.owner }
        requires range { range ≡ self.old.owner.range }
        requires room { HasReplicaRoom self.old.replay }
        requires rows { rows ≡ left_rows self.old.replay.history }
        requires some { 0 < length (serving self.old.replay.history) }
        requires holding { IsHolding N.setting range leaf self.old.replay.history know.old }
        ensures rest { IsRangeAtRest self.old.owner.range.0 self.new.replay self.new.owner }
        ensures ended { HasEndedThere N.book.leaves range leaf self.old.replay.history (pass_of know.old) know.old
            know.new result }
    {
        let slot = self.replay.next_slot();
        match leaves.opened(leaf, know, range, slot, rows) {
            Ok(Found::Up) => {
                self.open(tables, know, slot, leaf);
                Ok(slot)
            }
            Ok(Found::Down(cut)) => {
                self.give_back(tables, know);
                Err(RecoverFault::TargetDown(cut))
            }
            Err(_fault) => {
                self.give_back(tables, know);
                Err(RecoverFault::OutOfMemory)
            }
        }
    }

    // The range is given back with a replica that was opened on its leaf, in room that was made before.
    fn open(&mut self, tables: &Tables<N>, know: &mut Know<N>, slot: Slot, leaf: Leaf)
        requires held { IsRangeHeld self.old.owner.range.0 self.old.replay self.old.owner }
        requires holds { 0 < times_range self.old.owner.range know.old.purse.holds }
        requires room { HasReplicaRoom self.old.replay }
        requires number { (hand_of know.old.purse).own ≡ Some (pass_of know.old) }
        requires may { MayEnter N.setting self.old.owner.range self.old.replay.history
            (entry.Opened (pass_of know.old) slot leaf) know.old }
        ensures rest { IsRangeAtRest self.old.owner.range.0 self.new.replay self.new.owner }
        ensures entered { HasEntered N.book.leaves self.old.owner.range self.old.replay.history
            (entry.Opened (pass_of know.old) slot leaf) know.old know.new }
    {
        let Some(pass) = know.number() else {
            unreachable!();
        };
        self.receive(tables, know);
        self.enter_opening::<Brand>(tables, pass, slot, leaf);
        self.owner.part(tables, know, false);
    }

    // A replica is opened: to the replay, and in the owner's history under the guest's number.
    fn enter_opening<E: NewEntry>(&mut self, tables: &Tables<N>, pass: u64, slot: Slot, leaf: Leaf)
        requires named { E.entry ≡ one.Range (entry.Opened pass slot leaf) }
        requires room { HasReplicaRoom self.old.replay }
        requires history { range_history self.old.owner.book.seen self.old.owner.range ≡ self.old.replay.history }
        requires number { (hand_of (guest_purse self.old.owner.book.guest)).own ≡ Some pass }
        requires sound { IsSound N.setting self.old.owner.hints
            (with_book_entry (of.Range self.old.owner.range) (one.Range (entry.Opened pass slot leaf))
            self.old.owner.book.seen) }
        ensures history { self.new.replay.history ≡ self.old.replay.history ++ entry.Opened pass slot leaf ∷ [] }
        ensures book { self.new.owner.book ≡ after_append (one.Range (entry.Opened pass slot leaf)) self.old.owner.book }
        ensures hints { self.new.owner.hints ≡ self.old.owner.hints }
        ensures range { self.new.owner.range ≡ self.old.owner.range }
    {
        let length = self.replay.length();
        prove!(length < 1 << 62);
        self.replay.open_in_room(pass, slot, leaf);
        self.owner.append::<E>(tables, self.replay.sight());
    }
}

// The replicas that serve, with room for one more, where one may be opened on the leaf.
fn offered(replay: &mut RangeReplay, leaf: Leaf) -> Result<SlotLeaves, RecoverFault>
    ensures serve { IfOk result (λ sources. sources ≡ serving replay.old.history) }
    ensures may { OnOk result (denial_of replay.old.history leaf ≡ None) }
    ensures room { OnOk result (HasReplicaRoom replay.new) }
    ensures denied { IfErr result (IsDeniedAs replay.old.history leaf) }
    ensures history { replay.new.history ≡ replay.old.history }
{
    match replay.denial(leaf) {
        Some(Denial::ServesThere(slot)) => Err(RecoverFault::Serving(slot)),
        Some(Denial::ServesFully) => Err(RecoverFault::ThreeServing),
        Some(Denial::SlotsSpent(_)) => Err(RecoverFault::SlotsSpent(MOST_SLOTS as u32)),
        None => match with_room(replay) {
            Ok(sources) => Ok(sources),
            Err(_fault) => Err(RecoverFault::OutOfMemory),
        },
    }
}

// The replicas that serve, with room for one more.
fn with_room(replay: &mut RangeReplay) -> Result<SlotLeaves, OutOfMemory>
    ensures serve { IfOk result (λ sources. sources ≡ serving replay.old.history) }
    ensures room { OnOk result (HasReplicaRoom replay.new) }
    ensures history { replay.new.history ≡ replay.old.history }
{
    replay.reserve_replica()?;
    replay.serving()
}
