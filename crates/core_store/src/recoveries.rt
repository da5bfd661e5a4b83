// Recoveries on their way.
ghost use Rattle.std.specs.Prelude.{◌≡◌, ◌<◌, ℕ, true, false, is_some, length, IfOk, OnOk, Some};
ghost use Rattle.mon_config.specs.declared.config.Config.{Config as ConfigOf};
ghost use Rattle.mon_value.specs.LeafHistories.{is_switch};
ghost use Rattle.core_store.specs.RecoverTurns.{AnswersSo, IsOpening, IsOpeningSomewhere, RecoversSo, recovering_then};
ghost use Rattle.core_store.specs.RecoveryEvents.{AsksLeafAt, IsAdmitted, IsSeatedAtRange, LocksRangeAt, MayFollowAt};
ghost use Rattle.core_store.specs.RecoveryEvents.{MayRaise, PutsAt, RaisesAt, TellsRangeAt, leaf_child, nobody};
ghost use Rattle.core_store.specs.RecoveryEvents.{root_word, tells_room, tells_rows, zone_child, zone_word};
ghost use Rattle.core_store.specs.Switches.{IsSeatedToSwitch};
ghost use Rattle.core_store.specs.declared.recoveries.RecoverTurn.TheVariants as turn;
ghost use Rattle.write_core.specs.CopyPhases.{copy_ask_of, rows_copied};
ghost use Rattle.write_core.specs.CopySteps.{newcomer};
ghost use Rattle.write_core.specs.declared.copies.CopyTold.TheVariants.{WasDone};
ghost use Rattle.write_core.specs.World.{World};
ghost use Rattle.write_core.specs.declared.copies.CopyAsk.TheVariants as ask;

use crate::recovery_events::{admit, copy_rows, lock_to_open, open_replica, room_for, tell_range};
use crate::store::Store;
use mon_hints::Place;
use mon_topo::Sight;
use mon_value::{Entry, Leaf, OutOfMemory, Range, RowList, Slot, TryCopy};
use write_core::{CopyAsk, CopyMachine, CopyTold, Outcome};

/// A recovery on its way: its number, the range, the leaf on which this is to have a replica more, and what it does
/// next.
#[derive(Drop)]
pub struct Recovering {
    pub number: u32,
    pub range: Range,
    pub leaf: Leaf,
    pub machine: CopyMachine,
}

/// How far a recovery is after a step.
#[derive(Drop)]
pub enum RecoverTurn {
    Went(Recovering),
    Waits(Recovering),
    Ended(Range, Leaf, Outcome),
}

impl Store {
    /// Does the next event of a recovery that has seen so much, unless someone else is in its way.
    pub fn recover(
        &mut self,
        recovering: Recovering,
        sight: &mut Sight,
    ) -> Result<RecoverTurn, OutOfMemory>
        requires opening { IsOpeningSomewhere self.old recovering sight.old }
        ensures turn { (config : ConfigOf) (world : World) (i : ℕ) → IsOpening config world i self.old recovering sight.old
            → IfOk result (RecoversSo config world i recovering self.new sight.old sight.new) }
    {
        if is_last(recovering.machine.next()) {
            return self.end_recovery(recovering, sight);
        }
        match self.recovery_event(&recovering, sight) {
            Ok(Some(told)) => told_on(recovering, told),
            Ok(None) => Ok(RecoverTurn::Waits(recovering)),
            Err(fault) => {
                drop(recovering);
                Err(fault)
            }
        }
    }

    // The last event of a recovery: it tells its range how it came out, and lets go of it.
    fn end_recovery(
        &mut self,
        recovering: Recovering,
        sight: &mut Sight,
    ) -> Result<RecoverTurn, OutOfMemory>
        requires opening { IsOpeningSomewhere self.old recovering sight.old }
        requires asks { copy_ask_of recovering.machine ≡ ask.Ack }
        ensures turn { (config : ConfigOf) (world : World) (i : ℕ) → IsOpening config world i self.old recovering sight.old
            → IfOk result (RecoversSo config world i recovering self.new sight.old sight.new) }
    {
        let Recovering {
            number,
            range,
            leaf,
            machine,
        } = recovering;
        match machine.told(CopyTold::WasDone) {
            Ok(machine) => self.let_go(number, range, leaf, machine.finish(), sight),
            Err(fault) => Err(fault),
        }
    }

    // A range is told how a recovery of it came out, and is let go of.
    fn let_go(
        &mut self,
        number: u32,
        range: Range,
        leaf: Leaf,
        outcome: Outcome,
        sight: &mut Sight,
    ) -> Result<RecoverTurn, OutOfMemory>
        requires there { range.0 < length self.old.ranges.items }
        requires seated { IsSeatedAtRange range self.old.ranges.items sight.old }
        ensures ended { IfOk result (λ one. one ≡ turn.Ended range leaf outcome) }
        ensures tells { IfOk result
            (λ one. TellsRangeAt outcome number range leaf self.old self.new sight.old sight.new) }
    {
        let seat = &mut self.ranges[range.0 as usize];
        match tell_range(seat, number, range, leaf, &outcome, sight) {
            Ok(()) => Ok(RecoverTurn::Ended(range, leaf, outcome)),
            Err(fault) => {
                drop(outcome);
                Err(fault)
            }
        }
    }

    // An event before the last one, unless someone else is in its way.
    fn recovery_event(
        &mut self,
        recovering: &Recovering,
        sight: &mut Sight,
    ) -> Result<Option<CopyTold>, OutOfMemory>
        requires opening { IsOpeningSomewhere self.old recovering.now sight.old }
        requires more { copy_ask_of recovering.now.machine ≡ ask.Ack → ⊥ }
        ensures answers { (config : ConfigOf) (world : World) (i : ℕ)
            → IsOpening config world i self.old recovering.now sight.old
            → IfOk result (AnswersSo config world i recovering.now self.new sight.old sight.new) }
    {
        match recovering.machine.next() {
            CopyAsk::Lock => {
                self.lock_range(recovering.number, recovering.range, recovering.leaf, sight)
            }
            CopyAsk::Copy(slot, source) => self.copy_from(recovering.range, slot, source, sight),
            CopyAsk::Reserve => Ok(self.room_on(recovering.leaf, sight)),
            CopyAsk::Enter => {
                let rows = rows_of(&recovering.machine);
                self.admit_to(recovering.number, recovering.leaf, rows, sight)
            }
            CopyAsk::RaiseRoot(bucket) => Ok(Some(self.raise_at_root(
                recovering.leaf,
                bucket,
                sight,
            ))),
            CopyAsk::RaiseZone(bucket) => Ok(Some(self.raise_in_zone(
                recovering.leaf,
                bucket,
                sight,
            ))),
            CopyAsk::Put => self.open_copy(recovering, sight),
            CopyAsk::Ack => unreachable!(),
            CopyAsk::Finished => unreachable!(),
        }
    }

    // A range's lock is taken, unless someone holds it.
    fn lock_range(
        &mut self,
        number: u32,
        range: Range,
        leaf: Leaf,
        sight: &mut Sight,
    ) -> Result<Option<CopyTold>, OutOfMemory>
        requires there { range.0 < length self.old.ranges.items }
        requires seated { IsSeatedAtRange range self.old.ranges.items sight.old }
        ensures locks { IfOk result (LocksRangeAt number range leaf self.old self.new sight.old sight.new) }
    {
        let seat = &mut self.ranges[range.0 as usize];
        lock_to_open(seat, number, range, leaf, sight)
    }

    // A leaf is asked for the rows of a replica.
    fn copy_from(
        &mut self,
        range: Range,
        slot: Slot,
        leaf: Leaf,
        sight: &mut Sight,
    ) -> Result<Option<CopyTold>, OutOfMemory>
        requires there { leaf.0 < length self.old.leaves.items }
        requires seated { IsSeatedToSwitch leaf self.old.leaves.items sight.old }
        ensures asks { IfOk result (AsksLeafAt (tells_rows range slot) nobody leaf self.old self.new sight.old sight.new) }
    {
        let seat = &mut self.leaves[leaf.0 as usize];
        copy_rows(seat, range, slot, leaf, sight)
    }

    // A leaf is asked for room.
    fn room_on(&mut self, leaf: Leaf, sight: &mut Sight) -> Option<CopyTold>
        requires there { leaf.0 < length self.old.leaves.items }
        requires seated { IsSeatedToSwitch leaf self.old.leaves.items sight.old }
        ensures asks { AsksLeafAt tells_room nobody leaf self.old self.new sight.old sight.new result }
    {
        let seat = &mut self.leaves[leaf.0 as usize];
        room_for(seat, leaf, sight)
    }

    // A leaf is entered with these rows.
    fn admit_to(
        &mut self,
        number: u32,
        leaf: Leaf,
        rows: &RowList,
        sight: &mut Sight,
    ) -> Result<Option<CopyTold>, OutOfMemory>
        requires there { leaf.0 < length self.old.leaves.items }
        requires seated { IsSeatedToSwitch leaf self.old.leaves.items sight.old }
        ensures asks { IfOk result
            (AsksLeafAt (IsAdmitted rows.now) (newcomer number) leaf self.old self.new sight.old sight.new) }
    {
        let alloc = self.alloc;
        let seat = &mut self.leaves[leaf.0 as usize];
        admit(alloc, seat, number, leaf, rows, sight)
    }

    // The bit of a leaf's zone is set at the root.
    fn raise_at_root(&mut self, leaf: Leaf, bucket: u32, sight: &mut Sight) -> CopyTold
        requires there { leaf.0 < length self.old.leaves.items }
        requires seated { IsSeatedToSwitch leaf self.old.leaves.items sight.old }
        requires may { MayRaise root_word zone_child bucket leaf self.old }
        ensures done { result ≡ WasDone }
        ensures raises { RaisesAt root_word zone_child bucket leaf self.old self.new sight.old sight.new }
    {
        let seat = &mut self.leaves[leaf.0 as usize];
        self.words.raise(Place::Root, seat.zone.0, bucket);
        seat.meet(leaf, sight);
        CopyTold::WasDone
    }

    // A leaf's bit is set in its zone.
    fn raise_in_zone(&mut self, leaf: Leaf, bucket: u32, sight: &mut Sight) -> CopyTold
        requires there { leaf.0 < length self.old.leaves.items }
        requires seated { IsSeatedToSwitch leaf self.old.leaves.items sight.old }
        requires may { MayRaise zone_word leaf_child bucket leaf self.old }
        ensures done { result ≡ WasDone }
        ensures raises { RaisesAt zone_word leaf_child bucket leaf self.old self.new sight.old sight.new }
    {
        let seat = &mut self.leaves[leaf.0 as usize];
        self.words.raise(Place::Zone(seat.zone), seat.place, bucket);
        seat.meet(leaf, sight);
        CopyTold::WasDone
    }

    // Its replica is opened on its leaf with the rows that it copied, in the range's next slot.
    fn open_copy(
        &mut self,
        recovering: &Recovering,
        sight: &mut Sight,
    ) -> Result<Option<CopyTold>, OutOfMemory>
        requires opening { IsOpeningSomewhere self.old recovering.now sight.old }
        requires asks { copy_ask_of recovering.now.machine ≡ ask.Put }
        ensures answers { (config : ConfigOf) (world : World) (i : ℕ)
            → IsOpening config world i self.old recovering.now sight.old
            → IfOk result (AnswersSo config world i recovering.now self.new sight.old sight.new) }
    {
        let seat = &self.ranges[recovering.range.0 as usize];
        let slot = seat.state.next_slot();
        let rows = rows_of(&recovering.machine).copy(self.alloc)?;
        let entry = Entry::Opened {
            pass: u64::from(recovering.number),
            range: recovering.range,
            slot,
            rows,
        };
        self.put_entry(recovering.leaf, entry, sight)?;
        Ok(Some(CopyTold::WasOpened(slot)))
    }

    // A leaf's history has one entry more, and nobody holds the leaf.
    fn put_entry(&mut self, leaf: Leaf, entry: Entry, sight: &mut Sight) -> Result<(), OutOfMemory>
        requires there { leaf.0 < length self.old.leaves.items }
        requires seated { IsSeatedToSwitch leaf self.old.leaves.items sight.old }
        requires rows { is_switch entry ≡ false }
        requires follows { MayFollowAt leaf entry self.old }
        ensures puts { OnOk result (PutsAt leaf entry self.old self.new sight.old sight.new) }
    {
        let alloc = self.alloc;
        let seat = &mut self.leaves[leaf.0 as usize];
        open_replica(alloc, seat, leaf, entry, sight)
    }
}

// Whether this is the last event of a recovery.
fn is_last(next: CopyAsk) -> bool
    ensures last { result ≡ true → next ≡ ask.Ack }
    ensures other { result ≡ false → next ≡ ask.Ack → ⊥ }
{
    matches!(next, CopyAsk::Ack)
}

// The rows that a recovery has copied.
fn rows_of(machine: &CopyMachine) -> &RowList
    requires copied { is_some (rows_copied machine.now) ≡ true }
    ensures rows { Some result.now ≡ rows_copied machine.now }
{
    match machine.rows() {
        Some(rows) => rows,
        None => unreachable!(),
    }
}

// A recovery goes on by what its last event came to.
fn told_on(recovering: Recovering, told: CopyTold) -> Result<RecoverTurn, OutOfMemory>
    ensures went { IfOk result (λ one. one ≡ turn.Went (recovering_then recovering told)) }
{
    let Recovering {
        number,
        range,
        leaf,
        machine,
    } = recovering;
    match machine.told(told) {
        Ok(machine) => Ok(RecoverTurn::Went(Recovering {
            number,
            range,
            leaf,
            machine,
        })),
        Err(fault) => Err(fault),
    }
}
