// What lies under a range's lock.
ghost use Rattle.std.specs.Prelude.{◌≡◌, ◌<◌, ◌≤◌, ◌++◌, ◌∷◌, ℕ, List, [], length, None, Some, IfOk, OnErr, OnOk};
ghost use Rattle.history_book.specs.declared.views.BookEntry.TheVariants as one;
ghost use Rattle.history_book.specs.declared.views.History.TheVariants as of;
ghost use Rattle.history_book.specs.Histories.{with_book_entry};
ghost use Rattle.history_book.specs.Seats.{after_append, guest_purse, hand_of, times_range};
ghost use Rattle.know.specs.Knowledge.{Knowledge};
ghost use Rattle.know.specs.Lending.{without_purse};
ghost use Rattle.know.specs.Sound.{IsSound};
ghost use Rattle.mon_topo.specs.HeldHistories.{IsAtHome};
ghost use Rattle.mon_topo.specs.RangeHistories.{IsLegal, serving, turn_ack};
ghost use Rattle.mon_topo.specs.Zones.{ranges_in};
ghost use Rattle.mon_value.specs.Histories.{range_history};
ghost use Rattle.mon_value.specs.Turns as a_turn;
ghost use Rattle.mon_value.specs.Turns.{Adds};
ghost use Rattle.mon_value.specs.declared.histories.RangeEntry.{RangeEntry};
ghost use Rattle.mon_value.specs.declared.positions.Range as a_range;
ghost use Rattle.owners.specs.Owners.{IsOfRange};
ghost use Rattle.owners.specs.Puts.{pass_of};
ghost use Rattle.range_cell.specs.Answers.{takes};
ghost use Rattle.range_cell.specs.Calls.{HasAnswered, HasCome, HasEntered, HasMetRange, HasResolved, MayEnter};
ghost use Rattle.range_cell.specs.Deeds.{IsStocked, turn_of};
ghost use Rattle.range_cell.specs.Rest.{HaveJust, IsRangeAtRest, IsRangeHeld, others};
ghost use Rattle.range_cell.specs.Stages.{IsBeginning, IsConcluding, IsThroughAt};
ghost use Rattle.range_cell.specs.Writes.{HasEnded, HasTurned, HasWritten};
ghost use Rattle.write_core.specs.RangeAnswers.{lock_answer};
ghost use Rattle.write_core.specs.Replays.{HasAckRoom};
ghost use Rattle.write_core.specs.Steps.{TakesTurn};

use crate::answers::{TrimFault, WriteFault};
use crate::deeds::Deed;
use crate::entering::{Entering, enter_leaves, row_deed};
use crate::loops::tell;
use crate::sides::LeafSide;
use history_book::NewEntry;
use know::{Know, Names, Tables};
use mon_value::{Ack, Leaves, OutOfMemory, Range, Row, SlotLeaf, SlotLeaves};
use owners::RangeOwner;
use std::alloc::Global;
use std::marker::Brand;
use std::sync::Wait;
use write_core::{RangeReplay, WriteEnd, WriteTold};

/// A range's replay and its owner.
#[derive(Drop)]
pub(crate) struct RangeDesk<N: Names> {
    pub(crate) replay: RangeReplay,
    pub(crate) owner: RangeOwner<N>,
}

impl<N: Names> RangeDesk<N> {
    /// The first replica that serves and is on none of these leaves.
    pub(crate) fn resolve(
        &mut self,
        tables: &Tables<N>,
        know: &mut Know<N>,
        avoid: &Leaves,
    ) -> Option<SlotLeaf>
        requires rest { IsRangeAtRest self.old.owner.range.0 self.old.replay self.old.owner }
        requires none { know.old.purse.holds ≡ [] }
        ensures rest { IsRangeAtRest self.old.owner.range.0 self.new.replay self.new.owner }
        ensures resolved { HasResolved N.book.leaves self.old.owner.range avoid.now result know.old know.new }
    {
        self.receive(tables, know);
        let told = self.replay.resolve(avoid);
        self.owner.part(tables, know, false);
        told
    }

    /// Asks whether a row goes in. Where it does, room is made for its acknowledgement, and the caller holds the range.
    pub(crate) fn begin(
        &mut self,
        tables: &Tables<N>,
        know: &mut Know<N>,
        row: &Row,
        limit: u64,
    ) -> Result<WriteTold, OutOfMemory>
        requires rest { IsRangeAtRest self.old.owner.range.0 self.old.replay self.old.owner }
        requires none { know.old.purse.holds ≡ [] }
        ensures told { IfOk result (λ told. told ≡ lock_answer limit self.old.replay.history row.now) }
        ensures answered { IfOk result (λ told.
            HasAnswered N.book.leaves self.old.owner.range self.new.replay self.new.owner told know.old know.new) }
        ensures room { OnOk result (HasAckRoom self.new.replay) }
        ensures history { self.new.replay.history ≡ self.old.replay.history }
        ensures range { self.new.owner.range ≡ self.old.owner.range }
        ensures sound { IsSound N.setting know.new.hints know.new.seen }
        ensures whole { range_history know.new.seen self.old.owner.range ≡ self.old.replay.history }
        ensures here { self.old.owner.range.0 < length (ranges_in N.setting.zones) }
        ensures refused { OnErr result
            (HasMetRange N.book.leaves self.old.owner.range know.old.purse.holds know.old know.new
            × IsRangeAtRest self.old.owner.range.0 self.new.replay self.new.owner) }
    {
        self.receive(tables, know);
        let told = asked(&mut self.replay, row, limit);
        let hold = is_taken(&told);
        self.owner.part(tables, know, hold);
        told
    }

    /// The range is given back, and nothing was written.
    pub(crate) fn give_back(&mut self, tables: &Tables<N>, know: &mut Know<N>)
        requires held { IsRangeHeld self.old.owner.range.0 self.old.replay self.old.owner }
        requires holds { 0 < times_range self.old.owner.range know.old.purse.holds }
        requires turns { HaveJust know.old.seen self.old.owner.range self.old.replay.history }
        ensures rest { IsRangeAtRest self.old.owner.range.0 self.new.replay self.new.owner }
        ensures met { HasMetRange N.book.leaves self.old.owner.range
            (others self.old.owner.range know.old.purse.holds) know.old know.new }
        ensures whole { range_history know.new.seen self.old.owner.range ≡ self.old.replay.history }
    {
        self.receive(tables, know);
        self.owner.part(tables, know, false);
    }

    // The range is given back with the acknowledgement of a turn, in room that was made before.
    fn acknowledge(&mut self, tables: &Tables<N>, know: &mut Know<N>, deed: Deed, ack: &Ack)
        requires held { IsRangeHeld self.old.owner.range.0 self.old.replay self.old.owner }
        requires holds { 0 < times_range self.old.owner.range know.old.purse.holds }
        requires room { HasAckRoom self.old.replay }
        requires number { (hand_of know.old.purse).own ≡ Some (pass_of know.old) }
        requires may { MayEnter N.setting self.old.owner.range self.old.replay.history
            (turn_ack (pass_of know.old) (turn_of deed) ack.now) know.old }
        ensures rest { IsRangeAtRest self.old.owner.range.0 self.new.replay self.new.owner }
        ensures entered { HasEntered N.book.leaves self.old.owner.range self.old.replay.history
            (turn_ack (pass_of know.old) (turn_of deed) ack.now) know.old know.new }
    {
        let Some(pass) = know.number() else {
            unreachable!();
        };
        self.receive(tables, know);
        self.enter::<Brand>(tables, pass, deed, ack);
        self.owner.part(tables, know, false);
    }

    // A turn is acknowledged: to the replay, and in the owner's history under the guest's number.
    fn enter<E: NewEntry>(&mut self, tables: &Tables<N>, pass: u64, deed: Deed, ack: &Ack)
        requires named { E.entry ≡ one.Range (turn_ack pass (turn_of deed) ack.now) }
        requires room { HasAckRoom self.old.replay }
        requires history { range_history self.old.owner.book.seen self.old.owner.range ≡ self.old.replay.history }
        requires number { (hand_of (guest_purse self.old.owner.book.guest)).own ≡ Some pass }
        requires sound { IsSound N.setting self.old.owner.hints
            (with_book_entry (of.Range self.old.owner.range) (one.Range (turn_ack pass (turn_of deed) ack.now))
            self.old.owner.book.seen) }
        ensures history { self.new.replay.history
            ≡ self.old.replay.history ++ turn_ack pass (turn_of deed) ack.now ∷ [] }
        ensures book { self.new.owner.book
            ≡ after_append (one.Range (turn_ack pass (turn_of deed) ack.now)) self.old.owner.book }
        ensures hints { self.new.owner.hints ≡ self.old.owner.hints }
        ensures range { self.new.owner.range ≡ self.old.owner.range }
    {
        let length = self.replay.length();
        prove!(length < 1 << 62);
        deed.acknowledge(&mut self.replay, pass, ack);
        self.owner.append::<E>(tables, self.replay.sight());
    }

    /// Writes a row, behind the lock of its range, which is this one. Memory is taken at the lock, and where leaves are
    /// asked for room.
    #[tactic(auto, using(crate::proofs::EndingLemmas::never_at_lock))]
    pub(crate) fn write<R: Wait, S: LeafSide<N>>(
        &mut self,
        rt: &R,
        alloc: Global,
        tables: &Tables<N>,
        know: &mut Know<N>,
        leaves: &S,
        range: Range,
        limit: u64,
        row: &Row,
    ) -> Result<Ack, WriteFault>
        requires rest { IsRangeAtRest self.old.owner.range.0 self.old.replay self.old.owner }
        requires range { range ≡ self.old.owner.range }
        requires limit { limit ≡ N.setting.points }
        requires none { know.old.purse.holds ≡ [] }
        requires number { (hand_of know.old.purse).own ≡ Some (pass_of know.old) }
        requires home { IsAtHome N.setting.held N.setting.zones range row.now }
        ensures rest { IsRangeAtRest self.old.owner.range.0 self.new.replay self.new.owner }
        ensures written { HasWritten N.book.leaves range row.now limit (pass_of know.old) know.old know.new result }
    {
        match self.begin(tables, know, row, limit) {
            Ok(WriteTold::Slots(replicas)) => self.write_held(
                rt, alloc, tables, know, leaves, range, row, replicas,
            ),
            Ok(WriteTold::OldPoint(last)) => Err(WriteFault::OldPoint(last)),
            Ok(WriteTold::RangeFull(count)) => Err(WriteFault::RangeFull(count)),
            Ok(WriteTold::Up(_) | WriteTold::Down(_) | WriteTold::Done) => unreachable!(),
            Err(_fault) => Err(WriteFault::OutOfMemory),
        }
    }

    // Writes a row to the replicas that serve, once the caller holds the range.
    fn write_held<R: Wait, S: LeafSide<N>>(
        &mut self,
        rt: &R,
        alloc: Global,
        tables: &Tables<N>,
        know: &mut Know<N>,
        leaves: &S,
        range: Range,
        row: &Row,
        replicas: SlotLeaves,
    ) -> Result<Ack, WriteFault>
        requires held { IsRangeHeld self.old.owner.range.0 self.old.replay self.old.owner }
        requires range { range ≡ self.old.owner.range }
        requires room { HasAckRoom self.old.replay }
        requires serve { replicas ≡ serving self.old.replay.history }
        requires begins { IsBeginning N.setting range (Adds row.now) (pass_of know.old) replicas know.old }
        requires turns { HaveJust know.old.seen range self.old.replay.history }
        requires legal { IsLegal N.setting.held N.setting.zones N.setting.points range self.old.replay.history }
        requires takes { TakesTurn N.setting self.old.replay.history (Adds row.now) }
        ensures rest { IsRangeAtRest self.old.owner.range.0 self.new.replay self.new.owner }
        ensures ended { HasEnded N.book.leaves range (Adds row.now) self.old.replay.history (pass_of know.old) know.old
            know.new result }
    {
        match row_deed(alloc, row, replicas.len()) {
            Ok(deed) => {
                as_written(self.carry_out(rt, alloc, tables, know, leaves, range, deed, replicas))
            }
            Err(_fault) => {
                self.give_back(tables, know);
                Err(WriteFault::OutOfMemory)
            }
        }
    }

    /// Brings a turn to the replicas that serve, once the caller holds the range.
    pub(crate) fn carry_out<R: Wait, S: LeafSide<N>>(
        &mut self,
        rt: &R,
        alloc: Global,
        tables: &Tables<N>,
        know: &mut Know<N>,
        leaves: &S,
        range: Range,
        deed: Deed,
        replicas: SlotLeaves,
    ) -> Result<Ack, TrimFault>
        requires held { IsRangeHeld self.old.owner.range.0 self.old.replay self.old.owner }
        requires range { range ≡ self.old.owner.range }
        requires room { HasAckRoom self.old.replay }
        requires serve { replicas ≡ serving self.old.replay.history }
        requires begins { IsBeginning N.setting range (turn_of deed) (pass_of know.old) replicas know.old }
        requires stocked { IsStocked (length replicas) deed }
        requires turns { HaveJust know.old.seen range self.old.replay.history }
        requires legal { IsLegal N.setting.held N.setting.zones N.setting.points range self.old.replay.history }
        requires takes { TakesTurn N.setting self.old.replay.history (turn_of deed) }
        ensures rest { IsRangeAtRest self.old.owner.range.0 self.new.replay self.new.owner }
        ensures ended { HasTurned N.book.leaves range (turn_of deed) self.old.replay.history (pass_of know.old) know.old
            know.new result }
    {
        match enter_leaves(rt, alloc, know, leaves, range, deed, replicas) {
            Ok(entering) => self.conclude(tables, know, range, entering),
            Err(_fault) => {
                self.give_back(tables, know);
                Err(TrimFault::OutOfMemory)
            }
        }
    }

    // Acknowledges a turn that came to some replica, and gives the range back. No memory is taken.
    fn conclude(
        &mut self,
        tables: &Tables<N>,
        know: &mut Know<N>,
        range: Range,
        entering: Entering,
    ) -> Result<Ack, TrimFault>
        requires held { IsRangeHeld self.old.owner.range.0 self.old.replay self.old.owner }
        requires range { range ≡ self.old.owner.range }
        requires machine { entering.machine.range ≡ range }
        requires room { HasAckRoom self.old.replay }
        requires through { IsConcluding N.setting range (turn_of entering.deed) self.old.replay.history know.old
            entering.machine.stage }
        ensures rest { IsRangeAtRest self.old.owner.range.0 self.new.replay self.new.owner }
        ensures ended { (pass : ℕ) (begun : Knowledge) → IsThroughAt range (turn_of entering.deed) pass begun
            (serving self.old.replay.history) know.old entering.machine.stage
            → HasTurned N.book.leaves range (turn_of entering.deed) self.old.replay.history pass begun know.new
            result }
    {
        let mut machine = entering.machine;
        let deed = entering.deed;
        tell(&mut machine, WriteTold::Done);
        match machine.finish() {
            WriteEnd::Written(ack) => {
                self.acknowledge(tables, know, deed, &ack);
                Ok(ack)
            }
            WriteEnd::Unavailable(founds) => {
                self.give_back(tables, know);
                Err(TrimFault::Unavailable(range, founds))
            }
            WriteEnd::OldPoint(_) | WriteEnd::RangeFull(_) => unreachable!(),
        }
    }

    /// A caller comes, and notes the length of the history.
    pub(crate) fn receive(&mut self, tables: &Tables<N>, know: &mut Know<N>)
        requires free { self.old.owner.book.guest ≡ None }
        requires own { self.old.owner.book.history ≡ of.Range self.old.owner.range }
        ensures came { HasCome N.book.leaves know.old self.old.owner self.new.owner }
        ensures left { know.new ≡ without_purse know.old }
        ensures sound { IsSound N.setting self.new.owner.hints self.new.owner.book.seen }
        ensures of_range { IsOfRange N.setting self.new.owner.range self.new.owner.book }
        ensures replay { self.new.replay ≡ self.old.replay }
    {
        self.owner.meet(tables, know);
        self.owner.learn(tables);
    }
}

// A row's write ends as its turn does.
fn as_written(ended: Result<Ack, TrimFault>) -> Result<Ack, WriteFault>
    ensures ended { (leaves : ℕ) (range : a_range.Range) (turn : a_turn.Turn) (history : List RangeEntry) (pass : ℕ)
        (begun after : Knowledge) → HasTurned leaves range turn history pass begun after ended
        → HasEnded leaves range turn history pass begun after result }
{
    match ended {
        Ok(ack) => Ok(ack),
        Err(TrimFault::Unavailable(range, founds)) => Err(WriteFault::Unavailable(range, founds)),
        Err(TrimFault::OutOfMemory) => Err(WriteFault::OutOfMemory),
    }
}

// Whether the row goes in.
fn is_taken(told: &Result<WriteTold, OutOfMemory>) -> bool
    ensures taken { result ≡ takes told.now }
{
    match told {
        Ok(WriteTold::Slots(_)) => true,
        _ => false,
    }
}

// What a write is told, with room for its acknowledgement.
fn asked(replay: &mut RangeReplay, row: &Row, limit: u64) -> Result<WriteTold, OutOfMemory>
    ensures told { IfOk result (λ told. told ≡ lock_answer limit replay.old.history row.now) }
    ensures history { replay.new.history ≡ replay.old.history }
    ensures room { OnOk result (HasAckRoom replay.new) }
{
    replay.reserve()?;
    replay.answer(row, limit)
}
