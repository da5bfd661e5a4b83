// The machine of a write.
ghost use Rattle.std.specs.Prelude.{◌≡◌, ℕ, List, drop, length, OnErr, OnOk};
ghost use Rattle.write_core.specs.Going.{going_marks};
ghost use Rattle.write_core.specs.Phases.{stage_of};
ghost use Rattle.write_core.specs.Program as spec;
ghost use Rattle.write_core.specs.Program.{after, ask_of, EndsSo, Locking};
ghost use Rattle.write_core.specs.Rounds.{round_marks};
ghost use Rattle.write_core.specs.declared.asks.WriteAsk.TheVariants.{Finished};

use crate::asks::{WriteAsk, WriteEnd, WriteTold};
use crate::ends::{founds, misses, some_took, taken_slots};
use crate::marks::{Fate, Mark, all_waiting};
use crate::refusals::Refused;
use crate::rounds::Round;
use mon_hints::Buckets;
use mon_value::{Ack, FoundDown, Miss, OutOfMemory, Range, Slot, SlotLeaf};
use std::alloc::Global;
use std::marker::Model;

/// What a write does next.
#[derive(Clone, Copy, PartialEq, Eq)]
enum Phase {
    Locking,
    Reserving,
    Entering,
    Inside,
    Acking(Option<Refused>),
    Ended(Option<Refused>),
}

/// A write of a row to a range, or a trim of one. It says what is done next, is told how that went, and takes memory at
/// the range's lock alone.
#[derive(Drop)]
pub struct WriteMachine {
    alloc: Global,
    range: Range,
    phase: Phase,
    round: Round,
    buckets: Buckets,
    at_root: usize,
    in_zone: usize,
    took: Vec<Slot>,
    missed: Vec<Miss>,
    founds: Vec<FoundDown>,
}

impl Model for WriteMachine {
    ghost use Rattle.std.specs.Prelude.{◌≡◌, ◌+◌, ◌≤◌, [], length, vec_len, vec_capacity};
    ghost use Rattle.write_core.specs.Phases.{stage_of};
    ghost use Rattle.write_core.specs.Program.{Write};
    ghost use Rattle.write_core.specs.Rounds.{round_marks};

    ghost Value = { Write };

    ghost view = { λ machine. record {
      range = machine.range;
      stage = stage_of machine.phase machine.round machine.buckets machine.at_root machine.in_zone;
    } };

    ghost invariant = { λ machine. record {
      no_slot : machine.took.items ≡ [];
      no_miss : machine.missed.items ≡ [];
      no_found : machine.founds.items ≡ [];
      slots : vec_len machine.took + length (round_marks machine.round) ≤ vec_capacity machine.took;
      misses : vec_len machine.missed + length (round_marks machine.round) ≤ vec_capacity machine.missed;
      founds : vec_len machine.founds + length (round_marks machine.round) ≤ vec_capacity machine.founds;
    } };
}

impl WriteMachine {
    /// A write that has not begun.
    pub fn new(alloc: Global, range: Range) -> WriteMachine
        ensures new { result ≡ spec.new_write range }
    {
        WriteMachine {
            alloc,
            range,
            phase: Phase::Locking,
            round: Round::empty(alloc),
            buckets: Buckets::new(alloc),
            at_root: 0,
            in_zone: 0,
            took: Vec::new(alloc),
            missed: Vec::new(alloc),
            founds: Vec::new(alloc),
        }
    }

    /// Its next event.
    pub fn next(&self) -> WriteAsk
        ensures ask { result ≡ ask_of self.now.stage }
    {
        match self.phase {
            Phase::Locking => WriteAsk::Lock,
            Phase::Reserving => match self.round.current() {
                Some(mark) => WriteAsk::Reserve(mark.slot, mark.leaf),
                None => WriteAsk::Ack,
            },
            Phase::Entering => match self.round.current() {
                Some(mark) => WriteAsk::Enter(mark.slot, mark.leaf),
                None => WriteAsk::Ack,
            },
            Phase::Inside => ask_inside(
                &self.round,
                self.buckets.as_slice(),
                self.at_root,
                self.in_zone,
            ),
            Phase::Acking(_) => WriteAsk::Ack,
            Phase::Ended(_) => WriteAsk::Finished,
        }
    }
}

impl WriteMachine {
    /// Goes on by what its last event came to. Only at the range's lock is it refused, and then it stays
    /// as it was.
    pub fn told(&mut self, told: WriteTold) -> Result<(), OutOfMemory>
        ensures range { self.new.range ≡ self.old.range }
        ensures after { OnOk result (self.new.stage ≡ after self.old.stage told) }
        ensures kept { OnErr result (self.new.stage ≡ self.old.stage) }
        ensures memory { OnErr result (self.old.stage ≡ Locking) }
    {
        match told {
            WriteTold::Slots(replicas) => self.told_slots(replicas.as_slice()),
            WriteTold::OldPoint(last) => {
                self.told_refused(Refused::OldPoint(last));
                Ok(())
            }
            WriteTold::RangeFull(count) => {
                self.told_refused(Refused::RangeFull(count));
                Ok(())
            }
            WriteTold::Up(buckets) => {
                self.told_up(buckets);
                Ok(())
            }
            WriteTold::Down(cut) => {
                self.told_down(cut);
                Ok(())
            }
            WriteTold::Done => {
                self.told_done();
                Ok(())
            }
        }
    }

    /// Its replicas, with what became of each so far, until all of them are decided. Those that are ready have room at
    /// their leaves, which is to be given back where the write goes no further.
    pub fn marks(&self) -> &[Mark]
        ensures marks { result.now ≡ going_marks self.now.stage }
    {
        match self.phase {
            Phase::Reserving | Phase::Entering | Phase::Inside => self.round.marks(),
            Phase::Locking | Phase::Acking(_) | Phase::Ended(_) => &[],
        }
    }

    /// How it ended.
    pub fn finish(self) -> WriteEnd
        requires { ask_of self.stage ≡ Finished }
        ensures end { EndsSo self.range self.stage result }
    {
        if let Phase::Ended(Some(why)) = self.phase {
            return why.end();
        }
        let range = self.range;
        let took = self.took;
        let missed = self.missed;
        let found = self.founds;
        let round = self.round;
        let marks = round.marks();
        if some_took(marks) {
            WriteEnd::Written(Ack {
                range,
                took: taken_slots(took, marks),
                missed: misses(missed, marks),
            })
        } else {
            WriteEnd::Unavailable(founds(found, marks))
        }
    }

    fn told_slots(&mut self, replicas: &[SlotLeaf]) -> Result<(), OutOfMemory>
        ensures range { self.new.range ≡ self.old.range }
        ensures after { OnOk result (self.new.stage ≡ spec.told_slots self.old.stage replicas.now) }
        ensures kept { OnErr result (self.new.stage ≡ self.old.stage) }
        ensures memory { OnErr result (self.old.stage ≡ Locking) }
    {
        match self.phase {
            Phase::Locking => {
                let marks = all_waiting(self.alloc, replicas)?;
                let took = Vec::with_capacity(self.alloc, marks.len())?;
                let missed = Vec::with_capacity(self.alloc, marks.len())?;
                let founds = Vec::with_capacity(self.alloc, marks.len())?;
                self.took = took;
                self.missed = missed;
                self.founds = founds;
                self.round = Round::new(marks);
                self.phase = next_to_reserve(&mut self.round);
                Ok(())
            }
            _ => Ok(()),
        }
    }

    fn told_refused(&mut self, why: Refused)
        ensures range { self.new.range ≡ self.old.range }
        ensures after { self.new.stage ≡ spec.told_refused self.old.stage why }
    {
        match self.phase {
            Phase::Locking => self.phase = Phase::Acking(Some(why)),
            _ => {}
        }
    }

    fn told_up(&mut self, buckets: Buckets)
        ensures range { self.new.range ≡ self.old.range }
        ensures after { self.new.stage ≡ spec.told_up self.old.stage buckets }
    {
        match self.phase {
            Phase::Reserving => {
                self.round.mark(Fate::Ready);
                self.phase = next_to_reserve(&mut self.round);
            }
            Phase::Entering => {
                self.buckets = buckets;
                self.at_root = 0;
                self.in_zone = 0;
                self.phase = Phase::Inside;
            }
            _ => {}
        }
    }

    fn told_down(&mut self, cut: u64)
        ensures range { self.new.range ≡ self.old.range }
        ensures after { self.new.stage ≡ spec.told_down self.old.stage cut }
    {
        match self.phase {
            Phase::Reserving => {
                self.round.mark(Fate::Missed(cut));
                self.phase = next_to_reserve(&mut self.round);
            }
            Phase::Entering => {
                self.round.mark(Fate::Missed(cut));
                self.phase = next_to_enter(&mut self.round);
            }
            _ => {}
        }
    }

    #[tactic(auto, using(crate::proofs::BucketLemmas::raising))]
    fn told_done(&mut self)
        ensures range { self.new.range ≡ self.old.range }
        ensures after { self.new.stage ≡ spec.told_done self.old.stage }
    {
        match self.phase {
            Phase::Inside => {
                if self.at_root < self.buckets.len() {
                    self.at_root += 1;
                } else if self.in_zone < self.buckets.len() {
                    self.in_zone += 1;
                } else {
                    self.round.mark(Fate::Took);
                    self.phase = next_to_enter(&mut self.round);
                }
            }
            Phase::Acking(why) => self.phase = Phase::Ended(why),
            _ => {}
        }
    }
}

/// What a write does next that is to reserve from the round's replica on.
#[tactic(auto, using(crate::proofs::RoundLemmas::rounds))]
fn next_to_reserve(round: &mut Round) -> Phase
    ensures stage { (buckets : List ℕ) (at_root in_zone : ℕ)
        → stage_of result round.new buckets at_root in_zone ≡ spec.reserving round.old }
    ensures count { length (round_marks round.new) ≡ length (round_marks round.old) }
{
    if round.is_through() {
        round.begin_again();
        next_to_enter(round)
    } else {
        Phase::Reserving
    }
}

/// What a write does next inside a leaf, of whose buckets so many were raised.
#[tactic(auto, using(crate::proofs::BucketLemmas::raising))]
fn ask_inside(round: &Round, buckets: &[u32], at_root: usize, in_zone: usize) -> WriteAsk
    ensures ask { result ≡ spec.inside round.now.left (drop at_root buckets.now) (drop in_zone buckets.now) }
{
    if at_root < buckets.len() {
        WriteAsk::RaiseRoot(buckets[at_root])
    } else if in_zone < buckets.len() {
        WriteAsk::RaiseZone(buckets[in_zone])
    } else {
        match round.current() {
            Some(mark) => WriteAsk::Put(mark.slot, mark.leaf),
            None => WriteAsk::Ack,
        }
    }
}

/// What a write does next that is to enter leaves from the round's replica on.
#[tactic(auto, using(crate::proofs::RoundLemmas::rounds))]
fn next_to_enter(round: &mut Round) -> Phase
    ensures stage { (buckets : List ℕ) (at_root in_zone : ℕ)
        → stage_of result round.new buckets at_root in_zone ≡ spec.entering round.old }
    ensures count { length (round_marks round.new) ≡ length (round_marks round.old) }
{
    round.skip();
    if round.is_through() {
        Phase::Acking(None)
    } else {
        Phase::Entering
    }
}
