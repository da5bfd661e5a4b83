// Writes on their way.
ghost use Rattle.std.specs.Prelude.{◌≡◌, ℕ, IfOk};
ghost use Rattle.mon_config.specs.declared.config.Config.{Config as ConfigOf};
ghost use Rattle.mon_value.specs.declared.positions.Slot.{Slot as SlotOf};
ghost use Rattle.core_store.specs.WriteTurns as spec;
ghost use Rattle.core_store.specs.WriteTurns.{IsAtWork, IsInSomeWorld, WritesSo};
ghost use Rattle.write_core.specs.Program.{ask_of};
ghost use Rattle.write_core.specs.World.{World};
ghost use Rattle.write_core.specs.declared.asks.WriteAsk.TheVariants as ask;

use crate::store::Store;
use crate::write_events::{enter, let_go, lock, put, raise, reserve};
use mon_hints::Place;
use mon_topo::Sight;
use mon_value::{Leaf, OutOfMemory, Range, Row, SeriesKey, Shared, Slot};
use write_core::{WriteAsk, WriteEnd, WriteMachine, WriteTold};

/// What a write brings to its range.
#[derive(Drop)]
pub enum Change {
    /// A row comes, beside its key for the range's replay.
    Adds(Row, Shared<SeriesKey>),
    /// The rows that end before this moment are hidden: a trim.
    Hides(i64),
}

/// A write on its way: its number, what it brings, the range that this goes to, what it does next, and the leaf that it
/// is inside of.
#[derive(Drop)]
pub struct Writing {
    pub number: u32,
    pub change: Change,
    pub range: Range,
    pub machine: WriteMachine,
    pub inside: Option<Leaf>,
}

/// How far a write is after a step.
#[derive(Drop)]
pub enum WriteTurn {
    Went(Writing),
    Waits(Writing),
    Ended(Range, WriteEnd),
}

impl Store {
    /// Does the next event of a write that has seen so much, unless someone else is in its way.
    pub fn write(&mut self, writing: Writing, sight: &mut Sight) -> Result<WriteTurn, OutOfMemory>
        requires at_work { IsInSomeWorld self.old writing sight.old }
        ensures turn { (config : ConfigOf) (world : World) (i : ℕ) → IsAtWork config world i self.old writing sight.old
            → IfOk result (WritesSo config world i writing self.new sight.old sight.new) }
    {
        match writing.machine.next() {
            WriteAsk::Lock => self.lock(writing, sight),
            WriteAsk::Reserve(_, leaf) => self.reserve(writing, sight, leaf),
            WriteAsk::Enter(_, leaf) => self.enter(writing, sight, leaf),
            WriteAsk::RaiseRoot(bucket) => self.raise_root(writing, sight, bucket),
            WriteAsk::RaiseZone(bucket) => self.raise_zone(writing, sight, bucket),
            WriteAsk::Put(slot, leaf) => self.put(writing, sight, slot, leaf),
            WriteAsk::Ack => self.acknowledge(writing, sight),
            WriteAsk::Finished => unreachable!(),
        }
    }

    // It takes its range's lock, and is told whether what it brings goes in.
    fn lock(&mut self, writing: Writing, sight: &mut Sight) -> Result<WriteTurn, OutOfMemory>
        requires at_work { IsInSomeWorld self.old writing sight.old }
        requires asks { ask_of writing.machine.stage ≡ ask.Lock }
        ensures turn { (config : ConfigOf) (world : World) (i : ℕ) → IsAtWork config world i self.old writing sight.old
            → IfOk result (WritesSo config world i writing self.new sight.old sight.new) }
    {
        let mut writing = writing;
        let limit = self.config.range_points;
        let seat = &mut self.ranges[writing.range.0 as usize];
        let went = lock(seat, limit, &mut writing, sight)?;
        Ok(turn_of(went, writing))
    }

    // It asks a leaf for room.
    fn reserve(
        &mut self,
        writing: Writing,
        sight: &mut Sight,
        leaf: Leaf,
    ) -> Result<WriteTurn, OutOfMemory>
        requires at_work { IsInSomeWorld self.old writing sight.old }
        requires asks { (slot : SlotOf) × (ask_of writing.machine.stage ≡ ask.Reserve slot leaf) }
        ensures turn { (config : ConfigOf) (world : World) (i : ℕ) → IsAtWork config world i self.old writing sight.old
            → IfOk result (WritesSo config world i writing self.new sight.old sight.new) }
    {
        let mut writing = writing;
        let seat = &mut self.leaves[leaf.0 as usize];
        let went = reserve(self.alloc, seat, leaf, &mut writing, sight)?;
        Ok(turn_of(went, writing))
    }

    // It takes a leaf's lock, unless the leaf is down.
    fn enter(
        &mut self,
        writing: Writing,
        sight: &mut Sight,
        leaf: Leaf,
    ) -> Result<WriteTurn, OutOfMemory>
        requires at_work { IsInSomeWorld self.old writing sight.old }
        requires asks { (slot : SlotOf) × (ask_of writing.machine.stage ≡ ask.Enter slot leaf) }
        ensures turn { (config : ConfigOf) (world : World) (i : ℕ) → IsAtWork config world i self.old writing sight.old
            → IfOk result (WritesSo config world i writing self.new sight.old sight.new) }
    {
        let mut writing = writing;
        let seat = &mut self.leaves[leaf.0 as usize];
        let went = enter(self.alloc, seat, leaf, &mut writing, sight)?;
        Ok(turn_of(went, writing))
    }

    // It sets the bit of its leaf's zone at the root.
    fn raise_root(
        &mut self,
        writing: Writing,
        sight: &mut Sight,
        bucket: u32,
    ) -> Result<WriteTurn, OutOfMemory>
        requires at_work { IsInSomeWorld self.old writing sight.old }
        requires asks { ask_of writing.machine.stage ≡ ask.RaiseRoot bucket }
        ensures turn { (config : ConfigOf) (world : World) (i : ℕ) → IsAtWork config world i self.old writing sight.old
            → IfOk result (WritesSo config world i writing self.new sight.old sight.new) }
    {
        let mut writing = writing;
        let Some(leaf) = writing.inside else {
            unreachable!();
        };
        let seat = &mut self.leaves[leaf.0 as usize];
        self.words.raise(Place::Root, seat.zone.0, bucket);
        raise(seat, leaf, &mut writing, sight)?;
        Ok(WriteTurn::Went(writing))
    }

    // It sets its leaf's bit in the leaf's zone.
    fn raise_zone(
        &mut self,
        writing: Writing,
        sight: &mut Sight,
        bucket: u32,
    ) -> Result<WriteTurn, OutOfMemory>
        requires at_work { IsInSomeWorld self.old writing sight.old }
        requires asks { ask_of writing.machine.stage ≡ ask.RaiseZone bucket }
        ensures turn { (config : ConfigOf) (world : World) (i : ℕ) → IsAtWork config world i self.old writing sight.old
            → IfOk result (WritesSo config world i writing self.new sight.old sight.new) }
    {
        let mut writing = writing;
        let Some(leaf) = writing.inside else {
            unreachable!();
        };
        let seat = &mut self.leaves[leaf.0 as usize];
        self.words.raise(Place::Zone(seat.zone), seat.place, bucket);
        raise(seat, leaf, &mut writing, sight)?;
        Ok(WriteTurn::Went(writing))
    }

    // It appends what it brings to the leaf's history, and lets go of the leaf.
    fn put(
        &mut self,
        writing: Writing,
        sight: &mut Sight,
        slot: Slot,
        leaf: Leaf,
    ) -> Result<WriteTurn, OutOfMemory>
        requires at_work { IsInSomeWorld self.old writing sight.old }
        requires asks { ask_of writing.machine.stage ≡ ask.Put slot leaf }
        ensures turn { (config : ConfigOf) (world : World) (i : ℕ) → IsAtWork config world i self.old writing sight.old
            → IfOk result (WritesSo config world i writing self.new sight.old sight.new) }
    {
        let mut writing = writing;
        let seat = &mut self.leaves[leaf.0 as usize];
        put(self.alloc, seat, slot, leaf, &mut writing, sight)?;
        Ok(WriteTurn::Went(writing))
    }

    // It tells the range what became of what it brought, and lets go of the range.
    fn acknowledge(&mut self, writing: Writing, sight: &mut Sight) -> Result<WriteTurn, OutOfMemory>
        requires at_work { IsInSomeWorld self.old writing sight.old }
        requires asks { ask_of writing.machine.stage ≡ ask.Ack }
        ensures turn { (config : ConfigOf) (world : World) (i : ℕ) → IsAtWork config world i self.old writing sight.old
            → IfOk result (WritesSo config world i writing self.new sight.old sight.new) }
    {
        let Writing {
            number,
            change,
            range,
            machine,
            ..
        } = writing;
        let mut machine = machine;
        match machine.told(WriteTold::Done) {
            Ok(()) => {
                let end = machine.finish();
                let seat = &mut self.ranges[range.0 as usize];
                let_go(seat, number, change, range, &end, sight);
                Ok(WriteTurn::Ended(range, end))
            }
            Err(fault) => {
                drop(change);
                drop(machine);
                Err(fault)
            }
        }
    }
}

// The turn of a write that went, or did not.
fn turn_of(went: bool, writing: Writing) -> WriteTurn
    ensures turn { result ≡ spec.turn_of went writing }
{
    if went {
        WriteTurn::Went(writing)
    } else {
        WriteTurn::Waits(writing)
    }
}
