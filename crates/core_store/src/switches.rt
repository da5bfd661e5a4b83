// Leaves that are switched down or up.
ghost use Rattle.std.specs.Prelude.{◌≡◌, ◌<◌, true, false, not, length, if◌then◌else◌};
ghost use Rattle.mon_topo.specs.Sights.{AreAlike};
ghost use Rattle.mon_value.specs.LeafHistories.{is_down};
ghost use Rattle.core_store.specs.Switches.{IsSeatedToSwitch, SwitchesAt, SwitchesIf, history_switched, switch_told};
ghost use Rattle.write_core.specs.Events.{IsToldOfSwitch, WasDownAlready, WasUpAlready, switch_of};

use crate::leaves::LeafSeat;
use crate::store::Store;
use leaf_store::LeafState;
use mon_topo::Sight;
use mon_value::{Entry, Leaf, MOST_SWITCHES};

/// A switch that is still to come: its actor's number, the leaf, and whether this is to be down.
#[derive(Clone, Copy)]
pub struct Switching {
    pub number: u32,
    pub leaf: Leaf,
    pub down: bool,
}

/// What came of a switch.
#[derive(Clone, Copy)]
pub enum Switched {
    /// It is done, and the leaf's history has so many entries now.
    Done(u64),
    /// The leaf was down already, after so many entries.
    AlreadyDown(u64),
    /// The leaf was up already, after so many entries.
    AlreadyUp(u64),
    /// The leaf was switched so often that it may not be again.
    Spent(u64),
}

impl Store {
    /// Switches a leaf for someone who has seen so much, unless someone else is inside of it.
    pub fn switch(&mut self, switching: Switching, sight: &mut Sight) -> Option<Switched>
        requires there { switching.leaf.0 < length self.old.leaves.items }
        requires seated { IsSeatedToSwitch switching.leaf self.old.leaves.items sight.old }
        ensures switches { SwitchesAt switching self.old self.new sight.old sight.new result }
    {
        let seat = &mut self.leaves[switching.leaf.0 as usize];
        switch(seat, switching, sight)
    }
}

// A leaf is switched, unless someone is inside of it.
fn switch(seat: &mut LeafSeat, switching: Switching, sight: &mut Sight) -> Option<Switched>
    requires alike { AreAlike sight.old seat.old.sight }
    requires there { switching.leaf.0 < length seat.old.sight.leaves }
    ensures switches { SwitchesIf switching seat.old seat.new sight.old sight.new result }
{
    if seat.holder.is_some() {
        return None;
    }
    let switched = switch_state(&mut seat.state, switching.number, switching.down);
    seat.meet(switching.leaf, sight);
    Some(switched)
}

// A leaf's state is switched by an actor of a number. That takes no memory.
fn switch_state(state: &mut LeafState, number: u32, down: bool) -> Switched
    ensures told { IsToldOfSwitch state.old.history down (switch_told result) }
    ensures history { state.new.history ≡ history_switched down number (switch_told result) state.old.history }
    ensures schemas { state.new.schemas ≡ state.old.schemas }
    ensures buckets { state.new.buckets ≡ state.old.buckets }
    ensures promised { state.new.promised ≡ state.old.promised }
{
    let length = state.length();
    if is_so(state, down) {
        return found_so(down, length);
    }
    if state.switches_left() == 0 {
        return Switched::Spent(MOST_SWITCHES);
    }
    state.apply(switch_entry(number, down));
    Switched::Done(length + 1)
}

// Whether a leaf is down, or up, as it is to be.
fn is_so(state: &LeafState, down: bool) -> bool
    ensures same { result ≡ true → is_down state.now.history ≡ down }
    ensures other { result ≡ false → is_down state.now.history ≡ not down }
{
    state.down() == down
}

// A leaf whose history has so many entries was down already, or up.
fn found_so(down: bool, length: u64) -> Switched
    ensures told { switch_told result ≡ (if down then WasDownAlready length else WasUpAlready length) }
{
    if down {
        Switched::AlreadyDown(length)
    } else {
        Switched::AlreadyUp(length)
    }
}

// The entry of a switch.
fn switch_entry(number: u32, down: bool) -> Entry
    ensures entry { result ≡ switch_of down number }
{
    let pass = u64::from(number);
    if down {
        Entry::Down { pass }
    } else {
        Entry::Up { pass }
    }
}
