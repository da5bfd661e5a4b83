// Leaves that go down and come up.
ghost use Rattle.std.specs.Prelude.{◌≡◌, ◌<◌, length, Some, IfNone};
ghost use Rattle.std.specs.List.{count_by};
ghost use Rattle.history_book.specs.Seats.{hand_of};
ghost use Rattle.leaf_cell.specs.Controls.{HasControlled, spent_fault, switch_entry, switch_fault};
ghost use Rattle.leaf_cell.specs.Rest.{IsAtRest};
ghost use Rattle.mon_value.specs.LeafHistories.{is_switch};
ghost use Rattle.owners.specs.Puts.{pass_of};

use crate::desks::LeafDesk;
use history_book::RoomMove;
use know::{Know, Names, Tables};
use leaf_store::{Entry, LeafState};
use mon_value::MOST_SWITCHES;
use std::marker::Brand;

/// Which way a leaf is switched.
#[derive(Clone, Copy, PartialEq, Eq)]
pub enum Control {
    Down,
    Up,
}

/// Why a leaf isn't switched.
#[derive(Clone, Copy, PartialEq, Eq)]
pub enum ControlFault {
    /// It is down, and its history has so many entries.
    AlreadyDown(u64),
    /// It is up, and its history has so many entries.
    AlreadyUp(u64),
    /// It was switched so often, and is not switched again.
    SwitchesSpent(u32),
}

impl<N: Names> LeafDesk<N> {
    /// Takes the leaf down, or up again. The new length of its history. No memory is taken.
    pub(crate) fn control(
        &mut self,
        tables: &Tables<N>,
        know: &mut Know<N>,
        to: Control,
    ) -> Result<u64, ControlFault>
        requires rest { IsAtRest N.setting N.raise self.old.owner.leaf.0 self.old.state self.old.owner }
        requires number { (hand_of know.old.purse).own ≡ Some (pass_of know.old) }
        ensures rest { IsAtRest N.setting N.raise self.old.owner.leaf.0 self.new.state self.new.owner }
        ensures controlled { HasControlled self.old.owner.leaf to (pass_of know.old) result know.old know.new }
    {
        let Some(pass) = know.number() else {
            unreachable!();
        };
        let length = self.owner.receive(tables, know);
        match why_not(&self.state, to, length) {
            Some(fault) => {
                self.owner.part(tables, know, RoomMove::Keep);
                Err(fault)
            }
            None => {
                self.enter::<Brand>(tables, switch(to, pass), None);
                self.owner.part(tables, know, RoomMove::Keep);
                Ok(self.state.length())
            }
        }
    }
}

// The entry of a switch.
fn switch(to: Control, pass: u64) -> Entry
    ensures switch { result ≡ switch_entry to pass }
{
    match to {
        Control::Down => Entry::Down { pass },
        Control::Up => Entry::Up { pass },
    }
}

// Why a leaf whose history has so many entries isn't switched.
fn why_not(state: &LeafState, to: Control, cut: u64) -> Option<ControlFault>
    requires counted { length state.now.history ≡ cut }
    ensures why { result ≡ switch_fault to state.now.history }
    ensures few { IfNone result (count_by is_switch state.now.history < MOST_SWITCHES) }
{
    match to {
        Control::Down => {
            if state.down() {
                return Some(ControlFault::AlreadyDown(cut));
            }
            why_spent(state)
        }
        Control::Up => {
            if !state.down() {
                return Some(ControlFault::AlreadyUp(cut));
            }
            why_spent(state)
        }
    }
}

// Whether all of a leaf's switches were done.
fn why_spent(state: &LeafState) -> Option<ControlFault>
    ensures spent { result ≡ spent_fault state.now.history }
    ensures few { IfNone result (count_by is_switch state.now.history < MOST_SWITCHES) }
{
    if state.switches_left() == 0 {
        Some(ControlFault::SwitchesSpent(MOST_SWITCHES as u32))
    } else {
        None
    }
}
