// What the ranges of a zone resolved to in a round.
ghost use Rattle.std.specs.Prelude.{◌≡◌, ◌++◌, ◌∷◌, [], false, true, length, if◌then◌else◌, IfOk, IfSome, IsNone, OnOk};
ghost use Rattle.query_traces.specs.Rounds.{IsSmall, has_leaf};
ghost use Rattle.query_traces.specs.Rounds as spec;

use crate::answers::{Flags, Resolved, Resolveds};
use crate::areas::Area;
use crate::flags::flag_at;
use mon_value::{Leaf, Leaves, OutOfMemory, Range, RangeSlot, RangeSlots, Slot};
use std::alloc::Global;
use std::marker::Model;

/// A zone, and what its ranges resolved to so far; with the slots that lie on each of its leaves.
#[derive(Drop)]
pub struct Round {
    area: Area,
    resolved: Resolveds,
    slots: Vec<RangeSlots>,
}

impl Model for Round {
    ghost use Rattle.std.specs.Prelude.{◌≡◌};
    ghost use Rattle.query_traces.specs.Rounds.{IsSmall};
    ghost use Rattle.query_traces.specs.Rounds as spec;

    ghost Value = { spec.Round };

    ghost view = { λ round. record { area = round.area; resolved = round.resolved } };

    ghost invariant = { λ round. record {
      slots : round.slots.items ≡ spec.slots_by_leaf round.area round.resolved;
      small : IsSmall round.area;
    } };
}

impl Round {
    /// A round in which no range resolved yet.
    pub fn new(alloc: Global, area: Area) -> Result<Round, OutOfMemory>
        requires small { IsSmall area }
        ensures new { IfOk result (λ round. round ≡ spec.round_of area) }
    {
        Ok(Round {
            area,
            resolved: Resolveds::new(alloc),
            slots: no_slots(alloc, area)?,
        })
    }

    /// The zone.
    pub fn area(&self) -> Area
        ensures area { result ≡ self.now.area }
        ensures small { IsSmall result }
    {
        self.area
    }

    /// The next range of the zone.
    pub fn next_range(&self) -> Option<Range>
        ensures range { result ≡ spec.next_range self.now }
    {
        let done = self.resolved.len() as u64;
        if done < self.area.ranges as u64 {
            Some(self.area.range(done as u32))
        } else {
            None
        }
    }

    /// One range more.
    #[tactic(auto, using(crate::proofs::RoundLemmas::slot_added, crate::proofs::RoundLemmas::slots_count))]
    pub fn with_slot(self, range: Range, slot: Slot, leaf: Leaf) -> Result<Round, OutOfMemory>
        ensures added { IfOk result (λ round. round ≡ spec.with_slot self range slot leaf) }
    {
        let area = self.area;
        let mut resolved = self.resolved;
        let mut slots = self.slots;
        resolved.push(Resolved { range, slot, leaf })?;
        add_slot(&mut slots, &area, leaf, RangeSlot { range, slot })?;
        Ok(Round {
            area,
            resolved,
            slots,
        })
    }

    /// The slots that lie on a leaf, where it is one of the zone's.
    #[tactic(auto, using(crate::proofs::RoundLemmas::slots_at, crate::proofs::RoundLemmas::slots_count))]
    pub fn slots(&self, leaf: Leaf) -> Option<&RangeSlots>
        ensures slots { IfSome result (λ slots. slots.now ≡ spec.slots_on leaf self.now.resolved) }
        ensures has { IfSome result (λ _slots. has_leaf self.now.area leaf ≡ true) }
        ensures none { IsNone result → has_leaf self.now.area leaf ≡ false }
    {
        if self.area.has_leaf(leaf) {
            Some(&self.slots[(leaf.0 - self.area.first_leaf.0) as usize])
        } else {
            None
        }
    }

    /// The leaves that are to be visited, in their order: those on which a slot lies, and that are let in.
    #[tactic(auto, using(crate::proofs::RoundLemmas::leaves_more))]
    pub fn leaves_to_visit(&self, alloc: Global, let_in: &Flags) -> Result<Leaves, OutOfMemory>
        ensures leaves { IfOk result (λ leaves. leaves ≡ spec.leaves_to_visit self.now let_in.now) }
    {
        let mut leaves = Leaves::new(alloc);
        for place in 0..self.area.leaves {
            let visit = self.is_to_visit(place as usize, let_in.as_slice());
            add_leaf(&mut leaves, self.area.leaf(place), visit)?;
        }
        Ok(leaves)
    }

    // Whether the leaf at a place of the zone is let in and has a slot.
    fn is_to_visit(&self, place: usize, let_in: &[bool]) -> bool
        ensures to_visit { result ≡ spec.is_to_visit self.now let_in.now place }
    {
        match self.slots.get(place) {
            Some(slots) => !slots.is_empty() && flag_at(let_in, place),
            None => false,
        }
    }

    /// What the ranges resolved to.
    pub fn resolved(&self) -> &[Resolved]
        ensures resolved { result.now ≡ self.now.resolved }
    {
        self.resolved.as_slice()
    }
}

// Adds a leaf, where it is to be visited.
fn add_leaf(leaves: &mut Leaves, leaf: Leaf, visit: bool) -> Result<(), OutOfMemory>
    ensures added { OnOk result (leaves.new ≡ leaves.old ++ (if visit then leaf ∷ [] else [])) }
{
    if visit {
        leaves.push(leaf)?;
    }
    Ok(())
}

// No slot on any leaf of a zone.
fn no_slots(alloc: Global, area: Area) -> Result<Vec<RangeSlots>, OutOfMemory>
    ensures none { IfOk result (λ slots. slots.items ≡ spec.slots_by_leaf area []) }
{
    let mut slots = Vec::with_capacity(alloc, area.leaves as usize)?;
    for _leaf in 0..area.leaves {
        slots.push(RangeSlots::new(alloc))?;
    }
    Ok(slots)
}

// Adds a slot that lies on a leaf, where it is one of the zone's.
#[tactic(auto, using(crate::proofs::RoundLemmas::within_zone))]
fn add_slot(
    slots: &mut Vec<RangeSlots>,
    area: &Area,
    leaf: Leaf,
    slot: RangeSlot,
) -> Result<(), OutOfMemory>
    requires count { length slots.old.items ≡ area.now.leaves }
    ensures added { OnOk result (slots.new.items ≡ spec.slot_added_at area.now slots.old.items leaf slot) }
{
    if area.has_leaf(leaf) {
        let place = (leaf.0 - area.first_leaf.0) as usize;
        slots[place].push(slot)?;
    }
    Ok(())
}
