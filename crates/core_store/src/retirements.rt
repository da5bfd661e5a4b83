// Replicas that are retired.
ghost use Rattle.std.specs.Prelude.{◌≡◌, ◌<◌, length};
ghost use Rattle.mon_topo.specs.Sights.{AreAlike};
ghost use Rattle.core_store.specs.Retirements.{IsSeatedToRetire, RetiresAt, RetiresIf, history_retired};
ghost use Rattle.write_core.specs.Events.{IsToldOfRetirement};

use crate::ranges::RangeSeat;
use crate::store::Store;
use mon_topo::Sight;
use mon_value::{Leaf, Range};
use write_core::{RangeReplay, Retirement};

/// A retirement that is still to come: its actor's number, the range, and the leaf whose replica is to serve no longer.
#[derive(Clone, Copy)]
pub struct Retiring {
    pub number: u32,
    pub range: Range,
    pub leaf: Leaf,
}

impl Store {
    /// Retires a range's replica on a leaf for someone who has seen so much, unless someone else holds the range.
    pub fn retire(&mut self, retiring: Retiring, sight: &mut Sight) -> Option<Retirement>
        requires there { retiring.range.0 < length self.old.ranges.items }
        requires seated { IsSeatedToRetire retiring.range self.old.ranges.items sight.old }
        ensures retires { RetiresAt retiring self.old self.new sight.old sight.new result }
    {
        let seat = &mut self.ranges[retiring.range.0 as usize];
        retire(seat, retiring, sight)
    }
}

// A replica is retired, unless someone holds its range.
fn retire(seat: &mut RangeSeat, retiring: Retiring, sight: &mut Sight) -> Option<Retirement>
    requires alike { AreAlike sight.old seat.old.sight }
    requires there { retiring.range.0 < length seat.old.sight.ranges }
    ensures retires { RetiresIf retiring seat.old seat.new sight.old sight.new result }
{
    if seat.holder.is_some() {
        return None;
    }
    let told = retire_state(&mut seat.state, u64::from(retiring.number), retiring.leaf);
    seat.meet(retiring.range, sight);
    Some(told)
}

// A range's replica on a leaf is retired where it serves and is not the last one that does. That takes no memory.
fn retire_state(state: &mut RangeReplay, pass: u64, leaf: Leaf) -> Retirement
    ensures told { IsToldOfRetirement state.old.history leaf result }
    ensures history { state.new.history ≡ history_retired pass result state.old.history }
{
    let told = state.retirement(leaf);
    match told {
        Retirement::WasRetired(slot) => state.retire(pass, slot),
        Retirement::NotServing => {}
        Retirement::LastServing(_) => {}
    }
    told
}
