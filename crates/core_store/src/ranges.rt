// What is kept of a range.
ghost use Rattle.std.specs.Prelude.{◌≡◌, ◌<◌, length};
ghost use Rattle.mon_topo.specs.Sights.{AreAlike};
ghost use Rattle.core_store.specs.Meetings.{sight_at_range};

use mon_topo::Sight;
use mon_value::Range;
use write_core::RangeReplay;

/// A range: the replay of its history, who holds it, and how far histories were seen there.
#[derive(Drop)]
pub struct RangeSeat {
    pub state: RangeReplay,
    pub holder: Option<u32>,
    pub sight: Sight,
}

impl RangeSeat {
    /// Someone who has seen so much looks at the range: both have then seen what either had, and all of the range's
    /// history.
    pub fn meet(&mut self, range: Range, sight: &mut Sight)
        requires alike { AreAlike sight.old self.old.sight }
        requires there { range.0 < length self.old.sight.ranges }
        ensures sight { sight.new ≡ sight_at_range range self.old.state.history sight.old self.old.sight }
        ensures seat { self.new.sight ≡ sight.new }
        ensures state { self.new.state ≡ self.old.state }
        ensures holder { self.new.holder ≡ self.old.holder }
    {
        sight.join(&self.sight);
        sight.note_range(range, self.state.sight());
        self.sight.assign(sight);
    }
}
