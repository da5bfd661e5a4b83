// What is kept of a leaf.
ghost use Rattle.std.specs.Prelude.{◌≡◌, ◌<◌, ◌++◌, ◌∷◌, [], false, length, OnErr, OnOk};
ghost use Rattle.mon_value.specs.LeafHistories.{IsWellFormed, is_switch};
ghost use Rattle.core_store.specs.Meetings.{sight_at_leaf};
ghost use Rattle.mon_topo.specs.Sights.{AreAlike};

use leaf_store::LeafState;
use mon_topo::Sight;
use mon_value::{Entry, Leaf, OutOfMemory, RowList, Zone};
use std::alloc::Global;

/// A leaf: its state, its zone and its place there, who holds it, and how far histories were seen there.
#[derive(Drop)]
pub struct LeafSeat {
    pub state: LeafState,
    pub zone: Zone,
    pub place: u32,
    pub holder: Option<u32>,
    pub sight: Sight,
}

impl LeafSeat {
    /// Someone who has seen so much looks at the leaf: both have then seen what either had, and all of the leaf's
    /// history.
    pub fn meet(&mut self, leaf: Leaf, sight: &mut Sight)
        requires alike { AreAlike sight.old self.old.sight }
        requires there { leaf.0 < length self.old.sight.leaves }
        ensures sight { sight.new ≡ sight_at_leaf leaf self.old.state.history sight.old self.old.sight }
        ensures seat { self.new.sight ≡ sight.new }
        ensures state { self.new.state ≡ self.old.state }
        ensures holder { self.new.holder ≡ self.old.holder }
        ensures zone { self.new.zone ≡ self.old.zone }
        ensures place { self.new.place ≡ self.old.place }
    {
        sight.join(&self.sight);
        sight.note_leaf(leaf, self.state.length());
        self.sight.assign(sight);
    }

    /// Appends an entry with rows to the leaf's history. Where memory runs out nothing changes.
    pub fn append(&mut self, alloc: Global, entry: Entry) -> Result<(), OutOfMemory>
        requires rows { is_switch entry ≡ false }
        requires follows { IsWellFormed (self.old.state.history ++ entry ∷ []) }
        ensures appended { OnOk result (self.new.state.history ≡ self.old.state.history ++ entry ∷ []) }
        ensures promised { OnOk result (self.new.state.promised ≡ self.old.state.promised) }
        ensures schemas { self.new.state.schemas ≡ self.old.state.schemas }
        ensures buckets { self.new.state.buckets ≡ self.old.state.buckets }
        ensures kept { OnErr result (self.new.state ≡ self.old.state) }
        ensures sight { self.new.sight ≡ self.old.sight }
        ensures holder { self.new.holder ≡ self.old.holder }
        ensures zone { self.new.zone ≡ self.old.zone }
        ensures place { self.new.place ≡ self.old.place }
    {
        self.state.reserve_opened(&RowList::new(alloc))?;
        self.state.apply(entry);
        Ok(())
    }
}
