// A leaf before it has a lock.
ghost use Rattle.std.specs.Prelude.{◌≡◌, ◌+◌, ◌<◌, [], false, Some, IfOk, OnErr, OnOk};
ghost use Rattle.history_book.specs.Seats.{hand_of, times_range};
ghost use Rattle.know.specs.Sound.{IsSound};
ghost use Rattle.leaf_cell.specs.NewLeaves.{HasOpened, new_leaf_of, own_history};
ghost use Rattle.leaf_cell.specs.Rest.{IsAtRest};
ghost use Rattle.leaf_store.specs.LeafStates.{with_promised};
ghost use Rattle.mon_topo.specs.Sights.{sight_of};
ghost use Rattle.mon_value.specs.LeafHistories.{is_down, is_opened};
ghost use Rattle.mon_value.specs.declared.histories.Entry.TheVariants as entry;
ghost use Rattle.owners.specs.Owners.{IsOfLeaf, leaf_owner};
ghost use Rattle.owners.specs.Puts.{pass_of};

use crate::desks::LeafDesk;
use history_book::{BookOwner, RoomMove};
use know::{Know, Names, Tables};
use leaf_store::{Entry, LeafState};
use mon_topo::Sight;
use mon_value::{Leaf, OutOfMemory, Range, RowList, Slot};
use owners::LeafOwner;
use raise_table::OwnerSeat;
use std::alloc::Global;
use std::marker::{Brand, Model};

/// A leaf that nobody shares yet. Contracts see its number and what its owner has seen.
#[derive(Drop)]
pub struct NewLeaf<N: Names> {
    leaf: Leaf,
    desk: LeafDesk<N>,
}

impl<N: Names> Model for NewLeaf<N> {
    ghost use Rattle.std.specs.Prelude.{◌≡◌};
    ghost use Rattle.leaf_cell.specs.NewLeaves.{NewLeafView, new_leaf_of};
    ghost use Rattle.leaf_cell.specs.Rest.{IsAtRest};

    ghost Value = { NewLeafView };

    ghost view = { λ new. new_leaf_of new.desk.owner };

    ghost invariant = { λ new. (new.leaf ≡ new.desk.owner.leaf)
        × IsAtRest N.setting N.raise new.desk.owner.leaf.0 new.desk.state new.desk.owner };
}

impl<N: Names> NewLeaf<N> {
    /// A leaf by its state and its owner's seats, of which the one in the book has seen so far. No memory is taken.
    pub fn new(
        leaf: Leaf,
        state: LeafState,
        hints: OwnerSeat<N>,
        book: BookOwner<N>,
        sight: Sight,
    ) -> NewLeaf<N>
        requires of_leaf { IsOfLeaf N.setting leaf hints book }
        requires sound { IsSound N.setting hints.hints book.seen }
        requires sight { sight ≡ sight_of book.seen }
        requires rest { IsAtRest N.setting N.raise leaf.0 state (leaf_owner leaf hints book) }
        ensures leaf { result.leaf ≡ leaf }
        ensures seen { result.seen ≡ book.seen }
    {
        let owner = LeafOwner::new(leaf, hints, book, sight);
        NewLeaf {
            leaf,
            desk: LeafDesk { state, owner },
        }
    }

    /// Opens a replica without rows, of a range that the caller holds. Where memory runs out nothing changes.
    pub fn open(
        &mut self,
        alloc: Global,
        tables: &Tables<N>,
        know: &mut Know<N>,
        range: Range,
        slot: Slot,
    ) -> Result<(), OutOfMemory>
        requires number { (hand_of know.old.purse).own ≡ Some (pass_of know.old) }
        requires holds { 0 < times_range range know.old.purse.holds }
        requires up { is_down (own_history self.old) ≡ false }
        requires unopened { is_opened range slot (own_history self.old) ≡ false }
        ensures opened { OnOk result (HasOpened self.old self.new (entry.Opened (pass_of know.old) range slot [])
            know.old know.new) }
        ensures sound { OnOk result (IsSound N.setting know.new.hints know.new.seen) }
        ensures kept { OnErr result ((self.new ≡ self.old) × (know.new ≡ know.old)) }
    {
        self.desk.open(alloc, tables, know, range, slot)
    }

    /// Its number, and what goes under its lock.
    pub(crate) fn into_parts(self) -> (Leaf, LeafDesk<N>)
        ensures leaf { result.0 ≡ self.leaf }
        ensures rest { IsAtRest N.setting N.raise self.leaf.0 result.1.state result.1.owner }
    {
        (self.leaf, self.desk)
    }
}

impl<N: Names> LeafDesk<N> {
    // Opens a replica without rows, once its place in the history is there.
    fn open(
        &mut self,
        alloc: Global,
        tables: &Tables<N>,
        know: &mut Know<N>,
        range: Range,
        slot: Slot,
    ) -> Result<(), OutOfMemory>
        requires rest { IsAtRest N.setting N.raise self.old.owner.leaf.0 self.old.state self.old.owner }
        requires number { (hand_of know.old.purse).own ≡ Some (pass_of know.old) }
        requires holds { 0 < times_range range know.old.purse.holds }
        requires up { is_down (own_history (new_leaf_of self.old.owner)) ≡ false }
        requires unopened { is_opened range slot (own_history (new_leaf_of self.old.owner)) ≡ false }
        ensures rest { IsAtRest N.setting N.raise self.old.owner.leaf.0 self.new.state self.new.owner }
        ensures opened { OnOk result (HasOpened (new_leaf_of self.old.owner) (new_leaf_of self.new.owner)
            (entry.Opened (pass_of know.old) range slot []) know.old know.new) }
        ensures sound { OnOk result (IsSound N.setting know.new.hints know.new.seen) }
        ensures leaf { self.new.owner.leaf ≡ self.old.owner.leaf }
        ensures kept { OnErr result ((self.new.owner ≡ self.old.owner) × (know.new ≡ know.old)) }
    {
        let rows = promised(&mut self.state, alloc)?;
        let Some(pass) = know.number() else {
            unreachable!();
        };
        self.owner.receive(tables, know);
        self.enter::<Brand>(
            tables,
            Entry::Opened {
                pass,
                range,
                slot,
                rows,
            },
            None,
        );
        self.owner.part(tables, know, RoomMove::Keep);
        Ok(())
    }
}

// Promises the place of an entry without rows, and gives these.
fn promised(state: &mut LeafState, alloc: Global) -> Result<RowList, OutOfMemory>
    ensures none { IfOk result (λ rows. rows ≡ []) }
    ensures promised { OnOk result (state.new ≡ with_promised state.old (state.old.promised + 1)) }
    ensures kept { OnErr result (state.new ≡ state.old) }
{
    let rows = RowList::new(alloc);
    match state.reserve_opened(&rows) {
        Ok(()) => Ok(rows),
        Err(fault) => {
            drop(rows);
            Err(fault)
        }
    }
}
