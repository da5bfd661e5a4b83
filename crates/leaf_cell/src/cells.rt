// The locked leaf.
ghost use Rattle.std.specs.Prelude.{◌≡◌, ◌<◌, ◌≤◌, length, true, Some, IfOk, OnErr};
ghost use Rattle.history_book.specs.Seats.{hand_of, times_room, without_one};
ghost use Rattle.know.specs.Knowledge.{Knowledge};
ghost use Rattle.know.specs.Sound.{IsSound};
ghost use Rattle.leaf_cell.specs.Controls.{HasControlled};
ghost use Rattle.leaf_cell.specs.Visits.{HasGathered, HasVisited};
ghost use Rattle.mon_value.specs.LeafHistories.{is_opened};
ghost use Rattle.mon_value.specs.Histories.{leaf_history, leaf_numbered};
ghost use Rattle.mon_value.specs.declared.histories.Entry.TheVariants as entry;
ghost use Rattle.owners.specs.Calls.{HasLooked, HasPut, HasReserved};
ghost use Rattle.owners.specs.Copies.{HasCopied};
ghost use Rattle.owners.specs.Openings.{HasOpened, MayOpen};
ghost use Rattle.owners.specs.Puts.{MayPut, MayTrim, pass_of};

use crate::controls::{Control, ControlFault};
use crate::desks::LeafDesk;
use crate::new_leaves::NewLeaf;
use crate::readers::LeafReader;
use know::{Copied, Found, Know, Names, Tables};
use mon_value::{OutOfMemory, Range, Row, RowList, Slot};
use std::alloc::Global;
use std::marker::{Model, PhantomData};
use std::sync::Wait;
use tied_lock::{Fits, TiedLock};

// A leaf at rest fits its number.
struct AtRest<N>(PhantomData<N>);

impl<N: Names> Fits<Box<LeafDesk<N>>> for AtRest<N> {
    ghost use Rattle.leaf_cell.specs.Rest.{IsAtRest};

    ghost fits = { λ leaf desk. IsAtRest N.setting N.raise leaf desk.value.state desk.value.owner };
}

/// A leaf under its lock. Contracts see its number.
#[derive(Drop)]
pub struct LeafCell<N: Names> {
    // A lock takes and gives its value by value: so a pointer.
    lock: TiedLock<Box<LeafDesk<N>>, AtRest<N>>,
}

impl<N: Names> Model for LeafCell<N> {
    ghost use Rattle.std.specs.Prelude.{ℕ};

    ghost Value = { ℕ };

    ghost view = { λ cell. cell.lock.tag };
}

impl<N: Names> LeafCell<N> {
    /// A leaf under a lock of its own.
    pub fn new(alloc: Global, leaf: NewLeaf<N>) -> Result<LeafCell<N>, OutOfMemory>
        ensures leaf { IfOk result (λ cell. cell ≡ leaf.leaf.0) }
    {
        let (leaf, desk) = leaf.into_parts();
        Ok(LeafCell {
            lock: TiedLock::new(alloc, leaf.0, Box::new(alloc, desk)?)?,
        })
    }

    /// Asks for room for a row: where the leaf is up, the caller has room there then.
    pub fn reserve<R: Wait>(
        &self,
        rt: &R,
        tables: &Tables<N>,
        know: &mut Know<N>,
        range: Range,
        slot: Slot,
        row: &Row,
    ) -> Result<Found, OutOfMemory>
        requires opened { is_opened range slot (leaf_history know.old.seen (leaf_numbered self.now)) ≡ true }
        ensures reserved { IfOk result (λ found. HasReserved (leaf_numbered self.now) found know.old know.new) }
        ensures refused { OnErr result (HasLooked (leaf_numbered self.now) know.old.purse.rooms know.old know.new) }
    {
        let (mut desk, key) = self.lock.lock(rt);
        let found = desk.reserve(tables, know, range, slot, Some(row));
        self.lock.release(key, desk);
        found
    }

    /// Asks for room for a bound that hides rows of a replica, as `reserve` does for a row.
    pub fn reserve_trim<R: Wait>(
        &self,
        rt: &R,
        tables: &Tables<N>,
        know: &mut Know<N>,
        range: Range,
        slot: Slot,
    ) -> Result<Found, OutOfMemory>
        requires opened { is_opened range slot (leaf_history know.old.seen (leaf_numbered self.now)) ≡ true }
        ensures reserved { IfOk result (λ found. HasReserved (leaf_numbered self.now) found know.old know.new) }
        ensures refused { OnErr result (HasLooked (leaf_numbered self.now) know.old.purse.rooms know.old know.new) }
    {
        let (mut desk, key) = self.lock.lock(rt);
        let found = desk.reserve(tables, know, range, slot, None);
        self.lock.release(key, desk);
        found
    }

    /// Puts a row where room was made, or gives the room back where the leaf is down. It is never refused for want of
    /// memory.
    pub fn put<R: Wait>(
        &self,
        rt: &R,
        tables: &Tables<N>,
        know: &mut Know<N>,
        range: Range,
        slot: Slot,
        row: Row,
    ) -> Found
        requires may { MayPut N.setting know.old (leaf_numbered self.now) range slot row }
        ensures put { HasPut (leaf_numbered self.now) (entry.Put (pass_of know.old) range slot row) result know.old
            know.new }
    {
        let (mut desk, key) = self.lock.lock(rt);
        let found = desk.put(tables, know, range, slot, row);
        self.lock.release(key, desk);
        found
    }

    /// Hides the rows of a replica that end before a bound, where room was made for that, or gives the room back where
    /// the leaf is down. No bit is raised, and it is never refused for want of memory.
    pub fn trim<R: Wait>(
        &self,
        rt: &R,
        tables: &Tables<N>,
        know: &mut Know<N>,
        range: Range,
        slot: Slot,
        before: i64,
    ) -> Found
        requires may { MayTrim N.setting know.old (leaf_numbered self.now) range slot }
        ensures trimmed { HasPut (leaf_numbered self.now) (entry.Trim (pass_of know.old) range slot before) result
            know.old know.new }
    {
        let (mut desk, key) = self.lock.lock(rt);
        let found = desk.trim(tables, know, range, slot, before);
        self.lock.release(key, desk);
        found
    }

    /// Gives room back. No memory is taken.
    pub fn cancel<R: Wait>(&self, rt: &R, tables: &Tables<N>, know: &mut Know<N>)
        requires room { 0 < times_room (leaf_numbered self.now) know.old.purse.rooms }
        ensures cancelled { HasLooked (leaf_numbered self.now)
            (without_one (leaf_numbered self.now) know.old.purse.rooms) know.old know.new }
    {
        let (mut desk, key) = self.lock.lock(rt);
        desk.cancel(tables, know);
        self.lock.release(key, desk);
    }

    /// Looks at the leaf: where it is up, it is read, and what the reader has for the caller is handed out.
    pub(crate) fn read<R: Wait, P: LeafReader>(
        &self,
        rt: &R,
        tables: &Tables<N>,
        know: &mut Know<N>,
        reader: &mut P,
    ) -> Result<Found, OutOfMemory>
        requires readable { (later : Knowledge)
            → HasLooked (leaf_numbered self.now) know.old.purse.rooms know.old later
            → IsSound N.setting later.hints later.seen
            → P.asks reader.old N.setting.buckets_of (leaf_history later.seen (leaf_numbered self.now)) }
        ensures visited { IfOk result (λ found. HasVisited (leaf_numbered self.now)
            (P.tells reader.old reader.new N.setting.buckets_of) found know.old know.new) }
        ensures refused { OnErr result
            (HasLooked (leaf_numbered self.now) know.old.purse.rooms know.old know.new) }
    {
        let (mut desk, key) = self.lock.lock(rt);
        let found = desk.visit(tables, know, reader);
        self.lock.release(key, desk);
        found
    }

    /// The rows that a replica keeps in the whole history of the leaf, where it is up. They are handed out.
    pub fn copy<R: Wait>(
        &self,
        rt: &R,
        tables: &Tables<N>,
        know: &mut Know<N>,
        range: Range,
        slot: Slot,
    ) -> Result<Copied, OutOfMemory>
        ensures copied { IfOk result (λ copied.
            HasCopied (leaf_numbered self.now) range slot copied know.old know.new) }
        ensures refused { OnErr result
            (HasLooked (leaf_numbered self.now) know.old.purse.rooms know.old know.new) }
    {
        let (mut desk, key) = self.lock.lock(rt);
        let copied = desk.copy(tables, know, range, slot);
        self.lock.release(key, desk);
        copied
    }

    /// Opens a replica with these rows, which it takes over. Where memory runs out nothing was opened.
    pub fn opened<R: Wait>(
        &self,
        rt: &R,
        tables: &Tables<N>,
        know: &mut Know<N>,
        range: Range,
        slot: Slot,
        rows: RowList,
    ) -> Result<Found, OutOfMemory>
        requires may { MayOpen N.setting know.old (leaf_numbered self.now) range slot rows }
        ensures opened { IfOk result (λ found. HasOpened (leaf_numbered self.now)
            (entry.Opened (pass_of know.old) range slot rows) found know.old know.new) }
        ensures refused { OnErr result
            (HasLooked (leaf_numbered self.now) know.old.purse.rooms know.old know.new) }
    {
        let (mut desk, key) = self.lock.lock(rt);
        let found = desk.opened(tables, know, range, slot, rows);
        self.lock.release(key, desk);
        found
    }

    /// Takes the leaf down, or up again, and tells the new length of its history. A leaf that is down keeps its rows. No
    /// memory is taken.
    pub fn control<R: Wait>(
        &self,
        rt: &R,
        tables: &Tables<N>,
        know: &mut Know<N>,
        to: Control,
    ) -> Result<u64, ControlFault>
        requires number { (hand_of know.old.purse).own ≡ Some (pass_of know.old) }
        ensures controlled { HasControlled (leaf_numbered self.now) to (pass_of know.old) result know.old know.new }
    {
        let (mut desk, key) = self.lock.lock(rt);
        let controlled = desk.control(tables, know, to);
        self.lock.release(key, desk);
        controlled
    }

    /// The rows that a replica keeps in the beginning of what the caller had seen of the leaf, which are handed out. The
    /// leaf may be down.
    pub fn gather<R: Wait>(
        &self,
        rt: &R,
        tables: &Tables<N>,
        know: &mut Know<N>,
        range: Range,
        slot: Slot,
        cut: u64,
    ) -> Result<RowList, OutOfMemory>
        requires seen { cut ≤ length (leaf_history know.old.seen (leaf_numbered self.now)) }
        ensures gathered { IfOk result (λ rows.
            HasGathered (leaf_numbered self.now) range slot cut rows know.old know.new) }
        ensures refused { OnErr result
            (HasLooked (leaf_numbered self.now) know.old.purse.rooms know.old know.new) }
    {
        let (mut desk, key) = self.lock.lock(rt);
        let rows = desk.gather(tables, know, range, slot, cut);
        self.lock.release(key, desk);
        rows
    }
}
