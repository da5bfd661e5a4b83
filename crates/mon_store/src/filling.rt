// The leaves and the ranges of a new store, as the first replicas are opened.
ghost use Rattle.std.specs.Prelude.{◌≡◌, ◌<◌, ◌+◌, ◌++◌, ◌∷◌, [], length, drop, map, slice_get, Some, IfOk, OnOk};
ghost use Rattle.std.specs.List.{range_with_len};
ghost use Rattle.std.specs.Vec.Iter.{into_iter_items, into_iter_len};
ghost use Rattle.history_book.specs.Histories.{AreFronts};
ghost use Rattle.history_book.specs.Seats.{first_seat, new_owner};
ghost use Rattle.history_book.specs.Seats.{hand_of};
ghost use Rattle.history_book.specs.declared.views.History.TheVariants as of;
ghost use Rattle.know.specs.Knowledge.{from_seats};
ghost use Rattle.know.specs.Sound.{IsSound};
ghost use Rattle.know.specs.Tables.{AreTablesOf};
ghost use Rattle.mon_topo.specs.Zones.{first_replicas, leaves_in, ranges_in};
ghost use Rattle.mon_value.specs.declared.histories.Entry.TheVariants as entry;
ghost use Rattle.raise_table.specs.Places as places;
ghost use Rattle.raise_table.specs.Seats as raising;
ghost use Rattle.mon_store.specs.Beginnings.{IsFirst};
ghost use Rattle.mon_store.specs.Openings.{AreOwners, HasOpenedAt, HoldsOnly, IsBareAt, IsOpening, all_owners};
ghost use Rattle.mon_store.specs.Openings.{first_leaf, range_book};
ghost use Rattle.mon_store.specs.Passes.{IsPass};
ghost use Rattle.mon_store.specs.Stores.{IsSetUp};

use history_book::BookOwner;
use know::{Know, Names, Tables};
use leaf_cell::{NewLeaf, new_leaves_are_at_rest};
use leaf_store::LeafState;
use mon_config::Config;
use mon_topo::{Sight, ranges_have_replicas};
use mon_value::{Leaf, OutOfMemory, Range, Slot};
use raise_table::{HintSeat, OwnerSeat};
use range_cell::{NewRange, RangeCell};
use std::alloc::Global;
use std::vec::IntoIter;

/// The tables and the first caller, and what is to become leaves and ranges.
#[derive(Drop)]
pub(crate) struct Opening<N: Names> {
    pub tables: Tables<N>,
    pub know: Know<N>,
    pub spare: HintSeat<N>,
    pub hints: IntoIter<OwnerSeat<N>>,
    pub books: IntoIter<BookOwner<N>>,
    pub leaves: Vec<NewLeaf<N>>,
    pub ranges: Vec<RangeCell<N>>,
}

impl<N: Names> Opening<N> {
    /// Makes the leaves, and opens the first replicas of all ranges.
    pub(crate) fn fill(&mut self, alloc: Global, config: &Config) -> Result<(), OutOfMemory>
        requires setup { IsSetUp N.setting N.raise config.now }
        requires tables { AreTablesOf N.setting N.raise N.book }
        requires know { self.old.know ≡ from_seats raising.no_hints (first_seat N.book.leaves N.book.ranges) }
        requires owners { AreOwners N.raise N.book (into_iter_items self.old.hints) (into_iter_items self.old.books) }
        requires counted { into_iter_len self.old.hints ≡ length (into_iter_items self.old.hints) }
        requires counted_books { into_iter_len self.old.books ≡ length (into_iter_items self.old.books) }
        requires no_leaf { self.old.leaves.items ≡ [] }
        requires no_range { self.old.ranges.items ≡ [] }
        ensures first { OnOk result (IsFirst config.now self.new.know) }
        ensures pass { OnOk result (IsPass N.setting self.new.know) }
        ensures leaves { OnOk result (map (λ leaf. leaf.leaf.0) self.new.leaves.items
            ≡ range_with_len 0 (length (leaves_in N.setting.zones))) }
        ensures ranges { OnOk result (self.new.ranges.items
            ≡ range_with_len 0 (length (ranges_in N.setting.zones))) }
    {
        self.make_leaves(alloc, config)?;
        self.open_ranges(alloc, config)?;
        self.know.confirm(&self.tables);
        Ok(())
    }

    // Makes the leaves.
    fn make_leaves(&mut self, alloc: Global, config: &Config) -> Result<(), OutOfMemory>
        requires setup { IsSetUp N.setting N.raise config.now }
        requires tables { AreTablesOf N.setting N.raise N.book }
        requires owners { AreOwners N.raise N.book (into_iter_items self.old.hints) (into_iter_items self.old.books) }
        requires counted { into_iter_len self.old.hints ≡ length (into_iter_items self.old.hints) }
        requires counted_books { into_iter_len self.old.books ≡ length (into_iter_items self.old.books) }
        requires none { self.old.leaves.items ≡ [] }
        ensures leaves { OnOk result (self.new.leaves.items
            ≡ map (first_leaf N.book.leaves N.book.ranges) (range_with_len 0 (length (leaves_in N.setting.zones)))) }
        ensures books { OnOk result (into_iter_items self.new.books ≡ drop N.book.leaves (all_owners N.book)) }
        ensures counted { OnOk result (into_iter_len self.new.books ≡ length (into_iter_items self.new.books)) }
        ensures know { self.new.know ≡ self.old.know }
        ensures ranges { self.new.ranges.items ≡ self.old.ranges.items }
    {
        for leaf in 0..config.topology.leaves() {
            let hints = taken(&mut self.hints);
            let book = taken(&mut self.books);
            let leaf = new_leaf(alloc, config, Leaf(leaf), hints, book)?;
            self.leaves.push(leaf)?;
        }
        Ok(())
    }

    // Opens the first replicas of all ranges, and locks these.
    fn open_ranges(&mut self, alloc: Global, config: &Config) -> Result<(), OutOfMemory>
        requires setup { IsSetUp N.setting N.raise config.now }
        requires tables { AreTablesOf N.setting N.raise N.book }
        requires opening { IsOpening N.setting.zones 0 0 self.old.leaves.items self.old.know }
        requires none { self.old.know.purse.holds ≡ [] }
        requires sound { IsSound N.setting self.old.know.hints self.old.know.seen }
        requires books { into_iter_items self.old.books ≡ drop N.book.leaves (all_owners N.book) }
        requires counted { into_iter_len self.old.books ≡ length (into_iter_items self.old.books) }
        requires no_range { self.old.ranges.items ≡ [] }
        ensures opening { OnOk result (IsOpening N.setting.zones (length (ranges_in N.setting.zones)) 0
            self.new.leaves.items self.new.know) }
        ensures none { OnOk result (self.new.know.purse.holds ≡ []) }
        ensures sound { OnOk result (IsSound N.setting self.new.know.hints self.new.know.seen) }
        ensures ranges { OnOk result (self.new.ranges.items
            ≡ range_with_len 0 (length (ranges_in N.setting.zones))) }
    {
        for range in 0..config.topology.ranges() {
            self.open_range(alloc, config, Range(range))?;
        }
        Ok(())
    }

    // Opens the first replicas of the next range, and locks it.
    fn open_range(
        &mut self,
        alloc: Global,
        config: &Config,
        range: Range,
    ) -> Result<(), OutOfMemory>
        requires setup { IsSetUp N.setting N.raise config.now }
        requires tables { AreTablesOf N.setting N.raise N.book }
        requires here { range.0 < length (ranges_in N.setting.zones) }
        requires opening { IsOpening N.setting.zones range.0 0 self.old.leaves.items self.old.know }
        requires none { self.old.know.purse.holds ≡ [] }
        requires sound { IsSound N.setting self.old.know.hints self.old.know.seen }
        requires book { slice_get (into_iter_items self.old.books) 0 ≡ Some (range_book N.book range.0) }
        requires counted { into_iter_len self.old.books ≡ length (into_iter_items self.old.books) }
        ensures opening { OnOk result
            (IsOpening N.setting.zones (range.0 + 1) 0 self.new.leaves.items self.new.know) }
        ensures none { OnOk result (self.new.know.purse.holds ≡ []) }
        ensures sound { OnOk result (IsSound N.setting self.new.know.hints self.new.know.seen) }
        ensures books { OnOk result (into_iter_items self.new.books ≡ drop 1 (into_iter_items self.old.books)) }
        ensures counted { OnOk result (into_iter_len self.new.books ≡ length (into_iter_items self.new.books)) }
        ensures ranges { OnOk result (self.new.ranges.items ≡ self.old.ranges.items ++ range.0 ∷ []) }
    {
        let sight = Sight::none(alloc, config.topology.leaves(), config.topology.ranges())?;
        let tables = &self.tables;
        let hints = tables.raise.split(&mut self.spare);
        let book = taken(&mut self.books);
        let new = NewRange::new(
            alloc,
            &self.tables,
            &mut self.know,
            range,
            hints,
            book,
            sight,
        );
        match self.open_replicas(alloc, config, range) {
            Ok(()) => {
                self.lock_range(alloc, config, range, new)?;
                Ok(())
            }
            Err(fault) => {
                drop(new);
                Err(fault)
            }
        }
    }

    // Opens the first replicas of a range that the caller holds, on their leaves.
    fn open_replicas(
        &mut self,
        alloc: Global,
        config: &Config,
        range: Range,
    ) -> Result<(), OutOfMemory>
        requires setup { IsSetUp N.setting N.raise config.now }
        requires here { range.0 < length (ranges_in N.setting.zones) }
        requires opening { IsOpening N.setting.zones range.0 0 self.old.leaves.items self.old.know }
        requires holds { HoldsOnly range self.old.know }
        ensures opening { OnOk result (IsOpening N.setting.zones range.0
            (length (first_replicas N.setting.zones range.0)) self.new.leaves.items self.new.know) }
        ensures holds { OnOk result (HoldsOnly range self.new.know) }
        ensures fronts { OnOk result (AreFronts self.old.know.seen self.new.know.seen) }
        ensures books { self.new.books ≡ self.old.books }
        ensures ranges { self.new.ranges.items ≡ self.old.ranges.items }
    {
        ranges_have_replicas(&config.topology);
        let mut slot = 0;
        for leaf in config.topology.first_replicas(range).as_slice() {
            self.open_replica(alloc, *leaf, range, Slot(slot))?;
            slot += 1;
        }
        Ok(())
    }

    // Opens a replica on its leaf.
    fn open_replica(
        &mut self,
        alloc: Global,
        leaf: Leaf,
        range: Range,
        slot: Slot,
    ) -> Result<(), OutOfMemory>
        requires there { leaf.0 < length self.old.leaves.items }
        requires number { (hand_of self.old.know.purse).own ≡ Some 0 }
        requires holds { HoldsOnly range self.old.know }
        requires up { IsBareAt range slot leaf self.old.leaves.items }
        ensures opened { OnOk result (HasOpenedAt leaf (entry.Opened 0 range slot []) self.old.leaves.items
            self.new.leaves.items self.old.know self.new.know) }
        ensures books { self.new.books ≡ self.old.books }
        ensures ranges { self.new.ranges.items ≡ self.old.ranges.items }
    {
        self.leaves[leaf.0 as usize].open(alloc, &self.tables, &mut self.know, range, slot)
    }

    // Locks a range whose first replicas are opened on their leaves.
    fn lock_range(
        &mut self,
        alloc: Global,
        config: &Config,
        range: Range,
        new: NewRange<N>,
    ) -> Result<(), OutOfMemory>
        requires setup { IsSetUp N.setting N.raise config.now }
        requires range { new.range ≡ range }
        requires here { range.0 < length (ranges_in N.setting.zones) }
        requires opening { IsOpening N.setting.zones range.0
            (length (first_replicas N.setting.zones range.0)) self.old.leaves.items self.old.know }
        requires holds { HoldsOnly range self.old.know }
        requires fronts { AreFronts new.seen self.old.know.seen }
        ensures opening { OnOk result
            (IsOpening N.setting.zones (range.0 + 1) 0 self.new.leaves.items self.new.know) }
        ensures none { OnOk result (self.new.know.purse.holds ≡ []) }
        ensures sound { OnOk result (IsSound N.setting self.new.know.hints self.new.know.seen) }
        ensures books { self.new.books ≡ self.old.books }
        ensures ranges { OnOk result (self.new.ranges.items ≡ self.old.ranges.items ++ range.0 ∷ []) }
    {
        ranges_have_replicas(&config.topology);
        let _sight = self.know.sight();
        let first = config.topology.first_replicas(range);
        let cell = RangeCell::new(
            alloc,
            &self.tables,
            &mut self.know,
            new,
            first,
            config.range_points,
        )?;
        self.ranges.push(cell)?;
        Ok(())
    }
}

// The next one, which there is.
fn taken<T>(items: &mut IntoIter<T>) -> T
    requires some { 0 < length (into_iter_items items.old) }
    requires counted { into_iter_len items.old ≡ length (into_iter_items items.old) }
    ensures item { into_iter_items items.old ≡ result ∷ into_iter_items items.new }
    ensures counted { into_iter_len items.new ≡ length (into_iter_items items.new) }
{
    let Some(item) = items.next() else {
        unreachable!();
    };
    item
}

// A leaf to which nothing happened, by its owner's seats.
fn new_leaf<N: Names>(
    alloc: Global,
    config: &Config,
    leaf: Leaf,
    hints: OwnerSeat<N>,
    book: BookOwner<N>,
) -> Result<NewLeaf<N>, OutOfMemory>
    requires setup { IsSetUp N.setting N.raise config.now }
    requires tables { AreTablesOf N.setting N.raise N.book }
    requires here { leaf.0 < length (leaves_in N.setting.zones) }
    requires hints { slice_get (map raising.new_owner (places.leaves_in N.raise.zones)) leaf.0 ≡ Some hints }
    requires book { book ≡ new_owner N.book.leaves N.book.ranges (of.Leaf leaf) }
    ensures leaf { IfOk result (λ new. new ≡ first_leaf N.book.leaves N.book.ranges leaf.0) }
{
    let sight = Sight::none(alloc, config.topology.leaves(), config.topology.ranges())?;
    match LeafState::new(alloc, leaf, config.buckets, &config.schemas) {
        Ok(state) => {
            new_leaves_are_at_rest();
            Ok(NewLeaf::new(leaf, state, hints, book, sight))
        }
        Err(fault) => {
            drop(sight);
            drop(hints);
            drop(book);
            Err(fault)
        }
    }
}
