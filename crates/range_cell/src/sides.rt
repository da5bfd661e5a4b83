// What writes, trims and recoveries do at the leaves of their range.
ghost use Rattle.std.specs.Prelude.{◌<◌, length, IfOk, OnErr};
ghost use Rattle.history_book.specs.Seats.{times_room, without_one};
ghost use Rattle.mon_topo.specs.Zones.{leaves_in};
ghost use Rattle.mon_value.specs.declared.histories.Entry.TheVariants as entry;
ghost use Rattle.owners.specs.Calls.{HasLooked, HasPut, HasReserved};
ghost use Rattle.owners.specs.Copies.{HasCopied};
ghost use Rattle.owners.specs.Openings.{HasOpened, MayOpen};
ghost use Rattle.owners.specs.Puts.{HasSeenOpened, MayPut, MayTrim, pass_of};

use know::{Copied, Found, Know, Names};
use mon_value::{Leaf, OutOfMemory, Range, Row, RowList, Slot};

/// The leaves of a store, as writes, trims and recoveries meet them. Each call is one section under the leaf's lock.
pub trait LeafSide<N: Names> {
    /// Asks for room for a row. Where memory runs out the caller has seen more, and nothing else.
    fn reserve(
        &self,
        leaf: Leaf,
        know: &mut Know<N>,
        range: Range,
        slot: Slot,
        row: &Row,
    ) -> Result<Found, OutOfMemory>
        requires seen { HasSeenOpened N.setting know.old leaf range slot }
        ensures reserved { IfOk result (λ found. HasReserved leaf found know.old know.new) }
        ensures refused { OnErr result (HasLooked leaf know.old.purse.rooms know.old know.new) };

    /// Puts a row where room was made, or gives the room back where the leaf is down.
    fn put(&self, leaf: Leaf, know: &mut Know<N>, range: Range, slot: Slot, row: Row) -> Found
        requires may { MayPut N.setting know.old leaf range slot row }
        ensures put { HasPut leaf (entry.Put (pass_of know.old) range slot row) result know.old know.new };

    /// Asks for room for a bound. Where memory runs out the caller has seen more, and nothing else.
    fn reserve_trim(
        &self,
        leaf: Leaf,
        know: &mut Know<N>,
        range: Range,
        slot: Slot,
    ) -> Result<Found, OutOfMemory>
        requires seen { HasSeenOpened N.setting know.old leaf range slot }
        ensures reserved { IfOk result (λ found. HasReserved leaf found know.old know.new) }
        ensures refused { OnErr result (HasLooked leaf know.old.purse.rooms know.old know.new) };

    /// Hides the rows of a replica that end before a bound, where room was made, or gives the room back where the leaf
    /// is down.
    fn trim(&self, leaf: Leaf, know: &mut Know<N>, range: Range, slot: Slot, before: i64) -> Found
        requires may { MayTrim N.setting know.old leaf range slot }
        ensures put { HasPut leaf (entry.Trim (pass_of know.old) range slot before) result know.old know.new };

    /// Gives room back.
    fn cancel(&self, leaf: Leaf, know: &mut Know<N>)
        requires there { leaf.0 < length (leaves_in N.setting.zones) }
        requires room { 0 < times_room leaf know.old.purse.rooms }
        ensures cancelled { HasLooked leaf (without_one leaf know.old.purse.rooms) know.old know.new };

    /// The rows that a replica keeps in the whole history of its leaf, where that is up. They are handed out.
    fn copy(
        &self,
        leaf: Leaf,
        know: &mut Know<N>,
        range: Range,
        slot: Slot,
    ) -> Result<Copied, OutOfMemory>
        requires there { leaf.0 < length (leaves_in N.setting.zones) }
        ensures copied { IfOk result (λ copied. HasCopied leaf range slot copied know.old know.new) }
        ensures refused { OnErr result (HasLooked leaf know.old.purse.rooms know.old know.new) };

    /// Opens a replica with these rows, which it takes over. Where memory runs out nothing was opened.
    fn opened(
        &self,
        leaf: Leaf,
        know: &mut Know<N>,
        range: Range,
        slot: Slot,
        rows: RowList,
    ) -> Result<Found, OutOfMemory>
        requires may { MayOpen N.setting know.old leaf range slot rows }
        ensures opened { IfOk result (λ found. HasOpened leaf (entry.Opened (pass_of know.old) range slot rows) found
            know.old know.new) }
        ensures refused { OnErr result (HasLooked leaf know.old.purse.rooms know.old know.new) };
}
