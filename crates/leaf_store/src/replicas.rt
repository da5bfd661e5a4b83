// The replicas that a leaf keeps, and entries that go to them.
ghost use Rattle.std.specs.Prelude.{◌≡◌, true, false, length, slice_get, option_map, IfErr, IfOk, IfSome, Some};
ghost use Rattle.std.specs.Prelude.{IsTrue, OnErr, OnOk, is_some};
ghost use Rattle.std.specs.Option.{option_copied};
ghost use Rattle.mon_value.specs.LeafHistories.{same_replica, IsSource, last_end, points_of, series_of};
ghost use Rattle.mon_value.specs.Turns.{Adds, Hides};
ghost use Rattle.leaf_store.specs.within.FreshEntries.{HasKeptNumber};
ghost use Rattle.leaf_store.specs.within.Replicas.{CanPut, CanSettle, HasSeries, IsLater, IsNewReplica, IsReplicaAdded};
ghost use Rattle.leaf_store.specs.within.Replicas.{IsPut, IsTurned, SettlesEntry, has_row_of, place_in, rows_held};
ghost use Rattle.leaf_store.specs.within.Replicas.{rows_if, rows_if_held, with_turn};

use crate::guess::Guess;
use crate::kept::Kept;
use crate::slot_rows::SlotRows;
use indexmap::IndexMap;
use mon_series::KeptSeries;
use mon_value::{Entry, OutOfMemory, Range, Row, SeriesKey, Shared, Slot, TryCopy};
use std::alloc::{AllocError, AllocFailed, Global};

/// A replica of a range: what its rows are found by.
#[derive(Clone, Copy, PartialEq, Eq, Hash)]
pub(crate) struct Replica {
    pub(crate) range: Range,
    pub(crate) slot: Slot,
}

/// Whether two replicas are the same one.
pub(crate) fn is_same(replica: Replica, other: Replica) -> bool
    ensures same { result ≡ same_replica replica.range replica.slot other.range other.slot }
{
    replica.range == other.range && replica.slot == other.slot
}

/// Replicas with their rows, in the order in which they were opened.
pub(crate) type Replicas = IndexMap<Replica, SlotRows>;

/// The rows of a replica.
pub(crate) fn rows_of(replicas: &Replicas, replica: Replica) -> Option<&SlotRows>
    ensures found { option_copied result ≡ rows_held replicas.now.entries replica.range replica.slot }
{
    replicas.get(&replica)
}

/// The rows of a replica. The place that is told is looked at first; where the replica has another one, that is told
/// then.
pub(crate) fn rows_near<'a>(
    replicas: &'a Replicas,
    replica: Replica,
    place: &mut usize,
) -> Option<&'a SlotRows>
    ensures found { option_copied result ≡ rows_held replicas.now.entries replica.range replica.slot }
{
    if let Some(rows) = own_rows(replicas, *place, replica) {
        return Some(rows);
    }
    let (at, _, rows) = replicas.get_full(&replica)?;
    *place = at;
    Some(rows)
}

/// Whether a replica was never opened.
pub(crate) fn is_new(replicas: &Replicas, replica: Replica) -> bool
    ensures new { IsTrue result → IsNewReplica replicas.now.entries replica }
    ensures held { result ≡ false → IsNewReplica replicas.now.entries replica → ⊥ }
{
    rows_of(replicas, replica).is_none()
}

/// Whether a row may be put to a replica.
pub(crate) fn takes(replicas: &Replicas, replica: Replica, row: &Row) -> bool
    ensures takes { IsTrue result → CanPut replicas.now.entries replica row.now }
    ensures refused { result ≡ false → CanPut replicas.now.entries replica row.now → ⊥ }
{
    match rows_of(replicas, replica) {
        Some(slot) => ends_later(slot, row),
        None => false,
    }
}

// Whether a row ends later than those of its series.
fn ends_later(slot: &SlotRows, row: &Row) -> bool
    ensures later { IsTrue result → IsLater row.now slot.now.rows }
    ensures refused { result ≡ false → IsLater row.now slot.now.rows → ⊥ }
{
    match slot.rows().find(&row.key) {
        Some(found) => found.last < row.point.end,
        None => true,
    }
}

/// The series of a key in a replica, if it has a row there. Only where it isn't the series whose number is guessed is
/// it looked up, and only where the replica's place is another one is that looked up, and told.
pub(crate) fn find_series(
    replicas: &Replicas,
    replica: Replica,
    key: &Shared<SeriesKey>,
    guess: u32,
    place: &mut usize,
) -> Option<KeptSeries>
    ensures has { IfSome result (λ found. HasSeries replicas.now.entries replica key.now) }
    ensures number { IfSome result (λ found. slice_get (series_of (rows_if_held
        (rows_held replicas.now.entries replica.range replica.slot))) found.number ≡ Some key.now) }
    ensures last { option_map (λ found. found.last) result ≡ last_end
        (points_of key.now (rows_if_held (rows_held replicas.now.entries replica.range replica.slot))) }
{
    match rows_near(replicas, replica, place) {
        Some(slot) => slot.find(key, guess),
        None => None,
    }
}

/// The series of a key in a replica, if it has a row there. The number that comes next is guessed first, and a series
/// that is found is followed.
pub(crate) fn find_next(
    replicas: &Replicas,
    replica: Replica,
    key: &Shared<SeriesKey>,
    guess: &mut Guess,
) -> Option<KeptSeries>
    ensures has { IfSome result (λ found. HasSeries replicas.now.entries replica key.now) }
    ensures number { IfSome result (λ found. slice_get (series_of (rows_if_held
        (rows_held replicas.now.entries replica.range replica.slot))) found.number ≡ Some key.now) }
    ensures last { option_map (λ found. found.last) result ≡ last_end
        (points_of key.now (rows_if_held (rows_held replicas.now.entries replica.range replica.slot))) }
{
    let found = find_series(replicas, replica, key, guess.next, &mut guess.place)?;
    guess.follow(found.number);
    Some(found)
}

/// The rows of the replica of a number, where it is a certain one.
pub(crate) fn own_rows(replicas: &Replicas, number: usize, replica: Replica) -> Option<&SlotRows>
    ensures own { option_copied result
        ≡ rows_if replica.range replica.slot (slice_get replicas.now.entries number) }
    ensures held { IfSome result (λ rows.
        rows_held replicas.now.entries replica.range replica.slot ≡ Some rows.now) }
{
    match replicas.get_index(number) {
        Some((own, rows)) if is_same(replica, *own) => Some(rows),
        _ => None,
    }
}

/// Brings an entry to its replica, with copies of its rows, and gives the entry as it is kept then. Where memory runs
/// out the replicas stay. The number of a row's series is guessed where it isn't known.
pub(crate) fn settle_entry(
    alloc: Global,
    replicas: &mut Replicas,
    entry: &Entry,
    series: Option<u32>,
    guess: Guess,
) -> Result<Kept, OutOfMemory>
    requires settles { CanSettle replicas.old.entries entry.now }
    requires numbered { IfSome series (HasKeptNumber replicas.old.entries entry.now) }
    ensures settled { IfOk result (λ kept. SettlesEntry replicas.old.entries replicas.new.entries entry.now kept) }
    ensures stayed { OnErr result (replicas.new.entries ≡ replicas.old.entries) }
{
    match entry {
        Entry::Opened {
            pass,
            range,
            slot,
            rows,
        } => {
            let replica = Replica {
                range: *range,
                slot: *slot,
            };
            let (number, count) = open(alloc, replicas, replica, rows.as_slice())?;
            Ok(Kept::Opened {
                pass: *pass,
                replica: number,
                count,
            })
        }
        Entry::Put {
            pass,
            range,
            slot,
            row,
        } => {
            let replica = Replica {
                range: *range,
                slot: *slot,
            };
            let put = put_copy(alloc, replicas, replica, row, series, guess)?;
            Ok(Kept::Put {
                pass: *pass,
                replica: put.replica,
                row: put.row,
            })
        }
        Entry::Trim {
            pass,
            range,
            slot,
            before,
        } => {
            let replica = Replica {
                range: *range,
                slot: *slot,
            };
            let number = hide(replicas, replica, *before, guess)?;
            Ok(Kept::Trim {
                pass: *pass,
                replica: number,
                before: *before,
            })
        }
        Entry::Down { pass } => Ok(Kept::Down { pass: *pass }),
        Entry::Up { pass } => Ok(Kept::Up { pass: *pass }),
    }
}

// Adds a replica with copies of the rows that it takes over, and gives its number and that of its rows.
fn open(
    alloc: Global,
    replicas: &mut Replicas,
    replica: Replica,
    rows: &[Row],
) -> Result<(u32, u32), OutOfMemory>
    requires source { IsSource rows.now }
    requires fresh { IsNewReplica replicas.old.entries replica }
    ensures opened { IfOk result (λ at.
        IsReplicaAdded replicas.old.entries replicas.new.entries replica rows.now at.0 at.1) }
    ensures stayed { OnErr result (replicas.new.entries ≡ replicas.old.entries) }
{
    let Ok(number) = u32::try_from(replicas.len()) else {
        return Err(AllocError);
    };
    let Ok(count) = u32::try_from(rows.len()) else {
        return Err(AllocError);
    };
    let taken = SlotRows::of_rows(alloc, rows)?;
    replicas.insert(replica, taken)?;
    Ok((number, count))
}

/// Where a row was put: the number of its replica and its own, and whether its series had a row there before.
#[derive(Clone, Copy)]
pub(crate) struct RowPut {
    pub(crate) replica: u32,
    pub(crate) row: u32,
    pub(crate) known: bool,
}

/// Adds a copy of a row to a replica's rows, as `put` adds a row.
pub(crate) fn put_copy(
    alloc: Global,
    replicas: &mut Replicas,
    replica: Replica,
    row: &Row,
    series: Option<u32>,
    guess: Guess,
) -> Result<RowPut, OutOfMemory>
    requires numbered { IfSome series (λ number. slice_get (series_of
        (rows_if_held (rows_held replicas.old.entries replica.range replica.slot))) number ≡ Some row.now.key) }
    requires later { CanPut replicas.old.entries replica row.now }
    ensures put { IfOk result (λ put.
        IsPut replicas.old.entries replicas.new.entries replica row.now put.replica put.row) }
    ensures known { IfOk result (λ put. put.known ≡ has_row_of row.now.key
        (rows_if_held (rows_held replicas.old.entries replica.range replica.slot))) }
    ensures stayed { OnErr result (replicas.new.entries ≡ replicas.old.entries) }
{
    Ok(put(replicas, replica, row.copy(alloc)?, series, guess)?)
}

/// Adds a row to a replica's rows. The number of its series is guessed where it isn't known. Where memory runs out the
/// replicas stay, and the row is given back.
pub(crate) fn put(
    replicas: &mut Replicas,
    replica: Replica,
    row: Row,
    series: Option<u32>,
    guess: Guess,
) -> Result<RowPut, AllocFailed<Row>>
    requires numbered { IfSome series (λ number. slice_get (series_of
        (rows_if_held (rows_held replicas.old.entries replica.range replica.slot))) number ≡ Some row.key) }
    requires later { CanPut replicas.old.entries replica row }
    ensures put { IfOk result (λ put.
        IsPut replicas.old.entries replicas.new.entries replica row put.replica put.row) }
    ensures known { IfOk result (λ put. put.known ≡ has_row_of row.key
        (rows_if_held (rows_held replicas.old.entries replica.range replica.slot))) }
    ensures stayed { OnErr result (replicas.new.entries ≡ replicas.old.entries) }
    ensures value_returned { IfErr result (λ failed. failed.value ≡ row) }
{
    let Some(at) = place_of(replicas, replica, guess.place) else {
        unreachable!();
    };
    let Ok(number) = u32::try_from(at) else {
        return Err(AllocFailed { value: row });
    };
    let Some(slot) = replicas.get_index_mut(at) else {
        unreachable!();
    };
    let (place, known) = put_in(slot, row, series, guess.series)?;
    Ok(RowPut {
        replica: number,
        row: place,
        known,
    })
}

/// Hides the rows of a replica that end before a bound, and gives the replica's number. No memory is taken; it fails only
/// where the number is too great.
pub(crate) fn hide(
    replicas: &mut Replicas,
    replica: Replica,
    before: i64,
    guess: Guess,
) -> Result<u32, OutOfMemory>
    requires held { is_some (rows_held replicas.old.entries replica.range replica.slot) ≡ true }
    ensures hidden { IfOk result (λ number.
        IsTurned replicas.old.entries replicas.new.entries replica (Hides before) number) }
    ensures stayed { OnErr result (replicas.new.entries ≡ replicas.old.entries) }
{
    let Some(at) = place_of(replicas, replica, guess.place) else {
        unreachable!();
    };
    let Ok(number) = u32::try_from(at) else {
        return Err(AllocError);
    };
    let Some(slot) = replicas.get_index_mut(at) else {
        unreachable!();
    };
    slot.hide(before);
    Ok(number)
}

/// Brings an entry that puts a row or hides rows to its replica, and gives the entry as it is kept then. The number of
/// the row's series is guessed where it isn't known. Another entry is given back, as all are where memory runs out, and
/// the replicas stay.
pub(crate) fn put_entry(
    replicas: &mut Replicas,
    entry: Entry,
    series: Option<u32>,
    guess: Guess,
) -> Result<Kept, Entry>
    requires settles { CanSettle replicas.old.entries entry }
    requires numbered { IfSome series (HasKeptNumber replicas.old.entries entry) }
    ensures settled { IfOk result (λ kept. SettlesEntry replicas.old.entries replicas.new.entries entry kept) }
    ensures stayed { OnErr result (replicas.new.entries ≡ replicas.old.entries) }
    ensures back { IfErr result (λ own. own ≡ entry) }
{
    match entry {
        Entry::Put {
            pass,
            range,
            slot,
            row,
        } => {
            let replica = Replica { range, slot };
            match put(replicas, replica, row, series, guess) {
                Ok(put) => Ok(Kept::Put {
                    pass,
                    replica: put.replica,
                    row: put.row,
                }),
                Err(failed) => Err(Entry::Put {
                    pass,
                    range,
                    slot,
                    row: failed.value,
                }),
            }
        }
        Entry::Trim {
            pass,
            range,
            slot,
            before,
        } => {
            let replica = Replica { range, slot };
            match hide(replicas, replica, before, guess) {
                Ok(number) => Ok(Kept::Trim {
                    pass,
                    replica: number,
                    before,
                }),
                Err(_) => Err(Entry::Trim {
                    pass,
                    range,
                    slot,
                    before,
                }),
            }
        }
        other => Err(other),
    }
}

// The place of a replica. The one that is guessed is looked at first.
fn place_of(replicas: &Replicas, replica: Replica, guess: usize) -> Option<usize>
    ensures place { result ≡ place_in replicas.now.entries replica }
    ensures kept { is_some result ≡ is_some (rows_held replicas.now.entries replica.range replica.slot) }
{
    if is_at(replicas, replica, guess) {
        return Some(guess);
    }
    replicas.get_index_of(&replica)
}

// Whether a replica has a certain place.
fn is_at(replicas: &Replicas, replica: Replica, place: usize) -> bool
    ensures place { IsTrue result → place_in replicas.now.entries replica ≡ Some place }
    ensures kept { IsTrue result → is_some (rows_held replicas.now.entries replica.range replica.slot) ≡ true }
{
    if place >= replicas.len() {
        return false;
    }
    own_rows(replicas, place, replica).is_some()
}

// Adds a row to the rows of a replica, and gives its number and whether its series had a row there.
fn put_in(
    slot: &mut SlotRows,
    row: Row,
    series: Option<u32>,
    guess: u32,
) -> Result<(u32, bool), AllocFailed<Row>>
    requires numbered { IfSome series (λ number. slice_get (series_of slot.old.rows) number ≡ Some row.key) }
    requires later { IsLater row slot.old.rows }
    ensures place { IfOk result (λ at. at.0 ≡ length slot.old.rows) }
    ensures known { IfOk result (λ at. at.1 ≡ has_row_of row.key slot.old.rows) }
    ensures pushed { OnOk result (slot.new ≡ with_turn (Adds row) slot.old) }
    ensures kept { OnErr result (slot.new ≡ slot.old) }
    ensures value_returned { IfErr result (λ failed. failed.value ≡ row) }
{
    let Ok(place) = u32::try_from(slot.rows().len()) else {
        return Err(AllocFailed { value: row });
    };
    let known = slot.push(row, series, guess)?;
    Ok((place, known))
}
