// The state of a leaf.
ghost use Rattle.std.specs.Prelude.{◌≡◌, ◌++◌, ◌∷◌, ◌-◌, ◌<◌, ◌≤◌, ◌+◌, ◌^◌, Bool, is_some, [], length, take};
ghost use Rattle.std.specs.Prelude.{false, ℕ, Some, slice_get};
ghost use Rattle.std.specs.Prelude.{true, IfOk, IfSome, IfNone, OnOk, OnErr, IsTrue};
ghost use Rattle.std.specs.List.{count_by};
ghost use Rattle.std.specs.Option.{option_copied};
ghost use Rattle.mon_hints.specs.BucketSets.{HasNone, IsNext, is_set};
ghost use Rattle.mon_hints.specs.Formulas.{is_among};
ghost use Rattle.mon_value.specs.LeafHistories.{IsWellFormed, MayFollow, brought_rows, is_down, is_down_after};
ghost use Rattle.mon_value.specs.LeafHistories.{is_opened, is_switch, kept_rows, replica_rows, IsSource, last_end, points_of};
ghost use Rattle.mon_value.specs.LeafHistories.{series_of};
ghost use Rattle.mon_hints.specs.Hints.{history_buckets};
ghost use Rattle.leaf_store.specs.LeafStates.{AreToRaise, key_buckets, is_unraised, new_leaf, opened_rows};
ghost use Rattle.leaf_store.specs.LeafStates.{leaf_with_entry, with_promised, with_settled, HasNumber};
ghost use Rattle.leaf_store.specs.within.Follows.{CanTakeRow};

use crate::fresh::{FreshEntry, behind, clear, in_front};
use crate::guess::Guess;
use crate::kept::{Kept, KeptEntries};
use crate::raised::{key_set, left_of, raise_unknown};
use crate::replays::{push_held, put_behind, rows_kept, settle_entries, turn_all};
use crate::replicas::{Replica, Replicas, find_next, is_new, rows_of, takes};
use crate::slot_rows::SlotRows;
use mon_hints::{BucketSet, Buckets};
use mon_schema::Schemas;
use mon_value::{
    Entry, Leaf, MOST_BUCKETS, MOST_SWITCHES, OutOfMemory, Range, Row, RowList, SeriesKey, Shared,
    Slot, TryCopy,
};
use std::alloc::{AllocError, Global};
use std::marker::Model;

/// The state of a leaf: what it is after its history. Entries come in room that was made for them; those with rows are
/// moved into the series of their replicas by `settle`.
#[derive(Drop)]
pub struct LeafState {
    alloc: Global,
    schemas: Schemas,
    buckets: u32,
    replicas: Replicas,
    kept: KeptEntries,
    fresh: Vec<FreshEntry>,
    moved: usize,
    settled: bool,
    raised: BucketSet,
    down: bool,
    switches_left: usize,
    promised: usize,
    guess: Guess,
}

impl Model for LeafState {
    ghost use Rattle.leaf_store.specs.LeafStates.{LeafView};

    ghost Value = { LeafView };

    ghost use Rattle.leaf_store.specs.within.States.{IsLeafKept, leaf_view};

    ghost view = { leaf_view };

    ghost invariant = { IsLeafKept };
}

impl LeafState {
    /// The state of a leaf to which nothing happened so far, with room for all its switches. It keeps a copy of the
    /// schemas, by which it counts the buckets of its series.
    pub fn new(
        alloc: Global,
        _leaf: Leaf,
        buckets: u32,
        schemas: &Schemas,
    ) -> Result<LeafState, OutOfMemory>
        requires some { 0 < buckets }
        requires most { buckets ≤ MOST_BUCKETS }
        ensures empty { IfOk result (λ leaf. leaf ≡ new_leaf schemas.now buckets) }
    {
        Ok(LeafState {
            alloc,
            schemas: schemas.copy(alloc)?,
            buckets,
            replicas: Replicas::new(alloc),
            kept: KeptEntries::new(alloc),
            fresh: Vec::with_capacity(alloc, MOST_SWITCHES as usize)?,
            moved: 0,
            settled: true,
            raised: BucketSet::new(),
            down: false,
            switches_left: MOST_SWITCHES as usize,
            promised: 0,
            guess: Guess {
                place: 0,
                series: 0,
                next: 0,
            },
        })
    }

    /// Promises the place of one entry for a row of a replica, and brings all that was applied into the series of their
    /// replicas, so that few entries ever wait. Where memory runs out nothing changes.
    pub fn reserve(&mut self, range: Range, slot: Slot, _row: &Row) -> Result<(), OutOfMemory>
        requires opened { is_opened range slot self.old.history ≡ true }
        ensures promised { OnOk result
            (self.new ≡ with_settled (with_promised self.old (self.old.promised + 1))) }
        ensures kept { OnErr result (self.new ≡ self.old) }
    {
        self.promise_settled()
    }

    /// Promises the place of one entry by which a replica's rows are hidden, as `reserve` promises that of a row.
    pub fn reserve_trim(&mut self, range: Range, slot: Slot) -> Result<(), OutOfMemory>
        requires opened { is_opened range slot self.old.history ≡ true }
        ensures promised { OnOk result
            (self.new ≡ with_settled (with_promised self.old (self.old.promised + 1))) }
        ensures kept { OnErr result (self.new ≡ self.old) }
    {
        self.promise_settled()
    }

    // Promises the place of one entry more, and brings all that was applied to its replicas.
    fn promise_settled(&mut self) -> Result<(), OutOfMemory>
        ensures promised { OnOk result
            (self.new ≡ with_settled (with_promised self.old (self.old.promised + 1))) }
        ensures kept { OnErr result (self.new ≡ self.old) }
    {
        self.promise()?;
        if self.settle().is_err() {
            self.cancel();
            return Err(AllocError);
        }
        Ok(())
    }

    /// Promises the place of one entry by which a replica begins with some rows. Where memory runs out nothing changes.
    pub fn reserve_opened(&mut self, _rows: &RowList) -> Result<(), OutOfMemory>
        ensures promised { OnOk result (self.new ≡ with_promised self.old (self.old.promised + 1)) }
        ensures kept { OnErr result (self.new ≡ self.old) }
    {
        self.promise()
    }

    // Promises the place of one entry more, beside those of the switches that may still come.
    fn promise(&mut self) -> Result<(), OutOfMemory>
        ensures promised { OnOk result (self.new ≡ with_promised self.old (self.old.promised + 1)) }
        ensures kept { OnErr result (self.new ≡ self.old) }
    {
        self.fresh.reserve(self.promised + self.switches_left + 1)?;
        self.promised += 1;
        Ok(())
    }

    /// Takes a promise back.
    pub fn cancel(&mut self)
        requires promised { 1 ≤ self.old.promised }
        ensures cancelled { self.new ≡ with_promised self.old (self.old.promised - 1) }
    {
        self.promised -= 1;
    }

    /// Whether the leaf is down.
    pub fn down(&self) -> bool
        ensures down { result ≡ is_down self.now.history }
    {
        self.down
    }

    /// How many entries the history has: fewer than 2^62. It is one that a leaf can have.
    pub fn length(&self) -> u64
        ensures length { result ≡ length self.now.history }
        ensures short { result < 2 ^ 62 }
        ensures formed { IsWellFormed self.now.history }
    {
        (self.kept.len() + (self.fresh.as_slice().len() - self.moved)) as u64
    }

    /// Whether a series of the history has a bucket.
    pub fn has(&self, bucket: u32) -> bool
        ensures has { result ≡ is_among bucket
            (history_buckets (key_buckets self.now.buckets self.now.schemas) self.now.history) }
    {
        self.raised.has(bucket)
    }

    /// The rows of a replica: none exactly where it was never opened here.
    pub fn slot(&self, range: Range, slot: Slot) -> Option<&SlotRows>
        requires settled { IsTrue self.now.settled }
        ensures rows { option_copied result ≡ opened_rows range slot self.now.history }
    {
        rows_of(&self.replicas, Replica { range, slot })
    }

    /// The number that a series has among those of its replica, where a row of it was brought into the replica's
    /// series, so that none of the series' buckets is left to raise. Of a replica whose rows all were brought there it
    /// tells just which series have a row. The number is what `apply_known` takes. No memory is taken.
    pub fn known_series(&mut self, range: Range, slot: Slot, key: &Shared<SeriesKey>) -> Option<u32>
        ensures number { IfSome result (λ number.
            slice_get (series_of (replica_rows range slot self.old.history)) number ≡ Some key.now) }
        ensures raised { IsTrue (is_some result) → (bucket : ℕ) →
            is_unraised self.old.buckets self.old.schemas self.old.history key.now bucket ≡ false }
        ensures exact { IsTrue self.old.settled → is_opened range slot self.old.history ≡ true →
            is_some result ≡ is_some (last_end (points_of key.now (replica_rows range slot self.old.history))) }
        ensures kept { self.new ≡ self.old }
    {
        let replica = Replica { range, slot };
        let Some(found) = find_next(&self.replicas, replica, key, &mut self.guess) else {
            return None;
        };
        Some(found.number)
    }

    /// Whether an entry may come next, whose rows are in the order of their series' points.
    pub fn may_follow(&self, entry: &Entry) -> bool
        requires settled { IsTrue self.now.settled }
        requires source { IsSource (brought_rows entry.now) }
        ensures may { IsTrue result → MayFollow self.now.history entry.now }
        ensures follows { IsTrue result → IsWellFormed (self.now.history ++ entry.now ∷ []) }
        ensures refused { result ≡ false → MayFollow self.now.history entry.now → ⊥ }
    {
        match entry {
            Entry::Opened { range, slot, .. } => self.may_open(Replica {
                range: *range,
                slot: *slot,
            }),
            Entry::Put {
                range,
                slot,
                row,
                ..
            } => self.may_put(
                Replica {
                    range: *range,
                    slot: *slot,
                },
                row,
            ),
            Entry::Trim { range, slot, .. } => self.may_trim(Replica {
                range: *range,
                slot: *slot,
            }),
            Entry::Down { .. } => self.may_switch(false),
            Entry::Up { .. } => self.may_switch(true),
        }
    }

    // Whether the leaf is up and a replica was not opened there.
    fn may_open(&self, replica: Replica) -> bool
        requires settled { IsTrue self.now.settled }
        ensures formed { IsWellFormed self.now.history }
        ensures may { IsTrue result → (is_down self.now.history ≡ false)
            × (is_opened replica.range replica.slot self.now.history ≡ false) }
        ensures refused { result ≡ false → is_down self.now.history ≡ false
            → is_opened replica.range replica.slot self.now.history ≡ false → ⊥ }
    {
        if self.down {
            return false;
        }
        is_new(&self.replicas, replica)
    }

    // Whether the leaf is up and a replica was opened there.
    fn may_trim(&self, replica: Replica) -> bool
        requires settled { IsTrue self.now.settled }
        ensures formed { IsWellFormed self.now.history }
        ensures may { IsTrue result → (is_down self.now.history ≡ false)
            × (is_opened replica.range replica.slot self.now.history ≡ true) }
        ensures refused { result ≡ false → is_down self.now.history ≡ false
            → is_opened replica.range replica.slot self.now.history ≡ true → ⊥ }
    {
        if self.down {
            return false;
        }
        !is_new(&self.replicas, replica)
    }

    // Whether the leaf is up and a row may be put to a replica.
    fn may_put(&self, replica: Replica, row: &Row) -> bool
        requires settled { IsTrue self.now.settled }
        ensures formed { IsWellFormed self.now.history }
        ensures may { IsTrue result → CanTakeRow self.now.history replica row.now }
        ensures refused { result ≡ false → CanTakeRow self.now.history replica row.now → ⊥ }
    {
        if self.down {
            return false;
        }
        takes(&self.replicas, replica, row)
    }

    /// Whether the leaf is down, or up, as is told, and a switch may still come: so whether it may be switched from
    /// that to the other. The state need not be settled.
    pub fn may_switch(&self, down: bool) -> bool
        ensures formed { IsWellFormed self.now.history }
        ensures may { IsTrue result → (is_down self.now.history ≡ down)
            × (count_by is_switch self.now.history < MOST_SWITCHES) }
        ensures refused { result ≡ false → is_down self.now.history ≡ down
            → count_by is_switch self.now.history < MOST_SWITCHES → ⊥ }
    {
        if self.down != down {
            return false;
        }
        0 < self.switches_left
    }

    /// How many switches may still come. The state need not be settled.
    pub fn switches_left(&self) -> u64
        ensures left { count_by is_switch self.now.history + result ≡ MOST_SWITCHES }
    {
        self.switches_left as u64
    }

    /// Appends an entry. One with rows takes the place that was promised; a switch has its place since `new`. A row is put
    /// to its replica at once where no entry waits. Where one does, or memory runs out, the entry waits too.
    pub fn apply(&mut self, entry: Entry)
        requires follows { IsWellFormed (self.old.history ++ entry ∷ []) }
        requires promised { is_switch entry ≡ false → 1 ≤ self.old.promised }
        ensures applied { self.new ≡ leaf_with_entry self.old entry }
    {
        match switch_of(&entry) {
            Some(down) => {
                self.down = down;
                self.switches_left -= 1;
                self.fresh.push_reserved(FreshEntry {
                    entry,
                    series: None,
                });
            }
            None => self.line_up(entry, None),
        }
    }

    /// Appends an entry as `apply` does, which puts a row of a series whose number in its replica is known, as from
    /// `known_series`. The series is not looked up, now or when it is settled.
    pub fn apply_known(&mut self, entry: Entry, series: u32)
        requires numbered { HasNumber self.old.history entry series }
        requires follows { IsWellFormed (self.old.history ++ entry ∷ []) }
        requires promised { 1 ≤ self.old.promised }
        ensures applied { self.new ≡ leaf_with_entry self.old entry }
    {
        self.line_up(entry, Some(series));
    }

    // Appends an entry with rows, with the number of its row's series where that is known.
    fn line_up(&mut self, entry: Entry, series: Option<u32>)
        requires rows { is_switch entry ≡ false }
        requires numbered { IfSome series (HasNumber self.old.history entry) }
        requires follows { IsWellFormed (self.old.history ++ entry ∷ []) }
        requires promised { 1 ≤ self.old.promised }
        ensures applied { self.new ≡ leaf_with_entry self.old entry }
    {
        raise_unknown(
            &mut self.raised,
            &self.replicas,
            &self.schemas,
            self.buckets,
            &entry,
            series,
            &mut self.guess,
        );
        self.promised -= 1;
        self.settled = false;
        if self.moved < self.fresh.len() {
            self.fresh.push_reserved(FreshEntry { entry, series });
            return;
        }
        if let Err(entry) = put_behind(
            &mut self.replicas,
            &mut self.kept,
            entry,
            series,
            self.guess,
        ) {
            self.fresh.push_reserved(FreshEntry { entry, series });
        }
    }

    /// Moves the rows of every entry that was applied into the series of their replicas. Where memory runs out the
    /// state is as before.
    pub fn settle(&mut self) -> Result<(), OutOfMemory>
        ensures settled { OnOk result (self.new ≡ with_settled self.old) }
        ensures kept { OnErr result (self.new ≡ self.old) }
    {
        settle_entries(
            self.alloc,
            &mut self.replicas,
            &mut self.kept,
            self.fresh.as_slice(),
            &mut self.moved,
            self.guess,
        )?;
        clear(&mut self.fresh, self.promised + self.switches_left);
        self.moved = 0;
        self.settled = true;
        Ok(())
    }

    /// The set of a series' buckets that no series of the history has, by one pass over the series. No memory is taken.
    pub fn unraised_set(&self, key: &SeriesKey) -> BucketSet
        ensures set { is_set result.words
            ≡ is_unraised self.now.buckets self.now.schemas self.now.history key.now }
        ensures below { (bucket : ℕ) → is_set result.words bucket ≡ true → bucket < self.now.buckets }
    {
        let own = key_set(&self.schemas, self.buckets, key);
        left_of(&self.raised, &own)
    }

    /// The least bucket of a series, at or above a number, that no series of the history has. It is one of the leaf's
    /// buckets. No memory is taken.
    pub fn next_unraised(&self, key: &SeriesKey, from: u32) -> Option<u32>
        ensures least { IfSome result (λ next.
            IsNext (is_unraised self.now.buckets self.now.schemas self.now.history key.now) from next) }
        ensures none { IfNone result
            (HasNone (is_unraised self.now.buckets self.now.schemas self.now.history key.now) from) }
        ensures below { IfSome result (λ next. next < self.now.buckets) }
        ensures small { IfSome result (λ next. next < MOST_BUCKETS) }
    {
        self.unraised_set(key).next(from)
    }

    /// The buckets of a series that no series of the history has.
    pub fn unraised(&self, alloc: Global, key: &SeriesKey) -> Result<Buckets, OutOfMemory>
        ensures unraised { IfOk result (AreToRaise self.now key.now) }
    {
        let set = self.unraised_set(key);
        let mut buckets = Buckets::new(alloc);
        let mut from = 0;
        while let Some(bucket) = set.next(from) {
            buckets.push(bucket)?;
            from = bucket + 1;
        }
        Ok(buckets)
    }

    /// The rows of a replica that are kept after the first so many entries: what a trim behind them hid is still there.
    pub fn rows_at(&self, range: Range, slot: Slot, cut: u64) -> Result<RowList, OutOfMemory>
        requires within { cut ≤ length self.now.history }
        ensures rows { IfOk result (λ rows. rows ≡ kept_rows range slot (take cut self.now.history)) }
    {
        let replica = Replica { range, slot };
        let cut = cut as usize;
        if cut < self.kept.len() {
            return rows_kept(self.alloc, &self.replicas, replica, &self.kept, cut);
        }
        let mut rows = RowList::new(self.alloc);
        push_held(self.alloc, &mut rows, &self.replicas, replica)?;
        let left = behind(self.fresh.as_slice(), self.moved);
        turn_all(
            self.alloc,
            &mut rows,
            replica,
            in_front(left, cut - self.kept.len()),
        )?;
        Ok(rows)
    }
}

// Whether an entry says that the leaf went down, or that it came up.
fn switch_of(entry: &Entry) -> Option<bool>
    ensures switch { is_some result ≡ is_switch entry.now }
    ensures down { IfSome result (λ down. (before : Bool) → is_down_after before (entry.now ∷ []) ≡ down) }
{
    match entry {
        Entry::Down { .. } => Some(true),
        Entry::Up { .. } => Some(false),
        Entry::Opened { .. } | Entry::Put { .. } | Entry::Trim { .. } => None,
    }
}
