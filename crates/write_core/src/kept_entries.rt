// The entries of a range's history.
ghost use Rattle.std.specs.Prelude.{◌≡◌, ◌+◌, ◌++◌, ◌∷◌, ◌<◌, ◌≤◌, ◌^◌, [], length, OnOk};
ghost use Rattle.mon_topo.specs.RangeHistories.{acked_row, acknowledged_rows};
ghost use Rattle.mon_value.specs.LeafHistories.{last_end, points_of};
ghost use Rattle.mon_value.specs.declared.histories.RangeEntry.TheVariants as entry;
ghost use Rattle.write_core.specs.within.KeptEntries.{entry_of};

use crate::lasts::{Lasts, last_of, note_last};
use http_server::Log;
use mon_value::{Ack, Leaf, Misses, OutOfMemory, Range, Row, SeriesKey, Shared, Slot, Slots};
use std::alloc::{AllocError, Global};
use std::marker::Model;

/// How many entries a range has at most: more than can be made in a lifetime.
const MOST_ENTRIES: usize = 1 << 60;

/// An entry, without what a writer was told.
#[derive(Drop)]
pub(crate) enum Logged {
    Opened { pass: u64, slot: Slot, leaf: Leaf },
    Acked { pass: u64, row: Row },
    Trimmed { pass: u64, before: i64 },
    Retired { pass: u64, slot: Slot },
}

/// The entries of a range's history, in their order. Contracts see the entries, and for how many more of them and of
/// series there is room. At run time nobody reads them: what is asked of a history is how many entries it has and where
/// the last row of a series ends, and that is kept.
#[derive(Drop)]
pub(crate) struct KeptEntries {
    alloc: Global,
    entries: Log<Logged, Ack>,
    lasts: Lasts,
    count: usize,
}

impl Model for KeptEntries {
    ghost use Rattle.std.specs.Prelude.{◌≡◌, ◌-◌, ◌≤◌, ◌^◌, length};
    ghost use Rattle.indexmap.specs.IndexMap.{spare};
    ghost use Rattle.mon_topo.specs.RangeHistories.{acknowledged_rows};
    ghost use Rattle.write_core.specs.Replays.{TellsLasts};
    ghost use Rattle.write_core.specs.within.KeptEntries.{KeptHistory, entries_of};

    ghost Value = { KeptHistory };

    ghost view = { λ kept. record {
      items = entries_of kept.entries.items;
      spare = 2 ^ 60 - kept.count;
      series_spare = spare kept.lasts;
    } };

    ghost invariant = { λ kept. record {
      count : kept.count ≡ length (entries_of kept.entries.items);
      few : kept.count ≤ 2 ^ 60;
      lasts : TellsLasts kept.lasts.entries (acknowledged_rows (entries_of kept.entries.items));
    } };
}

impl KeptEntries {
    /// No entries.
    pub(crate) fn new(alloc: Global) -> KeptEntries
        ensures empty { result.items ≡ [] }
    {
        KeptEntries {
            alloc,
            entries: Log::new(),
            lasts: Lasts::new(alloc),
            count: 0,
        }
    }

    /// How many entries there are: fewer than 2^61.
    pub(crate) fn len(&self) -> usize
        ensures count { result ≡ length self.now.items }
        ensures few { result < 2 ^ 61 }
    {
        self.count
    }

    /// The end of the last row of a series, whose place among the series is guessed.
    pub(crate) fn last(&self, guess: usize, key: &Shared<SeriesKey>) -> Option<i64>
        ensures last { result ≡ last_end (points_of key.now (acknowledged_rows self.now.items)) }
    {
        last_of(&self.lasts, guess, key)
    }

    /// Whether so many entries more may come: as where memory runs out where there would be more than 2^60.
    pub(crate) fn reserve(&mut self, more: usize) -> Result<(), OutOfMemory>
        ensures room { OnOk result (more ≤ self.new.spare) }
        ensures kept { self.new ≡ self.old }
    {
        if MOST_ENTRIES - self.count < more {
            return Err(AllocError);
        }
        Ok(())
    }

    /// Makes room for a series more.
    pub(crate) fn reserve_series(&mut self) -> Result<(), OutOfMemory>
        ensures room { OnOk result (1 ≤ self.new.series_spare) }
        ensures entries { self.new.spare ≡ self.old.spare }
        ensures kept { self.new.items ≡ self.old.items }
    {
        self.lasts.reserve(1)
    }

    /// Adds the opening of a replica.
    pub(crate) fn push_opened(&mut self, pass: u64, slot: Slot, leaf: Leaf)
        requires room { 1 ≤ self.old.spare }
        ensures added { self.new.items ≡ self.old.items ++ entry.Opened pass slot leaf ∷ [] }
        ensures room { self.new.spare + 1 ≡ self.old.spare }
    {
        let nothing = nothing_told(self.alloc);
        self.push(Logged::Opened { pass, slot, leaf }, &nothing);
        drop(nothing);
    }

    /// Adds an acknowledged trim.
    pub(crate) fn push_trimmed(&mut self, pass: u64, before: i64, ack: &Ack)
        requires room { 1 ≤ self.old.spare }
        ensures added { self.new.items ≡ self.old.items ++ entry.Trimmed pass before ack.now ∷ [] }
        ensures room { self.new.spare + 1 ≡ self.old.spare }
    {
        self.push(Logged::Trimmed { pass, before }, ack);
    }

    /// Adds the retirement of a replica.
    pub(crate) fn push_retired(&mut self, pass: u64, slot: Slot)
        requires room { 1 ≤ self.old.spare }
        ensures added { self.new.items ≡ self.old.items ++ entry.Retired pass slot ∷ [] }
        ensures room { self.new.spare + 1 ≡ self.old.spare }
    {
        let nothing = nothing_told(self.alloc);
        self.push(Logged::Retired { pass, slot }, &nothing);
        drop(nothing);
    }

    // Adds an entry that acknowledges no row.
    fn push(&mut self, logged: Logged, ack: &Ack)
        requires room { 1 ≤ self.old.spare }
        requires bare { acked_row (entry_of logged ack.now) ≡ [] }
        ensures added { self.new.items ≡ self.old.items ++ entry_of logged ack.now ∷ [] }
        ensures room { self.new.spare + 1 ≡ self.old.spare }
    {
        let entries = self.entries.and(&logged, ack);
        drop(logged);
        self.entries = entries;
        self.count += 1;
    }

    /// Adds an acknowledged row, in the room that was made for its series. Gives the place of the row's series among the
    /// series, which is guessed.
    pub(crate) fn push_acked(
        &mut self,
        guess: usize,
        key: Shared<SeriesKey>,
        pass: u64,
        row: Row,
        ack: &Ack,
    ) -> usize
        requires key { key ≡ row.key }
        requires room { 1 ≤ self.old.spare }
        requires series { 1 ≤ self.old.series_spare }
        ensures added { self.new.items ≡ self.old.items ++ entry.Acked pass row ack.now ∷ [] }
        ensures room { self.new.spare + 1 ≡ self.old.spare }
    {
        let place = note_last(&mut self.lasts, guess, key, row.point.end);
        let acked = Logged::Acked { pass, row };
        let entries = self.entries.and(&acked, ack);
        drop(acked);
        self.entries = entries;
        self.count += 1;
        place
    }
}

// What an opening and a retirement tell a writer.
fn nothing_told(alloc: Global) -> Ack {
    Ack {
        range: Range(0),
        took: Slots::new(alloc),
        missed: Misses::new(alloc),
    }
}
