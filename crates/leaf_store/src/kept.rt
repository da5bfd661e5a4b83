// Entries of a history that are with their replicas.
ghost use Rattle.std.specs.Prelude.{◌≡◌, ◌++◌, ◌∷◌, ◌<◌, ◌≤◌, ◌^◌, [], length, OnOk};
ghost use Rattle.leaf_store.specs.within.KeptEntries.{entries_of};

use crate::runs::Run;
use mon_value::{OutOfMemory, RoomListOf};
use std::alloc::{AllocError, Global};
use std::marker::Model;

/// An entry that is with its replica: it tells the number of the replica, and which rows of it are its own.
#[derive(Clone, Copy)]
pub(crate) enum Kept {
    /// The replica began with its first so many rows.
    Opened {
        pass: u64,
        replica: u32,
        count: u32,
    },
    /// The row of this number was put.
    Put {
        pass: u64,
        replica: u32,
        row: u32,
    },
    /// The replica's rows that end before a bound were hidden.
    Trim {
        pass: u64,
        replica: u32,
        before: i64,
    },
    /// The leaf went down.
    Down {
        pass: u64,
    },
    /// The leaf came up.
    Up {
        pass: u64,
    },
}

/// How many entries there are at most, which is more than go into memory.
const MOST_ENTRIES: usize = 1 << 60;

/// Such entries, in their order. They stand in runs, 24 bytes for each: a feed's rows follow one another in their
/// replica. Contracts see the entries, and for how many more room was made.
#[derive(Drop)]
pub(crate) struct KeptEntries {
    runs: RoomListOf<Run>,
    last: Run,
    count: usize,
}

impl Model for KeptEntries {
    ghost use Rattle.std.specs.Prelude.{◌≡◌, ◌-◌, ◌≤◌, ◌^◌, length, min};
    ghost use Rattle.mon_value.specs.Rooms.{RoomList};
    ghost use Rattle.leaf_store.specs.declared.kept.Kept.{Kept};

    ghost Value = { RoomList Kept };

    ghost use Rattle.leaf_store.specs.within.KeptEntries.{entries_of};

    ghost view = { λ kept. record {
      items = entries_of kept.runs.items kept.last;
      spare = min kept.runs.spare (2 ^ 60 - kept.count);
    } };

    ghost invariant = { λ kept. record {
      count : kept.count ≡ length (entries_of kept.runs.items kept.last);
      few : kept.count ≤ 2 ^ 60;
    } };
}

impl KeptEntries {
    /// No entries.
    pub(crate) fn new(alloc: Global) -> KeptEntries
        ensures empty { result.items ≡ [] }
    {
        KeptEntries {
            runs: RoomListOf::new(alloc),
            last: Run::none(),
            count: 0,
        }
    }

    /// How many entries there are.
    pub(crate) fn len(&self) -> usize
        ensures count { result ≡ length self.now.items }
        ensures few { result < 2 ^ 61 }
    {
        self.count
    }

    /// The runs, and the last one behind them.
    pub(crate) fn runs(&self) -> (&[Run], Run)
        ensures runs { self.now.items ≡ entries_of result.0.now result.1 }
    {
        (self.runs.as_slice(), self.last)
    }

    /// Makes room for an entry more.
    pub(crate) fn reserve_one(&mut self) -> Result<(), OutOfMemory>
        ensures room { OnOk result (1 ≤ self.new.spare) }
        ensures kept { self.new.items ≡ self.old.items }
    {
        if self.count >= MOST_ENTRIES {
            return Err(AllocError);
        }
        self.runs.reserve_one()
    }

    /// Adds an entry at the end, in the room that was made for it.
    pub(crate) fn push(&mut self, entry: Kept)
        requires room { 1 ≤ self.old.spare }
        ensures added { self.new.items ≡ self.old.items ++ entry ∷ [] }
    {
        match self.last.with(entry) {
            Some(longer) => self.last = longer,
            None => {
                self.runs.push(self.last);
                self.last = Run::of(entry);
            }
        }
        self.count += 1;
    }
}
