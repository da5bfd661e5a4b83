// Entries that follow one another in one way.
ghost use Rattle.std.specs.Prelude.{◌≡◌, ◌++◌, ◌∷◌, ◌<◌, ◌+◌, [], length, slice_get, IfSome, IsTrue, Some};
ghost use Rattle.leaf_store.specs.declared.kept.Kept.TheVariants as one;
ghost use Rattle.leaf_store.specs.within.KeptEntries.{run_entries};

use crate::kept::Kept;
use std::mem::size_of;

/// Entries that follow one another: puts of one pass to one replica, whose rows follow one another too, or one entry of
/// another kind.
#[derive(Clone, Copy)]
pub(crate) enum Run {
    /// The rows from one number to another were put.
    Puts {
        replica: u32,
        first: u32,
        last: u32,
        pass: u64,
    },
    /// The replica began with its first so many rows.
    Opened {
        replica: u32,
        count: u32,
        pass: u64,
    },
    /// The replica's rows that end before a bound were hidden.
    Trim {
        replica: u32,
        before: i64,
        pass: u64,
    },
    /// The leaf went down.
    Down {
        pass: u64,
    },
    /// The leaf came up.
    Up {
        pass: u64,
    },
}

const _: () = prove!(size_of::<Run>() == 24);

impl Run {
    /// A run without an entry.
    pub(crate) fn none() -> Run
        ensures none { run_entries result ≡ [] }
    {
        Run::Puts {
            replica: 0,
            first: 1,
            last: 0,
            pass: 0,
        }
    }

    /// A run of one entry.
    pub(crate) fn of(entry: Kept) -> Run
        ensures entry { run_entries result ≡ entry ∷ [] }
    {
        match entry {
            Kept::Opened {
                pass,
                replica,
                count,
            } => Run::Opened {
                replica,
                count,
                pass,
            },
            Kept::Put { pass, replica, row } => Run::Puts {
                replica,
                first: row,
                last: row,
                pass,
            },
            Kept::Trim {
                pass,
                replica,
                before,
            } => Run::Trim {
                replica,
                before,
                pass,
            },
            Kept::Down { pass } => Run::Down { pass },
            Kept::Up { pass } => Run::Up { pass },
        }
    }

    /// The run with an entry more, if it goes on with that.
    pub(crate) fn with(self, entry: Kept) -> Option<Run>
        ensures longer { IfSome result (λ longer. run_entries longer ≡ run_entries self ++ entry ∷ []) }
    {
        match entry {
            Kept::Put { pass, replica, row } => self.with_put(pass, replica, row),
            Kept::Opened { .. } | Kept::Trim { .. } | Kept::Down { .. } | Kept::Up { .. } => None,
        }
    }

    // The run with a put more.
    fn with_put(self, pass: u64, replica: u32, row: u32) -> Option<Run>
        ensures longer { IfSome result (λ longer. run_entries longer
            ≡ run_entries self ++ one.Put pass replica row ∷ []) }
    {
        match self {
            Run::Puts {
                replica: own,
                first,
                last,
                pass: by,
            } if pass == by && replica == own && first <= row && follows(last, row) => {
                Some(Run::Puts {
                    replica,
                    first,
                    last: row,
                    pass,
                })
            }
            _ => None,
        }
    }

    /// How many entries it has.
    pub(crate) fn len(self) -> usize
        ensures count { result ≡ length (run_entries self) }
    {
        match self {
            Run::Puts { first, last, .. } => (last as usize + 1).saturating_sub(first as usize),
            Run::Opened { .. } | Run::Trim { .. } | Run::Down { .. } | Run::Up { .. } => 1,
        }
    }

    /// Its entry of a number.
    pub(crate) fn entry(self, number: usize) -> Kept
        requires within { number < length (run_entries self) }
        ensures entry { slice_get (run_entries self) number ≡ Some result }
    {
        match self {
            Run::Puts {
                replica,
                first,
                pass,
                ..
            } => Kept::Put {
                pass,
                replica,
                row: first + number as u32,
            },
            Run::Opened {
                replica,
                count,
                pass,
            } => Kept::Opened {
                pass,
                replica,
                count,
            },
            Run::Trim {
                replica,
                before,
                pass,
            } => Kept::Trim {
                pass,
                replica,
                before,
            },
            Run::Down { pass } => Kept::Down { pass },
            Run::Up { pass } => Kept::Up { pass },
        }
    }
}

// Whether a row comes right behind another one.
fn follows(last: u32, row: u32) -> bool
    ensures next { IsTrue result → row ≡ last + 1 }
{
    last.checked_add(1) == Some(row)
}
