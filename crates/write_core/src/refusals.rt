// Why a range does not take a row.
ghost use Rattle.std.specs.Prelude.{◌≡◌};
ghost use Rattle.write_core.specs.Program.{end_of_refusal};
ghost use Rattle.write_core.specs.RangeAnswers.{told_for, full_refusal, range_refusal};

use crate::asks::{WriteEnd, WriteTold};
use mon_value::Point;
use std::fmt;

/// Why a range does not take a row.
#[derive(Clone, Copy, PartialEq, Eq)]
pub enum Refused {
    /// The series has an acknowledged row that ends there, which is not before the row's end.
    OldPoint(i64),
    /// The range holds so many rows, and no more go in.
    RangeFull(u64),
}

impl fmt::Display for Refused {
    ghost use Rattle.std.specs.Prelude.{Some};
    ghost use Rattle.write_core.specs.RangeAnswers.{refused_text};

    ghost output = { λ why. Some (refused_text why) };

    fn fmt<W: fmt::Write>(&self, f: &mut fmt::Formatter<W>) -> fmt::Result {
        match self {
            Refused::OldPoint(last) => write!(f, "OldPoint {last}"),
            Refused::RangeFull(limit) => write!(f, "RangeFull {limit}"),
        }
    }
}

impl Refused {
    /// Why a point is refused, if it is: by the end of its series' last one, and by how many rows its range may hold
    /// and how many it holds.
    pub(crate) fn why(last: Option<i64>, limit: u64, held: u64, point: &Point) -> Option<Refused>
        ensures why { result ≡ range_refusal last limit held point.now }
    {
        match last {
            Some(last) if point.end <= last => Some(Refused::OldPoint(last)),
            _ => full(limit, held),
        }
    }

    /// What a write is told that is refused so.
    pub(crate) fn told(self) -> WriteTold
        ensures told { result ≡ told_for self }
    {
        match self {
            Refused::OldPoint(last) => WriteTold::OldPoint(last),
            Refused::RangeFull(limit) => WriteTold::RangeFull(limit),
        }
    }

    /// The end of a write that was refused so.
    pub(crate) fn end(self) -> WriteEnd
        ensures end { result ≡ end_of_refusal self }
    {
        match self {
            Refused::OldPoint(last) => WriteEnd::OldPoint(last),
            Refused::RangeFull(limit) => WriteEnd::RangeFull(limit),
        }
    }
}

// A range that holds as many rows as it may takes no more.
fn full(limit: u64, held: u64) -> Option<Refused>
    ensures full { result ≡ full_refusal limit held }
{
    if limit <= held {
        Some(Refused::RangeFull(limit))
    } else {
        None
    }
}
