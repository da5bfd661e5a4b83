// The grid of a query's times.
ghost use Rattle.std.specs.Prelude.{◌≡◌, Some};
ghost use Rattle.mql_ast.specs.Trees.{deed_tree};
ghost use Rattle.typed_trees.specs.Faults.{first_with};
ghost use Rattle.typed_trees.specs.Times as spec;
ghost use Rattle.mon_value.specs.Grids.{seconds_of};

use crate::faults::{Faults, TypeKind};
use mon_value::Aligner;
use mql_ast::{Op, OpKind};
use std::cmp::max;

/// What a query says of its times, in seconds: its first `every`, its first `within`, its longest alignment, and the
/// place of its first `every` or `within`.
#[derive(Clone, Copy)]
pub struct Times {
    pub every: Option<i64>,
    pub within: Option<i64>,
    pub longest: Option<i64>,
    pub at: Option<u32>,
}

// The seconds from one time to the next where nothing is said of them.
const A_MINUTE: i64 = 60;

impl Times {
    /// Nothing is said.
    pub fn new() -> Times
        ensures nothing { result ≡ spec.nothing_said }
    {
        Times {
            every: None,
            within: None,
            longest: None,
            at: None,
        }
    }

    /// The seconds from one time to the next.
    pub fn every(&self) -> i64
        ensures every { result ≡ spec.every_said self.now }
    {
        match self.every {
            Some(seconds) => seconds,
            None => self.longest.unwrap_or(A_MINUTE),
        }
    }

    /// How many seconds the times reach back.
    pub fn within(&self) -> i64
        ensures within { result ≡ spec.within_said self.now }
    {
        self.within.unwrap_or(self.every())
    }

    /// Tells that there are more times than a table may have.
    pub fn tell_many(&self, found: &mut Faults)
        ensures faults { found.new.first ≡ first_with found.old.first (spec.times_faults self.now) }
    {
        found.tell_where(
            self.are_too_many(),
            self.at.unwrap_or(0),
            TypeKind::TooManyTimes,
        );
    }

    // Whether the times reach back further than so many steps as a table may have times.
    fn are_too_many(&self) -> bool
        ensures many { result ≡ spec.are_too_many self.now }
    {
        i128::from(self.every()) * MOST_TIMES < i128::from(self.within())
    }

    /// What an operation adds.
    pub fn hear(&mut self, op: &Op)
        ensures said { self.new ≡ spec.said_by self.old op.now.at (deed_tree op.now.what) }
    {
        match &op.what {
            OpKind::Every(seconds) => {
                self.every = self.every.or(Some(*seconds));
                self.at = self.at.or(Some(op.at));
            }
            OpKind::Within(seconds) => {
                self.within = self.within.or(Some(*seconds));
                self.at = self.at.or(Some(op.at));
            }
            OpKind::Align(by) => {
                self.longest = Some(longer_duration(self.longest, seconds_of(*by)));
            }
            OpKind::Filter(_) | OpKind::GroupBy(..) | OpKind::Value(_) | OpKind::Top(..) => {}
        }
    }
}

// The most times that a table has.
const MOST_TIMES: i128 = 10_000;

fn longer_duration(most: Option<i64>, seconds: i64) -> i64
    ensures longer { Some result ≡ spec.longer_duration most seconds }
{
    match most {
        Some(most) => max(most, seconds),
        None => seconds,
    }
}

fn seconds_of(by: Aligner) -> i64
    ensures seconds { result ≡ seconds_of by }
{
    match by {
        Aligner::Delta(seconds) | Aligner::NextOlder(seconds) | Aligner::Increase(seconds) =>
            seconds,
    }
}
