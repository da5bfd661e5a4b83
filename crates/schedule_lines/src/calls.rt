// What an actor is to do, and why a line is refused.
use mon_value::{Leaf, Range, Row, Text, TryCopy};
use std::alloc::{AllocError, Global};
use std::fmt;

/// What an actor is to do.
#[derive(Drop)]
pub enum Call {
    /// Write a row.
    Write(Row),
    /// Ask a query's text at a moment, in seconds from the epoch.
    Query(i64, Text),
    /// Switch a leaf down.
    Down(Leaf),
    /// Switch a leaf up.
    Up(Leaf),
    /// Recover a range onto a leaf of its zone: a replica of the range is opened there, with the rows of one that
    /// serves.
    Recover(Range, Leaf),
    /// Trim a range: hide its rows whose end is below a moment.
    Trim(Range, i64),
    /// Retire the replica of a range that serves on a leaf.
    Retire(Range, Leaf),
}

/// Why a step, or a line of a schedule, is refused.
#[derive(Clone, Copy, PartialEq, Eq)]
pub enum WeaveFault {
    /// The actor is not declared.
    NoActor,
    /// The actor has ended.
    Finished,
    /// The line is of no form, or can't come there.
    BadLine,
}

/// The first line of a schedule that is refused. Lines are numbered from 1.
#[derive(Clone, Copy, PartialEq, Eq)]
pub struct ScheduleFault {
    pub line: u32,
    pub fault: WeaveFault,
}

impl fmt::Display for WeaveFault {
    ghost use Rattle.std.specs.Prelude.{Some};
    ghost use Rattle.schedule_lines.specs.FaultTexts.{weave_fault_text};

    ghost output = { λ fault. Some (weave_fault_text fault) };

    fn fmt<W: fmt::Write>(&self, f: &mut fmt::Formatter<W>) -> fmt::Result {
        f.write_str(match self {
            WeaveFault::NoActor => "NoActor",
            WeaveFault::Finished => "Finished",
            WeaveFault::BadLine => "BadLine",
        })
    }
}

impl fmt::Display for ScheduleFault {
    ghost use Rattle.std.specs.Prelude.{Some};
    ghost use Rattle.schedule_lines.specs.FaultTexts.{schedule_fault_text};

    ghost output = { λ fault. Some (schedule_fault_text fault) };

    fn fmt<W: fmt::Write>(&self, f: &mut fmt::Formatter<W>) -> fmt::Result {
        write!(f, "line {}: {}", self.line, self.fault)
    }
}

impl TryCopy for Call {
    fn copy(&self, alloc: Global) -> Result<Call, AllocError> {
        match self {
            Call::Write(row) => Ok(Call::Write(row.copy(alloc)?)),
            Call::Query(moment, text) => Ok(Call::Query(*moment, text.copy(alloc)?)),
            Call::Down(leaf) => Ok(Call::Down(*leaf)),
            Call::Up(leaf) => Ok(Call::Up(*leaf)),
            Call::Recover(range, leaf) => Ok(Call::Recover(*range, *leaf)),
            Call::Trim(range, before) => Ok(Call::Trim(*range, *before)),
            Call::Retire(range, leaf) => Ok(Call::Retire(*range, *leaf)),
        }
    }
}
