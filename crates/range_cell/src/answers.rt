// What writes, trims, recoveries and retirements answer.
ghost use Rattle.std.specs.Prelude.{◌≡◌, ◌≤◌, [], length, vec_capacity, IfOk};

use mon_value::{Founds, Range, Slot};

/// Why a row isn't written.
#[derive(PartialEq, Eq, Drop)]
pub enum WriteFault {
    /// No zone lists its location.
    NoZone,
    /// The last row of its series ends at this second, at its own end or after it.
    OldPoint(i64),
    /// Its range holds as many rows as a range may, which is this number.
    RangeFull(u64),
    /// Each replica of its range that serves was found down, on these leaves.
    Unavailable(Range, Founds),
    /// Memory ran out.
    OutOfMemory,
}

/// Why no replica is opened on a leaf.
#[derive(PartialEq, Eq, Drop)]
pub enum RecoverFault {
    /// One of the range serves there, in this slot.
    Serving(Slot),
    /// As many replicas serve as may, which are three.
    ThreeServing,
    /// As many were opened as may be, which is this number.
    SlotsSpent(u32),
    /// The leaf of each replica that serves was found down, these in slot order.
    SourceDown(Founds),
    /// The leaf was found down, with so many entries in its history.
    TargetDown(u64),
    /// Memory ran out.
    OutOfMemory,
}

/// Why a range isn't trimmed.
#[derive(PartialEq, Eq, Drop)]
pub enum TrimFault {
    /// Each of its replicas that serves was found down, on these leaves.
    Unavailable(Range, Founds),
    /// Memory ran out.
    OutOfMemory,
}

/// Why a replica of a range on a leaf isn't retired.
#[derive(Clone, Copy, PartialEq, Eq)]
pub enum RetireFault {
    /// None serves there.
    NotServing,
    /// The one in this slot is the only one that serves.
    LastServing(Slot),
}
