// What a line came to.
use ingest_queue::{FedRows, Poured, RowRefusals};
use mon_value::{Ack, Founds, ListOf, Range, Slot};
use mql_parse::ParseFault;
use query_traces::Trace;
use standing::{Due, DueFault, StandingFault};
use typed_trees::TypeFault;

/// Why a question has no table.
#[derive(Drop)]
pub enum QuestionFault {
    /// No query is spelled so.
    Parse(ParseFault),
    /// The query has no type.
    Typing(TypeFault),
    /// Each replica of the range that serves is on a leaf that was found down.
    NoReplica(Range, Founds),
    /// The query's load is above the limit; what was looked at.
    StepLimit(u64, Trace),
}

/// Why a leaf was not switched.
#[derive(Clone, Copy)]
pub enum SwitchFault {
    /// It is down already, where its history has so many entries.
    AlreadyDown(u64),
    /// It is up already, where its history has so many entries.
    AlreadyUp(u64),
    /// It was switched so often, and is switched no more.
    SwitchesSpent(u32),
}

/// Why no replica of a range was opened on a leaf.
#[derive(Drop)]
pub enum RecoveryFault {
    /// One serves there already, in this slot.
    Serving(Slot),
    /// As many serve as may.
    ThreeServing,
    /// As many slots of the range were opened as may be.
    SlotsSpent(u32),
    /// Each replica that serves is on a leaf that was found down, so that no rows could be copied.
    SourceDown(Founds),
    /// The leaf was found down, where its history has so many entries.
    TargetDown(u64),
}

/// Why a range was not trimmed.
#[derive(Drop)]
pub enum TrimRefusal {
    /// Each replica of the range that serves is on a leaf that was found down.
    Unavailable(Range, Founds),
}

/// Why no replica of a range on a leaf was retired.
#[derive(Clone, Copy)]
pub enum RetireRefusal {
    /// None serves there.
    NotServing,
    /// It is the only one that serves, in this slot.
    LastServing(Slot),
}

/// Why a control was not done.
#[derive(Drop)]
pub enum ControlFault {
    Switch(SwitchFault),
    Recovery(RecoveryFault),
    Trim(TrimRefusal),
    Retirement(RetireRefusal),
}

/// Why a line was refused.
#[derive(Drop)]
pub enum LineFault {
    /// A question has no table.
    Question(QuestionFault),
    /// A control was not done.
    Control(ControlFault),
    /// A query does not come to stand.
    Standing(StandingFault),
    /// A moment is not taken at which standing queries may be due.
    Due(DueFault),
    /// A query that has a table is not followed, since its form is none whose result is kept.
    NotIncremental,
}

/// What a standing query came to at a time at which it was due.
#[derive(Drop)]
pub enum DueEnd {
    /// What was looked at for its table.
    Answered(Trace),
    /// It was refused.
    Refused(LineFault),
}

/// A standing query that was due, and what it came to.
#[derive(Drop)]
pub struct DueTrace {
    pub due: Due,
    pub end: DueEnd,
}

/// The standing queries that were due, in their order.
pub type DueTraces = ListOf<DueTrace>;

/// What came of a control that was done.
#[derive(Drop)]
pub enum ControlDone {
    /// A leaf went down or came up: how many entries its history has then.
    Switched(u64),
    /// A range has one replica more: its slot.
    Recovered(Slot),
    /// A range was trimmed: which of its replicas took the bound, and which missed it.
    Trimmed(Ack),
    /// A replica of a range serves no more: its slot.
    Retired(Slot),
}

/// What a line of a script came to.
#[derive(Drop)]
pub enum LineTrace {
    /// A feed: the number of its caller, the rows that were accepted and the records that were refused.
    Fed {
        pass: u64,
        accepted: FedRows,
        refused: RowRefusals,
    },
    /// Two files that were poured: the number of the caller, and what became of the records of each.
    Poured {
        pass: u64,
        ends: Poured,
    },
    /// What was looked at for a table, at a moment in seconds from the epoch.
    Asked {
        moment: i64,
        trace: Trace,
    },
    /// What was looked at for a query that was followed from a moment on.
    Followed {
        moment: i64,
        trace: Trace,
    },
    /// Standing queries that were due were asked.
    Ticked(DueTraces),
    /// A control was done.
    Controlled(ControlDone),
    /// The line was refused.
    Refused(LineFault),
    /// A query that stands from then on; or a line that begins a block or ends it.
    Done,
}

/// One for each line that ran, in order.
pub type LineTraces = ListOf<LineTrace>;
