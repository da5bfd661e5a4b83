// Why a result isn't kept.
use mon_meaning::OverLimit;

/// A query that joins, unites or groups twice has no result that is kept.
#[derive(PartialEq, Eq, Drop)]
pub struct NotIncremental;

/// Why a replay has no result.
#[derive(PartialEq, Eq, Drop)]
pub enum ReplayFault {
    NotIncremental(NotIncremental),
    OverLimit(OverLimit),
}
