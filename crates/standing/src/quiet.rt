// Until when no query is due.
ghost use Rattle.std.specs.Prelude.{◌≡◌, ◌<◌, ◌≤◌, ◌/◌, ℕ, Some};
ghost use Rattle.std.specs.List.{AllByRecursion};
ghost use Rattle.standing.specs.DueLists.{HasPeriod};
ghost use Rattle.standing.specs.QuietMoments.{IsOnward, IsQuietUntil};

use crate::queries::StandingQuery;

/// The next moment behind this one of queries that were quiet until another one: it stays where nothing was due.
pub(crate) fn next_behind(
    last: Option<i64>,
    next: u64,
    moment: i64,
    queries: &[StandingQuery],
) -> u64
    requires lawful { AllByRecursion HasPeriod queries.now }
    requires quiet { AllByRecursion (IsQuietUntil last next) queries.now }
    requires onward { IsOnward last moment }
    ensures quiet { AllByRecursion (IsQuietUntil (Some moment) result) queries.now }
{
    if moment.unsigned_abs() < next {
        next
    } else {
        next_of_all(Some(moment), queries)
    }
}

// The least moment at which one of the queries is due again.
fn next_of_all(last: Option<i64>, queries: &[StandingQuery]) -> u64
    requires lawful { AllByRecursion HasPeriod queries.now }
    ensures quiet { AllByRecursion (IsQuietUntil last result) queries.now }
{
    let mut next = u64::MAX;
    for query in queries {
        next = next.min(next_of(last, query));
    }
    next
}

/// The moment at which a query is due again: its next multiple, or any where there was no last moment.
pub(crate) fn next_of(last: Option<i64>, query: &StandingQuery) -> u64
    requires lawful { HasPeriod query.now }
    ensures quiet { IsQuietUntil last result query.now }
{
    match last {
        Some(last) => next_multiple(last.unsigned_abs(), query.period.unsigned_abs()),
        None => 0,
    }
}

// The least multiple of a period above a moment, or the greatest number where it is greater.
fn next_multiple(moment: u64, period: u64) -> u64
    requires some { 0 < period }
    ensures next { (later : ℕ) → later < result → later / period ≤ moment / period }
{
    (moment / period).saturating_add(1).saturating_mul(period)
}
