// Whether the parts of a group tell what they are with one row in the place of another.
ghost use Rattle.std.specs.Prelude.{◌≡◌, ◌<ℤ◌, ◌≤ℤ◌, ◌⊎◌, IsTrue, Some, slice_get};
ghost use Rattle.mon_fold.specs.declared.aggregate_parts.AggregatePart.{AggregatePart};
ghost use Rattle.kept_groups.specs.Trades.{AreTold, IsGreatestTold, IsLeastTold, IsTold};

use mon_fold::{AggregatePart, number_at};
use mon_value::{Aggregate, TimedRow};

/// Whether each part tells by itself what it is with a row in the place of another. A least or a greatest number that goes
/// tells nothing of the others, unless one comes that is no less or no greater.
pub(crate) fn are_told(
    with: &[Aggregate],
    gone: &TimedRow,
    come: &TimedRow,
    parts: &[AggregatePart],
) -> bool
    ensures { IsTrue result → AreTold with.now gone.now come.now parts.now }
{
    for (i, aggregate) in with.iter().enumerate() {
        if !is_told_at(aggregate.column, gone, come, parts, i) {
            return false;
        }
    }
    true
}

// Whether there is a part at a place, and it tells.
fn is_told_at(
    column: u32,
    gone: &TimedRow,
    come: &TimedRow,
    parts: &[AggregatePart],
    i: usize,
) -> bool
    ensures { IsTrue result → (part : AggregatePart) × (slice_get parts.now i ≡ Some part)
        × IsTold column gone.now come.now part }
{
    match parts.get(i) {
        Some(part) => is_told(column, gone, come, part),
        None => false,
    }
}

// Whether a part over a column tells.
fn is_told(column: u32, gone: &TimedRow, come: &TimedRow, part: &AggregatePart) -> bool
    ensures { IsTrue result → IsTold column gone.now come.now part.now }
{
    match part {
        AggregatePart::Min(kept) => is_least_told(
            kept.least,
            number_at(gone, column),
            number_at(come, column),
        ),
        AggregatePart::Max(kept) => is_greatest_told(
            kept.greatest,
            number_at(gone, column),
            number_at(come, column),
        ),
        _ => true,
    }
}

// Whether a least number is that of the others, or is replaced by one that is no greater.
fn is_least_told(least: Option<i128>, gone: Option<i128>, come: Option<i128>) -> bool
    ensures { IsTrue result → IsLeastTold least gone come }
{
    match (least, gone, come) {
        (Some(least), Some(gone), Some(come)) => stays_least(least, gone, come),
        _ => false,
    }
}

// Whether a greatest number is that of the others, or is replaced by one that is no less.
fn is_greatest_told(greatest: Option<i128>, gone: Option<i128>, come: Option<i128>) -> bool
    ensures { IsTrue result → IsGreatestTold greatest gone come }
{
    match (greatest, gone, come) {
        (Some(greatest), Some(gone), Some(come)) => stays_greatest(greatest, gone, come),
        _ => false,
    }
}

fn stays_least(least: i128, gone: i128, come: i128) -> bool
    ensures { IsTrue result → (least <ℤ gone) ⊎ (come ≤ℤ least) }
{
    least < gone || come <= least
}

fn stays_greatest(greatest: i128, gone: i128, come: i128) -> bool
    ensures { IsTrue result → (gone <ℤ greatest) ⊎ (greatest ≤ℤ come) }
{
    gone < greatest || greatest <= come
}
