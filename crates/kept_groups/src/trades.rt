// The parts of a group in which one row takes the place of another.
ghost use Rattle.std.specs.Prelude.{◌≡◌, ◌≤◌, ℕ, ◌+ℤ◌, ◌-ℤ◌, Some, length, get_or};
ghost use Rattle.std.specs.Option.{option_copied};
ghost use Rattle.mon_value.specs.Groups.{counts_added};
ghost use Rattle.mon_value.specs.Parts.{IsWithin};
ghost use Rattle.kept_groups.specs.Trades.{CanTradeCounts, CanTradePart, CanTradeParts, CanTradeSum, CanTradeTotal};
ghost use Rattle.kept_groups.specs.Trades.{counts_less, traded_counts, traded_part, traded_parts, traded_sum, traded_total};

use mon_fold::{
    AggregatePart, AggregateParts, Fold, GreatestPart, LeastPart, MaxFold, MinFold,
    distribution_at, number_at, subtract,
};
use mon_value::{Aggregate, Counts, TimedRow};

/// Puts a row in the place of another of the group. No memory is taken.
pub(crate) fn trade_parts(
    with: &[Aggregate],
    gone: &TimedRow,
    come: &TimedRow,
    parts: &mut AggregateParts,
)
    requires { CanTradeParts with.now gone.now come.now parts.old }
    ensures { parts.new ≡ traded_parts with.now gone.now come.now parts.old }
{
    trade_each(with, gone, come, parts.as_mut_slice());
}

// Puts a row in the place of another in the part of each aggregate.
fn trade_each(with: &[Aggregate], gone: &TimedRow, come: &TimedRow, parts: &mut [AggregatePart])
    requires { CanTradeParts with.now gone.now come.now parts.old }
    ensures { parts.new ≡ traded_parts with.now gone.now come.now parts.old }
{
    for (i, aggregate) in with.iter().enumerate() {
        trade_part(aggregate.column, gone, come, &mut parts[i]);
    }
}

// Puts a row in the place of another in the part of an aggregate over a column.
fn trade_part(column: u32, gone: &TimedRow, come: &TimedRow, part: &mut AggregatePart)
    requires { CanTradePart column gone.now come.now part.old }
    ensures { part.new ≡ traded_part column gone.now come.now part.old }
{
    match part {
        AggregatePart::Sum(kept) => trade_sum(
            &mut kept.sum,
            number_at(gone, column),
            number_at(come, column),
        ),
        AggregatePart::Mean(kept) => trade_total(
            &mut kept.sum,
            number_at(gone, column),
            number_at(come, column),
        ),
        AggregatePart::Merge(kept) => trade_counts(
            kept,
            distribution_at(gone, column),
            distribution_at(come, column),
        ),
        AggregatePart::Min(kept) => MinFold.merge(
            kept,
            &LeastPart {
                least: number_at(come, column),
            },
        ),
        AggregatePart::Max(kept) => MaxFold.merge(
            kept,
            &GreatestPart {
                greatest: number_at(come, column),
            },
        ),
        AggregatePart::Count(_) => {}
    }
}

// Puts a number in the place of another in a sum, if there is one.
fn trade_sum(sum: &mut Option<i128>, gone: Option<i128>, come: Option<i128>)
    requires { CanTradeSum sum.old gone come }
    ensures { sum.new ≡ traded_sum sum.old gone come }
{
    if let Some(total) = sum {
        trade_total(total, gone, come);
    }
}

// Puts a number in the place of another in a total.
fn trade_total(total: &mut i128, gone: Option<i128>, come: Option<i128>)
    requires { CanTradeTotal total.old gone come }
    ensures { total.new ≡ traded_total total.old gone come }
{
    if let (Some(gone), Some(come)) = (gone, come) {
        *total = exchanged(*total, gone, come);
    }
}

// A total with a number in the place of another.
fn exchanged(total: i128, gone: i128, come: i128) -> i128
    requires without { IsWithin (total -ℤ gone) }
    requires within { IsWithin ((total -ℤ gone) +ℤ come) }
    ensures { result ≡ (total -ℤ gone) +ℤ come }
{
    total - gone + come
}

// Puts a distribution in the place of another among merged ones.
fn trade_counts(counts: &mut Option<Counts>, gone: Option<&Counts>, come: Option<&Counts>)
    requires { CanTradeCounts counts.old (option_copied gone) (option_copied come) }
    ensures { counts.new ≡ traded_counts counts.old (option_copied gone.entry) (option_copied come.entry) }
{
    if let (Some(counts), Some(gone), Some(come)) = (counts, gone, come) {
        trade_buckets(counts, gone, come);
    }
}

// Takes counts off, bucket by bucket, and adds others.
fn trade_buckets(counts: &mut Counts, gone: &Counts, come: &Counts)
    requires { CanTradeCounts (Some counts.old) (Some gone.now) (Some come.now) }
    ensures { counts.new ≡ counts_added (counts_less counts.old gone.now) come.now }
{
    take_off(counts, gone);
    counts.merge(come);
}

// Takes counts off, bucket by bucket.
fn take_off(counts: &mut Counts, gone: &Counts)
    requires buckets { length gone.now ≡ length counts.old }
    requires held { (bucket : ℕ) → get_or gone.now bucket 0 ≤ get_or counts.old bucket 0 }
    ensures { counts.new ≡ counts_less counts.old gone.now }
{
    subtract(counts.as_mut_slice(), gone.as_slice());
}
