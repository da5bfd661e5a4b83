// Distributions: what their counts say of the values behind them.
ghost use Rattle.std.specs.Prelude.{◌≡◌, ℕ, ℤ, List, true, ◌+◌, ◌^◌, ◌<◌, ◌≤◌, ◌↔◌, All, IsNone, length, sum};
ghost use Rattle.mon_value.specs.Groups.{counts_added, bounds_rise, percentile_of, PercentilesRise};
ghost use Rattle.mon_value.specs.Values.{greatest_sum};

use crate::lists::ListOf;
use crate::values::{Bounds, Counts};

impl ListOf<u128> {
    /// Adds the counts of another distribution, bucket by bucket; it has no more buckets than this one.
    pub fn merge(&mut self, other: &Counts)
        requires buckets { length other.now ≤ length self.old }
        requires sums { All (λ count. count ≤ greatest_sum) (counts_added self.old other.now) }
        ensures added { self.new ≡ counts_added self.old other.now }
    {
        add_counts(self.items.as_mut_slice(), other.as_slice());
    }

    /// The upper bound of the first bucket up to which at least `p` of 100 values lie, or none where
    /// there are no values. The last bucket has no upper bound, and gives the last bound.
    pub fn percentile(&self, bounds: &Bounds, p: u8) -> Option<i64>
        requires from_one { 1 ≤ p }
        requires to_hundred { p ≤ 100 }
        requires bounded { 0 < length bounds.now }
        requires buckets { length self.now ≡ length bounds.now + 1 }
        requires total { sum self.now ≤ 2 ^ 119 }
        ensures bound { result ≡ percentile_of self.now bounds.now p }
        ensures none { IsNone result ↔ (sum self.now ≡ 0) }
    {
        let counts = self.as_slice();
        let bounds = bounds.as_slice();
        let total: u128 = counts.iter().sum();
        if total == 0 {
            return None;
        }
        let share = u128::from(p) * total;
        let mut running = 0;
        for (bucket, bound) in bounds.iter().enumerate() {
            running += counts[bucket];
            if running * 100 >= share {
                return Some(*bound);
            }
        }
        bounds.last().copied()
    }
}

/// Distributions may be merged in any order and in any groups, and their totals add up.
pub fn merging_is_orderless()
    ensures commutes { (a b : List ℕ) → counts_added a b ≡ counts_added b a }
    ensures associates { (a b c : List ℕ)
        → counts_added (counts_added a b) c ≡ counts_added a (counts_added b c) }
    ensures totals { (a b : List ℕ) → sum (counts_added a b) ≡ sum a + sum b }
{}

/// A greater percentile lies at no lesser bound.
pub fn percentiles_rise()
    ensures rise { (counts : List ℕ) (bounds : List ℤ) → bounds_rise bounds ≡ true
        → PercentilesRise counts bounds }
{}

// Adds each count of the second to the one in its place in the first.
fn add_counts(counts: &mut [u128], others: &[u128])
    requires buckets { length others.now ≤ length counts.old }
    requires sums { All (λ count. count ≤ greatest_sum) (counts_added counts.old others.now) }
    ensures added { counts.new ≡ counts_added counts.old others.now }
{
    for (i, other) in others.iter().enumerate() {
        counts[i] += other;
    }
}
