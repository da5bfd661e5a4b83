// Sets of buckets.
ghost use Rattle.std.specs.Prelude.{◌≡◌, ℕ, ◌<◌, ◌≤◌, false, IfSome, IfNone};
ghost use Rattle.mon_hints.specs.BucketSets.{HasNone, IsNext, is_set, no_bucket, with_bucket};
ghost use Rattle.mon_hints.specs.Hints.{has_bit};

use mon_value::MOST_BUCKETS;

// How many words have a bit for each bucket.
const WORDS: usize = 64;

/// A set of buckets: a bit for each, in words of 64, on the stack. Whoever has the set of a series' buckets can go over
/// them in ascending order without reading the series again.
#[derive(Drop)]
pub struct BucketSet {
    /// The bit of a bucket is that of its remainder by 64, in the word of its quotient.
    pub words: [u64; WORDS],
}

impl BucketSet {
    /// The set of no bucket.
    pub fn new() -> Self
        ensures none { is_set result.words ≡ no_bucket }
    {
        BucketSet { words: [0; WORDS] }
    }

    /// Whether a bucket is in the set.
    pub fn has(&self, bucket: u32) -> bool
        ensures has { result ≡ is_set self.now.words bucket }
    {
        let word = self.words.get((bucket / 64) as usize).copied().unwrap_or(0);
        (word >> (bucket % 64)) & 1 == 1
    }

    /// Adds a bucket.
    pub fn insert(&mut self, bucket: u32)
        requires { bucket < MOST_BUCKETS }
        ensures added { is_set self.new.words ≡ with_bucket (is_set self.old.words) bucket }
    {
        self.words[(bucket / 64) as usize] |= 1 << (bucket % 64);
    }

    /// The least bucket at or above a number.
    pub fn next(&self, from: u32) -> Option<u32>
        ensures below { IfSome result (λ bucket. bucket < MOST_BUCKETS) }
        ensures least { IfSome result (λ bucket. IsNext (is_set self.now.words) from bucket) }
        ensures none { IfNone result (HasNone (is_set self.now.words) from) }
    {
        let mut place = from;
        while place < MOST_BUCKETS {
            let begin = place - place % 64;
            match bit_from(self.words[(place / 64) as usize], place % 64) {
                Some(bit) => return Some(begin + bit),
                None => place = begin + 64,
            }
        }
        None
    }
}

// The least bit of a word at or above a place.
fn bit_from(word: u64, from: u32) -> Option<u32>
    requires { from < 64 }
    ensures least { IfSome result (λ bit. (bit < 64) × IsNext (has_bit word) from bit) }
    ensures none { IfNone result ((bit : ℕ) → from ≤ bit → bit < 64 → has_bit word bit ≡ false) }
{
    let bits = word & (u64::MAX << from);
    if bits == 0 {
        None
    } else {
        Some(bits.trailing_zeros())
    }
}
