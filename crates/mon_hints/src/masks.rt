// Which of 64 children a formula holds of.
ghost use Rattle.std.specs.Prelude.{◌≡◌, get_or, map, IsTrue};
ghost use Rattle.std.specs.List.Sorted.{IsStrictlyIncreasing};
ghost use Rattle.mon_hints.specs.Formulas.{formula_tree, formulas, holds, all_hold, any_holds, is_among};
ghost use Rattle.mon_hints.specs.Hints.{buckets_of_child, IsMask};

use crate::fingerprints::Buckets;
use crate::formulas::Formula;
use mon_value::ListOf;

/// For each bucket the children that have it, a bit for each.
pub type Words = ListOf<u64>;

/// The children of which the formula holds, a bit for each: a child has the buckets whose words have its bit. The
/// words stand in the order of the named buckets. No memory is taken.
pub fn mask(formula: &Formula, named: &Buckets, words: &Words) -> u64
    ensures bits { IsMask result (λ child.
        holds (formula_tree formula.now) (buckets_of_child named.now words.now child)) }
{
    NamedWords::new(named.as_slice(), words.as_slice()).mask(formula)
}

// The words of named buckets. Where the buckets rise, as those of a formula do, one is found by halving.
#[derive(Drop)]
struct NamedWords<'a> {
    named: &'a [u32],
    words: &'a [u64],
    rises: bool,
    ghost rising: { IsTrue rises → IsStrictlyIncreasing named.now },
}

impl<'a> NamedWords<'a> {
    fn new(named: &'a [u32], words: &'a [u64]) -> Self
        ensures named { result.named.now ≡ named.now }
        ensures words { result.words.now ≡ words.now }
    {
        NamedWords {
            named,
            words,
            rises: rises(named),
        }
    }

    // The children of which a formula holds.
    #[cycle(masks)]
    fn mask(&self, formula: &Formula) -> u64
        ensures bits { IsMask result (λ child. holds (formula_tree formula.now)
            (buckets_of_child self.now.named.now self.now.words.now child)) }
    {
        match formula {
            Formula::All => u64::MAX,
            Formula::Bucket(bucket) => self.having(*bucket),
            Formula::And(all) => self.mask_of_all(all.as_slice()),
            Formula::Or(any) => self.mask_of_any(any.as_slice()),
        }
    }

    // The children of which all formulas hold.
    #[cycle(masks)]
    fn mask_of_all(&self, several: &[Formula]) -> u64
        ensures bits { IsMask result (λ child. all_hold (formulas (map formula_tree several.now))
            (buckets_of_child self.now.named.now self.now.words.now child)) }
    {
        let mut mask = u64::MAX;
        for formula in several {
            mask &= self.mask(formula);
        }
        mask
    }

    // The children of which one of the formulas holds.
    #[cycle(masks)]
    fn mask_of_any(&self, several: &[Formula]) -> u64
        ensures bits { IsMask result (λ child. any_holds (formulas (map formula_tree several.now))
            (buckets_of_child self.now.named.now self.now.words.now child)) }
    {
        let mut mask = 0;
        for formula in several {
            mask |= self.mask(formula);
        }
        mask
    }

    // The children that have a bucket.
    fn having(&self, bucket: u32) -> u64
        ensures bits { IsMask result (λ child. is_among bucket
            (buckets_of_child self.now.named.now self.now.words.now child)) }
    {
        if self.rises {
            self.found(bucket)
        } else {
            self.gathered(bucket)
        }
    }

    // The same, where the named buckets rise.
    fn found(&self, bucket: u32) -> u64
        requires { IsStrictlyIncreasing self.now.named.now }
        ensures bits { IsMask result (λ child. is_among bucket
            (buckets_of_child self.now.named.now self.now.words.now child)) }
    {
        match self.named.binary_search(&bucket) {
            Ok(place) => word_at(self.words, place),
            Err(_) => 0,
        }
    }

    // The same, in whatever order the named buckets are.
    fn gathered(&self, bucket: u32) -> u64
        ensures bits { IsMask result (λ child. is_among bucket
            (buckets_of_child self.now.named.now self.now.words.now child)) }
    {
        let mut mask = 0;
        for (name, word) in self.named.iter().zip(self.words) {
            if *name == bucket {
                mask |= *word;
            }
        }
        mask
    }
}

// The word at a place, of which none has no child.
fn word_at(words: &[u64], place: usize) -> u64
    ensures word { result ≡ get_or words.now place 0 }
{
    words.get(place).copied().unwrap_or(0)
}

// Whether each number is below the next one.
fn rises(numbers: &[u32]) -> bool
    ensures rising { IsTrue result → IsStrictlyIncreasing numbers.now }
{
    numbers.is_sorted_by(|number, next| number < next)
}
