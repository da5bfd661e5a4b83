// Distributions, merged.
ghost use Rattle.std.specs.Prelude.{◌≡◌, ◌≤◌, ◌||◌, IfOk, length, replicate, sum, sum_by, All, Some, None};
ghost use Rattle.std.specs.Prelude.{if◌then◌else◌};
ghost use Rattle.mon_value.specs.Groups.{counts_added, counts_of, merged_of};
ghost use Rattle.mon_value.specs.Values.{greatest_sum};
ghost use Rattle.mon_value.specs.Parts.{is_any, IsZero};
ghost use Rattle.mon_value.proofs.CountsPartLemmas as parts;
ghost use Rattle.mon_value.proofs.PlainLemmas as plain;
ghost use Rattle.mon_value.proofs.NumberPartLemmas as numbers;
ghost use Rattle.mon_value.proofs.CountsLemmas as counted;

use crate::folds::Fold;
use mon_value::{Counts, OutOfMemory, TryCopy};
use std::alloc::Global;
use std::marker::Model;

/// Distributions of one number of buckets, merged into one. `zero` has that number of buckets, and
/// nothing in them.
#[derive(Drop)]
pub struct MergeFold {
    pub zero: Counts,
    ghost zeros: { IsZero zero },
}

/// The counts of the distributions so far, and whether there was one.
#[derive(Drop)]
pub struct MergePart {
    counts: Counts,
    any: bool,
}

impl Model for MergePart {
    ghost use Rattle.mon_fold.specs.CountsSoFar.{CountsSoFar};

    ghost Value = { CountsSoFar };

    ghost view = { λ part. record { counts = part.counts; any = part.any } };
}

impl TryCopy for MergePart {
    fn copy(&self, alloc: Global) -> Result<MergePart, OutOfMemory> {
        Ok(MergePart {
            counts: self.counts.copy(alloc)?,
            any: self.any,
        })
    }
}

impl TryCopy for MergeFold {
    fn copy(&self, alloc: Global) -> Result<MergeFold, OutOfMemory> {
        Ok(MergeFold {
            zero: self.zero.copy(alloc)?,
        })
    }
}

impl MergeFold {
    /// The merge of distributions that have this number of buckets.
    pub fn new(alloc: Global, buckets: usize) -> Result<MergeFold, OutOfMemory>
        ensures zero { IfOk result (λ fold. fold.zero ≡ replicate buckets 0) }
    {
        Ok(MergeFold {
            zero: Counts::from_vec(vec![in alloc; 0; buckets]?),
        })
    }
}

impl Fold for MergeFold {
    type In = Counts;

    type Part = MergePart;

    type Out = Counts;

    ghost fold_of = { λ _ items. merged_of items };

    ghost part_of = { λ fold items. record {
      counts = counts_added fold.zero (counts_of items);
      any = is_any items;
    } };

    ghost merge_of = { λ a b. record {
      counts = counts_added a.counts b.counts;
      any = a.any || b.any;
    } };

    ghost can_merge = { λ a b. (length a.counts ≡ length b.counts)
        × All (λ count. count ≤ greatest_sum) (counts_added a.counts b.counts) };

    ghost finish_of = { λ part. if part.any then Some part.counts else None };

    ghost alike = { λ fold items. All (λ counts. length counts ≡ length fold.zero) items };

    ghost fits = { λ fold items. All (λ counts. length counts ≡ length fold.zero) items
        × (sum_by sum items ≤ greatest_sum) };

    fn start(&self, alloc: Global) -> Result<MergePart, OutOfMemory> {
        Ok(MergePart {
            counts: self.zero.copy(alloc)?,
            any: false,
        })
    }

    fn add(&self, part: &mut MergePart, item: &Counts) {
        part.counts.merge(item);
        part.any = true;
    }

    fn merge(&self, into: &mut MergePart, other: &MergePart) {
        into.counts.merge(&other.counts);
        into.any |= other.any;
    }

    fn finish(&self, part: MergePart) -> Option<Counts> {
        part.any.then_some(part.counts)
    }

    ghost laws = { record {
      any_order = λ _. counted.merged_of-permutation;
      nothing = λ _ items. numbers.none_where_nothing items (counts_of items);
      finishes = λ fold items same. parts.merged_finishes fold.zero fold.zeros items same;
      joins = λ fold xs ys.
          Prim.rw (parts.counts-append fold.zero fold.zeros xs ys, parts.is_any-append xs ys);
      commutes = λ a b.
          Prim.rw (counted.counts_added-comm a.counts b.counts, parts.or-comm a.any b.any);
      associates = λ a b c.
          Prim.rw (counted.counts_added-assoc a.counts b.counts c.counts, plain.or_assoc a.any b.any c.any);
      fitting_alike = λ _ _ fits. fits.0;
      chosen_fit = λ fold xs ys zs same fits. (
        parts.lengths-chosen (length fold.zero) xs ys zs same fits.0,
        numbers.sum_by-chosen sum xs ys zs greatest_sum same fits.1,
      );
      merges = λ fold xs ys fits.
          parts.counts_within fold.zero fold.zeros xs ys greatest_sum fits.0 fits.1;
    } };
}
