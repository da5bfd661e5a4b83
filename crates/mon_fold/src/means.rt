// The mean of numbers.
ghost use Rattle.std.specs.Prelude.{◌≤◌, ℤ, pos, ◌+ℤ◌, ◌*ℤ◌, ◌≤ℤ◌, ◌<ℤ◌, List, IfSome, int_lt, Some, None, length};
ghost use Rattle.std.specs.Prelude.{sum_by, unsigned_abs, if◌then◌else◌};
ghost use Rattle.std.specs.Int.{int_div_euclid};
ghost use Rattle.mon_value.specs.Groups.{sum_of, item_count, mean_of};
ghost use Rattle.mon_value.specs.Values.{greatest_sum};
ghost use Rattle.mon_value.specs.Parts.{IsWithin};
ghost use Rattle.mon_value.proofs.NumberPartLemmas as parts;
ghost use Rattle.mon_value.proofs.AggregateLemmas as lists;

use crate::folds::Fold;
use mon_value::{OutOfMemory, TryCopy};
use std::alloc::Global;

/// The mean of numbers, rounded down. Means alone can't be merged, since they may stand for unlike
/// numbers of items: a part keeps its sum and its number until the end.
#[derive(Clone, Copy)]
pub struct MeanFold;

/// The sum and the number of the items so far.
#[derive(Clone, Copy, PartialEq, Eq)]
pub struct MeanPart {
    pub sum: i128,
    pub number: i128,
}

impl TryCopy for MeanPart {
    fn copy(&self, _alloc: Global) -> Result<MeanPart, OutOfMemory> {
        Ok(*self)
    }
}

impl Fold for MeanFold {
    type In = i128;

    type Part = MeanPart;

    type Out = i128;

    ghost fold_of = { λ _ items. mean_of items };

    ghost part_of = { λ _ items. record { sum = sum_of items; number = item_count items } };

    ghost merge_of = { λ a b. record { sum = a.sum +ℤ b.sum; number = a.number +ℤ b.number } };

    ghost can_merge = { λ a b. IsWithin (a.sum +ℤ b.sum) × IsWithin (a.number +ℤ b.number) };

    ghost finish_of = { λ part.
        if int_lt (pos 0) part.number then Some (int_div_euclid part.sum part.number) else None };

    ghost fits = { λ _ items.
        (sum_by unsigned_abs items ≤ greatest_sum) × (length items ≤ greatest_sum) };

    fn start(&self, _alloc: Global) -> Result<MeanPart, OutOfMemory> {
        Ok(MeanPart { sum: 0, number: 0 })
    }

    fn add(&self, part: &mut MeanPart, item: &i128) {
        part.sum += *item;
        part.number += 1;
    }

    fn merge(&self, into: &mut MeanPart, other: &MeanPart) {
        into.sum += other.sum;
        into.number += other.number;
    }

    fn finish(&self, part: MeanPart) -> Option<i128> {
        if part.number > 0 {
            Some(part.sum.div_euclid(part.number))
        } else {
            None
        }
    }

    ghost laws = { record {
      any_order = λ _. lists.mean_of-permutation;
      nothing = λ _ items.
          parts.none_where_nothing items (int_div_euclid (sum_of items) (item_count items));
      finishes = λ _ items _.
          parts.where_counted items (int_div_euclid (sum_of items) (item_count items));
      joins = λ _ xs ys.
          Prim.rw (lists.sum_of-append xs ys, lists.item_count-append xs ys);
      commutes = λ a b.
          Prim.rw (lists.add-comm a.sum b.sum, lists.add-comm a.number b.number);
      associates = λ a b c.
          Prim.rw (lists.add-assoc a.sum b.sum c.sum, lists.add-assoc a.number b.number c.number);
      fitting_alike = λ _ _ _. tt;
      chosen_fit = λ _ xs ys zs same fits. (
        parts.sum_by-chosen unsigned_abs xs ys zs greatest_sum same fits.0,
        parts.length-chosen xs ys zs greatest_sum same fits.1,
      );
      merges = λ _ xs ys fits.
          (parts.total_within xs ys fits.0, parts.number_within xs ys fits.1);
    } };
}

/// A mean is the greatest whole number that is not above the sum over the number.
pub fn means_are_floors()
    ensures { (xs : List ℤ) → IfSome (mean_of xs) (λ mean.
        ((mean *ℤ item_count xs) ≤ℤ sum_of xs) × (sum_of xs <ℤ ((mean +ℤ pos 1) *ℤ item_count xs))) }
{}
