// The sum of numbers.
ghost use Rattle.std.specs.Prelude.{◌≤◌, ◌+ℤ◌, IfSome, refl, unsigned_abs, sum_by};
ghost use Rattle.mon_value.specs.Groups.{where_any, sum_of};
ghost use Rattle.mon_value.specs.Values.{greatest_sum};
ghost use Rattle.mon_value.specs.Parts.{combined_numbers, IsWithin};
ghost use Rattle.mon_value.proofs.NumberPartLemmas as parts;
ghost use Rattle.mon_value.proofs.AggregateLemmas as lists;

use crate::folds::Fold;
use mon_value::{OutOfMemory, TryCopy};
use std::alloc::Global;

/// The sum of numbers.
#[derive(Clone, Copy)]
pub struct SumFold;

/// The sum so far, where a number was added.
#[derive(Clone, Copy, PartialEq, Eq)]
pub struct SumPart {
    pub sum: Option<i128>,
}

impl TryCopy for SumPart {
    fn copy(&self, _alloc: Global) -> Result<SumPart, OutOfMemory> {
        Ok(*self)
    }
}

impl Fold for SumFold {
    type In = i128;

    type Part = SumPart;

    type Out = i128;

    ghost fold_of = { λ _ items. where_any items (sum_of items) };

    ghost part_of = { λ _ items. record { sum = where_any items (sum_of items) } };

    ghost merge_of = { λ a b. record { sum = combined_numbers ◌+ℤ◌ a.sum b.sum } };

    ghost can_merge = { λ a b. IfSome (combined_numbers ◌+ℤ◌ a.sum b.sum) IsWithin };

    ghost finish_of = { λ part. part.sum };

    ghost fits = { λ _ items. sum_by unsigned_abs items ≤ greatest_sum };

    fn start(&self, _alloc: Global) -> Result<SumPart, OutOfMemory> {
        Ok(SumPart { sum: None })
    }

    fn add(&self, part: &mut SumPart, item: &i128) {
        part.sum = Some(match part.sum {
            None => *item,
            Some(sum) => sum + *item,
        });
    }

    fn merge(&self, into: &mut SumPart, other: &SumPart) {
        if let Some(sum) = &other.sum {
            self.add(into, sum);
        }
    }

    fn finish(&self, part: SumPart) -> Option<i128> {
        part.sum
    }

    ghost laws = { record {
      any_order = λ _ xs ys same.
          lists.where_any-permutation xs ys (sum_of xs) (sum_of ys) same
          (lists.sum_of-permutation xs ys same);
      nothing = λ _ items. parts.none_where_nothing items (sum_of items);
      finishes = λ _ items _. refl;
      joins = λ _ xs ys. Prim.rw (parts.sums-append xs ys);
      commutes = λ a b. Prim.rw (parts.combined_numbers-comm ◌+ℤ◌ lists.add-comm a.sum b.sum);
      associates = λ a b c.
          Prim.rw (parts.combined_numbers-assoc ◌+ℤ◌ lists.add-assoc a.sum b.sum c.sum);
      fitting_alike = λ _ _ _. tt;
      chosen_fit = λ _ xs ys zs same fits.
          parts.sum_by-chosen unsigned_abs xs ys zs greatest_sum same fits;
      merges = λ _ xs ys fits. parts.sums_within xs ys fits;
    } };
}
