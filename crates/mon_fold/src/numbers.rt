// The number of items.
ghost use Rattle.std.specs.Prelude.{◌≤◌, pos, ◌+ℤ◌, int_lt, Some, None, length, if◌then◌else◌};
ghost use Rattle.mon_value.specs.Groups.{where_any, item_count};
ghost use Rattle.mon_value.specs.Values.{greatest_sum};
ghost use Rattle.mon_value.specs.Parts.{IsWithin};
ghost use Rattle.mon_value.proofs.NumberPartLemmas as parts;
ghost use Rattle.mon_value.proofs.AggregateLemmas as lists;

use crate::folds::Fold;
use mon_value::{OutOfMemory, TryCopy};
use std::alloc::Global;

/// The number of items.
#[derive(Clone, Copy)]
pub struct CountFold;

/// The number of items so far.
#[derive(Clone, Copy, PartialEq, Eq)]
pub struct CountPart {
    pub number: i128,
}

impl TryCopy for CountPart {
    fn copy(&self, _alloc: Global) -> Result<CountPart, OutOfMemory> {
        Ok(*self)
    }
}

impl Fold for CountFold {
    type In = ();

    type Part = CountPart;

    type Out = i128;

    ghost fold_of = { λ _ items. where_any items (item_count items) };

    ghost part_of = { λ _ items. record { number = item_count items } };

    ghost merge_of = { λ a b. record { number = a.number +ℤ b.number } };

    ghost can_merge = { λ a b. IsWithin (a.number +ℤ b.number) };

    ghost finish_of = { λ part. if int_lt (pos 0) part.number then Some part.number else None };

    ghost fits = { λ _ items. length items ≤ greatest_sum };

    fn start(&self, _alloc: Global) -> Result<CountPart, OutOfMemory> {
        Ok(CountPart { number: 0 })
    }

    fn add(&self, part: &mut CountPart, _item: &()) {
        part.number += 1;
    }

    fn merge(&self, into: &mut CountPart, other: &CountPart) {
        into.number += other.number;
    }

    fn finish(&self, part: CountPart) -> Option<i128> {
        (part.number > 0).then_some(part.number)
    }

    ghost laws = { record {
      any_order = λ _ xs ys same.
          lists.where_any-permutation xs ys (item_count xs) (item_count ys) same
          (lists.item_count-permutation xs ys same);
      nothing = λ _ items. parts.none_where_nothing items (item_count items);
      finishes = λ _ items _. parts.where_counted items (item_count items);
      joins = λ _ xs ys. Prim.rw (lists.item_count-append xs ys);
      commutes = λ a b. Prim.rw (lists.add-comm a.number b.number);
      associates = λ a b c. Prim.rw (lists.add-assoc a.number b.number c.number);
      fitting_alike = λ _ _ _. tt;
      chosen_fit = λ _ xs ys zs same fits. parts.length-chosen xs ys zs greatest_sum same fits;
      merges = λ _ xs ys fits. parts.number_within xs ys fits;
    } };
}
