// The least and the greatest of numbers.
ghost use Rattle.std.specs.Prelude.{⊤, refl};
ghost use Rattle.std.specs.Int.{int_min, int_max};
ghost use Rattle.mon_value.specs.Groups.{least_of, greatest_of};
ghost use Rattle.mon_value.specs.Parts.{combined_numbers};
ghost use Rattle.mon_value.proofs.NumberPartLemmas as parts;
ghost use Rattle.mon_value.proofs.AggregateLemmas as lists;

use crate::folds::Fold;
use mon_value::{OutOfMemory, TryCopy};
use std::alloc::Global;

/// The least of numbers.
#[derive(Clone, Copy)]
pub struct MinFold;

/// The least number so far, where one was added.
#[derive(Clone, Copy, PartialEq, Eq)]
pub struct LeastPart {
    pub least: Option<i128>,
}

/// The greatest of numbers.
#[derive(Clone, Copy)]
pub struct MaxFold;

/// The greatest number so far, where one was added.
#[derive(Clone, Copy, PartialEq, Eq)]
pub struct GreatestPart {
    pub greatest: Option<i128>,
}

impl TryCopy for LeastPart {
    fn copy(&self, _alloc: Global) -> Result<LeastPart, OutOfMemory> {
        Ok(*self)
    }
}

impl TryCopy for GreatestPart {
    fn copy(&self, _alloc: Global) -> Result<GreatestPart, OutOfMemory> {
        Ok(*self)
    }
}

impl Fold for MinFold {
    type In = i128;

    type Part = LeastPart;

    type Out = i128;

    ghost fold_of = { λ _ items. least_of items };

    ghost part_of = { λ _ items. record { least = least_of items } };

    ghost merge_of = { λ a b. record { least = combined_numbers int_min a.least b.least } };

    ghost can_merge = { λ _ _. ⊤ };

    ghost finish_of = { λ part. part.least };

    ghost fits = { λ _ _. ⊤ };

    fn start(&self, _alloc: Global) -> Result<LeastPart, OutOfMemory> {
        Ok(LeastPart { least: None })
    }

    fn add(&self, part: &mut LeastPart, item: &i128) {
        part.least = Some(match part.least {
            None => *item,
            Some(least) => least.min(*item),
        });
    }

    fn merge(&self, into: &mut LeastPart, other: &LeastPart) {
        if let Some(least) = &other.least {
            self.add(into, least);
        }
    }

    fn finish(&self, part: LeastPart) -> Option<i128> {
        part.least
    }

    ghost laws = { record {
      any_order = λ _. lists.least_of-permutation;
      nothing = λ _ items. parts.no_least_where_nothing items;
      finishes = λ _ items _. refl;
      joins = λ _ xs ys. Prim.rw (parts.least_of-append xs ys);
      commutes = λ a b.
          Prim.rw (parts.combined_numbers-comm int_min lists.int_min-comm a.least b.least);
      associates = λ a b c.
          Prim.rw (parts.combined_numbers-assoc int_min lists.int_min-assoc a.least b.least c.least);
      fitting_alike = λ _ _ _. tt;
      chosen_fit = λ _ xs ys zs _ _. tt;
      merges = λ _ xs ys _. tt;
    } };
}

impl Fold for MaxFold {
    type In = i128;

    type Part = GreatestPart;

    type Out = i128;

    ghost fold_of = { λ _ items. greatest_of items };

    ghost part_of = { λ _ items. record { greatest = greatest_of items } };

    ghost merge_of = { λ a b. record { greatest = combined_numbers int_max a.greatest b.greatest } };

    ghost can_merge = { λ _ _. ⊤ };

    ghost finish_of = { λ part. part.greatest };

    ghost fits = { λ _ _. ⊤ };

    fn start(&self, _alloc: Global) -> Result<GreatestPart, OutOfMemory> {
        Ok(GreatestPart { greatest: None })
    }

    fn add(&self, part: &mut GreatestPart, item: &i128) {
        part.greatest = Some(match part.greatest {
            None => *item,
            Some(greatest) => greatest.max(*item),
        });
    }

    fn merge(&self, into: &mut GreatestPart, other: &GreatestPart) {
        if let Some(greatest) = &other.greatest {
            self.add(into, greatest);
        }
    }

    fn finish(&self, part: GreatestPart) -> Option<i128> {
        part.greatest
    }

    ghost laws = { record {
      any_order = λ _. lists.greatest_of-permutation;
      nothing = λ _ items. parts.no_greatest_where_nothing items;
      finishes = λ _ items _. refl;
      joins = λ _ xs ys. Prim.rw (parts.greatest_of-append xs ys);
      commutes = λ a b.
          Prim.rw (parts.combined_numbers-comm int_max lists.int_max-comm a.greatest b.greatest);
      associates = λ a b c.
          Prim.rw (parts.combined_numbers-assoc int_max lists.int_max-assoc a.greatest b.greatest c.greatest);
      fitting_alike = λ _ _ _. tt;
      chosen_fit = λ _ xs ys zs _ _. tt;
      merges = λ _ xs ys _. tt;
    } };
}
