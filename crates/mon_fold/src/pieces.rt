// Items in pieces.
ghost use Rattle.std.specs.Prelude.{◌≡◌, ◌↔◌, [], List, IfOk, IsNone, IsPermutation};
ghost use Rattle.std.specs.List.{flat_map};
ghost use Rattle.mon_fold.specs.Mergings.{Merging, items_of, part_made, IsAllowed};

use crate::folds::Fold;
use mon_value::{ListOf, OutOfMemory};
use std::alloc::Global;

/// What the items of all the pieces come to: each piece is added to a part of its own, and the parts
/// are merged.
pub fn fold_pieces<F: Fold>(
    alloc: Global,
    fold: &F,
    pieces: &[ListOf<F::In>],
) -> Result<Option<F::Out>, OutOfMemory>
    requires within { F.fits fold.now (flat_map (λ piece. piece) pieces.now) }
    ensures whole { IfOk result (λ out. out ≡ F.fold_of fold.now (flat_map (λ piece. piece) pieces.now)) }
    ensures nothing { IfOk result (λ out. IsNone out ↔ (flat_map (λ piece. piece) pieces.now ≡ [])) }
{
    let mut whole = fold.start(alloc)?;
    for piece in pieces {
        let part = part_of_items(alloc, fold, piece.as_slice())?;
        fold.merge(&mut whole, &part);
    }
    Ok(fold.finish(whole))
}

// The part that the items come to, one after another.
fn part_of_items<F: Fold>(alloc: Global, fold: &F, items: &[F::In]) -> Result<F::Part, OutOfMemory>
    requires within { F.fits fold.now items.now }
    ensures part { IfOk result (λ part. part ≡ F.part_of fold.now items.now) }
{
    let mut part = fold.start(alloc)?;
    for item in items {
        fold.add(&mut part, item);
    }
    Ok(part)
}

/// Items that fit can be added and merged in whatever pieces and order. A part finishes to what all
/// of its items come to, whichever way it was made, and to none exactly where there was none.
pub fn merges_in_any_order<F: Fold>(fold: &F)
    ensures any_order { (xs ys : List F.In) → IsPermutation xs ys
        → F.fold_of fold.now xs ≡ F.fold_of fold.now ys }
    ensures commutes { (a b : F.Part) → F.merge_of a b ≡ F.merge_of b a }
    ensures associates { (a b c : F.Part) → F.merge_of (F.merge_of a b) c ≡ F.merge_of a (F.merge_of b c) }

    // `part_made ..` is the part that is made by the steps of a merging.
    ensures allowed { (merging : Merging F.In) → F.fits fold.now (items_of merging)
        → IsAllowed (F.part_of fold.now) F.merge_of F.can_merge merging }
    ensures finishes { (merging : Merging F.In) (items : List F.In)
        → IsPermutation (items_of merging) items → F.alike fold.now items
        → F.finish_of (part_made (F.part_of fold.now) F.merge_of merging) ≡ F.fold_of fold.now items }
    ensures nothing { (merging : Merging F.In) → F.alike fold.now (items_of merging)
        → IsNone (F.finish_of (part_made (F.part_of fold.now) F.merge_of merging)) ↔ (items_of merging ≡ []) }
{}
