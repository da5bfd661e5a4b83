// What an aggregate over partial results promises.
ghost use Rattle.std.specs.Prelude.{◌≡◌, ⊤, [], ◌∷◌, List, Option, IfOk};
ghost use Rattle.mon_fold.specs.FoldLaws.{FoldLaws};

use mon_value::OutOfMemory;
use std::alloc::Global;

/// An aggregate of items that is kept as parts. A part stands for the items that were added to it
/// and for those of the parts that were merged into it. In whatever order and pieces that was, it
/// finishes to the aggregate of all of them.
pub trait Fold {
    type In;

    type Part: Drop;

    type Out;

    /// The aggregate of the items.
    ghost fold_of: { Self → List Self.In → Option Self.Out };

    /// The part that stands for the items.
    ghost part_of: { Self → List Self.In → Self.Part };

    /// What two parts are together.
    ghost merge_of: { Self.Part → Self.Part → Self.Part };

    /// Two parts can be merged: what comes out is within bounds.
    ghost can_merge: { Self.Part → Self.Part → Type 0 };

    /// What a part finishes to.
    ghost finish_of: { Self.Part → Option Self.Out };

    /// The items have the shape that the fold is for.
    ghost alike: { Self → List Self.In → Type 0 } = { λ _ _. ⊤ };

    /// The items are alike, and stay within bounds in whatever order and pieces.
    ghost fits: { Self → List Self.In → Type 0 };

    /// A part that stands for no item. No other call takes memory.
    fn start(&self, alloc: Global) -> Result<Self::Part, OutOfMemory>
        ensures empty { IfOk result (λ part. part ≡ part_of self.now []) };

    /// Adds an item.
    fn add(&self, part: &mut Self::Part, item: &Self::In)
        requires { can_merge part.old (part_of self.now (item.now ∷ [])) }
        ensures added { part.new ≡ merge_of part.old (part_of self.now (item.now ∷ [])) };

    /// Adds the items of another part.
    fn merge(&self, into: &mut Self::Part, other: &Self::Part)
        requires { can_merge into.old other.now }
        ensures merged { into.new ≡ merge_of into.old other.now };

    /// The aggregate of the part's items, and none where there was none.
    fn finish(&self, part: Self::Part) -> Option<Self::Out>
        ensures finished { result ≡ finish_of part };

    /// How these go together.
    ghost laws: { FoldLaws fold_of part_of merge_of can_merge finish_of alike fits };
}
