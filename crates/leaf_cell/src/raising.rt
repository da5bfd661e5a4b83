// How a leaf raises buckets.
ghost use Rattle.std.specs.Prelude.{◌≡◌, ◌<◌, ℕ, true};
ghost use Rattle.leaf_cell.specs.Raising.{HasRaisedAt, MayRaiseAll};
ghost use Rattle.mon_hints.specs.BucketSets.{is_set};

use know::{Names, Tables};
use mon_hints::{BucketSet, Place};
use owners::LeafOwner;

/// Raises at a place the buckets of a set, from the least one up.
pub(crate) fn raise_at<N: Names>(
    tables: &Tables<N>,
    owner: &mut LeafOwner<N>,
    place: Place,
    set: &BucketSet,
)
    requires below { (bucket : ℕ) → is_set set.now.words bucket ≡ true → bucket < N.raise.buckets }
    requires allowed { MayRaiseAll owner.old.hints.leaf owner.old.hints.raised place (is_set set.now.words) }
    ensures raised { HasRaisedAt place (is_set set.now.words) owner.old.hints owner.new.hints }
    ensures book { owner.new.book ≡ owner.old.book }
    ensures leaf { owner.new.leaf ≡ owner.old.leaf }
{
    let mut from = 0;
    while let Some(bucket) = set.next(from) {
        owner.raise(tables, place, bucket);
        from = bucket + 1;
    }
}
