// Parts of lists.
ghost use Rattle.std.specs.Prelude.{◌≡◌, take, drop};

/// So many items from a place on, or as many of them as there are.
pub(crate) fn segment<T>(items: &[T], first: usize, count: usize) -> &[T]
    ensures segment { result.now ≡ take count (drop first items.now) }
{
    let rest = from_place(items, first);
    let most = count.min(rest.len());
    &rest[..most]
}

/// All items from a place on.
pub(crate) fn from_place<T>(items: &[T], place: usize) -> &[T]
    ensures rest { result.now ≡ drop place items.now }
{
    let first = place.min(items.len());
    &items[first..]
}
