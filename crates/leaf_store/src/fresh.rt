// Entries that aren't with their replicas yet.
ghost use Rattle.std.specs.Prelude.{◌≡◌, ◌≤◌, [], length, take, drop, vec_capacity};

use mon_value::Entry;

/// An entry that waits until it is brought to its replica. Where the number of the row's series among those of
/// the replica is known, it stands beside it.
#[derive(Drop)]
pub(crate) struct FreshEntry {
    pub(crate) entry: Entry,
    pub(crate) series: Option<u32>,
}

/// Takes out all entries, and gives memory back but for the room of so many, where there is room for more than twice
/// as many.
pub(crate) fn clear(entries: &mut Vec<FreshEntry>, room: usize)
    requires room { room ≤ vec_capacity entries.old }
    ensures empty { entries.new.items ≡ [] }
    ensures room { room ≤ vec_capacity entries.new }
{
    entries.clear();
    if room < entries.capacity() / 2 {
        entries.shrink_to(room);
    }
}

/// The entries behind the first so many.
pub(crate) fn behind(entries: &[FreshEntry], count: usize) -> &[FreshEntry]
    requires within { count ≤ length entries.now }
    ensures behind { result.now ≡ drop count entries.now }
{
    &entries[count..]
}

/// The first so many entries.
pub(crate) fn in_front(entries: &[FreshEntry], count: usize) -> &[FreshEntry]
    requires within { count ≤ length entries.now }
    ensures front { result.now ≡ take count entries.now }
{
    &entries[..count]
}
