// Groups put into groups.
ghost use Rattle.std.specs.Prelude.{◌≡◌, ◌≤◌, ◌<◌, ◌+◌, ◌++◌, [], ◌∷◌, drop, length, slice_get, IfOk, IfSome, IsNone};
ghost use Rattle.std.specs.Prelude.{OnOk, Some, None};
ghost use Rattle.std.specs.Map.{lookup};
ghost use Rattle.std.specs.Option.{option_to_list};
ghost use Rattle.std.specs.Vec.Iter.{into_iter_items, into_iter_len};
ghost use Rattle.indexmap.specs.IndexMap.{spare};
ghost use Rattle.mon_value.specs.Same.{same_row};
ghost use Rattle.mon_fold.specs.PartialGroups.{CanMergeGroups, CanTakeGroup, merged_groups, new_to, PartialGroup};
ghost use Rattle.mon_fold.specs.PartialGroups.{with_group};

use crate::aggregate_parts::{AggregateParts, merge_lists};
use insertion_map::InsertionMap;
use mon_value::{OutOfMemory, TimedRow, TryCopy};
use std::alloc::Global;
use std::vec::IntoIter;

/// Copies of those of the others that no group has the key of.
pub(crate) fn new_groups(
    alloc: Global,
    groups: &InsertionMap<TimedRow, AggregateParts>,
    others: &InsertionMap<TimedRow, AggregateParts>,
) -> Result<Vec<(TimedRow, AggregateParts)>, OutOfMemory>
    ensures { IfOk result (λ copies. copies.items ≡ new_to groups.now.entries others.now.entries) }
{
    let mut copies = Vec::new(alloc);
    for (key, parts) in others.entries() {
        add_if_new(alloc, &mut copies, groups, key, parts)?;
    }
    Ok(copies)
}

// Adds a copy of a group, unless one of the groups has its key.
fn add_if_new(
    alloc: Global,
    copies: &mut Vec<(TimedRow, AggregateParts)>,
    groups: &InsertionMap<TimedRow, AggregateParts>,
    key: &TimedRow,
    parts: &AggregateParts,
) -> Result<(), OutOfMemory>
    ensures { let group : PartialGroup = (key.now, parts.now) in
        OnOk result (copies.new.items ≡ copies.old.items ++ new_to groups.now.entries (group ∷ [])) }
{
    if groups.contains_key(key) {
        return Ok(());
    }
    copies.push((key.copy(alloc)?, parts.copy(alloc)?))?;
    Ok(())
}

/// Puts each of the others into the groups: merged into the one of its key, or else its copy at the end.
/// There is room for the copies, so no memory is taken.
pub(crate) fn put_groups(
    groups: &mut InsertionMap<TimedRow, AggregateParts>,
    others: &InsertionMap<TimedRow, AggregateParts>,
    copies: Vec<(TimedRow, AggregateParts)>,
)
    requires room { length copies.items ≤ spare groups.old }
    requires copied { copies.items ≡ new_to groups.old.entries others.now.entries }
    requires can { CanMergeGroups groups.old.entries others.now.entries }
    ensures { groups.new.entries ≡ merged_groups groups.old.entries others.now.entries }
{
    let mut copies = copies.into_iter();
    for (key, parts) in others.entries() {
        put_group(groups, key, parts, &mut copies);
    }
}

// Merges a group into the one of its key, or else puts its copy at the end, which is the next.
fn put_group(
    groups: &mut InsertionMap<TimedRow, AggregateParts>,
    key: &TimedRow,
    parts: &AggregateParts,
    copies: &mut IntoIter<(TimedRow, AggregateParts)>,
)
    requires can { CanTakeGroup groups.old.entries (key.now, parts.now) }
    requires room { length (into_iter_items copies.old) ≤ spare groups.old }
    requires counted { into_iter_len copies.old ≡ length (into_iter_items copies.old) }
    requires next { IsNone (lookup (same_row key.now) groups.old.entries)
        → slice_get (into_iter_items copies.old) 0 ≡ Some (key.now, parts.now) }
    ensures put { groups.new.entries ≡ with_group groups.old.entries (key.now, parts.now) }
    ensures left { let taken = length (new_to groups.old.entries ((key.now, parts.now) ∷ [])) in
        into_iter_items copies.new ≡ drop taken (into_iter_items copies.old) }
    ensures room { length (into_iter_items copies.new) ≤ spare groups.new }
    ensures counted { into_iter_len copies.new ≡ length (into_iter_items copies.new) }
{
    match groups.get_mut(key) {
        Some(kept) => merge_lists(kept, parts),
        None => add_group(groups, copies.next()),
    }
}

/// Adds a group at the end, where there is room.
pub(crate) fn add_group(
    groups: &mut InsertionMap<TimedRow, AggregateParts>,
    group: Option<(TimedRow, AggregateParts)>,
)
    requires room { 0 < spare groups.old }
    requires new { IfSome group (λ g. lookup (same_row g.0) groups.old.entries ≡ None) }
    ensures added { groups.new.entries ≡ groups.old.entries ++ option_to_list group }
    ensures room { spare groups.old ≤ spare groups.new + 1 }
{
    if let Some((key, parts)) = group {
        let _ = groups.insert(key, parts);
    }
}

/// A copy of groups.
pub(crate) fn copied_groups(
    alloc: Global,
    groups: &InsertionMap<TimedRow, AggregateParts>,
) -> Result<InsertionMap<TimedRow, AggregateParts>, OutOfMemory>
    ensures { IfOk result (λ copied. copied.entries ≡ groups.now.entries) }
{
    let mut copied = InsertionMap::with_capacity(alloc, groups.len())?;
    for (key, parts) in groups.entries() {
        copied.insert(key.copy(alloc)?, parts.copy(alloc)?)?;
    }
    Ok(copied)
}
