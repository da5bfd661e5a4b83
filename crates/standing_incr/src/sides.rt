// What a row in reach exchanges in the table of the alignment.
ghost use Rattle.std.specs.Prelude.{◌≡◌, ◌≤◌, ◌+◌, ◌^◌, ◌≤ℤ◌, ◌++◌, ◌∷◌, [], pos, true, IfOk, IfSome};
ghost use Rattle.mon_value.specs.LeafHistories.{IsSource};
ghost use Rattle.mon_value.specs.declared.limits.TheConstants.{ROW_BITS};
ghost use Rattle.typed_trees.specs.Meaning.{load};
ghost use Rattle.typed_trees.specs.Nodes.{node_tree, typed_tree};
ghost use Rattle.typed_trees.specs.Soundness.{IsTyped};
ghost use Rattle.mon_meaning.specs.Incremental.{is_one_path};
ghost use Rattle.standing_incr.specs.Putting.{AreSidesOf, LeadsBetween, LeadsFrom};

use crate::filling::{MOST_LOAD, side_over};
use crate::own_series::own_rows;
use crate::source_rows::SourceRows;
use crate::tables::{Side, Sides};
use kept_exchanges::exchanges_of;
use mon_value::{OutOfMemory, Row, RowList, TryCopy};
use std::alloc::Global;
use typed_trees::Typed;

/// What a row more exchanges, and the load with it, where the held rows have a load. Only the row's own series is looked
/// at. There is none where a row would go and none come, or where the load would be above what a table may have.
pub(crate) fn sides_of(
    alloc: Global,
    typed: &Typed,
    moment: i64,
    held: &SourceRows,
    row: &Row,
    so_far: u64,
) -> Result<Option<Sides>, OutOfMemory>
    requires typed { IsTyped (typed_tree typed.now) (held.now ++ row.now ∷ []) }
    requires path { is_one_path (node_tree typed.now.tree) ≡ true }
    requires held { IsSource held.now }
    requires source { IsSource (held.now ++ row.now ∷ []) }
    requires moment { pos 0 ≤ℤ moment }
    requires load { so_far ≡ load (typed_tree typed.now) held.now moment }
    ensures sides { IfOk result (λ found. IfSome found (AreSidesOf (typed_tree typed.now) moment held.now row.now)) }
{
    let own = own_rows(alloc, held, &row.key)?;
    match side_over(alloc, typed, moment, &own)? {
        Some(before) => sides_after(alloc, typed, moment, own, row, so_far, before),
        None => Ok(None),
    }
}

// The same, from what the rows of its series come to without it.
fn sides_after(
    alloc: Global,
    typed: &Typed,
    moment: i64,
    own: RowList,
    row: &Row,
    so_far: u64,
    before: Side,
) -> Result<Option<Sides>, OutOfMemory>
    requires typed { IsTyped (typed_tree typed.now) (own ++ row.now ∷ []) }
    requires path { is_one_path (node_tree typed.now.tree) ≡ true }
    requires source { IsSource (own ++ row.now ∷ []) }
    requires moment { pos 0 ≤ℤ moment }
    ensures sides { IfOk result (λ found. IfSome found
        (LeadsFrom (typed_tree typed.now) moment (own ++ row.now ∷ []) before so_far)) }
{
    let mut own = own;
    own.push(row.copy(alloc)?)?;
    match side_over(alloc, typed, moment, &own)? {
        Some(after) => sides_between(alloc, so_far, before, after),
        None => Ok(None),
    }
}

// What leads from what the rows of a series came to, to what they come to.
fn sides_between(
    alloc: Global,
    so_far: u64,
    before: Side,
    after: Side,
) -> Result<Option<Sides>, OutOfMemory>
    ensures sides { IfOk result (λ found. IfSome found (LeadsBetween before after so_far)) }
{
    let load = match load_with(so_far, before.load, after.load) {
        Some(load) => load,
        None => return Ok(None),
    };
    match exchanges_of(alloc, before.rows, after.rows)? {
        Some(exchanges) => Ok(Some(Sides { exchanges, load })),
        None => Ok(None),
    }
}

// A load with a part in the place of another, unless it is above what a table may have.
fn load_with(so_far: u64, less: u64, more: u64) -> Option<u64>
    ensures load { IfSome result (λ load. load + less ≡ so_far + more) }
    ensures within { IfSome result (λ load. load ≤ 2 ^ ROW_BITS) }
{
    let others = so_far.checked_sub(less)?;
    let load = others.checked_add(more)?;
    if load <= MOST_LOAD { Some(load) } else { None }
}
