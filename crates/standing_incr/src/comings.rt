// What a row more comes to.
ghost use Rattle.std.specs.Prelude.{◌≡◌, ◌<ℤ◌, ◌≤ℤ◌, ◌∷◌, [], pos, true, IfOk};
ghost use Rattle.typed_trees.specs.Nodes.{node_tree, typed_tree};
ghost use Rattle.typed_trees.specs.Soundness.{IsTyped};
ghost use Rattle.mon_meaning.specs.Incremental.{is_one_path};
ghost use Rattle.standing_incr.specs.Comings.{ComesBy, ComesTo};

use crate::needs::{Needs, needs_of};
use mon_value::{OutOfMemory, Row};
use std::alloc::Global;
use typed_trees::Typed;

/// What comes of a row more: it matters neither at the moment nor later; or it is held, and ends after the moment; or it
/// is held, and ends in reach; or it may take the place of an earlier one.
#[derive(Clone, Copy)]
pub enum Coming {
    Unheld,
    Ahead,
    InReach,
    AtOnce,
}

/// What comes of a row more to a query at a moment, whatever rows are held. It costs a look at the row alone.
pub(crate) fn coming_of(
    alloc: Global,
    typed: &Typed,
    moment: i64,
    row: &Row,
) -> Result<Coming, OutOfMemory>
    requires typed { IsTyped (typed_tree typed.now) (row.now ∷ []) }
    requires path { is_one_path (node_tree typed.now.tree) ≡ true }
    requires moment { pos 0 ≤ℤ moment }
    ensures comes { IfOk result (ComesTo (typed_tree typed.now) moment row.now) }
{
    match needs_of(alloc, typed, moment)? {
        Some(needs) => coming_by(alloc, &needs, moment, row),
        None => Ok(Coming::Unheld),
    }
}

// The same, by what an alignment needs.
fn coming_by(
    alloc: Global,
    needs: &Needs<'_>,
    moment: i64,
    row: &Row,
) -> Result<Coming, OutOfMemory>
    ensures comes { IfOk result (ComesBy needs.now moment row.now) }
{
    if row.point.end > needs.start {
        return late_coming(alloc, needs, moment, row);
    }
    if needs.is_before(alloc, row)? {
        Ok(Coming::AtOnce)
    } else {
        Ok(Coming::Unheld)
    }
}

// The same of a row that ends above the start of the reach.
fn late_coming(
    alloc: Global,
    needs: &Needs<'_>,
    moment: i64,
    row: &Row,
) -> Result<Coming, OutOfMemory>
    requires late { needs.now.start <ℤ row.now.point.end }
    ensures comes { IfOk result (ComesBy needs.now moment row.now) }
{
    if !needs.is_met(alloc, row)? {
        return Ok(Coming::Unheld);
    }
    if row.point.end > moment {
        return Ok(Coming::Ahead);
    }
    Ok(Coming::InReach)
}
