// The changes of groups that the rows of exchanges come to.
ghost use Rattle.std.specs.Prelude.{◌≡◌, ◌<ℤ◌, IfOk, IfSome, IsTrue, Some};
ghost use Rattle.std.specs.List.{AllByRecursion};
ghost use Rattle.mon_meaning.specs.within.Paths.{trees_of};
ghost use Rattle.kept_groups.specs.Changes.{AreApart};
ghost use Rattle.kept_exchanges.specs.Flows.{CanFlow, CanFlowBoth, row_flowing};
ghost use Rattle.kept_exchanges.specs.Traded.{AreChangesOf, HasTraded, Rise};

use crate::exchanges::Exchange;
use crate::flowing::flowing_row;
use insertion_map::InsertionMap;
use kept_groups::{Change, change_of};
use mon_fold::AggregateParts;
use mon_value::{Aggregate, OutOfMemory, TimedRow, TryCopy};
use std::alloc::Global;
use typed_trees::Node;

/// The changes of groups that exchanges come to where the rows flow through operations into a grouping. There is no such
/// list where a group loses a row, or can't tell what it is without it, or where the times of the groups don't rise.
pub fn changes_of(
    alloc: Global,
    above: &[&Node],
    by: &[u32],
    with: &[Aggregate],
    groups: &InsertionMap<TimedRow, AggregateParts>,
    exchanges: &[Exchange],
) -> Result<Option<Vec<Change>>, OutOfMemory>
    requires can { AllByRecursion (CanFlowBoth (trees_of above.now)) exchanges.now }
    ensures made { IfOk result (λ found. IfSome found (λ changes.
        AreChangesOf (trees_of above.now) by.now with.now groups.now.entries exchanges.now changes.items)) }
    ensures apart { IfOk result (λ found. IfSome found (λ changes. AreApart changes.items)) }
{
    let mut changes = Vec::new(alloc);
    for exchange in exchanges {
        let gone = flowing_gone(alloc, above, &exchange.gone)?;
        let come = flowing_row(alloc, above, exchange.come.copy(alloc)?)?;
        if !add_change(alloc, by, with, groups, gone, come, &mut changes)? {
            return Ok(None);
        }
    }
    if rise(changes.as_slice()) {
        Ok(Some(changes))
    } else {
        Ok(None)
    }
}

// What operations make of a row that goes, if there is one.
fn flowing_gone(
    alloc: Global,
    above: &[&Node],
    gone: &Option<TimedRow>,
) -> Result<Option<TimedRow>, OutOfMemory>
    requires can { CanFlow (trees_of above.now) gone.now }
    ensures made { IfOk result (λ made. made ≡ row_flowing (trees_of above.now) gone.now) }
{
    match gone {
        Some(row) => flowing_row(alloc, above, row.copy(alloc)?),
        None => Ok(None),
    }
}

// Adds the change of a row that comes, in the place of another if one goes. Whether it is known: not where a row goes and
// none comes.
fn add_change(
    alloc: Global,
    by: &[u32],
    with: &[Aggregate],
    groups: &InsertionMap<TimedRow, AggregateParts>,
    gone: Option<TimedRow>,
    come: Option<TimedRow>,
    changes: &mut Vec<Change>,
) -> Result<bool, OutOfMemory>
    ensures traded { IfOk result (λ known. IsTrue known
        → HasTraded by.now with.now groups.now.entries gone come changes.old.items changes.new.items) }
{
    match come {
        Some(come) => add_trade(alloc, by, with, groups, gone, come, changes),
        None => Ok(gone.is_none()),
    }
}

// The same of a row that comes.
fn add_trade(
    alloc: Global,
    by: &[u32],
    with: &[Aggregate],
    groups: &InsertionMap<TimedRow, AggregateParts>,
    gone: Option<TimedRow>,
    come: TimedRow,
    changes: &mut Vec<Change>,
) -> Result<bool, OutOfMemory>
    ensures traded { IfOk result (λ known. IsTrue known
        → HasTraded by.now with.now groups.now.entries gone (Some come) changes.old.items changes.new.items) }
{
    match change_of(alloc, by, with, groups, gone, come)? {
        Some(change) => {
            changes.push(change)?;
            Ok(true)
        }
        None => Ok(false),
    }
}

// Whether the times of changes rise, so that each is of another group.
fn rise(changes: &[Change]) -> bool
    ensures { IsTrue result → AreApart changes.now }
{
    for i in 1..changes.len() {
        if !is_later(&changes[i], &changes[i - 1]) {
            return false;
        }
    }
    true
}

// Whether the group of a change is of a later time than that of another.
fn is_later(change: &Change, before: &Change) -> bool
    ensures { IsTrue result → before.now.key.time <ℤ change.now.key.time }
{
    before.key.time < change.key.time
}
