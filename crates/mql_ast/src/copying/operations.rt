// Copies of operations.
ghost use Rattle.std.specs.Prelude.{◌≡◌, IfOk, map};
ghost use Rattle.mql_ast.specs.Trees as Deed;
ghost use Rattle.mql_ast.specs.Trees.{deed_tree, item_tree, op_tree, predicate_tree};

use crate::names::{Name, Names};
use crate::operations::{Aggregates, Item, Op, OpKind};
use crate::predicates::Predicate;
use mon_value::{ListOf, TryCopy};
use std::alloc::{AllocError, Global};

impl Op {
    /// A copy of an operation: the same tree.
    pub fn copy(&self, alloc: Global) -> Result<Op, AllocError>
        ensures tree { IfOk result (λ copied. op_tree copied ≡ op_tree self.now) }
    {
        Ok(Op {
            at: self.at,
            what: self.what.copy(alloc)?,
        })
    }
}

impl OpKind {
    /// A copy of what an operation does: the same tree.
    pub fn copy(&self, alloc: Global) -> Result<OpKind, AllocError>
        ensures tree { IfOk result (λ copied. deed_tree copied ≡ deed_tree self.now) }
    {
        match self {
            OpKind::Filter(predicate) => copied_filter(alloc, predicate),
            OpKind::Align(by) => Ok(OpKind::Align(*by)),
            OpKind::GroupBy(names, aggregates) => copied_group_by(alloc, names, aggregates),
            OpKind::Value(items) => copied_value(alloc, items.as_slice()),
            OpKind::Top(n, column) => copied_top(alloc, *n, column),
            OpKind::Every(seconds) => Ok(OpKind::Every(*seconds)),
            OpKind::Within(seconds) => Ok(OpKind::Within(*seconds)),
        }
    }
}

fn copied_filter(alloc: Global, predicate: &Predicate) -> Result<OpKind, AllocError>
    ensures tree { IfOk result (λ copied. deed_tree copied ≡ Deed.Filter (predicate_tree predicate.now)) }
{
    let predicate = predicate.copy(alloc)?;
    Ok(OpKind::Filter(predicate))
}

fn copied_group_by(
    alloc: Global,
    names: &Names,
    aggregates: &Aggregates,
) -> Result<OpKind, AllocError>
    ensures tree { IfOk result (λ copied. deed_tree copied ≡ Deed.GroupBy names.now aggregates.now) }
{
    let names = names.copy(alloc)?;
    match aggregates.copy(alloc) {
        Ok(aggregates) => Ok(OpKind::GroupBy(names, aggregates)),
        Err(stop) => {
            drop(names);
            Err(stop)
        }
    }
}

fn copied_value(alloc: Global, items: &[Item]) -> Result<OpKind, AllocError>
    ensures tree { IfOk result (λ copied. deed_tree copied ≡ Deed.Value (map item_tree items.now)) }
{
    let items = copied_items(alloc, items)?;
    Ok(OpKind::Value(ListOf::from_vec(items)))
}

fn copied_top(alloc: Global, n: u32, column: &Name) -> Result<OpKind, AllocError>
    ensures tree { IfOk result (λ copied. deed_tree copied ≡ Deed.Top n column.now) }
{
    let column = column.copy(alloc)?;
    Ok(OpKind::Top(n, column))
}

impl Item {
    /// A copy of an item: the same tree.
    pub fn copy(&self, alloc: Global) -> Result<Item, AllocError>
        ensures tree { IfOk result (λ copied. item_tree copied ≡ item_tree self.now) }
    {
        Ok(Item {
            name: self.name.copy(alloc)?,
            sum: self.sum.copy(alloc)?,
        })
    }
}

// Copies of all items, in their order.
fn copied_items(alloc: Global, items: &[Item]) -> Result<Vec<Item>, AllocError>
    ensures trees { IfOk result (λ copied. map item_tree copied.items ≡ map item_tree items.now) }
{
    let mut copied = Vec::with_capacity(alloc, items.len())?;
    for item in items {
        copied.push(item.copy(alloc)?)?;
    }
    Ok(copied)
}

/// Copies of all operations, in their order.
pub fn copied_ops(alloc: Global, ops: &[Op]) -> Result<Vec<Op>, AllocError>
    ensures trees { IfOk result (λ copied. map op_tree copied.items ≡ map op_tree ops.now) }
{
    let mut copied = Vec::with_capacity(alloc, ops.len())?;
    for op in ops {
        copied.push(op.copy(alloc)?)?;
    }
    Ok(copied)
}
