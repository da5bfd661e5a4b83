// The locked leaves and ranges of a store, as a query meets them.
use crate::stores::Store;
use know::{Know, Names};
use leaf_cell::{VisitFault, Visited};
use mon_value::{Leaf, Leaves, Range, RangeSlots, SlotLeaf};
use running_query::QueryCells;
use std::alloc::Global;
use std::sync::Wait;
use typed_trees::Plan;

/// A store, with what waits for its locks.
#[derive(Drop)]
pub(crate) struct SharedCells<'a, N: Names, R: Wait> {
    pub rt: &'a R,
    pub store: &'a Store<N>,
}

impl<'a, N: Names, R: Wait> QueryCells<N> for SharedCells<'a, N, R> {
    fn resolve(&self, know: &mut Know<N>, range: Range, avoid: &Leaves) -> Option<SlotLeaf> {
        let store = self.store;
        let cell = store.range_cell(range);
        cell.resolve(self.rt, &store.tables, know, avoid)
    }

    fn visit(
        &self,
        alloc: Global,
        know: &mut Know<N>,
        leaf: Leaf,
        plan: &Plan,
        slots: &RangeSlots,
        moment: i64,
        limit: u64,
    ) -> Result<Visited, VisitFault> {
        let store = self.store;
        let cell = store.leaf_cell(leaf);
        let tables = &store.tables;
        cell.visit(self.rt, alloc, tables, know, plan, slots, moment, limit)
    }
}
