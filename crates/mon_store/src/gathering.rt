// Reading back what a query looked at.
ghost use Rattle.std.specs.Prelude.{◌≡◌, ◌≤◌, ◌<◌, ◌+◌, ◌++◌, length, take, IfOk, OnOk};
ghost use Rattle.history_book.specs.Seats.{IsPurseBorneOut};
ghost use Rattle.know.specs.Knowledge.{stopped_count};
ghost use Rattle.know.specs.Sound.{IsSound};
ghost use Rattle.mon_topo.specs.Zones.{leaves_in};
ghost use Rattle.mon_value.specs.Histories.{leaf_history};
ghost use Rattle.mon_value.specs.LeafHistories.{kept_rows};
ghost use Rattle.query_traces.specs.Traces.{source_of};
ghost use Rattle.mon_store.specs.Gathers.{HasBeenHanded, HasSeenTrace};
ghost use Rattle.mon_store.specs.Passes.{OwnsTheSame};

use crate::passes::Pass;
use crate::stores::Store;
use know::{Know, Names};
use mon_value::{OutOfMemory, Row, RowList};
use query_core::{Resolved, Trace};
use std::alloc::Global;
use std::sync::Wait;

impl<N: Names> Store<N> {
    /// The rows that a query stands on: those that each slot which a range resolved to keeps at its leaf's cut, ranges in
    /// order. They are counted as handed out.
    pub fn gather<R: Wait>(
        &self,
        rt: &R,
        alloc: Global,
        p: &mut Pass<N>,
        trace: &Trace,
    ) -> Result<RowList, OutOfMemory>
        requires seen { HasSeenTrace self.now.topology p.old trace.now }
        ensures rows { IfOk result (λ rows. rows ≡ source_of p.old.seen trace.now) }
        ensures handed { IfOk result (λ rows. HasBeenHanded (length rows) p.old p.new) }
        ensures same { OwnsTheSame p.old p.new }
    {
        self.gather_in(rt, alloc, &mut p.know, trace)
    }

    fn gather_in<R: Wait>(
        &self,
        rt: &R,
        alloc: Global,
        know: &mut Know<N>,
        trace: &Trace,
    ) -> Result<RowList, OutOfMemory>
        requires seen { HasSeenTrace self.now.topology know.old trace.now }
        ensures rows { IfOk result (λ rows. rows ≡ source_of know.old.seen trace.now) }
        ensures handed { IfOk result (λ rows. HasBeenHanded (length rows) know.old know.new) }
        ensures same { OwnsTheSame know.old know.new }
        ensures borne_out { IsPurseBorneOut know.new.seen know.new.purse }
    {
        let tables = &self.tables;
        let gathered = self.gathered(rt, alloc, know, trace);
        know.confirm(tables);
        gathered
    }

    fn gathered<R: Wait>(
        &self,
        rt: &R,
        alloc: Global,
        know: &mut Know<N>,
        trace: &Trace,
    ) -> Result<RowList, OutOfMemory>
        requires seen { HasSeenTrace N.setting.zones know.old trace.now }
        ensures rows { IfOk result (λ rows. rows ≡ source_of know.old.seen trace.now) }
        ensures handed { IfOk result (λ rows. HasBeenHanded (length rows) know.old know.new) }
        ensures same { OwnsTheSame know.old know.new }
    {
        let mut rows = Vec::new(alloc);
        for one in trace.resolved.as_slice() {
            let cut = *trace.cuts.get(one.leaf.0 as usize);
            self.gather_slot(rt, know, *one, cut, &mut rows)?;
        }
        Ok(RowList::from_vec(rows))
    }

    // The rows that one slot keeps, behind those of others.
    fn gather_slot<R: Wait>(
        &self,
        rt: &R,
        know: &mut Know<N>,
        one: Resolved,
        cut: u64,
        rows: &mut Vec<Row>,
    ) -> Result<(), OutOfMemory>
        requires there { one.leaf.0 < length (leaves_in N.setting.zones) }
        requires seen { cut ≤ length (leaf_history know.old.seen one.leaf) }
        ensures rows { OnOk result (rows.new.items ≡ rows.old.items
            ++ kept_rows one.range one.slot (take cut (leaf_history know.old.seen one.leaf))) }
        ensures handed { OnOk result (know.new.handed ≡ stopped_count (know.old.handed
            + length (kept_rows one.range one.slot (take cut (leaf_history know.old.seen one.leaf))))) }
        ensures same { OwnsTheSame know.old know.new }
    {
        let found = self
            .leaf_cell(one.leaf)
            .gather(rt, &self.tables, know, one.range, one.slot, cut)?;
        push_all(rows, found.into_vec())
    }
}

// Rows behind others.
fn push_all(rows: &mut Vec<Row>, more: Vec<Row>) -> Result<(), OutOfMemory>
    ensures all { OnOk result (rows.new.items ≡ rows.old.items ++ more.items) }
{
    for row in more {
        rows.push(row)?;
    }
    Ok(())
}
