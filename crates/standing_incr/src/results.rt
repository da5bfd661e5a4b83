// What a query comes to, from the tables that are kept.
ghost use Rattle.std.specs.Prelude.{◌≡◌, ◌≤◌, IfErr, IfOk, OnOk};
ghost use Rattle.typed_trees.specs.Nodes.{node_tree};
ghost use Rattle.standing_incr.specs.Results.{CanFinish, IsFinished, rows_kept};
ghost use Rattle.mon_meaning.specs.Counts.{TellsOver};

use crate::tables::Tables;
use crate::ways::{Stop, rows_through, way_down};
use mon_fold::finish_parts;
use mon_meaning::{OverLimit, table_of};
use mon_value::{OutOfMemory, Refusal, Table, TimedRows, TryCopy};
use std::alloc::Global;
use typed_trees::Node;

/// The table of a tree, of the tables that are kept of it. It is refused exactly where their load is above the limit.
pub(crate) fn result_of(
    alloc: Global,
    tree: &Node,
    tables: &Tables,
    limit: u64,
) -> Result<Table, Refusal<OverLimit>>
    requires can { CanFinish (node_tree tree.now) tables.now }
    ensures within { OnOk result (tables.now.load ≤ limit) }
    ensures finished { IfOk result (IsFinished (node_tree tree.now) tables.now) }
    ensures over { IfErr result (TellsOver limit tables.now.load) }
{
    if tables.load > limit {
        return Err(Refusal::Fault(OverLimit { load: tables.load }));
    }
    let way = way_down(alloc, tree, Stop::Grouping)?;
    let kept = kept_rows(alloc, tables)?;
    let rows = rows_through(alloc, way.above, kept)?;
    Ok(table_of(alloc, &tree.info().columns, rows)?)
}

// The rows of the groups that are kept, finished, or of the alignment where there are no groups.
fn kept_rows(alloc: Global, tables: &Tables) -> Result<TimedRows, OutOfMemory>
    ensures rows { IfOk result (λ rows. rows ≡ rows_kept tables.now) }
{
    match &tables.parts {
        Some(parts) => Ok(finish_parts(alloc, parts.copy(alloc)?)?.rows),
        None => tables.table.rows.copy(alloc),
    }
}
