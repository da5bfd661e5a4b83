// A row on its way from an alignment to where rows are grouped.
ghost use Rattle.std.specs.Prelude.{◌≡◌, ◌∷◌, [], Some, slice_get, IfOk, IfSome};
ghost use Rattle.mon_value.specs.declared.tables.TimedRow.{TimedRow};
ghost use Rattle.typed_trees.specs.Nodes.{node_tree};
ghost use Rattle.mon_meaning.specs.Operations.{CanOperate, operation_rows};
ghost use Rattle.mon_meaning.specs.within.Paths.{trees_of};
ghost use Rattle.mon_meaning.specs.within.Sides.{HasOneSide};
ghost use Rattle.kept_exchanges.specs.Flows.{CanFlow, row_flowing, row_made};

use mon_meaning::one_sided_rows;
use mon_value::{OutOfMemory, TimedRow, TimedRows};
use std::alloc::Global;
use typed_trees::Node;

/// What operations make of a row, the last one first: at most one row where they work row by row.
pub fn flowing_row(
    alloc: Global,
    above: &[&Node],
    row: TimedRow,
) -> Result<Option<TimedRow>, OutOfMemory>
    requires can { CanFlow (trees_of above.now) (Some row) }
    ensures made { IfOk result (λ made. made ≡ row_flowing (trees_of above.now) (Some row)) }
{
    let mut made = Some(row);
    let mut left = above.len();
    while left > 0 {
        left -= 1;
        made = row_made(alloc, above[left], made)?;
    }
    Ok(made)
}

// What an operation makes of a row, if there is one.
fn row_made(
    alloc: Global,
    node: &Node,
    row: Option<TimedRow>,
) -> Result<Option<TimedRow>, OutOfMemory>
    requires can { IfSome row (λ one. HasOneSide (node_tree node.now) × CanOperate (node_tree node.now) (one ∷ []) []) }
    ensures made { IfOk result (λ made. made ≡ row_made (node_tree node.now) row) }
{
    match row {
        Some(row) => row_of(alloc, node, row),
        None => Ok(None),
    }
}

// The first row that an operation makes of a row, if there is one.
fn row_of(alloc: Global, node: &Node, row: TimedRow) -> Result<Option<TimedRow>, OutOfMemory>
    requires one { HasOneSide (node_tree node.now) }
    requires can { CanOperate (node_tree node.now) (row ∷ []) [] }
    ensures made { IfOk result (λ made. made
        ≡ slice_get (operation_rows (node_tree node.now) (row ∷ []) []) 0) }
{
    let mut rows = TimedRows::new(alloc);
    rows.push(row)?;
    let made = one_sided_rows(alloc, node, rows)?;
    Ok(first_of(made))
}

// The first of some rows, if there is one.
fn first_of(rows: TimedRows) -> Option<TimedRow>
    ensures { result ≡ slice_get rows 0 }
{
    rows.into_iter().next()
}
