// Rows of computed items.
ghost use Rattle.std.specs.Prelude.{◌≡◌, ◌++◌, ◌∷◌, [], cond, if◌then◌else◌, map, IfOk, OnOk};
ghost use Rattle.std.specs.List.{AllByRecursion, filter_map};
ghost use Rattle.mon_expr.specs.BoundSums.{CanEvaluate};
ghost use Rattle.mql_ast.specs.Rows.{CanCompute, HasShares, IsTypedSum};
ghost use Rattle.mql_ast.specs.Trees.{ItemTree, item_tree};
ghost use Rattle.typed_trees.specs.Meaning as spec;
ghost use Rattle.typed_trees.specs.Meaning.{value_row};
ghost use Rattle.mon_value.specs.declared.tables.TimedRow.{TimedRow};
ghost use Rattle.std.specs.Option.{option_to_list};
ghost use Rattle.mon_meaning.specs.within.Items as made_of;
ghost use Rattle.mon_meaning.specs.within.Items.{AreBound, CanMake, all_values};

use mon_expr::BoundExpr;
use mon_value::{Cells, Column, Columns, OutOfMemory, Shared, TimedRow, TimedRows, Value};
use mql_ast::Item;
use std::alloc::Global;

/// The keys of each row and what the items come to in it; a row is dropped where a percentile meets a distribution
/// without values.
pub(crate) fn value_rows(
    alloc: Global,
    columns: &Columns,
    items: &[Item],
    rows: TimedRows,
) -> Result<TimedRows, OutOfMemory>
    requires typed { AllByRecursion (λ (item : ItemTree). IsTypedSum item.sum columns.now × HasShares item.sum)
        (map item_tree items.now) }
    requires rows { AllByRecursion (λ (row : TimedRow). CanCompute columns.now row.cells) rows }
    ensures rows { IfOk result (λ made. made ≡ filter_map (value_row columns.now (map item_tree items.now)) rows) }
{
    let bound = bound_items(alloc, columns, items)?;
    rows_made(alloc, columns.as_slice(), bound.as_slice(), rows)
}

// The rows that bound items make.
fn rows_made(
    alloc: Global,
    columns: &[Shared<Column>],
    items: &[BoundExpr],
    rows: TimedRows,
) -> Result<TimedRows, OutOfMemory>
    requires can { AllByRecursion (CanMake items.now) rows }
    ensures rows { IfOk result (λ made. made ≡ filter_map (made_of.row_made columns.now items.now) rows) }
{
    let mut made = TimedRows::new(alloc);
    for row in rows {
        let next = row_made(alloc, columns, items, row)?;
        push_made(&mut made, next)?;
    }
    Ok(made)
}

// Adds a row, if there is one.
fn push_made(rows: &mut TimedRows, row: Option<TimedRow>) -> Result<(), OutOfMemory>
    ensures added { OnOk result (rows.new ≡ rows.old ++ option_to_list row) }
{
    match row {
        Some(row) => rows.push(row),
        None => Ok(()),
    }
}

// The row that bound items make of a row, unless one comes to no value.
fn row_made(
    alloc: Global,
    columns: &[Shared<Column>],
    items: &[BoundExpr],
    row: TimedRow,
) -> Result<Option<TimedRow>, OutOfMemory>
    requires can { CanMake items.now row }
    ensures row { IfOk result (λ made. made ≡ made_of.row_made columns.now items.now row) }
{
    let TimedRow { time, cells } = row;
    match item_values(alloc, items, &cells)? {
        Some(values) => {
            let cells = keys_and_values(alloc, columns, cells, values)?;
            Ok(Some(TimedRow { time, cells }))
        }
        None => Ok(None),
    }
}

// The items with their columns found.
fn bound_items(
    alloc: Global,
    columns: &Columns,
    items: &[Item],
) -> Result<Vec<BoundExpr>, OutOfMemory>
    requires typed { AllByRecursion (λ (item : ItemTree). IsTypedSum item.sum columns.now × HasShares item.sum)
        (map item_tree items.now) }
    ensures bound { IfOk result (λ bound. AreBound bound.items (map item_tree items.now) columns.now) }
{
    let mut bound = Vec::new(alloc);
    for item in items {
        bound.push(BoundExpr::new(alloc, &item.sum, columns)?)?;
    }
    Ok(bound)
}

// What all items come to in a row, unless one comes to no value.
fn item_values(
    alloc: Global,
    items: &[BoundExpr],
    cells: &Cells,
) -> Result<Option<Cells>, OutOfMemory>
    requires can { AllByRecursion (λ (item : BoundExpr). CanEvaluate item cells.now) items.now }
    ensures values { IfOk result (λ values. values ≡ all_values items.now cells.now) }
{
    let mut values = Cells::new(alloc);
    match add_values(alloc, items, cells, &mut values) {
        Ok(are_all) => Ok(all_or_none(are_all, values)),
        Err(fault) => {
            drop(values);
            Err(fault)
        }
    }
}

// Adds what items come to in a row to a list without values, up to the first that comes to none. Gives whether all came
// to one.
fn add_values(
    alloc: Global,
    items: &[BoundExpr],
    cells: &Cells,
    values: &mut Cells,
) -> Result<bool, OutOfMemory>
    requires none { values.old ≡ [] }
    requires can { AllByRecursion (λ (item : BoundExpr). CanEvaluate item cells.now) items.now }
    ensures values { IfOk result (λ are_all.
        (if are_all then Some values.new else None) ≡ all_values items.now cells.now) }
{
    for item in items {
        let Some(value) = item.value_of(alloc, cells)? else {
            return Ok(false);
        };
        values.push(value)?;
    }
    Ok(true)
}

// Values, if they are all.
fn all_or_none(are_all: bool, values: Cells) -> Option<Cells>
    ensures values { result ≡ (if are_all then Some values else None) }
{
    if are_all {
        return Some(values);
    }
    drop(values);
    None
}

// The cells in the columns that are keys, and then the values. All cells move.
fn keys_and_values(
    alloc: Global,
    columns: &[Shared<Column>],
    cells: Cells,
    values: Cells,
) -> Result<Cells, OutOfMemory>
    ensures cells { IfOk result (λ made. made ≡ spec.key_cells columns.now cells ++ values) }
{
    let mut made = key_cells(alloc, columns, cells)?;
    let mut values = values.into_vec();
    made.append(&mut values)?;
    Ok(Cells::from_vec(made))
}

// The cells in the columns that are keys.
fn key_cells(
    alloc: Global,
    columns: &[Shared<Column>],
    cells: Cells,
) -> Result<Vec<Value>, OutOfMemory>
    ensures keys { IfOk result (λ keys. keys.items ≡ spec.key_cells columns.now cells) }
{
    let mut keys = Vec::new(alloc);
    let mut rest = columns;
    for cell in cells {
        match rest.split_first() {
            Some((column, more)) => {
                push_key(&mut keys, column, cell)?;
                rest = more;
            }
            None => break,
        }
    }
    Ok(keys)
}

// Adds a cell, if its column is a key.
fn push_key(keys: &mut Vec<Value>, column: &Column, cell: Value) -> Result<(), OutOfMemory>
    ensures added { OnOk result (keys.new.items ≡ keys.old.items ++ cond column.now.key (cell ∷ []) []) }
{
    if column.key {
        keys.push(cell)?;
    }
    Ok(())
}
