// What a sum comes to in a row, where its columns are found by their names.
ghost use Rattle.std.specs.Prelude.{◌≡◌, ◌↔◌, IfOk, IsNone, IsTrue};
ghost use Rattle.mql_ast.specs.Rows.{meets_no_values, sum_value, CanCompute, HasShares, IsTypedSum};
ghost use Rattle.mql_ast.specs.Trees.{sum_tree};

use crate::bound_sums::BoundExpr;
use mon_value::{Cells, Columns, OutOfMemory, Value};
use mql_ast::Expr;
use std::alloc::Global;

/// What an expression comes to in the row with these cells in these columns. `None` exactly where a percentile in it
/// meets a distribution without values. Each column is found by its name at each call: for many rows of one table
/// there is `BoundExpr`.
pub fn value_of(
    alloc: Global,
    expr: &Expr,
    columns: &Columns,
    cells: &Cells,
) -> Result<Option<Value>, OutOfMemory>
    requires typed { IsTypedSum (sum_tree expr.now) columns.now }
    requires shares { HasShares (sum_tree expr.now) }
    requires row { CanCompute columns.now cells.now }
    ensures value { IfOk result (λ value. value ≡ sum_value (sum_tree expr.now) columns.now cells.now) }
    ensures none { IfOk result (λ value. IsNone value
        ↔ IsTrue (meets_no_values (sum_tree expr.now) columns.now cells.now)) }
{
    BoundExpr::new(alloc, expr, columns)?.value_of(alloc, cells)
}
