// Whether a predicate holds of a row, where its columns are found by their names.
ghost use Rattle.std.specs.Prelude.{◌≡◌};
ghost use Rattle.std.specs.Option.{option_copied};
ghost use Rattle.mql_ast.specs.Rows as named;
ghost use Rattle.mql_ast.specs.Trees.{predicate_tree};
ghost use Rattle.mql_ast.specs.Rows.{is_compared, is_like, is_passed, predicate_truth};

use crate::conditions::{is_compared, is_like};
use crate::places::place_of;
use mon_value::{Cells, Columns, FieldValue, Value};
use mql_ast::{Comparison, Name, Pattern, Predicate};

/// Whether a predicate holds of the row with these cells in these columns. A condition on a column that isn't there
/// doesn't hold. Each column is found by its name at each call: for many rows of one table there is `BoundPredicate`.
/// No memory is taken.
///
/// What stands on the right of `&&` or `||` is looked at first, so that a loop goes down the left, where a chain may
/// have many thousand conditions.
pub fn holds(predicate: &Predicate, columns: &Columns, cells: &Cells) -> bool
    ensures truth { result ≡ predicate_truth (predicate_tree predicate.now) columns.now cells.now }
{
    let mut rest = predicate;
    let mut turned = false;
    loop {
        match rest {
            Predicate::Compare(name, how, literal) => {
                let truth = is_cell_compared(
                    cell_named(name, columns, cells),
                    *how,
                    &literal.value,
                );
                return truth != turned;
            }
            Predicate::Like(name, pattern) => {
                let truth = is_cell_like(cell_named(name, columns, cells), pattern);
                return truth != turned;
            }
            Predicate::Not(inner) => {
                turned = !turned;
                rest = inner;
            }
            Predicate::And(left, right) => {
                if !holds(right, columns, cells) {
                    return turned;
                }
                rest = left;
            }
            Predicate::Or(left, right) => {
                if holds(right, columns, cells) {
                    return !turned;
                }
                rest = left;
            }
        }
    }
}

// What stands in the column of a name.
fn cell_named<'a>(name: &Name, columns: &Columns, cells: &'a Cells) -> Option<&'a Value>
    ensures cell { option_copied result ≡ named.cell_named name.now.text columns.now cells.now }
{
    cells.as_slice().get(place_of(&name.text, columns))
}

fn is_cell_compared(cell: Option<&Value>, how: Comparison, literal: &FieldValue) -> bool
    ensures truth { result ≡ is_passed (is_compared how literal.now) (option_copied cell.entry) }
{
    match cell {
        Some(cell) => is_compared(how, literal, cell),
        None => false,
    }
}

fn is_cell_like(cell: Option<&Value>, pattern: &Pattern) -> bool
    ensures truth { result ≡ is_passed (is_like pattern.now.pieces) (option_copied cell.entry) }
{
    match cell {
        Some(cell) => is_like(pattern.pieces.as_slice(), cell),
        None => false,
    }
}
