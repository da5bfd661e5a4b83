// The order of values, of targets and of rows.
ghost use Rattle.std.specs.Prelude.{◌≡◌, List, IsPermutation};
ghost use Rattle.std.specs.Cmp.{IsTotalOrder};
ghost use Rattle.mon_value.specs.declared.tables.TimedRow.{TimedRow};
ghost use Rattle.mon_value.specs.Order.{row_cmp, sorted_rows, target_cmp, value_cmp, TellsApart};

use crate::rows::Target;
use crate::values::Value;
use std::cmp::Ordering;

/// Compares two values. Those of unlike kinds stand in the order whole numbers, truth values, texts,
/// distributions. Truth values stand with false before true, texts by their bytes, and distributions
/// by their lists of counts.
pub fn compare(a: &Value, b: &Value) -> Ordering
    ensures order { result ≡ value_cmp a.now b.now }
{
    a.cmp(b)
}

/// Compares two targets: by their schemas' names, and then by their fields in order.
pub fn compare_targets(a: &Target, b: &Target) -> Ordering
    ensures order { result ≡ target_cmp a.now b.now }
{
    a.cmp(b)
}

/// The order of values is total, and values that it does not tell apart are equal.
pub fn values_are_ordered()
    ensures total { IsTotalOrder value_cmp }
    ensures equal { TellsApart value_cmp }
{}

/// The order of targets is total, and targets that it does not tell apart are equal.
pub fn targets_are_ordered()
    ensures total { IsTotalOrder target_cmp }
    ensures equal { TellsApart target_cmp }
{}

/// The order of rows is total, and rows that it does not tell apart are equal. Sorting keeps the rows,
/// and the same rows in any order are sorted alike.
pub fn rows_are_ordered()
    ensures total { IsTotalOrder row_cmp }
    ensures equal { TellsApart row_cmp }
    ensures kept { (rows : List TimedRow) → IsPermutation rows (sorted_rows rows) }
    ensures alike { (rows others : List TimedRow) → IsPermutation rows others
        → sorted_rows rows ≡ sorted_rows others }
{}
