// Two lists of a series' rows, paired by time.
ghost use Rattle.std.specs.Prelude.{◌≡◌, ◌++◌, [], IfOk, IfSome, IsTrue, OnOk, Some};
ghost use Rattle.std.specs.Option.{option_to_list};
ghost use Rattle.kept_exchanges.specs.Pairs.{IsPushed, LeadOn, LeadTo};

use crate::exchanges::Exchange;
use mon_value::{OutOfMemory, TimedRow, TimedRows};
use std::alloc::Global;

/// What leads from some rows of a series to others, where both lists stand with the newest time first: each row that comes
/// with the one of its time that goes, without those that are the same. There is no such list where a row goes and none
/// comes at its time.
pub fn exchanges_of(
    alloc: Global,
    before: TimedRows,
    after: TimedRows,
) -> Result<Option<Vec<Exchange>>, OutOfMemory>
    ensures lead { IfOk result (λ found. IfSome found (λ made. LeadTo before after made.items)) }
{
    let mut left = before.into_vec();
    let made = exchanges_from(alloc, &mut left, after.into_vec())?;
    if left.is_empty() {
        Ok(Some(made))
    } else {
        Ok(None)
    }
}

// The rows that come, the oldest first, each with the one of its time that goes, which is taken from the end of a list.
fn exchanges_from(
    alloc: Global,
    left: &mut Vec<TimedRow>,
    after: Vec<TimedRow>,
) -> Result<Vec<Exchange>, OutOfMemory>
    ensures lead { IfOk result (λ made. LeadOn left.old.items left.new.items after.items [] made.items) }
{
    let mut rest = after;
    let mut made = Vec::new(alloc);
    while let Some(come) = rest.pop() {
        let gone = taken_at(left, come.time);
        push_exchange(&mut made, gone, come)?;
    }
    Ok(made)
}

// The last of some rows, if it is of a time, taken off.
fn taken_at(rows: &mut Vec<TimedRow>, time: i64) -> Option<TimedRow>
    ensures { rows.old.items ≡ rows.new.items ++ option_to_list result }
{
    if is_last_at(rows.as_slice(), time) {
        rows.pop()
    } else {
        None
    }
}

// Whether the last of some rows is of a time.
fn is_last_at(rows: &[TimedRow], time: i64) -> bool {
    match rows.last() {
        Some(row) => row.time == time,
        None => false,
    }
}

// Adds an exchange, unless the row that comes is the one that goes.
fn push_exchange(
    made: &mut Vec<Exchange>,
    gone: Option<TimedRow>,
    come: TimedRow,
) -> Result<(), OutOfMemory>
    ensures pushed { OnOk result (IsPushed gone come made.old.items made.new.items) }
{
    if stays(&gone, &come) {
        return Ok(());
    }
    made.push(Exchange { gone, come })?;
    Ok(())
}

// Whether a row that comes is the one that goes.
fn stays(gone: &Option<TimedRow>, come: &TimedRow) -> bool
    ensures { IsTrue result → gone.now ≡ Some come.now }
{
    match gone {
        Some(row) => is_row(row, come),
        None => false,
    }
}

// Whether two rows are the same.
fn is_row(a: &TimedRow, b: &TimedRow) -> bool
    ensures { IsTrue result → a.now ≡ b.now }
{
    a == b
}
