// Rows of a table that are written in the place of others.
ghost use Rattle.std.specs.Prelude.{◌≡◌, ◌≤◌, ◌<◌, ◌+◌, ◌++◌, ◌∷◌, [], List, length, false, set, slice_get, Some};
ghost use Rattle.std.specs.Prelude.{IfSome, IsNone, IsPermutation, vec_capacity};
ghost use Rattle.std.specs.List.{AllByRecursion};
ghost use Rattle.mon_value.specs.Same.{same_row};
ghost use Rattle.mon_value.specs.declared.tables.TimedRow.{TimedRow};
ghost use Rattle.kept_exchanges.specs.Exchanges.{IsExchanged, IsOneExchanged};

use crate::exchanges::Exchange;
use mon_value::TimedRow;
use std::mem::replace;

/// Makes exchanges in the rows of a table, which have room for those that are new: no memory is taken, and no other row is
/// moved.
pub fn write_exchanges(rows: &mut Vec<TimedRow>, exchanges: Vec<Exchange>)
    requires room { length rows.old.items + length exchanges.items ≤ vec_capacity rows.old }
    ensures exchanged { IsExchanged exchanges.items rows.old.items rows.new.items }
{
    for exchange in exchanges {
        write_exchange(rows, exchange);
    }
}

// Makes one exchange.
fn write_exchange(rows: &mut Vec<TimedRow>, exchange: Exchange)
    requires room { length rows.old.items < vec_capacity rows.old }
    ensures exchanged { IsOneExchanged exchange rows.old.items rows.new.items }
    ensures few { length rows.new.items ≤ length rows.old.items + 1 }
    ensures room { vec_capacity rows.new ≡ vec_capacity rows.old }
{
    let Exchange { gone, come } = exchange;
    match gone {
        Some(gone) => write_over(rows, &gone, come),
        None => rows.push_reserved(come),
    }
}

// Writes a row over one that is another, or behind all where there is none such.
fn write_over(rows: &mut Vec<TimedRow>, gone: &TimedRow, come: TimedRow)
    requires room { length rows.old.items < vec_capacity rows.old }
    ensures exchanged { (rest : List TimedRow) → IsPermutation (gone.now ∷ rest) rows.old.items
        → IsPermutation (come ∷ rest) rows.new.items }
    ensures few { length rows.new.items ≤ length rows.old.items + 1 }
    ensures room { vec_capacity rows.new ≡ vec_capacity rows.old }
{
    match place_of(rows.as_slice(), gone) {
        Some(place) => write(rows, place, come),
        None => rows.push_reserved(come),
    }
}

// The place of a row that is another, if there is one.
fn place_of(rows: &[TimedRow], one: &TimedRow) -> Option<usize>
    ensures place { IfSome result (λ place. slice_get rows.now place ≡ Some one.now) }
    ensures none { IsNone result → AllByRecursion (λ row. same_row one.now row ≡ false) rows.now }
{
    for (place, row) in rows.iter().enumerate() {
        if is_row(row, one) {
            return Some(place);
        }
    }
    None
}

// Whether two rows are the same.
fn is_row(a: &TimedRow, b: &TimedRow) -> bool
    ensures { result ≡ same_row b.now a.now }
{
    b == a
}

// Writes a row in the place of another.
fn write(rows: &mut Vec<TimedRow>, place: usize, row: TimedRow)
    requires { place < length rows.old.items }
    ensures written { rows.new.items ≡ set rows.old.items place row }
    ensures many { length rows.new.items ≡ length rows.old.items }
    ensures room { vec_capacity rows.new ≡ vec_capacity rows.old }
{
    drop(replace(&mut rows[place], row));
}
