// The rows that come first at each time.
ghost use Rattle.std.specs.Prelude.{◌≡◌, [], ◌∷◌, take, IfOk, OnOk};
ghost use Rattle.std.specs.Cmp.Lexicographic.{slice_cmp};
ghost use Rattle.std.specs.Option.{option_copied, option_to_list};
ghost use Rattle.mon_value.proofs.GroupLemmas.{own_group, with_rows};
ghost use Rattle.mon_value.specs.Groups.{cells_at, rows_by_group, rank_cmp, top_rows};
ghost use Rattle.mon_value.specs.Order.{value_cmp, sorted_list};
ghost use Rattle.mon_meaning.specs.within.Times.{groups_at};

use insertion_map::InsertionMap;
use mon_value::{OutOfMemory, TimedRow, TimedRows, Value, compare};
use std::alloc::Global;
use std::cmp::Ordering;

/// At each time, in the order of the times' first rows, the `most` rows that come first by the column at a place, from
/// the greatest, and then by their own order. The rows move.
pub fn top_rows(
    alloc: Global,
    most: u32,
    column: u32,
    rows: TimedRows,
) -> Result<TimedRows, OutOfMemory>
    ensures top { IfOk result (λ top. top ≡ top_rows most column rows) }
{
    let mut first = Vec::new(alloc);
    for (_, group) in rows_by_time(alloc, rows)?.into_entries() {
        let mut group = first_rows(most, column, group);
        first.append(&mut group)?;
    }
    Ok(TimedRows::from_vec(first))
}

// The rows at each time, in the order of the times' first rows.
fn rows_by_time(
    alloc: Global,
    rows: TimedRows,
) -> Result<InsertionMap<i64, Vec<TimedRow>>, OutOfMemory>
    ensures groups { IfOk result (λ groups. groups_at groups.entries ≡ rows_by_group [] rows) }
{
    let mut groups = InsertionMap::new(alloc);
    for row in rows {
        add_row(alloc, &mut groups, row)?;
    }
    Ok(groups)
}

// Adds a row to those of its time.
fn add_row(
    alloc: Global,
    groups: &mut InsertionMap<i64, Vec<TimedRow>>,
    row: TimedRow,
) -> Result<(), OutOfMemory>
    ensures added { OnOk result (groups_at groups.new.entries
        ≡ with_rows (groups_at groups.old.entries) (own_group [] row)) }
{
    match groups.get_mut(&row.time) {
        Some(group) => {
            group.push(row)?;
            Ok(())
        }
        None => {
            let time = row.time;
            let mut group = Vec::new(alloc);
            group.push(row)?;
            groups.insert(time, group)?;
            Ok(())
        }
    }
}

// The rows of one time that come first.
fn first_rows(most: u32, column: u32, rows: Vec<TimedRow>) -> Vec<TimedRow>
    ensures first { result.items ≡ take most (sorted_list (rank_cmp column) rows.items) }
{
    let mut rows = rows;
    rows.sort_unstable_by(|a, b| rank(column, a, b));
    rows.truncate(most as usize);
    rows
}

// Which of two rows comes first.
fn rank(column: u32, a: &TimedRow, b: &TimedRow) -> Ordering
    ensures order { result ≡ rank_cmp column a.now b.now }
{
    match compare_cells(cell_at(column, b), cell_at(column, a)) {
        Ordering::Less => Ordering::Less,
        Ordering::Equal => a.cmp(b),
        Ordering::Greater => Ordering::Greater,
    }
}

// The cell at a place.
fn cell_at(column: u32, row: &TimedRow) -> Option<&Value>
    ensures cell { option_to_list (option_copied result) ≡ cells_at (column ∷ []) row.now.cells }
{
    row.cells.as_slice().get(column as usize)
}

// A cell that isn't there comes first.
fn compare_cells(a: Option<&Value>, b: Option<&Value>) -> Ordering
    ensures order { result ≡ slice_cmp value_cmp
        (option_to_list (option_copied a.entry)) (option_to_list (option_copied b.entry)) }
{
    match a {
        Some(held) => held_order(held, b),
        None => none_order(b),
    }
}

fn held_order(held: &Value, b: Option<&Value>) -> Ordering
    ensures order { result ≡ slice_cmp value_cmp (held.now ∷ []) (option_to_list (option_copied b.entry)) }
{
    match b {
        Some(other) => compare(held, other),
        None => Ordering::Greater,
    }
}

fn none_order(b: Option<&Value>) -> Ordering
    ensures order { result ≡ slice_cmp value_cmp [] (option_to_list (option_copied b.entry)) }
{
    match b {
        Some(_) => Ordering::Less,
        None => Ordering::Equal,
    }
}
