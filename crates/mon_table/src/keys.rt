// What the rows of a join meet by.
ghost use Rattle.std.specs.Prelude.{◌≡◌, IfOk};
ghost use Rattle.std.specs.List.{slice_get};
ghost use Rattle.std.specs.Option.{option_copied};
ghost use Rattle.mon_table.specs.JoinKeys.{key_row};
ghost use Rattle.mon_value.specs.Groups.{group_key};

use mon_value::{OutOfMemory, TimedRow, Value};
use std::alloc::Global;

/// The time of a row, and its cells in the columns that both tables of a join have.
#[derive(PartialEq, Eq, Hash, Drop)]
pub(crate) struct JoinKey<'a> {
    pub(crate) time: i64,
    pub(crate) cells: Vec<&'a Value>,
}

/// The key of a row: its time and its cells at these places.
pub(crate) fn join_key<'a>(
    alloc: Global,
    row: &'a TimedRow,
    places: &[usize],
) -> Result<JoinKey<'a>, OutOfMemory>
    ensures key { IfOk result (λ key. key_row key ≡ group_key places.now row.now) }
{
    let mut cells = Vec::with_capacity(alloc, places.len())?;
    for place in places {
        if let Some(cell) = cell_at(row, *place) {
            cells.push(cell)?;
        }
    }
    Ok(JoinKey {
        time: row.time,
        cells,
    })
}

/// The cell of a row at a place, if it has one there.
pub(crate) fn cell_at<'a>(row: &'a TimedRow, place: usize) -> Option<&'a Value>
    ensures cell { option_copied result ≡ slice_get row.now.cells place }
{
    row.cells.as_slice().get(place)
}
