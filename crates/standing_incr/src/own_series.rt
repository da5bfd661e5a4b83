// The held rows of one series.
ghost use Rattle.std.specs.Prelude.{◌≡◌, ◌++◌, ◌∷◌, [], map, IfOk, OnOk};
ghost use Rattle.mon_value.specs.LeafHistories.{rows_of};
ghost use Rattle.standing_incr.specs.OwnRows.{row_at};

use crate::source_rows::SourceRows;
use mon_series::{KeptPoint, Series};
use mon_value::{OutOfMemory, Row, RowList, SeriesKey, Shared, TryCopy};
use std::alloc::Global;

/// Copies of the held rows of one series, in their order. No other series is looked at.
pub(crate) fn own_rows(
    alloc: Global,
    held: &SourceRows,
    key: &Shared<SeriesKey>,
) -> Result<RowList, OutOfMemory>
    ensures rows { IfOk result (λ rows. rows ≡ rows_of key.now held.now) }
{
    match held.kept().find(key) {
        Some(found) => rows_at(alloc, key, held.kept().points(found.number)),
        None => Ok(RowList::new(alloc)),
    }
}

// The points of a series as rows of its key.
fn rows_at(alloc: Global, key: &Shared<SeriesKey>, series: &Series) -> Result<RowList, OutOfMemory>
    ensures rows { IfOk result (λ rows. rows ≡ map (row_at key.now) series.now.points) }
{
    points_as_rows(alloc, key, series.points())
}

// Points as rows of a key.
fn points_as_rows(
    alloc: Global,
    key: &Shared<SeriesKey>,
    points: &[KeptPoint],
) -> Result<RowList, OutOfMemory>
    ensures rows { IfOk result (λ rows. rows ≡ map (row_at key.now) points.now) }
{
    let mut rows = RowList::new(alloc);
    for point in points {
        push_point(alloc, key, point, &mut rows)?;
    }
    Ok(rows)
}

// Adds a point as a row of a key.
fn push_point(
    alloc: Global,
    key: &Shared<SeriesKey>,
    point: &KeptPoint,
    rows: &mut RowList,
) -> Result<(), OutOfMemory>
    ensures pushed { OnOk result (rows.new ≡ rows.old ++ row_at key.now point.now ∷ []) }
{
    let key = key.copy(alloc)?;
    let point = point.point(alloc)?;
    rows.push(Row { key, point })
}
