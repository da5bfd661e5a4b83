// The places of points, and a point more in its series.
ghost use Rattle.std.specs.Prelude.{◌≡◌, ◌++◌, ◌∷◌, ◌+◌, ◌<◌, ◌≤◌, ◌^◌, [], length, slice_get, Some, None, is_some, true};
ghost use Rattle.std.specs.Prelude.{IfErr, IfOk, OnErr, OnOk};
ghost use Rattle.std.specs.Option.{option_copied};
ghost use Rattle.std.specs.Map.{lookup};
ghost use Rattle.indexmap.specs.IndexMap.{spare};
ghost use Rattle.mon_value.specs.Same.{same_series};
ghost use Rattle.mon_series.specs.SeriesMaps.{hidden_held, series_held};
ghost use Rattle.mon_series.specs.SeriesPoints.{all_points};
ghost use Rattle.mon_series.specs.within.Places.{TakesRow, count_at, place_at, row_at, with_point_at};

use crate::kept_point::KeptPoint;
use crate::kept_rows::SeriesMap;
use crate::order::Order;
use crate::series::Series;
use mon_value::{OutOfMemory, Row, SeriesKey, Shared, TryCopy};
use std::alloc::{AllocError, AllocFailed, Global};

/// The place of a point: the number of its series, and its own number in that series.
#[derive(Clone, Copy)]
pub(crate) struct Place {
    pub(crate) series: u32,
    pub(crate) point: u32,
}

/// Adds the point of a row to the series of a number, which is the row's. Where memory runs out all stays.
pub(crate) fn push_known(
    alloc: Global,
    groups: &mut SeriesMap,
    order: &mut Order,
    number: u32,
    row: Row,
) -> Result<(), AllocFailed<Row>>
    requires takes { TakesRow (slice_get (series_held groups.old.entries) number) row }
    ensures grown { OnOk result (series_held groups.new.entries
        ≡ with_point_at (series_held groups.old.entries) number row.point) }
    ensures placed { OnOk result (order.new.items ≡ order.old.items
        ++ place_at number (count_at (series_held groups.old.entries) number) ∷ []) }
    ensures hidden { hidden_held groups.new.entries ≡ hidden_held groups.old.entries }
    ensures kept { OnErr result (series_held groups.new.entries ≡ series_held groups.old.entries) }
    ensures order { OnErr result (order.new.items ≡ order.old.items) }
    ensures value_returned { IfErr result (λ failed. failed.value ≡ row) }
{
    let Some(series) = groups.get_index_mut(number as usize) else {
        unreachable!();
    };
    let Ok(place) = room_for(series, order, number) else {
        return Err(AllocFailed { value: row });
    };
    let (_key, point) = parts_of(alloc, row)?;
    series.push(point);
    order.push(place);
    Ok(())
}

/// Adds the first row of a series. Where memory runs out all stays.
pub(crate) fn push_first(
    alloc: Global,
    groups: &mut SeriesMap,
    order: &mut Order,
    row: Row,
) -> Result<(), AllocFailed<Row>>
    requires absent { lookup (same_series row.key) (series_held groups.old.entries) ≡ None }
    ensures grown { OnOk result (series_held groups.new.entries ≡ series_held groups.old.entries
        ++ (row.key, row.point ∷ []) ∷ []) }
    ensures hidden { OnOk result (hidden_held groups.new.entries ≡ hidden_held groups.old.entries
        ++ (row.key, []) ∷ []) }
    ensures placed { OnOk result (order.new.items ≡ order.old.items ++ place_at (length groups.old.entries) 0 ∷ []) }
    ensures few { OnOk result (length groups.old.entries + 1 < 2 ^ 32) }
    ensures kept { OnErr result (series_held groups.new.entries ≡ series_held groups.old.entries) }
    ensures stayed { OnErr result (hidden_held groups.new.entries ≡ hidden_held groups.old.entries) }
    ensures order { OnErr result (order.new.items ≡ order.old.items) }
    ensures value_returned { IfErr result (λ failed. failed.value ≡ row) }
{
    let mut series = Series::new(alloc);
    let Ok(place) = room_for_first(groups, &mut series, order) else {
        return Err(AllocFailed { value: row });
    };
    let (key, point) = parts_of(alloc, row)?;
    series.push(point);
    insert_new(groups, key, series);
    order.push(place);
    Ok(())
}

// The key of a row, and its point as it is kept. Where memory runs out the row is given back.
fn parts_of(alloc: Global, row: Row) -> Result<(Shared<SeriesKey>, KeptPoint), AllocFailed<Row>>
    ensures parts { IfOk result (λ parts. (parts.0 ≡ row.key) × (parts.1 ≡ row.point)) }
    ensures value_returned { IfErr result (λ failed. failed.value ≡ row) }
{
    let Row { key, point } = row;
    match KeptPoint::new(alloc, point) {
        Ok(point) => Ok((key, point)),
        Err(failed) => Err(AllocFailed {
            value: Row {
                key,
                point: failed.value,
            },
        }),
    }
}

// Makes room for one point more of a series, and gives its place.
fn room_for(series: &mut Series, order: &mut Order, number: u32) -> Result<Place, OutOfMemory>
    ensures place { IfOk result (λ place. place ≡ place_at number (length (all_points series.old))) }
    ensures points { series.new.points ≡ series.old.points }
    ensures hidden { series.new.hidden ≡ series.old.hidden }
    ensures order { order.new.items ≡ order.old.items }
    ensures room { OnOk result (1 ≤ series.new.spare) }
    ensures order_room { OnOk result (1 ≤ order.new.spare) }
{
    let Ok(point) = u32::try_from(series.all_points().len()) else {
        return Err(AllocError);
    };
    series.reserve()?;
    order.reserve_one()?;
    Ok(Place {
        series: number,
        point,
    })
}

// Makes room for one series more and its first point, and gives its place.
fn room_for_first(
    groups: &mut SeriesMap,
    series: &mut Series,
    order: &mut Order,
) -> Result<Place, OutOfMemory>
    ensures place { IfOk result (λ place. place ≡ place_at (length groups.old.entries) (length (all_points series.old))) }
    ensures few { OnOk result (length groups.old.entries + 1 < 2 ^ 32) }
    ensures groups { groups.new.entries ≡ groups.old.entries }
    ensures points { series.new.points ≡ series.old.points }
    ensures hidden { series.new.hidden ≡ series.old.hidden }
    ensures order { order.new.items ≡ order.old.items }
    ensures groups_room { OnOk result (0 < spare groups.new) }
    ensures room { OnOk result (1 ≤ series.new.spare) }
    ensures order_room { OnOk result (1 ≤ order.new.spare) }
{
    let number = groups.len();
    if number >= u32::MAX as usize {
        return Err(AllocError);
    }
    groups.reserve(1)?;
    room_for(series, order, number as u32)
}

// Adds a series under a key that isn't there, in the room that was made.
fn insert_new(groups: &mut SeriesMap, key: Shared<SeriesKey>, series: Series)
    requires room { 0 < spare groups.old }
    requires absent { lookup (same_series key) (series_held groups.old.entries) ≡ None }
    ensures grown { series_held groups.new.entries ≡ series_held groups.old.entries ++ (key, all_points series) ∷ [] }
    ensures hidden { hidden_held groups.new.entries ≡ hidden_held groups.old.entries ++ (key, series.hidden) ∷ [] }
{
    let _old = groups.insert(key, series).unwrap();
}

/// A copy of the row at a place.
pub(crate) fn row_in(alloc: Global, groups: &SeriesMap, place: Place) -> Result<Row, OutOfMemory>
    requires there { is_some (row_at (series_held groups.now.entries) place.series place.point) ≡ true }
    ensures row { IfOk result (λ row. row_at (series_held groups.now.entries) place.series place.point ≡ Some row) }
{
    let Some((key, series)) = groups.get_index(place.series as usize) else {
        unreachable!();
    };
    let Some(point) = point_at(series.all_points(), place.point as usize) else {
        unreachable!();
    };
    Ok(Row {
        key: key.copy(alloc)?,
        point: point.point(alloc)?,
    })
}

// The point of a number.
fn point_at(points: &[KeptPoint], number: usize) -> Option<&KeptPoint>
    ensures point { option_copied result ≡ slice_get points.now number }
{
    points.get(number)
}
