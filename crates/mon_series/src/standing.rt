// Rows that are hidden, and those that stand.
ghost use Rattle.std.specs.Prelude.{◌≡◌, ◌<◌, ◌++◌, ◌∷◌, [], filter, length, map, slice_get, true, is_some, IfSome, OnOk};
ghost use Rattle.std.specs.Prelude.{Some};
ghost use Rattle.indexmap.specs.Layout.{set_value_at};
ghost use Rattle.mon_value.specs.declared.rows.Row.{Row};
ghost use Rattle.mon_series.specs.SeriesMaps.{hidden_held, series_held};
ghost use Rattle.mon_series.specs.within.Hidden.{hiding, slot_of, stands};
ghost use Rattle.mon_series.specs.within.Places.{HaveRows, row_at};

use crate::kept_rows::SeriesMap;
use crate::order::Order;
use crate::placing::{Place, row_in};
use mon_value::{OutOfMemory, RowList};
use std::alloc::Global;

/// Hides the points of all series that end before a time.
pub(crate) fn hide_in_all(groups: &mut SeriesMap, before: i64)
    ensures hidden { groups.new.entries ≡ map (hiding before) groups.old.entries }
{
    let mut number = 0;
    while number < groups.len() {
        hide_in(groups, number, before);
        number += 1;
    }
}

// Hides those of the series of a number.
fn hide_in(groups: &mut SeriesMap, number: usize, before: i64)
    requires there { number < length groups.old.entries }
    ensures hidden { IfSome (slice_get groups.old.entries number) (λ entry.
        groups.new.entries ≡ set_value_at groups.old.entries number (hiding before entry).1) }
{
    let Some(series) = groups.get_index_mut(number) else {
        unreachable!();
    };
    series.hide(before);
}

/// Adds copies of the rows that stand, in their order.
pub(crate) fn push_standing(
    alloc: Global,
    groups: &SeriesMap,
    order: &Order,
    rows: &mut RowList,
) -> Result<(), OutOfMemory>
    requires there { HaveRows (series_held groups.now.entries) order.now.items }
    ensures added { OnOk result (rows.new ≡ rows.old ++ (slot_of (series_held groups.now.entries)
        (hidden_held groups.now.entries) order.now.items).kept) }
{
    let mut number = 0;
    while number < order.len() {
        push_if_standing(alloc, groups, order.get(number), rows)?;
        number += 1;
    }
    Ok(())
}

// Adds a copy of the row at a place, if it stands.
fn push_if_standing(
    alloc: Global,
    groups: &SeriesMap,
    place: Place,
    rows: &mut RowList,
) -> Result<(), OutOfMemory>
    requires there { is_some (row_at (series_held groups.now.entries) place.series place.point) ≡ true }
    ensures added { (row : Row) → row_at (series_held groups.now.entries) place.series place.point ≡ Some row
        → OnOk result (rows.new ≡ rows.old ++ filter (stands (hidden_held groups.now.entries)) (row ∷ [])) }
{
    if is_standing(groups, place) {
        rows.push(row_in(alloc, groups, place)?)?;
    }
    Ok(())
}

// Whether the row at a place stands.
fn is_standing(groups: &SeriesMap, place: Place) -> bool
    requires there { is_some (row_at (series_held groups.now.entries) place.series place.point) ≡ true }
    ensures stands { (row : Row) → row_at (series_held groups.now.entries) place.series place.point ≡ Some row
        → result ≡ stands (hidden_held groups.now.entries) row }
{
    let Some((_, series)) = groups.get_index(place.series as usize) else {
        unreachable!();
    };
    !series.hides(place.point as usize)
}
