// What a result can be kept by, in place: each call made once.
use insertion_map::InsertionMap;
use kept_groups::change_of;
use kept_numbers::Numbers;
use mon_value::{Cells, OutOfMemory, TimedRow, Value};
use placed_rows::PlacedRows;
use std::alloc::Global;

/// Of two numbers that come and one that goes the other is the least and the greatest.
pub(crate) fn numbers(alloc: Global) -> Result<bool, OutOfMemory> {
    let mut numbers = Numbers::new(alloc);
    numbers.add(3)?;
    numbers.add(5)?;
    numbers.take(5);
    let often = numbers.often(3) == 1;
    let ends = (numbers.least() == Some(3)) & (numbers.greatest() == Some(3));
    drop(numbers);
    Ok(often & ends)
}

/// A series with one row, which is found where it was put.
pub(crate) fn placed(alloc: Global) -> Result<bool, OutOfMemory> {
    let mut rows = PlacedRows::new(alloc);
    rows.add_series(alloc)?;
    rows.reserve(0, 1)?;
    rows.put(0, 0, row(alloc)?);
    let held = match rows.row(0, 0) {
        Some(row) => row.time == 60,
        None => false,
    };
    drop(rows);
    Ok(held)
}

/// A row that comes to no groups changes them in place.
pub(crate) fn change(alloc: Global) -> Result<bool, OutOfMemory> {
    let groups = InsertionMap::new(alloc);
    let change = change_of(alloc, &[0], &[], &groups, None, row(alloc)?)?;
    Ok(change.is_some())
}

fn row(alloc: Global) -> Result<TimedRow, OutOfMemory> {
    let mut cells = Cells::new(alloc);
    cells.push(Value::Int(7))?;
    Ok(TimedRow { time: 60, cells })
}
