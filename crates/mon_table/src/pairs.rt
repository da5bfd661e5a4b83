// The pairs of a join.
ghost use Rattle.std.specs.Prelude.{◌≡◌, ◌+◌, ◌++◌, length, map, IfOk, OnOk};
ghost use Rattle.std.specs.List.{flat_map};
ghost use Rattle.mon_table.specs.JoinRoom.{over_room, rows_within_room, table_within_room};
ghost use Rattle.mon_table.specs.References.{rows_behind};
ghost use Rattle.mon_table.specs.RightSides.{left_pairs, pair_row, right_side, side_at};
ghost use Rattle.mon_value.specs.Answers.{AnswersBy, Gives};
ghost use Rattle.mon_value.specs.Tables.{IsWhole, join_of};
ghost use Rattle.mon_value.specs.Groups.{cells_at};

use crate::keys::{cell_at, join_key};
use crate::places::{Places, joined_columns};
use crate::right_rows::RightRows;
use mon_value::{Cells, OutOfMemory, Refusal, Table, TimedRow, TimedRows, TryCopy};
use std::alloc::{AllocError, Global};

/// A join has more rows than there is room for.
#[derive(PartialEq, Eq, Drop)]
pub struct OverRoom {
    /// The most rows that there is room for.
    pub room: u64,
}

impl TryCopy for OverRoom {
    fn copy(&self, _alloc: Global) -> Result<OverRoom, AllocError> {
        Ok(OverRoom { room: self.room })
    }
}

/// Every pair of a row of `a` and a row of `b` that stand at one time and are equal in all columns of
/// one name. Its columns are those of `a`, and then those of `b` whose names are not of `a`. It is
/// refused where there are more pairs than `room`, before one of them is made, and costs about the sum of
/// both tables and the pairs.
pub fn join(alloc: Global, a: &Table, b: &Table, room: u64) -> Result<Table, Refusal<OverRoom>>
    requires left { IsWhole a.now }
    requires right { IsWhole b.now }
    ensures pairs { Gives result (table_within_room room (join_of a.now b.now)) }
{
    let places = Places::new(alloc, a.columns.as_slice(), b.columns.as_slice())?;
    let table = join_at(alloc, a, b, &places, room);
    drop(places);
    table
}

// The join of two tables, the places of whose columns are known.
fn join_at(
    alloc: Global,
    a: &Table,
    b: &Table,
    places: &Places,
    room: u64,
) -> Result<Table, Refusal<OverRoom>>
    requires left { IsWhole a.now }
    requires right { IsWhole b.now }
    requires places { side_at places.now b.now.rows ≡ right_side a.now b.now }
    ensures pairs { Gives result (table_within_room room (join_of a.now b.now)) }
{
    let rows = joined_rows(alloc, a, b, places, room)?;
    let columns = joined_columns(alloc, &a.columns, &b.columns, places.own.as_slice())?;
    Ok(Table { columns, rows })
}

// The rows of a join.
fn joined_rows(
    alloc: Global,
    a: &Table,
    b: &Table,
    places: &Places,
    room: u64,
) -> Result<TimedRows, Refusal<OverRoom>>
    requires left { IsWhole a.now }
    requires right { IsWhole b.now }
    requires places { side_at places.now b.now.rows ≡ right_side a.now b.now }
    ensures rows { Gives result (rows_within_room room (join_of a.now b.now).rows) }
{
    rows_at(alloc, a.rows.as_slice(), b.rows.as_slice(), places, room)
}

// The rows of a join whose columns stand at these places.
fn rows_at(
    alloc: Global,
    lefts: &[TimedRow],
    rights: &[TimedRow],
    places: &Places,
    room: u64,
) -> Result<TimedRows, Refusal<OverRoom>>
    ensures rows { Gives result
        (rows_within_room room (flat_map (left_pairs (side_at places.now rights.now)) lefts.now)) }
{
    let right_rows = RightRows::new(alloc, rights, places)?;
    let rows = pairs_within(alloc, lefts, &right_rows, room);
    drop(right_rows);
    rows
}

// The pairs of all rows of the left, if there is room for them.
fn pairs_within<'a>(
    alloc: Global,
    lefts: &'a [TimedRow],
    right_rows: &RightRows<'a>,
    room: u64,
) -> Result<TimedRows, Refusal<OverRoom>>
    ensures rows { Gives result (rows_within_room room (flat_map (left_pairs right_rows.now) lefts.now)) }
{
    test_room(alloc, lefts, right_rows, room)?;
    Ok(pairs(alloc, lefts, right_rows)?)
}

// Whether there is room for the pairs of all rows of the left, before one of them is made.
fn test_room<'a>(
    alloc: Global,
    lefts: &'a [TimedRow],
    right_rows: &RightRows<'a>,
    room: u64,
) -> Result<(), Refusal<OverRoom>>
    ensures answers { AnswersBy result (over_room room (length (flat_map (left_pairs right_rows.now) lefts.now))) }
{
    let mut free = room;
    for left in lefts {
        let count = count_left(alloc, left, right_rows)?;
        if count > free {
            return Err(Refusal::Fault(OverRoom { room }));
        }
        free -= count;
    }
    Ok(())
}

// How many pairs a row of the left has.
fn count_left<'a>(
    alloc: Global,
    left: &'a TimedRow,
    right_rows: &RightRows<'a>,
) -> Result<u64, OutOfMemory>
    ensures count { IfOk result (λ count. count ≡ length (left_pairs right_rows.now left.now)) }
{
    let key = join_key(alloc, left, right_rows.left_places())?;
    match right_rows.of_key(&key) {
        Some(partners) => Ok(partners.len() as u64),
        None => Ok(0),
    }
}

// The pairs of all rows of the left.
fn pairs<'a>(
    alloc: Global,
    lefts: &'a [TimedRow],
    right_rows: &RightRows<'a>,
) -> Result<TimedRows, OutOfMemory>
    ensures pairs { IfOk result (λ rows. rows ≡ flat_map (left_pairs right_rows.now) lefts.now) }
{
    let mut rows = TimedRows::new(alloc);
    for left in lefts {
        add_left(alloc, &mut rows, left, right_rows)?;
    }
    Ok(rows)
}

// Adds the pairs of a row of the left.
fn add_left<'a>(
    alloc: Global,
    rows: &mut TimedRows,
    left: &'a TimedRow,
    right_rows: &RightRows<'a>,
) -> Result<(), OutOfMemory>
    ensures added { OnOk result (rows.new ≡ rows.old ++ left_pairs right_rows.now left.now) }
{
    let key = join_key(alloc, left, right_rows.left_places())?;
    let Some(partners) = right_rows.of_key(&key) else {
        return Ok(());
    };
    push_pairs(
        alloc,
        rows,
        left,
        partners.as_slice(),
        right_rows.own_places(),
    )
}

// Adds the pairs of a row of the left with its partners.
fn push_pairs(
    alloc: Global,
    rows: &mut TimedRows,
    left: &TimedRow,
    partners: &[&TimedRow],
    own: &[usize],
) -> Result<(), OutOfMemory>
    ensures added { OnOk result (rows.new
        ≡ rows.old ++ map (pair_row own.now left.now) (rows_behind partners.now)) }
{
    for right in partners {
        rows.push(TimedRow {
            time: left.time,
            cells: pair_cells(alloc, left, right, own)?,
        })?;
    }
    Ok(())
}

// The cells of a pair: those of the left, and those of the right that have a name of their own.
fn pair_cells(
    alloc: Global,
    left: &TimedRow,
    right: &TimedRow,
    own: &[usize],
) -> Result<Cells, OutOfMemory>
    ensures cells { IfOk result (λ cells. cells ≡ left.now.cells ++ cells_at own.now right.now.cells) }
{
    let mut cells = left.cells.copy(alloc)?.into_vec();
    cells.reserve_exact(own.len())?;
    for place in own {
        if let Some(cell) = cell_at(right, *place) {
            cells.push(cell.copy(alloc)?)?;
        }
    }
    Ok(Cells::from_vec(cells))
}
