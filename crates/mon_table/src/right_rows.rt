// The right rows of a join by their keys.
ghost use Rattle.std.specs.Prelude.{◌≡◌, ◌∷◌, [], IfOk, OnOk};
ghost use Rattle.std.specs.Option.{option_copied};
ghost use Rattle.mon_table.specs.JoinKeys.{AddsUnderKey, KeepsByKey, rows_under_key, key_row};
ghost use Rattle.mon_table.specs.References.{rows_behind};
ghost use Rattle.mon_table.specs.RightSides.{side_at};
ghost use Rattle.mon_value.specs.Groups.{rows_in};

use crate::keys::{JoinKey, join_key};
use crate::places::Places;
use insertion_map::InsertionMap;
use mon_value::{OutOfMemory, TimedRow};
use std::alloc::Global;
use std::marker::Model;

/// The rows of a join's right table, kept by their keys, so that a left row finds its partners without
/// going over all of them. Contracts see the places of the columns, and the rows.
#[derive(Drop)]
pub(crate) struct RightRows<'a> {
    places: &'a Places,
    rows: &'a [TimedRow],
    by_key: InsertionMap<JoinKey<'a>, Vec<&'a TimedRow>>,
}

impl<'a> Model for RightRows<'a> {
    ghost use Rattle.mon_table.specs.JoinKeys.{KeepsByKey};
    ghost use Rattle.mon_table.specs.RightSides.{RightSide, side_at};

    ghost Value = { RightSide };

    ghost view = { λ all. side_at all.places.now all.rows.now };

    ghost invariant = { λ all. KeepsByKey all.places.now.rights.items all.rows.now all.by_key };
}

impl<'a> RightRows<'a> {
    /// The rows, by their keys in the columns that both tables have.
    pub(crate) fn new(
        alloc: Global,
        rows: &'a [TimedRow],
        places: &'a Places,
    ) -> Result<RightRows<'a>, OutOfMemory>
        ensures side { IfOk result (λ all. all ≡ side_at places.now rows.now) }
    {
        let by_key = rows_by_key(alloc, rows, places.rights.as_slice())?;
        Ok(RightRows {
            places,
            rows,
            by_key,
        })
    }

    /// The places of the left table's columns that the right one has too.
    pub(crate) fn left_places(&self) -> &[usize]
        ensures places { result.now ≡ self.now.lefts }
    {
        self.places.lefts.as_slice()
    }

    /// The places of the right table's own columns.
    pub(crate) fn own_places(&self) -> &[usize]
        ensures places { result.now ≡ self.now.own }
    {
        self.places.own.as_slice()
    }

    /// The rows of a key, if there is one.
    pub(crate) fn of_key(&self, key: &JoinKey<'a>) -> Option<&Vec<&'a TimedRow>>
        ensures found { rows_under_key (option_copied result)
            ≡ rows_in self.now.rights (key_row key.now) self.now.rows }
    {
        self.by_key.get(key)
    }
}

// The rows by their keys.
fn rows_by_key<'a>(
    alloc: Global,
    rows: &'a [TimedRow],
    places: &[usize],
) -> Result<InsertionMap<JoinKey<'a>, Vec<&'a TimedRow>>, OutOfMemory>
    ensures entries { IfOk result (KeepsByKey places.now rows.now) }
{
    let mut by_key = InsertionMap::new(alloc);
    match add_rows(alloc, &mut by_key, rows, places) {
        Ok(()) => Ok(by_key),
        Err(fault) => {
            drop(by_key);
            Err(fault)
        }
    }
}

// Adds rows by their keys to a map without any.
fn add_rows<'a>(
    alloc: Global,
    by_key: &mut InsertionMap<JoinKey<'a>, Vec<&'a TimedRow>>,
    rows: &'a [TimedRow],
    places: &[usize],
) -> Result<(), OutOfMemory>
    requires empty { KeepsByKey places.now [] by_key.old }
    ensures entries { OnOk result (KeepsByKey places.now rows.now by_key.new) }
{
    for row in rows {
        add_row(alloc, by_key, join_key(alloc, row, places)?, row)?;
    }
    Ok(())
}

// Adds a row to those of its key, or under a new key.
fn add_row<'a>(
    alloc: Global,
    by_key: &mut InsertionMap<JoinKey<'a>, Vec<&'a TimedRow>>,
    key: JoinKey<'a>,
    row: &'a TimedRow,
) -> Result<(), OutOfMemory>
    ensures added { OnOk result (AddsUnderKey by_key.old by_key.new key.entry row.now) }
{
    match by_key.get_mut(&key) {
        Some(rows) => {
            drop(key);
            Ok(rows.push(row)?)
        }
        None => match row_alone(alloc, row) {
            Ok(rows) => {
                by_key.insert(key, rows)?;
                Ok(())
            }
            Err(fault) => {
                drop(key);
                Err(fault)
            }
        },
    }
}

// A row that is the only one of its key.
fn row_alone(alloc: Global, row: &TimedRow) -> Result<Vec<&TimedRow>, OutOfMemory>
    ensures alone { IfOk result (λ rows. rows_behind rows.items ≡ row.now ∷ []) }
{
    let mut rows = Vec::new(alloc);
    rows.push(row)?;
    Ok(rows)
}
