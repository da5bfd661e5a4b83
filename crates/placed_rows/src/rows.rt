// Rows of a table, with the places that each series has there.
ghost use Rattle.std.specs.Prelude.{◌≡◌, ◌≤◌, ◌<◌, ◌+◌, ◌++◌, ◌∷◌, ℕ, List, [], length, set, get_or, slice_get, slice_set};
ghost use Rattle.std.specs.Prelude.{IsPermutation, OnErr, OnOk, vec_capacity};
ghost use Rattle.std.specs.List.{flat_map};
ghost use Rattle.std.specs.Option.{option_copied};
ghost use Rattle.mon_value.specs.declared.tables.TimedRow.{TimedRow};
ghost use Rattle.placed_rows.specs.Placed.{AreAllPlaces, HasRoomAt, placed, places_seen, put_at, series_of};

use mon_value::{OutOfMemory, TimedRow};
use std::alloc::Global;
use std::mem::replace;

/// The rows of a table, with the places that each series has there, the oldest time first.
#[derive(Drop)]
pub struct PlacedRows {
    pub rows: Vec<TimedRow>,
    pub places: Vec<Vec<usize>>,
}

impl PlacedRows {
    /// The rows of no series.
    pub fn new(alloc: Global) -> PlacedRows
        ensures rows { result.rows.items ≡ [] }
        ensures places { places_seen result.places.items ≡ [] }
        ensures once { AreAllPlaces result.rows.items (places_seen result.places.items) }
    {
        PlacedRows {
            rows: Vec::new(alloc),
            places: Vec::new(alloc),
        }
    }

    /// Adds a series that has no rows yet. After a refusal nothing has changed.
    pub fn add_series(&mut self, alloc: Global) -> Result<(), OutOfMemory>
        requires once { AreAllPlaces self.old.rows.items (places_seen self.old.places.items) }
        ensures rows { self.new.rows.items ≡ self.old.rows.items }
        ensures added { OnOk result
            (places_seen self.new.places.items ≡ places_seen self.old.places.items ++ [] ∷ []) }
        ensures kept { OnErr result (places_seen self.new.places.items ≡ places_seen self.old.places.items) }
        ensures once { AreAllPlaces self.new.rows.items (places_seen self.new.places.items) }
    {
        push_series(&mut self.places, Vec::new(alloc))
    }

    /// Makes room for rows more of a series.
    pub fn reserve(&mut self, series: usize, more: usize) -> Result<(), OutOfMemory>
        requires series { series < length self.old.places.items }
        ensures rows { self.new.rows.items ≡ self.old.rows.items }
        ensures places { places_seen self.new.places.items ≡ places_seen self.old.places.items }
        ensures room { OnOk result (length self.new.rows.items + more ≤ vec_capacity self.new.rows) }
        ensures room_there { OnOk result (HasRoomAt series more self.new.places.items) }
    {
        self.rows.reserve(more)?;
        reserve_places(&mut self.places, series, more)
    }

    /// The n-th row of a series, if it has one.
    pub fn row(&self, series: usize, n: usize) -> Option<&TimedRow>
        requires once { AreAllPlaces self.now.rows.items (places_seen self.now.places.items) }
        ensures { option_copied result
            ≡ slice_get (placed self.now.rows.items (get_or (places_seen self.now.places.items) series [])) n }
    {
        match self.place(series, n) {
            Some(place) => row_in(self.rows.as_slice(), place),
            None => None,
        }
    }

    /// The place of the n-th row of a series, if it has one.
    pub fn place(&self, series: usize, n: usize) -> Option<usize>
        ensures { result ≡ slice_get (get_or (places_seen self.now.places.items) series []) n }
    {
        self.places.get(series)?.get(n).copied()
    }

    /// Makes a row the n-th of a series: in the place of the one that stands there, or behind the others. No memory is
    /// taken, and no other row is touched.
    pub fn put(&mut self, series: usize, n: usize, row: TimedRow)
        requires series { series < length self.old.places.items }
        requires next { n ≤ length (get_or (places_seen self.old.places.items) series []) }
        requires once { AreAllPlaces self.old.rows.items (places_seen self.old.places.items) }
        requires room { length self.old.rows.items < vec_capacity self.old.rows }
        requires room_there { HasRoomAt series 1 self.old.places.items }
        ensures series { series_of self.new.rows.items (places_seen self.new.places.items)
            ≡ set (series_of self.old.rows.items (places_seen self.old.places.items)) series
            (put_at n row (placed self.old.rows.items (get_or (places_seen self.old.places.items) series []))) }
        ensures once { AreAllPlaces self.new.rows.items (places_seen self.new.places.items) }
        ensures room { (more : ℕ) → length self.old.rows.items + (more + 1) ≤ vec_capacity self.old.rows
            → length self.new.rows.items + more ≤ vec_capacity self.new.rows }
        ensures room_there { (more : ℕ) → HasRoomAt series (more + 1) self.old.places.items
            → HasRoomAt series more self.new.places.items }
    {
        match self.place(series, n) {
            Some(place) => write(&mut self.rows, place, row),
            None => {
                let place = self.rows.len();
                self.rows.push_reserved(row);
                add_place(&mut self.places, series, place);
            }
        }
    }
}

// The row at a place.
fn row_in(rows: &[TimedRow], place: usize) -> Option<&TimedRow>
    ensures { option_copied result ≡ slice_get rows.now place }
{
    rows.get(place)
}

// Writes a row in the place of another.
fn write(rows: &mut Vec<TimedRow>, place: usize, row: TimedRow)
    requires { place < length rows.old.items }
    ensures written { rows.new.items ≡ slice_set rows.old.items place row }
    ensures many { length rows.new.items ≡ length rows.old.items }
    ensures room { vec_capacity rows.new ≡ vec_capacity rows.old }
{
    drop(replace(&mut rows[place], row));
}

// Adds a place to those of a series, which have room for it.
fn add_place(places: &mut Vec<Vec<usize>>, series: usize, place: usize)
    requires series { series < length places.old.items }
    requires room { HasRoomAt series 1 places.old.items }
    ensures added { places_seen places.new.items ≡ set (places_seen places.old.items) series
        (get_or (places_seen places.old.items) series [] ++ place ∷ []) }
    ensures room { (more : ℕ) → HasRoomAt series (more + 1) places.old.items → HasRoomAt series more places.new.items }
{
    push_place(&mut places[series], place);
}

// Adds the places of a series that has none.
fn push_series(places: &mut Vec<Vec<usize>>, none: Vec<usize>) -> Result<(), OutOfMemory>
    requires { none.items ≡ [] }
    ensures added { OnOk result (places_seen places.new.items ≡ places_seen places.old.items ++ [] ∷ []) }
    ensures kept { OnErr result (places_seen places.new.items ≡ places_seen places.old.items) }
{
    places.push(none)?;
    Ok(())
}

// Makes room for places more of a series.
fn reserve_places(
    places: &mut Vec<Vec<usize>>,
    series: usize,
    more: usize,
) -> Result<(), OutOfMemory>
    requires { series < length places.old.items }
    ensures same { places_seen places.new.items ≡ places_seen places.old.items }
    ensures room { OnOk result (HasRoomAt series more places.new.items) }
{
    reserve_own(&mut places[series], more)
}

// Makes room for places more.
fn reserve_own(at: &mut Vec<usize>, more: usize) -> Result<(), OutOfMemory>
    ensures same { at.new.items ≡ at.old.items }
    ensures room { OnOk result (length at.new.items + more ≤ vec_capacity at.new) }
{
    at.reserve(more)
}

// Adds a place where there is room.
fn push_place(at: &mut Vec<usize>, place: usize)
    requires { length at.old.items < vec_capacity at.old }
    ensures added { at.new.items ≡ at.old.items ++ place ∷ [] }
    ensures room { vec_capacity at.new ≡ vec_capacity at.old }
{
    at.push_reserved(place);
}

/// Where the places of all series are those of a table, each once, the table has the rows of all series.
pub fn places_have_all_rows()
    ensures { (rows : List TimedRow) (places : List (List ℕ)) → AreAllPlaces rows places
        → IsPermutation (flat_map (λ one. one) (series_of rows places)) rows }
{}
