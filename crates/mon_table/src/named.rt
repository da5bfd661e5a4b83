// Columns by their names.
ghost use Rattle.std.specs.Prelude.{◌≡◌, ◌∷◌, [], IfOk, OnOk};
ghost use Rattle.std.specs.Option.{option_copied};
ghost use Rattle.mon_table.specs.NamedPlaces.{AddsPlace, KnowsPlaces, places_under};
ghost use Rattle.mon_table.specs.Places.{right_places_of};

use insertion_map::InsertionMap;
use mon_value::{Column, OutOfMemory, Shared, Text};
use std::alloc::Global;
use std::marker::Model;

/// The places of a table's columns, which are found by their names without going over all columns. Contracts see
/// the list of the columns.
#[derive(Drop)]
pub(crate) struct NamedPlaces<'a> {
    columns: &'a [Shared<Column>],
    places: InsertionMap<&'a str, Vec<usize>>,
}

impl<'a> Model for NamedPlaces<'a> {
    ghost use Rattle.std.specs.Prelude.{List};
    ghost use Rattle.mon_table.specs.NamedPlaces.{KnowsPlaces};
    ghost use Rattle.mon_value.specs.declared.columns.Column.{Column};

    ghost Value = { List Column };

    ghost view = { λ all. all.columns.now };

    ghost invariant = { λ all. KnowsPlaces all.columns.now all.places };
}

impl<'a> NamedPlaces<'a> {
    /// The columns, with the places of each name.
    pub(crate) fn new(
        alloc: Global,
        columns: &'a [Shared<Column>],
    ) -> Result<NamedPlaces<'a>, OutOfMemory>
        ensures columns { IfOk result (λ all. all ≡ columns.now) }
    {
        let places = places_by_name(alloc, columns)?;
        Ok(NamedPlaces { columns, places })
    }

    /// The places of the columns of a name in ascending order, if there is one.
    pub(crate) fn of_name(&self, name: &Text) -> Option<&Vec<usize>>
        ensures found { places_under (option_copied result) ≡ right_places_of name.now 0 self.now }
    {
        self.places.get(name.as_str())
    }
}

// The places by their names.
fn places_by_name<'a>(
    alloc: Global,
    columns: &'a [Shared<Column>],
) -> Result<InsertionMap<&'a str, Vec<usize>>, OutOfMemory>
    ensures entries { IfOk result (KnowsPlaces columns.now) }
{
    let mut places = InsertionMap::new(alloc);
    match add_places(alloc, &mut places, columns) {
        Ok(()) => Ok(places),
        Err(fault) => {
            drop(places);
            Err(fault)
        }
    }
}

// Adds the places of columns by their names to a map without any.
fn add_places<'a>(
    alloc: Global,
    places: &mut InsertionMap<&'a str, Vec<usize>>,
    columns: &'a [Shared<Column>],
) -> Result<(), OutOfMemory>
    requires empty { KnowsPlaces [] places.old }
    ensures entries { OnOk result (KnowsPlaces columns.now places.new) }
{
    for (place, column) in columns.iter().enumerate() {
        add_place(alloc, places, column.name.as_str(), place)?;
    }
    Ok(())
}

// Adds a place to those of its name, or under a new name.
fn add_place<'a>(
    alloc: Global,
    places: &mut InsertionMap<&'a str, Vec<usize>>,
    name: &'a str,
    place: usize,
) -> Result<(), OutOfMemory>
    ensures added { OnOk result (AddsPlace places.old places.new name.now place) }
{
    match places.get_mut(name) {
        Some(found) => Ok(found.push(place)?),
        None => {
            places.insert(name, place_alone(alloc, place)?)?;
            Ok(())
        }
    }
}

// A place that is the only one of its name.
fn place_alone(alloc: Global, place: usize) -> Result<Vec<usize>, OutOfMemory>
    ensures alone { IfOk result (λ places. places.items ≡ place ∷ []) }
{
    let mut places = Vec::new(alloc);
    places.push(place)?;
    Ok(places)
}
