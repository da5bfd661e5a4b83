// Which columns of two tables a join compares, and which it keeps.
ghost use Rattle.std.specs.Prelude.{◌≡◌, ◌++◌, false, map, replicate, set, true, IfOk, OnOk};
ghost use Rattle.std.specs.List.{slice_get};
ghost use Rattle.std.specs.Option.{option_copied};
ghost use Rattle.mon_table.specs.Places as spec;
ghost use Rattle.mon_value.specs.Tables.{right_columns};

use crate::named::NamedPlaces;
use mon_value::{Column, Columns, OutOfMemory, Shared, Text, TryCopy};
use std::alloc::Global;

/// Where the columns of a join's tables stand: of each two of one name the place in the left table and in the
/// right one, and of the right's columns whose names are not of the left's.
#[derive(Drop)]
pub(crate) struct Places {
    pub(crate) lefts: Vec<usize>,
    pub(crate) rights: Vec<usize>,
    pub(crate) own: Vec<usize>,
}

impl Places {
    /// The places of the columns of two tables.
    pub(crate) fn new(
        alloc: Global,
        lefts: &[Shared<Column>],
        rights: &[Shared<Column>],
    ) -> Result<Places, OutOfMemory>
        ensures lefts { IfOk result (λ places. places.lefts.items ≡ spec.left_places 0 lefts.now rights.now) }
        ensures rights { IfOk result (λ places. places.rights.items ≡ spec.right_places lefts.now rights.now) }
        ensures own { IfOk result (λ places. places.own.items ≡ spec.own_places 0 lefts.now rights.now) }
    {
        let mut places = Places {
            lefts: Vec::new(alloc),
            rights: Vec::new(alloc),
            own: Vec::new(alloc),
        };
        places.add_common(alloc, lefts, rights)?;
        places.add_own(alloc, rights.len())?;
        Ok(places)
    }

    // Adds the places of the columns of one name.
    fn add_common(
        &mut self,
        alloc: Global,
        lefts: &[Shared<Column>],
        rights: &[Shared<Column>],
    ) -> Result<(), OutOfMemory>
        ensures lefts { OnOk result (self.new.lefts.items
            ≡ self.old.lefts.items ++ spec.left_places 0 lefts.now rights.now) }
        ensures rights { OnOk result (self.new.rights.items
            ≡ self.old.rights.items ++ spec.right_places lefts.now rights.now) }
        ensures own { self.new.own ≡ self.old.own }
    {
        let named = NamedPlaces::new(alloc, rights)?;
        let added = self.add_named(lefts, &named);
        drop(named);
        added
    }

    // Adds the places of the left columns beside those of the right columns of their names.
    fn add_named(
        &mut self,
        lefts: &[Shared<Column>],
        rights: &NamedPlaces<'_>,
    ) -> Result<(), OutOfMemory>
        ensures lefts { OnOk result (self.new.lefts.items
            ≡ self.old.lefts.items ++ spec.left_places 0 lefts.now rights.now) }
        ensures rights { OnOk result (self.new.rights.items
            ≡ self.old.rights.items ++ spec.right_places lefts.now rights.now) }
        ensures own { self.new.own ≡ self.old.own }
    {
        for (place, left) in lefts.iter().enumerate() {
            self.add_name(place, &left.name, rights)?;
        }
        Ok(())
    }

    // Adds the place of a left column beside those of the right columns of its name.
    fn add_name(
        &mut self,
        place: usize,
        name: &Text,
        rights: &NamedPlaces<'_>,
    ) -> Result<(), OutOfMemory>
        ensures lefts { OnOk result (self.new.lefts.items
            ≡ self.old.lefts.items ++ spec.left_places_of name.now place rights.now) }
        ensures rights { OnOk result (self.new.rights.items
            ≡ self.old.rights.items ++ spec.right_places_of name.now 0 rights.now) }
        ensures own { self.new.own ≡ self.old.own }
    {
        match rights.of_name(name) {
            Some(found) => self.add_found(place, found.as_slice()),
            None => Ok(()),
        }
    }

    // Adds the place of a left column beside these of right columns.
    fn add_found(&mut self, place: usize, found: &[usize]) -> Result<(), OutOfMemory>
        ensures lefts { OnOk result (self.new.lefts.items
            ≡ self.old.lefts.items ++ map (λ right. place) found.now) }
        ensures rights { OnOk result (self.new.rights.items ≡ self.old.rights.items ++ found.now) }
        ensures own { self.new.own ≡ self.old.own }
    {
        for right in found {
            self.lefts.push(place)?;
            self.rights.push(*right)?;
        }
        Ok(())
    }

    // Adds the places of so many right columns that are not found yet as those that have a name of their own.
    fn add_own(&mut self, alloc: Global, count: usize) -> Result<(), OutOfMemory>
        ensures lefts { self.new.lefts ≡ self.old.lefts }
        ensures rights { self.new.rights ≡ self.old.rights }
        ensures own { OnOk result (self.new.own.items
            ≡ self.old.own.items ++ spec.unmarked 0 (spec.marked self.old.rights.items (replicate count false))) }
    {
        let marks = marks_at(alloc, self.rights.as_slice(), count)?;
        self.add_unmarked(marks.as_slice())
    }

    // Adds the places without a mark as those of the columns that have a name of their own.
    fn add_unmarked(&mut self, marks: &[bool]) -> Result<(), OutOfMemory>
        ensures lefts { self.new.lefts ≡ self.old.lefts }
        ensures rights { self.new.rights ≡ self.old.rights }
        ensures own { OnOk result (self.new.own.items ≡ self.old.own.items ++ spec.unmarked 0 marks.now) }
    {
        for (place, mark) in marks.iter().enumerate() {
            if !*mark {
                self.own.push(place)?;
            }
        }
        Ok(())
    }
}

// So many marks, of which those at these places are set.
fn marks_at(alloc: Global, places: &[usize], count: usize) -> Result<Vec<bool>, OutOfMemory>
    ensures marks { IfOk result (λ marks. marks.items ≡ spec.marked places.now (replicate count false)) }
{
    let mut marks = vec![in alloc; false; count]?;
    for place in places {
        set_mark(&mut marks, *place);
    }
    Ok(marks)
}

// Sets a mark, where there is one.
fn set_mark(marks: &mut Vec<bool>, place: usize)
    ensures marks { marks.new.items ≡ set marks.old.items place true }
{
    if place < marks.len() {
        marks[place] = true;
    }
}

/// The left columns, and then the right columns at these places, which are those that have a name of their own.
pub(crate) fn joined_columns(
    alloc: Global,
    lefts: &Columns,
    rights: &Columns,
    own: &[usize],
) -> Result<Columns, OutOfMemory>
    requires own { own.now ≡ spec.own_places 0 lefts.now rights.now }
    ensures columns { IfOk result (λ columns. columns ≡ lefts.now ++ right_columns lefts.now rights.now) }
{
    let mut columns = lefts.copy(alloc)?;
    for place in own {
        if let Some(column) = column_at(rights, *place) {
            columns.push(column.copy(alloc)?)?;
        }
    }
    Ok(columns)
}

// The column at a place, if there is one.
fn column_at(columns: &Columns, place: usize) -> Option<&Shared<Column>>
    ensures column { option_copied result ≡ slice_get columns.now place }
{
    columns.as_slice().get(place)
}
