// Columns by their names.
ghost use Rattle.std.specs.Prelude.{◌≡◌, ◌++◌, IfOk, OnOk, option_to_list};
ghost use Rattle.std.specs.Option.{option_copied};
ghost use Rattle.mon_value.specs.Tables as join;
ghost use Rattle.mql_ast.specs.Rows as named;
ghost use Rattle.mql_ast.specs.Trees as tree;
ghost use Rattle.typed_trees.specs.Faults.{first_with};
ghost use Rattle.typed_trees.specs.Fetches.{condition_faults, unknown_faults};
ghost use Rattle.typed_trees.specs.Groupings.{place_found};
ghost use Rattle.typed_trees.specs.Items.{is_number_type, sum_width};
ghost use Rattle.typed_columns.specs.NamedPlaces.{AddsPlace};

use insertion_map::InsertionMap;
use mon_value::{Column, ListOf, Shared, Text, ValueType};
use mql_ast::Name;
use std::alloc::{AllocError, Global};
use std::marker::Model;
use typed_trees::{Faults, TypeKind, TypeWord, Width};

/// The columns of a table, which are found by their names without going through them. Contracts see the list of them.
#[derive(Drop)]
pub struct NamedColumns<'a> {
    columns: &'a [Shared<Column>],
    places: InsertionMap<&'a str, usize>,
}

impl<'a> Model for NamedColumns<'a> {
    ghost use Rattle.std.specs.Prelude.{List};
    ghost use Rattle.mon_value.specs.declared.columns.Column.{Column};
    ghost use Rattle.typed_columns.specs.NamedPlaces.{KnowsPlaces};

    ghost Value = { List Column };

    ghost view = { λ all. all.columns.now };

    ghost invariant = { λ all. KnowsPlaces all.columns.now all.places };
}

impl<'a> NamedColumns<'a> {
    /// The columns, with the first place of each name.
    pub fn new(alloc: Global, columns: &'a [Shared<Column>]) -> Result<Self, AllocError>
        ensures columns { IfOk result (λ all. all ≡ columns.now) }
    {
        let mut places = InsertionMap::new(alloc);
        for (place, column) in columns.iter().enumerate() {
            add_place(&mut places, column.name.as_str(), place)?;
        }
        Ok(NamedColumns { columns, places })
    }

    /// All columns, in their order.
    pub(crate) fn columns(&self) -> &'a [Shared<Column>]
        ensures columns { result.now ≡ self.now }
    {
        self.columns
    }

    /// Where the first column of a name stands.
    pub fn place(&self, name: &Text) -> Option<usize>
        ensures place { result ≡ place_found name.now self.now }
    {
        match self.places.get(name.as_str()) {
            Some(place) => Some(*place),
            None => None,
        }
    }

    /// The first column of a name.
    pub(crate) fn get(&self, name: &Text) -> Option<&'a Shared<Column>>
        ensures column { option_copied result ≡ named.column_named name.now self.now }
    {
        match self.place(name) {
            Some(place) => self.columns.get(place),
            None => None,
        }
    }

    /// Whether a column has the name.
    pub(crate) fn has(&self, name: &Text) -> bool
        ensures had { result ≡ join.has_name name.now self.now }
    {
        self.place(name).is_some()
    }

    /// The first column of a name. Tells a name of no column.
    pub(crate) fn known(&self, name: &Name, found: &mut Faults) -> Option<&'a Shared<Column>>
        ensures column { option_copied result ≡ named.column_named name.now.text self.now }
        ensures faults { found.new.first ≡ first_with found.old.first (unknown_faults self.now name.now) }
    {
        let column = self.get(&name.text);
        found.tell_where(column.is_none(), name.at, TypeKind::UnknownColumn);
        column
    }

    /// The width of a column of numbers. Tells a name of no column, or of one of another type.
    pub fn number(&self, name: &Name, found: &mut Faults) -> Option<Width>
        ensures width { result ≡ sum_width self.now (tree.Column name.now) }
        ensures faults { found.new.first
            ≡ first_with found.old.first (condition_faults self.now name.now is_number_type TypeWord.Int) }
    {
        let Some(column) = self.known(name, found) else {
            return None;
        };
        let is_number = matches!(column.of, ValueType::Int);
        found.tell_unlike(is_number, name.at, &column.of, TypeWord::Int);
        if is_number {
            Some(Width::of(column))
        } else {
            None
        }
    }
}

// Puts the place of a name with the others, where it stands for the first time.
fn add_place<'a>(
    places: &mut InsertionMap<&'a str, usize>,
    name: &'a str,
    place: usize,
) -> Result<(), AllocError>
    ensures added { OnOk result (AddsPlace places.old places.new name.now place) }
{
    if places.get(name).is_none() {
        places.insert(name, place)?;
    }
    Ok(())
}

/// Adds an item, where there is one.
pub(crate) fn push_some<T: Drop>(items: &mut ListOf<T>, item: Option<T>) -> Result<(), AllocError>
    ensures added { OnOk result (items.new ≡ items.old ++ option_to_list item) }
{
    match item {
        Some(item) => items.push(item),
        None => Ok(()),
    }
}
