// Names that are found with their numbers.
ghost use Rattle.std.specs.Prelude.{◌≡◌, ◌<◌, not, length, slice_get, IfNone, IfOk, OnOk};
ghost use Rattle.indexmap.specs.IndexMap.{values};
ghost use Rattle.std.specs.List.{list_any};
ghost use Rattle.std.specs.Map.{keys_of, lookup};
ghost use Rattle.mon_value.specs.Same.{same_text};
ghost use Rattle.mon_topo.specs.Indexed.{with_name};

use insertion_map::InsertionMap;
use mon_value::OutOfMemory;
use std::alloc::Global;
use std::marker::Model;

/// Names, each once, with a number. Contracts see both in the order of adding.
#[derive(Drop)]
pub(crate) struct NameMap {
    alloc: Global,
    numbers: InsertionMap<Vec<u8>, u32>,
}

impl Model for NameMap {
    ghost use Rattle.std.specs.Prelude.{List, ℕ};

    ghost Value = { List (List ℕ × ℕ) };

    ghost use Rattle.mon_schema.specs.Held.{named_entries};

    ghost view = { λ map. named_entries map.numbers.entries };
}

impl NameMap {
    ghost use Rattle.std.specs.Prelude.{[]};

    /// No names.
    pub(crate) fn new(alloc: Global) -> NameMap
        ensures empty { result ≡ [] }
    {
        NameMap {
            alloc,
            numbers: InsertionMap::new(alloc),
        }
    }

    /// How many names there are.
    pub(crate) fn len(&self) -> usize
        ensures count { result ≡ length self.now }
    {
        self.numbers.len()
    }

    /// The number of a name.
    pub(crate) fn get(&self, name: &[u8]) -> Option<u32>
        ensures found { result ≡ lookup (same_text name.now) self.now }
    {
        self.numbers.get(name).copied()
    }

    /// The number of a name, which is tried first at a place. The place is then the name's.
    pub(crate) fn get_near(&self, name: &[u8], place: &mut usize) -> Option<u32>
        ensures found { result ≡ lookup (same_text name.now) self.now }
        ensures stayed { IfNone result (place.new ≡ place.old) }
    {
        let found = self.numbers.get_near(*place, name)?;
        *place = found;
        number_at(&self.numbers, found)
    }

    /// Adds a name with its number, and says whether the name is new. One that is there keeps its number.
    pub(crate) fn add(&mut self, name: &[u8], number: u32) -> Result<bool, OutOfMemory>
        ensures new { IfOk result (λ new. new ≡ not (list_any (same_text name.now) (keys_of self.old))) }
        ensures added { OnOk result (self.new ≡ with_name self.old name.now number) }
    {
        if self.numbers.contains_key(name) {
            return Ok(false);
        }
        let key = Vec::from_slice(self.alloc, name)?;
        self.numbers.insert(key, number)?;
        Ok(true)
    }
}

// The number at a place.
fn number_at(numbers: &InsertionMap<Vec<u8>, u32>, place: usize) -> Option<u32>
    ensures number { result ≡ slice_get (values numbers.now) place }
{
    let (_, number) = numbers.get_index(place)?;
    Some(*number)
}

/// The names of zones: each zone's with its number, each location with the number of its zone, and each
/// leaf's with its number among the leaves of all zones.
#[derive(Drop)]
pub(crate) struct Names {
    pub(crate) zones: NameMap,
    pub(crate) locations: NameMap,
    pub(crate) leaves: NameMap,
}
