// The names of zones, which are found once they stand apart.
ghost use Rattle.std.specs.Prelude.{◌≡◌, ◌+◌, ◌<◌, ◌^◌, ◌++◌, not, length, None, IfOk, OnOk};
ghost use Rattle.std.specs.List.{list_any};
ghost use Rattle.std.specs.Map.{keys_of};
ghost use Rattle.std.specs.Option.{option_or};
ghost use Rattle.mon_value.specs.Answers.{AnswersBy};
ghost use Rattle.mon_value.specs.Same.{same_text};
ghost use Rattle.mon_topo.specs.Faults as spec;
ghost use Rattle.mon_topo.specs.Indexed as kept;

use crate::names::{NameMap, Names};
use crate::places::Place;
use crate::zones::ZoneSpec;
use mon_value::{Refusal, Text};
use std::alloc::Global;

/// The names of the zones, or the place of the first that stood earlier.
pub(crate) fn names_of(alloc: Global, zones: &[ZoneSpec]) -> Result<Names, Refusal<Place>>
    requires few { spec.too_many zones.now ≡ None }
    ensures apart { AnswersBy result (spec.duplicate zones.now) }
    ensures names { IfOk result (λ names. names ≡ kept.names_of_zones zones.now) }
{
    let mut names = Names {
        zones: NameMap::new(alloc),
        locations: NameMap::new(alloc),
        leaves: NameMap::new(alloc),
    };
    for (i, zone) in zones.iter().enumerate() {
        add_zone(&mut names, i, zone)?;
    }
    Ok(names)
}

// Adds the names of a zone, of which none may have stood earlier.
fn add_zone(names: &mut Names, i: usize, zone: &ZoneSpec) -> Result<(), Refusal<Place>>
    requires zones { i < 2 ^ 32 }
    requires leaves { length names.old.leaves + length zone.now.leaves < 2 ^ 32 }
    ensures apart { AnswersBy result (option_or
        (spec.place_unless (not (list_any (same_text zone.now.name) (keys_of names.old.zones))) (Place.ZoneName i))
        (option_or (spec.repeat_in (Place.Location i) (keys_of names.old.locations) zone.now.locations)
        (spec.repeat_in (Place.Leaf i) (keys_of names.old.leaves) zone.now.leaves))) }
    ensures added { OnOk result (names.new ≡ kept.with_zone_names names.old i zone.now) }
{
    if !names.zones.add(zone.name.as_bytes(), i as u32)? {
        return Err(Refusal::Fault(Place::ZoneName(i)));
    }
    add_locations(&mut names.locations, i, zone.locations.as_slice())?;
    add_leaves(&mut names.leaves, i, zone.leaves.as_slice())
}

// Adds the locations of a zone with its number.
fn add_locations(locations: &mut NameMap, i: usize, texts: &[Text]) -> Result<(), Refusal<Place>>
    requires zones { i < 2 ^ 32 }
    ensures apart { AnswersBy result (spec.repeat_in (Place.Location i) (keys_of locations.old) texts.now) }
    ensures added { OnOk result (locations.new ≡ locations.old ++ kept.all_numbered i texts.now) }
{
    for (j, text) in texts.iter().enumerate() {
        if !locations.add(text.as_bytes(), i as u32)? {
            return Err(Refusal::Fault(Place::Location(i, j)));
        }
    }
    Ok(())
}

// Adds the names of a zone's leaves with their numbers.
fn add_leaves(leaves: &mut NameMap, i: usize, texts: &[Text]) -> Result<(), Refusal<Place>>
    requires room { length leaves.old + length texts.now < 2 ^ 32 }
    ensures apart { AnswersBy result (spec.repeat_in (Place.Leaf i) (keys_of leaves.old) texts.now) }
    ensures added { OnOk result (leaves.new ≡ leaves.old ++ kept.numbered_texts (length leaves.old) texts.now) }
{
    for (j, text) in texts.iter().enumerate() {
        let number = leaves.len() as u32;
        if !leaves.add(text.as_bytes(), number)? {
            return Err(Refusal::Fault(Place::Leaf(i, j)));
        }
    }
    Ok(())
}
