// Which names zones and leaves may have.
ghost use Rattle.std.specs.Prelude.{◌≡◌};
ghost use Rattle.mon_topo.specs.Faults as spec;
ghost use Rattle.mon_topo.specs.Faults.{first_at};

use crate::places::Place;
use crate::zones::ZoneSpec;
use mon_schema::is_name;
use mon_value::Text;

/// The place of the first name that is not lawful.
pub(crate) fn bad_name(zones: &[ZoneSpec]) -> Option<Place>
    ensures place { result ≡ spec.bad_name zones.now }
{
    for (i, zone) in zones.iter().enumerate() {
        let place = bad_name_in(i, zone);
        if place.is_some() {
            return place;
        }
    }
    None
}

// The place of the first such name in a zone.
fn bad_name_in(i: usize, zone: &ZoneSpec) -> Option<Place>
    ensures place { result ≡ spec.bad_name_in i zone.now }
{
    if !is_name(zone.name.as_bytes()) {
        return Some(Place::ZoneName(i));
    }
    bad_leaf(i, zone.leaves.as_slice())
}

// The place of the first such name among the leaves of a zone.
fn bad_leaf(i: usize, leaves: &[Text]) -> Option<Place>
    ensures place { result ≡ first_at (spec.bad_leaf i) 0 leaves.now }
{
    for (j, leaf) in leaves.iter().enumerate() {
        if !is_name(leaf.as_bytes()) {
            return Some(Place::Leaf(i, j));
        }
    }
    None
}
