//! The topology of a store: zones with their locations and leaves, and the ranges of targets that the
//! leaves hold.
#![tactic(auto)]

mod bounds;
mod faults;
mod laws;
mod lengths;
mod limits;
mod lists;
mod locations;
mod name_texts;
mod names;
mod naming;
mod places;
mod ranges;
mod repeats;
mod shared_zones;
mod sight_laws;
mod sights;
mod sizes;
mod spans;
mod topology;
mod turn_laws;
mod zones;

pub use faults::{TopoFault, TopoKind};
pub use laws::{ranges_have_replicas, targets_have_one_range, zones_are_few};
pub use limits::{
    MOST_LEAVES, MOST_LEAVES_OF_ZONE, MOST_RANGES, MOST_REPLICAS, MOST_SLOTS, MOST_ZONES,
};
pub use locations::{location_near, location_of};
pub use mon_value::{Leaf, LeafCounts, Leaves, Range, Slot, Zone};
pub use name_texts::{down_text, founds_text, leaf_text, range_text};
pub use shared_zones::share_zone;
pub use sight_laws::{sights_grow, sights_join};
pub use sights::{RangeSight, Sight};
pub use topology::Topology;
pub use turn_laws::replicas_keep_what_is_left;
pub use zones::{RangeSpec, RangeSpecs, ZoneSpec, ZoneSpecs};
