// The topology of a store.
ghost use Rattle.std.specs.Prelude.{◌≡◌, ◌+◌, ◌<◌, Some, None, length, map, slice_get, IfNone, IfOk, IfSome, OnOk};
ghost use Rattle.std.specs.Option.{option_or};
ghost use Rattle.mon_value.specs.Answers.{AnswersBy};
ghost use Rattle.mon_topo.specs.Locations.{last_within, range_of};
ghost use Rattle.mon_topo.specs.Faults as spec_faults;
ghost use Rattle.mon_topo.specs.Faults.{topology_fault, AreLawfulZones};
ghost use Rattle.mon_topo.specs.Indexed as kept;
ghost use Rattle.mon_topo.specs.Zones as spec;
ghost use Rattle.mon_topo.specs.Zones.{zone_at};
ghost use Rattle.mon_value.specs.Histories.{range_numbered};

use crate::bounds::{bad_bound, disorder, is_held_at, is_within};
use crate::faults::{TopoFault, TopoKind, refused_at};
use crate::lists::{leaf_names_of, range_names_of, replicas_of};
use crate::names::{NameMap, Names};
use crate::naming::bad_name;
use crate::places::path_to;
use crate::ranges::{bad_replicas, no_leaf};
use crate::repeats::names_of;
use crate::sizes::too_many;
use crate::spans::{ZoneSpan, spans_of};
use crate::zones::{ZoneSpec, ZoneSpecs};
use mon_schema::Schemas;
use mon_value::{
    Leaf, LeafCounts, Leaves, OutOfMemory, Range, Refusal, Target, Text, Texts, TryCopy, Zone,
};
use std::alloc::{AllocError, Global};
use std::marker::Model;

/// Zones that are lawful together, with all that is asked of them. Contracts see the zones.
#[derive(Drop)]
pub struct Topology {
    zones: ZoneSpecs,
    spans: Vec<ZoneSpan>,
    leaf_names: Texts,
    replicas: Vec<Leaves>,
    locations: NameMap,
    leaves: NameMap,
    ranges: NameMap,
}

impl Model for Topology {
    ghost use Rattle.std.specs.Prelude.{List};
    ghost use Rattle.mon_topo.specs.declared.zones.ZoneSpec.{ZoneSpec};

    ghost Value = { List ZoneSpec };

    ghost view = { λ topology. topology.zones };

    ghost use Rattle.mon_topo.specs.Kept.{IsTopologyKept};

    ghost invariant = { IsTopologyKept };
}

impl Topology {
    /// The topology of zones whose bounds are of the schemas, or the first of their faults.
    pub fn new(
        alloc: Global,
        zones: ZoneSpecs,
        schemas: &Schemas,
    ) -> Result<Topology, Refusal<TopoFault>>
        ensures answer { AnswersBy result (topology_fault schemas.now zones) }
        ensures zones { IfOk result (λ topology. topology ≡ zones) }
    {
        let names = lawful_names(alloc, zones.as_slice(), schemas)?;
        Ok(topology_of(alloc, zones, names)?)
    }

    /// The zone that lists a location.
    pub fn zone_of(&self, location: &[u8]) -> Option<Zone>
        ensures zone { result ≡ spec.zone_of self.now location.now }
        ensures within { IfSome result (λ zone. zone.0 < length self.now) }
    {
        match self.locations.get(location) {
            Some(number) => Some(Zone(number)),
            None => None,
        }
    }

    /// The zone that lists a location, as `zone_of`. A place among all locations is tried first, and is then the
    /// location's: one comparison where the same location is asked for again.
    pub fn zone_near(&self, location: &[u8], place: &mut usize) -> Option<Zone>
        ensures zone { result ≡ spec.zone_of self.now location.now }
        ensures within { IfSome result (λ zone. zone.0 < length self.now) }
        ensures stayed { IfNone result (place.new ≡ place.old) }
    {
        match self.locations.get_near(location, place) {
            Some(number) => Some(Zone(number)),
            None => None,
        }
    }

    /// The range of a zone that a target lies in: the last whose bound is not above the target.
    pub fn range_of(&self, zone: Zone, target: &Target) -> Range
        requires { zone.0 < length self.now }
        ensures range { range_of self.now zone.0 target.now ≡ Some result }
        ensures within { result.0 < length (spec.ranges_in self.now) }
        ensures zoned { spec.IsRangeOf self.now zone.0 result }
    {
        let place = self.place_of(zone, target);
        self.range_at(zone, place)
    }

    /// The range of a zone that a target lies in, as `range_of`. A place among the zone's ranges is tried first, and is
    /// then the range's: two comparisons at most where the target lies there.
    pub fn range_near(&self, zone: Zone, target: &Target, place: &mut usize) -> Range
        requires { zone.0 < length self.now }
        ensures range { range_of self.now zone.0 target.now ≡ Some result }
        ensures within { result.0 < length (spec.ranges_in self.now) }
        ensures zoned { spec.IsRangeOf self.now zone.0 result }
        ensures place { last_within target.now (zone_at self.now zone.0).ranges ≡ Some place.new }
    {
        let found = self.place_near(zone, target, *place);
        *place = found;
        self.range_at(zone, found)
    }

    // The place in its zone of the range that a target lies in.
    fn place_of(&self, zone: Zone, target: &Target) -> usize
        requires { zone.0 < length self.now }
        ensures last { last_within target.now (zone_at self.now zone.0).ranges ≡ Some result }
    {
        let ranges = self.zones.get(zone.0 as usize).ranges.as_slice();
        let above = ranges.partition_point(|range| is_within(&range.from, target));
        above - 1
    }

    // The place in its zone of the range that a target lies in, which is tried first at a guess.
    fn place_near(&self, zone: Zone, target: &Target, guess: usize) -> usize
        requires { zone.0 < length self.now }
        ensures last { last_within target.now (zone_at self.now zone.0).ranges ≡ Some result }
    {
        let ranges = self.zones.get(zone.0 as usize).ranges.as_slice();
        if is_held_at(ranges, guess, target) {
            return guess;
        }
        self.place_of(zone, target)
    }

    // The range at a place of a zone.
    fn range_at(&self, zone: Zone, place: usize) -> Range
        requires there { zone.0 < length self.now }
        requires within { place < length (zone_at self.now zone.0).ranges }
        ensures range { result ≡ range_numbered (spec.first_range self.now zone.0 + place) }
        ensures within { result.0 < length (spec.ranges_in self.now) }
        ensures zoned { spec.IsRangeOf self.now zone.0 result }
    {
        Range(self.spans[zone.0 as usize].first_range + place as u32)
    }

    /// The leaves that hold a range at first, in their order. They are its slots 0, 1 and 2.
    pub fn first_replicas(&self, range: Range) -> &Leaves
        requires { range.0 < length (spec.ranges_in self.now) }
        ensures replicas { result.now ≡ spec.first_replicas self.now range.0 }
    {
        &self.replicas[range.0 as usize]
    }

    /// How many zones there are. They are lawful together.
    pub fn zones(&self) -> u32
        ensures count { result ≡ length self.now }
        ensures lawful { AreLawfulZones self.now }
    {
        self.zones.len() as u32
    }

    /// How many leaves all zones have.
    pub fn leaves(&self) -> u32
        ensures count { result ≡ length (spec.leaves_in self.now) }
    {
        self.leaf_names.len() as u32
    }

    /// How many ranges all zones have.
    pub fn ranges(&self) -> u32
        ensures count { result ≡ length (spec.ranges_in self.now) }
    {
        self.replicas.len() as u32
    }

    /// The first leaf of a zone, and how many leaves the zone has.
    pub fn leaves_of(&self, zone: Zone) -> (Leaf, u32)
        requires { zone.0 < length self.now }
        ensures first { result.0.0 ≡ spec.first_leaf self.now zone.0 }
        ensures count { result.1 ≡ length (zone_at self.now zone.0).leaves }
    {
        let span = self.spans[zone.0 as usize];
        (Leaf(span.first_leaf), span.leaves)
    }

    /// The first range of a zone, and how many ranges the zone has.
    pub fn ranges_of(&self, zone: Zone) -> (Range, u32)
        requires { zone.0 < length self.now }
        ensures first { result.0.0 ≡ spec.first_range self.now zone.0 }
        ensures count { result.1 ≡ length (zone_at self.now zone.0).ranges }
    {
        let span = self.spans[zone.0 as usize];
        (Range(span.first_range), span.ranges)
    }

    /// The name of a zone.
    pub fn zone_name(&self, zone: Zone) -> &Text
        requires { zone.0 < length self.now }
        ensures name { result.now ≡ (zone_at self.now zone.0).name }
    {
        &self.zones.get(zone.0 as usize).name
    }

    /// The name of a leaf.
    pub fn leaf_name(&self, leaf: Leaf) -> &Text
        requires { leaf.0 < length (spec.leaves_in self.now) }
        ensures name { slice_get (spec.leaves_in self.now) leaf.0 ≡ Some result.now }
    {
        self.leaf_names.get(leaf.0 as usize)
    }

    /// How many leaves each zone has.
    pub fn leaf_counts(&self, alloc: Global) -> Result<LeafCounts, OutOfMemory>
        ensures counts { IfOk result (λ counts. counts ≡ spec.leaf_counts self.now) }
    {
        let mut counts = LeafCounts::new(alloc);
        for span in &self.spans {
            counts.push(span.leaves)?;
        }
        Ok(counts)
    }

    /// The leaf of a name.
    pub fn leaf_named(&self, name: &[u8]) -> Option<Leaf>
        ensures leaf { result ≡ spec.leaf_named self.now name.now }
        ensures within { IfSome result (λ leaf. leaf.0 < length (spec.leaves_in self.now)) }
    {
        match self.leaves.get(name) {
            Some(number) => Some(Leaf(number)),
            None => None,
        }
    }

    /// The range of a name: that of its zone, `/`, and its number in the zone, from 0.
    pub fn range_named(&self, name: &[u8]) -> Option<Range>
        ensures range { result ≡ spec.range_named self.now name.now }
        ensures within { IfSome result (λ range. range.0 < length (spec.ranges_in self.now)) }
    {
        match self.ranges.get(name) {
            Some(number) => Some(Range(number)),
            None => None,
        }
    }
}

impl TryCopy for Topology {
    fn copy(&self, alloc: Global) -> Result<Topology, AllocError> {
        match names_of(alloc, self.zones.as_slice()) {
            Ok(names) => topology_of(alloc, self.zones.copy(alloc)?, names),
            Err(Refusal::OutOfMemory) => Err(AllocError),
            Err(Refusal::Fault(_)) => unreachable!(),
        }
    }
}

// The names of zones that are lawful, or the first of their faults.
fn lawful_names(
    alloc: Global,
    zones: &[ZoneSpec],
    schemas: &Schemas,
) -> Result<Names, Refusal<TopoFault>>
    ensures answer { AnswersBy result (topology_fault schemas.now zones.now) }
    ensures names { IfOk result (λ names. names ≡ kept.names_of_zones zones.now) }
    ensures lawful { OnOk result (AreLawfulZones zones.now) }
{
    test_sizes_and_names(alloc, zones)?;
    let names = names_apart(alloc, zones)?;
    match test_ranges(alloc, zones, schemas) {
        Ok(()) => Ok(names),
        Err(refusal) => {
            drop(names);
            Err(refusal)
        }
    }
}

// Whether there are too many zones, leaves or ranges, or a name is not lawful.
fn test_sizes_and_names(alloc: Global, zones: &[ZoneSpec]) -> Result<(), Refusal<TopoFault>>
    ensures answer { AnswersBy result (option_or
        (spec_faults.fault_at TopoKind.TooMany (spec_faults.too_many zones.now))
        (spec_faults.fault_at TopoKind.BadName (spec_faults.bad_name zones.now))) }
    ensures few { OnOk result (spec_faults.too_many zones.now ≡ None) }
    ensures named { OnOk result (spec_faults.bad_name zones.now ≡ None) }
{
    refused_at(alloc, TopoKind::TooMany, too_many(zones))?;
    refused_at(alloc, TopoKind::BadName, bad_name(zones))
}

// Whether something is wrong about the leaves, the bounds or the order of ranges.
fn test_ranges(
    alloc: Global,
    zones: &[ZoneSpec],
    schemas: &Schemas,
) -> Result<(), Refusal<TopoFault>>
    ensures answer { AnswersBy result (option_or
        (spec_faults.fault_at TopoKind.NoLeaf (spec_faults.no_leaf zones.now))
        (option_or (spec_faults.fault_at TopoKind.Replicas (spec_faults.bad_replicas zones.now))
        (option_or (spec_faults.fault_at TopoKind.BadBound (spec_faults.bad_bound schemas.now zones.now))
        (spec_faults.fault_at TopoKind.RangeOrder (spec_faults.disorder zones.now))))) }
    ensures known { OnOk result (spec_faults.no_leaf zones.now ≡ None) }
    ensures replicated { OnOk result (spec_faults.bad_replicas zones.now ≡ None) }
    ensures ordered { OnOk result (spec_faults.disorder zones.now ≡ None) }
{
    refused_at(alloc, TopoKind::NoLeaf, no_leaf(zones))?;
    refused_at(alloc, TopoKind::Replicas, bad_replicas(zones))?;
    refused_at(alloc, TopoKind::BadBound, bad_bound(schemas, zones))?;
    refused_at(alloc, TopoKind::RangeOrder, disorder(zones))
}

// The names of zones, or the first that stood earlier.
fn names_apart(alloc: Global, zones: &[ZoneSpec]) -> Result<Names, Refusal<TopoFault>>
    requires few { spec_faults.too_many zones.now ≡ None }
    ensures answer { AnswersBy result (spec_faults.fault_at TopoKind.Duplicate (spec_faults.duplicate zones.now)) }
    ensures names { IfOk result (λ names. names ≡ kept.names_of_zones zones.now) }
{
    match names_of(alloc, zones) {
        Ok(names) => Ok(names),
        Err(Refusal::Fault(place)) => Err(Refusal::Fault(TopoFault {
            kind: TopoKind::Duplicate,
            path: path_to(alloc, place)?,
        })),
        Err(Refusal::OutOfMemory) => Err(Refusal::OutOfMemory),
    }
}

// The topology of lawful zones and their names.
fn topology_of(alloc: Global, zones: ZoneSpecs, names: Names) -> Result<Topology, OutOfMemory>
    requires lawful { AreLawfulZones zones }
    requires names { names ≡ kept.names_of_zones zones }
    ensures zones { IfOk result (λ topology. topology ≡ zones) }
{
    match parts_of(alloc, zones.as_slice(), &names.leaves) {
        Ok(parts) => Ok(Topology {
            zones,
            spans: parts.spans,
            leaf_names: parts.leaf_names,
            replicas: parts.replicas,
            locations: names.locations,
            leaves: names.leaves,
            ranges: parts.ranges,
        }),
        Err(fault) => {
            drop(zones);
            drop(names);
            Err(fault)
        }
    }
}

// What a topology keeps beside its zones and the names that were tested.
#[derive(Drop)]
struct Parts {
    spans: Vec<ZoneSpan>,
    leaf_names: Texts,
    replicas: Vec<Leaves>,
    ranges: NameMap,
}

// The parts of a topology that are made of its zones and of the names of their leaves.
fn parts_of(alloc: Global, zones: &[ZoneSpec], leaves: &NameMap) -> Result<Parts, OutOfMemory>
    requires few { spec_faults.too_many zones.now ≡ None }
    ensures spans { IfOk result (λ parts. parts.spans.items ≡ kept.spans_from 0 0 zones.now) }
    ensures leaf_names { IfOk result (λ parts. parts.leaf_names ≡ spec.leaves_in zones.now) }
    ensures replicas { IfOk result (λ parts. parts.replicas.items
        ≡ map (λ range. kept.leaves_found leaves.now range.leaves) (spec.ranges_in zones.now)) }
    ensures ranges { IfOk result (λ parts. kept.FindsPlaces parts.ranges (spec.range_names zones.now)) }
{
    let spans = spans_of(alloc, zones)?;
    let leaf_names = leaf_names_of(alloc, zones)?;
    let replicas = replicas_of(alloc, zones, leaves)?;
    let ranges = range_names_of(alloc, zones)?;
    Ok(Parts {
        spans,
        leaf_names,
        replicas,
        ranges,
    })
}
