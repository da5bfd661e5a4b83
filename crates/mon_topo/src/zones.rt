// Zones and ranges, as a configuration spells them.
use mon_value::{FieldValues, ListOf, Text, Texts, TryCopy};
use std::alloc::{AllocError, Global};

/// A range of a zone's targets: from its bound on, up to the next range's. The bound is a schema's
/// name and leading fields, or empty. The leaves are those that hold the range at first.
#[derive(PartialEq, Eq, Drop)]
pub struct RangeSpec {
    pub from: FieldValues,
    pub leaves: Texts,
}

/// Ranges in the order of their bounds.
pub type RangeSpecs = ListOf<RangeSpec>;

/// A zone: the locations whose targets it holds, its leaves, and which of them hold each range.
#[derive(PartialEq, Eq, Drop)]
pub struct ZoneSpec {
    pub name: Text,
    pub locations: Texts,
    pub leaves: Texts,
    pub ranges: RangeSpecs,
}

/// Zones in the order of the configuration.
pub type ZoneSpecs = ListOf<ZoneSpec>;

impl TryCopy for RangeSpec {
    fn copy(&self, alloc: Global) -> Result<RangeSpec, AllocError> {
        Ok(RangeSpec {
            from: self.from.copy(alloc)?,
            leaves: self.leaves.copy(alloc)?,
        })
    }
}

impl TryCopy for ZoneSpec {
    fn copy(&self, alloc: Global) -> Result<ZoneSpec, AllocError> {
        Ok(ZoneSpec {
            name: self.name.copy(alloc)?,
            locations: self.locations.copy(alloc)?,
            leaves: self.leaves.copy(alloc)?,
            ranges: self.ranges.copy(alloc)?,
        })
    }
}
