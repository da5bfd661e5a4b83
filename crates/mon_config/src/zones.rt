// Zones and ranges, as a configuration spells them.
ghost use Rattle.mon_value.specs.Answers.{Gives};
ghost use Rattle.mon_config.specs.Objects as spec;
ghost use Rattle.serde_json.specs.View.{view};

use crate::keys::{ObjectForm, object_in};
use crate::paths::Shaped;
use crate::readers::{ListReader, Reader, required_key};
use crate::values::{FieldValueReader, TextReader};
use mon_topo::{RangeSpec, ZoneSpec};
use serde_json::Value;
use std::alloc::Global;

/// Reads a range.
pub(crate) struct RangeReader;

impl Reader for RangeReader {
    type Item = RangeSpec;

    ghost reads = { spec.range_in };

    fn read(alloc: Global, value: &Value) -> Shaped<RangeSpec> {
        range_in(alloc, value)
    }
}

#[tactic(auto, unfolding(crate::specs::Objects::range_in))]
fn range_in(alloc: Global, value: &Value) -> Shaped<RangeSpec>
    ensures range { Gives result (spec.range_in (view value.now)) }
{
    object_in(alloc, ObjectForm::Range, value)?;
    let from = required_key::<ListReader<FieldValueReader>>(alloc, value, "from")?;
    let leaves = required_key::<ListReader<TextReader>>(alloc, value, "leaves")?;
    Ok(RangeSpec { from, leaves })
}

/// Reads a zone.
pub(crate) struct ZoneReader;

impl Reader for ZoneReader {
    type Item = ZoneSpec;

    ghost reads = { spec.zone_in };

    fn read(alloc: Global, value: &Value) -> Shaped<ZoneSpec> {
        zone_in(alloc, value)
    }
}

#[tactic(auto, unfolding(crate::specs::Objects::zone_in))]
fn zone_in(alloc: Global, value: &Value) -> Shaped<ZoneSpec>
    ensures zone { Gives result (spec.zone_in (view value.now)) }
{
    object_in(alloc, ObjectForm::Zone, value)?;
    let name = required_key::<TextReader>(alloc, value, "name")?;
    let locations = required_key::<ListReader<TextReader>>(alloc, value, "locations")?;
    let leaves = required_key::<ListReader<TextReader>>(alloc, value, "leaves")?;
    let ranges = required_key::<ListReader<RangeReader>>(alloc, value, "ranges")?;
    Ok(ZoneSpec {
        name,
        locations,
        leaves,
        ranges,
    })
}
