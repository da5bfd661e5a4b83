// The whole configuration, as its text spells it.
ghost use Rattle.std.specs.Prelude.{IfOk};
ghost use Rattle.mon_value.specs.Answers.{Gives};
ghost use Rattle.mon_config.specs.Numbers.{AreLawful};
ghost use Rattle.mon_config.specs.Objects as spec;
ghost use Rattle.serde_json.specs.View.{view};

use crate::keys::{ObjectForm, object_in};
use crate::paths::Shaped;
use crate::readers::{ListReader, optional_key, required_key};
use crate::schemas::{MetricReader, TargetReader};
use crate::values::{BucketsReader, LimitReader};
use crate::zones::ZoneReader;
use mon_schema::{MetricSchemas, TargetSchemas};
use mon_topo::ZoneSpecs;
use serde_json::Value;
use std::alloc::Global;

/// What a configuration's text spells, before its schemas are held.
#[derive(Drop)]
pub struct Parts {
    pub buckets: u32,
    pub limit: u64,
    pub range_points: u64,
    pub targets: TargetSchemas,
    pub metrics: MetricSchemas,
    pub zones: ZoneSpecs,
}

/// The parts of a configuration.
#[tactic(auto, unfolding(crate::specs::Objects::parts_in))]
pub(crate) fn parts_in(alloc: Global, value: &Value) -> Shaped<Parts>
    ensures parts { Gives result (spec.parts_in (view value.now)) }
    ensures lawful { IfOk result (λ parts. AreLawful parts.buckets parts.limit parts.range_points) }
{
    object_in(alloc, ObjectForm::Configuration, value)?;
    let buckets = optional_key::<BucketsReader>(alloc, value, "buckets", 1_024)?;
    let limit = optional_key::<LimitReader>(alloc, value, "limit", 1_000_000)?;
    let range_points = optional_key::<LimitReader>(alloc, value, "range_points", 1_000_000)?;
    let targets = required_key::<ListReader<TargetReader>>(alloc, value, "targets")?;
    let metrics = required_key::<ListReader<MetricReader>>(alloc, value, "metrics")?;
    let zones = required_key::<ListReader<ZoneReader>>(alloc, value, "zones")?;
    Ok(Parts {
        buckets,
        limit,
        range_points,
        targets,
        metrics,
        zones,
    })
}
