// The configuration as a whole.
ghost use Rattle.std.specs.Prelude.{◌≡◌, ◌<◌, length, IfOk, IfSome};
ghost use Rattle.mon_config.specs.Configs as spec;
ghost use Rattle.mon_config.specs.Configs.{config_in, KeepsNumbers, range_of_key};
ghost use Rattle.mon_config.specs.Numbers.{AreLawful};
ghost use Rattle.mon_config.specs.Objects.{parts_in};
ghost use Rattle.mon_topo.specs.Zones.{ranges_in};
ghost use Rattle.mon_value.specs.Answers.{Gives, GivesView};
ghost use Rattle.serde_json.specs.View.{view};

use crate::faults::ConfigFault;
use crate::guesses::RangeGuess;
use crate::held::{Read, with_metrics, with_targets};
use crate::limits::LONGEST_CONFIGURATION;
use crate::parts::{Parts, parts_in};
use crate::paths::path_from_top;
use mon_schema::Schemas;
use mon_topo::{Topology, ZoneSpecs, location_near, location_of};
use mon_value::{OutOfMemory, Range, Refusal, SeriesKey, TryCopy};
use serde_json::Value;
use std::alloc::{AllocError, Global};

/// What a configuration says.
#[derive(Drop)]
pub struct Config {
    /// The schemas of targets and metrics.
    pub schemas: Schemas,
    /// The zones, their leaves and ranges.
    pub topology: Topology,
    /// How many buckets there are: a power of two from 64 to 4,096.
    pub buckets: u32,
    /// How many steps a query takes at most.
    pub limit: u64,
    /// How many points a range holds at most.
    pub range_points: u64,
}

impl Config {
    /// The range that a series' target lies in, where a zone lists its location.
    pub fn range_of(&self, key: &SeriesKey) -> Option<Range>
        ensures range { result ≡ range_of_key self.now key.now }
        ensures there { IfSome result (λ range. range.0 < length (ranges_in self.now.topology)) }
    {
        let location = location_of(&self.schemas, &key.target)?;
        let zone = self.topology.zone_of(location.as_bytes())?;
        Some(self.topology.range_of(zone, &key.target))
    }

    /// The range that a series' target lies in, as `range_of`. What is guessed is tried first, and is then what was
    /// found: no name is looked up and no bound searched where the target lies in the range that was found last.
    pub fn range_near(&self, key: &SeriesKey, guess: &mut RangeGuess) -> Option<Range>
        ensures range { result ≡ range_of_key self.now key.now }
        ensures there { IfSome result (λ range. range.0 < length (ranges_in self.now.topology)) }
    {
        let location = location_near(&self.schemas, &key.target, &mut guess.schema)?;
        let zone = self
            .topology
            .zone_near(location.as_bytes(), &mut guess.location)?;
        Some(
            self.topology
                .range_near(zone, &key.target, &mut guess.range),
        )
    }
}

impl TryCopy for Config {
    fn copy(&self, alloc: Global) -> Result<Config, AllocError> {
        Ok(Config {
            schemas: self.schemas.copy(alloc)?,
            topology: self.topology.copy(alloc)?,
            buckets: self.buckets,
            limit: self.limit,
            range_points: self.range_points,
        })
    }
}

/// The configuration that a JSON text spells, or the first of its faults.
#[tactic(auto, unfolding(crate::specs::Configs::config_in))]
pub fn read_config(alloc: Global, text: &[u8]) -> Result<Config, Refusal<ConfigFault>>
    ensures exact { Gives result (config_in text.now) }
    ensures lawful { IfOk result (λ config. AreLawful config.buckets config.limit config.range_points) }
{
    let value = json_in(alloc, text)?;
    let parts = parts_of(alloc, &value)?;
    config_of(alloc, parts)
}

// The JSON value of a text.
fn json_in(alloc: Global, text: &[u8]) -> Read<Value>
    ensures json { GivesView view result (spec.json_in text.now) }
{
    if text.len() > LONGEST_CONFIGURATION {
        return Err(Refusal::Fault(ConfigFault::TooLong));
    }
    match Value::from_slice(alloc, text) {
        Ok(value) => Ok(value),
        Err(error) if error.is_memory() => Err(Refusal::OutOfMemory),
        Err(_) => Err(Refusal::Fault(ConfigFault::NotJson)),
    }
}

// The parts that a JSON value spells; a fault of shape has its path from the top.
fn parts_of(alloc: Global, value: &Value) -> Read<Parts>
    ensures parts { Gives result (spec.from_top (parts_in (view value.now))) }
    ensures lawful { IfOk result (λ parts. AreLawful parts.buckets parts.limit parts.range_points) }
{
    match parts_in(alloc, value) {
        Ok(parts) => Ok(parts),
        Err(Refusal::Fault(path)) => Err(Refusal::Fault(ConfigFault::Shape(path_from_top(
            alloc,
            path.as_str(),
        )?))),
        Err(Refusal::OutOfMemory) => Err(Refusal::OutOfMemory),
    }
}

// The configuration of its parts.
#[tactic(auto, unfolding(crate::specs::Configs::config_of))]
fn config_of(alloc: Global, parts: Parts) -> Read<Config>
    ensures config { Gives result (spec.config_of parts) }
    ensures numbers { IfOk result (KeepsNumbers parts) }
{
    let schemas = with_targets(alloc, parts.targets)?;
    let schemas = with_metrics(alloc, schemas, parts.metrics)?;
    let topology = topology_of(alloc, parts.zones, &schemas)?;
    Ok(Config {
        schemas,
        topology,
        buckets: parts.buckets,
        limit: parts.limit,
        range_points: parts.range_points,
    })
}

// The topology of zones; a fault has its path from the top already.
fn topology_of(alloc: Global, zones: ZoneSpecs, schemas: &Schemas) -> Read<Topology>
    ensures topology { Gives result (spec.topology_of schemas.now zones) }
{
    match Topology::new(alloc, zones, schemas) {
        Ok(topology) => Ok(topology),
        Err(Refusal::Fault(fault)) => {
            Err(Refusal::Fault(ConfigFault::Topology(fault.kind, fault.path)))
        }
        Err(Refusal::OutOfMemory) => Err(Refusal::OutOfMemory),
    }
}
