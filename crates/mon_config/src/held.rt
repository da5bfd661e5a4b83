// The schemas of a configuration, held one after another.
ghost use Rattle.std.specs.Prelude.{Err};
ghost use Rattle.mon_value.specs.Answers.{Gives};
ghost use Rattle.mon_schema.specs.Names.{no_schemas};
ghost use Rattle.mon_config.specs.Configs as spec;

use crate::faults::ConfigFault;
use mon_schema::{MetricSchemas, SchemaFault, Schemas, TargetSchemas};
use mon_value::{Refusal, Text};
use std::alloc::Global;

/// What is made of a text, or why it is no configuration.
pub(crate) type Read<T> = Result<T, Refusal<ConfigFault>>;

/// The schemas of the targets.
pub(crate) fn with_targets(alloc: Global, targets: TargetSchemas) -> Read<Schemas>
    ensures held { Gives result (spec.with_targets 0 no_schemas targets) }
{
    let mut schemas = Schemas::new(alloc);
    let mut i = 0;
    for target in targets.into_vec() {
        match schemas.add_target(target) {
            Ok(()) => i += 1,
            Err(Refusal::Fault(fault)) => return refused_at(alloc, "targets", i, fault),
            Err(Refusal::OutOfMemory) => return Err(Refusal::OutOfMemory),
        }
    }
    Ok(schemas)
}

/// The schemas with the metrics.
pub(crate) fn with_metrics(
    alloc: Global,
    mut schemas: Schemas,
    metrics: MetricSchemas,
) -> Read<Schemas>
    ensures held { Gives result (spec.with_metrics 0 schemas metrics) }
{
    let mut i = 0;
    for metric in metrics.into_vec() {
        match schemas.add_metric(metric) {
            Ok(()) => i += 1,
            Err(Refusal::Fault(fault)) => return refused_at(alloc, "metrics", i, fault),
            Err(Refusal::OutOfMemory) => return Err(Refusal::OutOfMemory),
        }
    }
    Ok(schemas)
}

// The schema at a place of a list is refused.
fn refused_at<T>(alloc: Global, key: &str, index: usize, fault: SchemaFault) -> Read<T>
    ensures refused { Gives result (Err (spec.schema_at key.now index fault)) }
{
    let path = Text::from_string(format!(in alloc; "$.{key}[{index}]")?)?;
    Err(Refusal::Fault(ConfigFault::Schema(fault, path)))
}
