// Schedules: what one comes to under a configuration.
ghost use Rattle.std.specs.Prelude.{IfOk};
ghost use Rattle.mon_config.specs.Numbers.{AreLawful};
ghost use Rattle.mon_run.specs.within.Stops.{printed_by};
ghost use Rattle.weave_core.specs.Schedules.{IsPrinted};

use mon_config::Config;
use mon_value::{OutOfMemory, Refusal, Text};
use std::alloc::{AllocError, Global};
use weave_core::{ScheduleFault, run_schedule};

/// What a schedule printed, and the first of its lines that is refused.
#[derive(Drop)]
pub(crate) struct Woven {
    pub text: Text,
    pub fault: Option<ScheduleFault>,
}

/// Runs a schedule under a configuration.
pub(crate) fn weave(alloc: Global, config: Config, schedule: &[u8]) -> Result<Woven, OutOfMemory>
    requires lawful { AreLawful config.buckets config.limit config.range_points }
    ensures printed { IfOk result (λ woven. IsPrinted config schedule.now (printed_by woven)) }
{
    let mut text = String::new(alloc);
    match run_schedule(alloc, config, schedule, &mut text) {
        Ok(()) => Ok(Woven {
            text: Text::from_string(text)?,
            fault: None,
        }),
        Err(Refusal::Fault(fault)) => Ok(Woven {
            text: Text::from_string(text)?,
            fault: Some(fault),
        }),
        Err(Refusal::OutOfMemory) => Err(AllocError),
    }
}
