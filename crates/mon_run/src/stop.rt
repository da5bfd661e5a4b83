// Why a run stops before its last line has run.
use mon_config::ConfigFault;
use mon_script::ScriptFault;
use mon_value::{Refusal, Text};
use std::alloc::AllocError;
use weave_core::ScheduleFault;

/// Why a run stops.
#[derive(Drop)]
pub(crate) enum Stop {
    /// The words are no command.
    Usage,
    /// The configuration is refused.
    Config(ConfigFault),
    /// The script is refused.
    Script(ScriptFault),
    /// A line of the schedule is refused.
    Schedule(ScheduleFault),
    /// The folder could not read a file.
    CannotRead(Text),
    /// The sink did not take the text.
    WriteFailed,
    /// Memory ran out.
    OutOfMemory,
    /// A file is longer than a run reads.
    TooLong(Text),
}

impl From<AllocError> for Stop {
    ghost use Rattle.std.specs.Prelude.{◌≡◌};
    ghost use Rattle.mon_run.specs.declared.stop.Stop.TheVariants.{OutOfMemory};

    ghost from_gives = { λ _ stop. stop ≡ OutOfMemory };

    fn from(_error: AllocError) -> Stop {
        Stop::OutOfMemory
    }
}

impl From<Refusal<ConfigFault>> for Stop {
    ghost use Rattle.std.specs.Prelude.{◌≡◌};
    ghost use Rattle.mon_run.specs.within.Stops.{config_stop};

    ghost from_gives = { λ refusal stop. stop ≡ config_stop refusal };

    fn from(refusal: Refusal<ConfigFault>) -> Stop {
        match refusal {
            Refusal::Fault(fault) => Stop::Config(fault),
            Refusal::OutOfMemory => Stop::OutOfMemory,
        }
    }
}

impl From<Refusal<ScriptFault>> for Stop {
    ghost use Rattle.std.specs.Prelude.{◌≡◌};
    ghost use Rattle.mon_run.specs.within.Stops.{script_stop};

    ghost from_gives = { λ refusal stop. stop ≡ script_stop refusal };

    fn from(refusal: Refusal<ScriptFault>) -> Stop {
        match refusal {
            Refusal::Fault(fault) => Stop::Script(fault),
            Refusal::OutOfMemory => Stop::OutOfMemory,
        }
    }
}
