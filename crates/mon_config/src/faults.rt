// Why a text is no configuration.
use mon_schema::SchemaFault;
use mon_topo::TopoKind;
use mon_value::{Text, TryCopy};
use std::alloc::{AllocError, Global};
use std::fmt;

/// Why a text is no configuration. A path begins with `$` and goes by `.key` and `[index]`.
#[derive(PartialEq, Eq, Drop)]
pub enum ConfigFault {
    /// The text has more than 1,048,576 bytes.
    TooLong,
    /// The text is no JSON, or nests deeper than 127 lists and objects.
    NotJson,
    /// What stands at the path is missing, unknown or of a wrong form.
    Shape(Text),
    /// The schema at the path is refused.
    Schema(SchemaFault, Text),
    /// The zones, leaves or ranges are refused at the path.
    Topology(TopoKind, Text),
}

impl TryCopy for ConfigFault {
    fn copy(&self, alloc: Global) -> Result<ConfigFault, AllocError> {
        match self {
            ConfigFault::TooLong => Ok(ConfigFault::TooLong),
            ConfigFault::NotJson => Ok(ConfigFault::NotJson),
            ConfigFault::Shape(path) => Ok(ConfigFault::Shape(path.copy(alloc)?)),
            ConfigFault::Schema(fault, path) => {
                Ok(ConfigFault::Schema(*fault, path.copy(alloc)?))
            }
            ConfigFault::Topology(kind, path) => {
                Ok(ConfigFault::Topology(*kind, path.copy(alloc)?))
            }
        }
    }
}

impl fmt::Display for ConfigFault {
    ghost use Rattle.std.specs.Prelude.{Some};
    ghost use Rattle.mon_config.specs.Configs.{config_fault_text};

    ghost output = { λ fault. Some (config_fault_text fault) };

    fn fmt<W: fmt::Write>(&self, f: &mut fmt::Formatter<W>) -> fmt::Result {
        match self {
            ConfigFault::TooLong => f.write_str("TooLong"),
            ConfigFault::NotJson => f.write_str("NotJson"),
            ConfigFault::Shape(path) => write!(f, "Shape {}", path.as_str()),
            ConfigFault::Schema(fault, path) => write!(f, "Schema {fault} {}", path.as_str()),
            ConfigFault::Topology(kind, path) => write!(f, "Topology {kind} {}", path.as_str()),
        }
    }
}
