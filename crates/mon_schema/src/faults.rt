// Why a schema is refused.
use mon_value::TryCopy;
use std::alloc::{AllocError, Global};
use std::fmt;

/// Why a schema was not added.
#[derive(Clone, Copy, PartialEq, Eq)]
pub enum SchemaFault {
    /// The name is held already, or two columns have one name.
    Duplicate,
    /// No text field is marked as the location.
    NoLocation,
    /// Two fields are marked as the location.
    TwoLocations,
    /// A name is not lawful.
    BadName,
    /// A distribution's bounds are not 1 to 64 numbers, each above the one before it.
    BadBounds,
    /// There are too many schemas or fields, or a target has no field.
    TooMany,
    /// The points of a delta are neither whole numbers nor distributions, and so can't be added up, or the totals of
    /// a cumulative metric are no whole numbers.
    BadKind,
}

impl TryCopy for SchemaFault {
    fn copy(&self, _alloc: Global) -> Result<SchemaFault, AllocError> {
        Ok(*self)
    }
}

impl fmt::Display for SchemaFault {
    ghost use Rattle.std.specs.Prelude.{Some};
    ghost use Rattle.mon_schema.specs.Faults.{schema_fault_text};

    ghost output = { λ fault. Some (schema_fault_text fault) };

    fn fmt<W: fmt::Write>(&self, f: &mut fmt::Formatter<W>) -> fmt::Result {
        f.write_str(match self {
            SchemaFault::Duplicate => "Duplicate",
            SchemaFault::NoLocation => "NoLocation",
            SchemaFault::TwoLocations => "TwoLocations",
            SchemaFault::BadName => "BadName",
            SchemaFault::BadBounds => "BadBounds",
            SchemaFault::TooMany => "TooMany",
            SchemaFault::BadKind => "BadKind",
        })
    }
}
