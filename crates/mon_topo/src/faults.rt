// Why zones are no topology.
ghost use Rattle.mon_value.specs.Answers.{AnswersBy};
ghost use Rattle.mon_topo.specs.Faults.{fault_at};

use crate::places::{Place, path_to};
use mon_value::{Refusal, Text, TryCopy};
use std::alloc::{AllocError, Global};
use std::fmt;

/// What is wrong about zones. A kind is tested over all zones before the next one.
#[derive(Clone, Copy, PartialEq, Eq)]
pub enum TopoKind {
    /// There are too many zones, leaves or ranges.
    TooMany,
    /// A zone's or a leaf's name is not lawful.
    BadName,
    /// A zone's name, a leaf's name or a location stood earlier.
    Duplicate,
    /// A range names a leaf that its zone doesn't have.
    NoLeaf,
    /// A range is not held by one to three leaves, each once.
    Replicas,
    /// A bound is neither empty nor a schema's name with leading fields of their types.
    BadBound,
    /// A zone has no ranges, its first bound isn't empty, or a bound isn't above the one before it.
    RangeOrder,
}

/// Why zones are no topology, and the path to what is at fault. A path begins with `$` and goes by
/// `.key` and `[index]`.
#[derive(PartialEq, Eq, Drop)]
pub struct TopoFault {
    pub kind: TopoKind,
    pub path: Text,
}

/// A fault of a kind, where there is a place of it.
pub(crate) fn refused_at(
    alloc: Global,
    kind: TopoKind,
    place: Option<Place>,
) -> Result<(), Refusal<TopoFault>>
    ensures refused { AnswersBy result (fault_at kind place) }
{
    match place {
        None => Ok(()),
        Some(place) => Err(Refusal::Fault(TopoFault {
            kind,
            path: path_to(alloc, place)?,
        })),
    }
}

impl TryCopy for TopoKind {
    fn copy(&self, _alloc: Global) -> Result<TopoKind, AllocError> {
        Ok(*self)
    }
}

impl TryCopy for TopoFault {
    fn copy(&self, alloc: Global) -> Result<TopoFault, AllocError> {
        Ok(TopoFault {
            kind: self.kind,
            path: self.path.copy(alloc)?,
        })
    }
}

impl fmt::Display for TopoKind {
    ghost use Rattle.std.specs.Prelude.{Some};
    ghost use Rattle.mon_topo.specs.Faults.{topo_kind_text};

    ghost output = { λ kind. Some (topo_kind_text kind) };

    fn fmt<W: fmt::Write>(&self, f: &mut fmt::Formatter<W>) -> fmt::Result {
        f.write_str(match self {
            TopoKind::TooMany => "TooMany",
            TopoKind::BadName => "BadName",
            TopoKind::Duplicate => "Duplicate",
            TopoKind::NoLeaf => "NoLeaf",
            TopoKind::Replicas => "Replicas",
            TopoKind::BadBound => "BadBound",
            TopoKind::RangeOrder => "RangeOrder",
        })
    }
}

impl fmt::Display for TopoFault {
    ghost use Rattle.std.specs.Prelude.{Some};
    ghost use Rattle.mon_topo.specs.Faults.{topo_fault_text};

    ghost output = { λ fault. Some (topo_fault_text fault) };

    fn fmt<W: fmt::Write>(&self, f: &mut fmt::Formatter<W>) -> fmt::Result {
        write!(f, "{} {}", self.kind, self.path.as_str())
    }
}
