// What a target and a metric look like.
use crate::copying::TryCopy;
use crate::lists::ListOf;
use crate::texts::Text;
use crate::values::{FieldType, ValueType};
use std::alloc::{AllocError, Global};

/// A field of a target or of a metric. Where `location` is set, the field says which zone the target
/// belongs to.
#[derive(PartialEq, Eq, Drop)]
pub struct Field {
    pub name: Text,
    pub of: FieldType,
    pub location: bool,
}

/// Fields in the order of their schema.
pub type Fields = ListOf<Field>;

/// What a kind of target is told apart by.
#[derive(PartialEq, Eq, Drop)]
pub struct TargetSchema {
    pub name: Text,
    pub fields: Fields,
}

/// Target schemas in the order in which they were added.
pub type TargetSchemas = ListOf<TargetSchema>;

/// How the points of a metric relate to time: a gauge's holds at its end, a delta's speaks of the
/// time from its start to its end, and a cumulative metric's has the total since its start, which it
/// shares with other points until the count begins anew.
#[derive(Clone, Copy, PartialEq, Eq)]
pub enum Kind {
    Gauge,
    Delta,
    Cumulative,
}

/// A metric: the type of its points' values, the column that they make, and the fields that tell its
/// series apart beside their targets.
#[derive(PartialEq, Eq, Drop)]
pub struct MetricSchema {
    pub name: Text,
    pub kind: Kind,
    pub value: ValueType,
    pub column: Text,
    pub fields: Fields,
}

/// Metric schemas in the order in which they were added.
pub type MetricSchemas = ListOf<MetricSchema>;

impl TryCopy for Field {
    fn copy(&self, alloc: Global) -> Result<Field, AllocError> {
        Ok(Field {
            name: self.name.copy(alloc)?,
            of: self.of,
            location: self.location,
        })
    }
}

impl TryCopy for TargetSchema {
    fn copy(&self, alloc: Global) -> Result<TargetSchema, AllocError> {
        Ok(TargetSchema {
            name: self.name.copy(alloc)?,
            fields: self.fields.copy(alloc)?,
        })
    }
}

impl TryCopy for MetricSchema {
    fn copy(&self, alloc: Global) -> Result<MetricSchema, AllocError> {
        Ok(MetricSchema {
            name: self.name.copy(alloc)?,
            kind: self.kind,
            value: self.value.copy(alloc)?,
            column: self.column.copy(alloc)?,
            fields: self.fields.copy(alloc)?,
        })
    }
}
