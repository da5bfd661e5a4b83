// Series and their points.
use crate::copying::TryCopy;
use crate::lists::ListOf;
use crate::shared::Shared;
use crate::texts::Text;
use crate::values::{FieldValues, Value};
use std::alloc::{AllocError, Global};

/// A monitored thing: the name of its schema and its fields in the schema's order.
#[derive(PartialEq, Eq, PartialOrd, Ord, Hash, Drop)]
pub struct Target {
    pub schema: Text,
    pub fields: FieldValues,
}

/// What tells a series from every other: its target, its metric's name and the metric's fields.
#[derive(PartialEq, Eq, Hash, Drop)]
pub struct SeriesKey {
    pub target: Target,
    pub metric: Text,
    pub fields: FieldValues,
}

/// One measurement. `start` and `end` are whole seconds from the epoch. A gauge's point has its end
/// as its start; a delta's speaks of the time after `start` up to `end`, and so does a cumulative
/// metric's, whose points may have one start.
#[derive(PartialEq, Eq, Drop)]
pub struct Point {
    pub start: i64,
    pub end: i64,
    pub value: Value,
}

/// A point of a series. Rows of one series share its key.
#[derive(PartialEq, Eq, Drop)]
pub struct Row {
    pub key: Shared<SeriesKey>,
    pub point: Point,
}

/// Rows of any series.
pub type RowList = ListOf<Row>;

impl TryCopy for Target {
    fn copy(&self, alloc: Global) -> Result<Target, AllocError> {
        Ok(Target {
            schema: self.schema.copy(alloc)?,
            fields: self.fields.copy(alloc)?,
        })
    }
}

impl TryCopy for SeriesKey {
    fn copy(&self, alloc: Global) -> Result<SeriesKey, AllocError> {
        Ok(SeriesKey {
            target: self.target.copy(alloc)?,
            metric: self.metric.copy(alloc)?,
            fields: self.fields.copy(alloc)?,
        })
    }
}

impl TryCopy for Point {
    fn copy(&self, alloc: Global) -> Result<Point, AllocError> {
        Ok(Point {
            start: self.start,
            end: self.end,
            value: self.value.copy(alloc)?,
        })
    }
}

impl TryCopy for Row {
    fn copy(&self, alloc: Global) -> Result<Row, AllocError> {
        Ok(Row {
            key: self.key.copy(alloc)?,
            point: self.point.copy(alloc)?,
        })
    }
}
