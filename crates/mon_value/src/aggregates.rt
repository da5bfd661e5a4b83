// What is made of the values of a group.
use crate::copying::TryCopy;
use crate::lists::ListOf;
use std::alloc::{AllocError, Global};

/// What an aggregate makes of a group's values. A mean is rounded down. Distributions merge bucket by
/// bucket.
#[derive(Clone, Copy, PartialEq, Eq)]
pub enum AggregateKind {
    Sum,
    Count,
    Min,
    Max,
    Mean,
    Merge,
}

/// An aggregate over a column of the grouped table, which is counted from 0. A count looks at no column.
#[derive(Clone, Copy, PartialEq, Eq)]
pub struct Aggregate {
    pub what: AggregateKind,
    pub column: u32,
}

/// The aggregates of one grouping, in the order of the columns that they make.
pub type Aggregates = ListOf<Aggregate>;

impl TryCopy for Aggregate {
    fn copy(&self, _alloc: Global) -> Result<Aggregate, AllocError> {
        Ok(*self)
    }
}
