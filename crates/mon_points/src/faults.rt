// Why a record is no row.
use mon_value::TryCopy;
use std::alloc::{AllocError, Global};
use std::fmt;

/// The fault of a record of points.
#[derive(Clone, Copy, PartialEq, Eq)]
pub enum RowFault {
    /// The record has fewer than five cells, or another number than its schemas' fields ask for.
    Fields,
    /// No target schema has the name.
    UnknownSchema,
    /// No metric has the name.
    UnknownMetric,
    /// This field is no value of its type. The target's fields and then the metric's are numbered
    /// from 1.
    BadField(usize),
    /// A time is no number from 0 to 2^63 - 1, a gauge's start is not its end, or another metric's
    /// start is not before its end.
    BadTime,
    /// The value is none of the metric's type.
    BadValue,
    /// A cell is not UTF-8.
    NotUtf8,
}

impl TryCopy for RowFault {
    fn copy(&self, _alloc: Global) -> Result<RowFault, AllocError> {
        Ok(*self)
    }
}

impl fmt::Display for RowFault {
    ghost use Rattle.std.specs.Prelude.{Some};
    ghost use Rattle.mon_points.specs.Records.{row_fault_text};

    ghost output = { λ fault. Some (row_fault_text fault) };

    fn fmt<W: fmt::Write>(&self, f: &mut fmt::Formatter<W>) -> fmt::Result {
        match self {
            RowFault::Fields => f.write_str("Fields"),
            RowFault::UnknownSchema => f.write_str("UnknownSchema"),
            RowFault::UnknownMetric => f.write_str("UnknownMetric"),
            RowFault::BadField(number) => write!(f, "BadField {number}"),
            RowFault::BadTime => f.write_str("BadTime"),
            RowFault::BadValue => f.write_str("BadValue"),
            RowFault::NotUtf8 => f.write_str("NotUtf8"),
        }
    }
}
