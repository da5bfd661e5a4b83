// Records that are refused.
use mon_points::RowFault;
use mon_value::ListOf;
use range_cell::WriteFault;

/// Why a record of a file was refused.
#[derive(Drop)]
pub enum RowRefused {
    /// It is no row.
    Read(RowFault),
    /// Its row was not written.
    Write(WriteFault),
}

/// A record that was refused. Records are numbered from 1.
#[derive(Drop)]
pub struct RowRefusal {
    pub number: u32,
    pub fault: RowRefused,
}

/// The records of a file that were refused, in order.
pub type RowRefusals = ListOf<RowRefusal>;
