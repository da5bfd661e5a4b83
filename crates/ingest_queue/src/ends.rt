// What became of the records of two files.
use crate::fed_rows::FedRows;
use crate::refusals::RowRefusals;

/// What became of the records of a file: the rows that were accepted, and the records that were refused.
#[derive(Drop)]
pub struct FileEnd {
    pub accepted: FedRows,
    pub refused: RowRefusals,
}

/// What became of the records of two files: the rows that were accepted, in the order in which they were written, and
/// the end of each file.
#[derive(Drop)]
pub struct Poured {
    pub accepted: FedRows,
    pub first: FileEnd,
    pub second: FileEnd,
}
