// What is sent of a query's parts.
use crate::groups::Parts;
use mon_value::{ListOf, OutOfMemory, Table, TryCopy};
use std::alloc::Global;

/// What a part of a query has come to in one place: the rows of a table, or rows that are to be grouped, in
/// partial groups.
#[derive(Drop)]
pub enum Piece {
    Table(Table),
    Groups(Parts),
}

/// Pieces, one for each part.
pub type Pieces = ListOf<Piece>;

/// What a leaf answers: the pieces of the parts that leaves evaluate, in the order of the query; the load
/// that they took; and how many rows or groups are sent.
#[derive(Drop)]
pub struct LeafAnswer {
    pub pieces: Pieces,
    pub load: u64,
    pub sent: u64,
}

/// The answers of leaves.
pub type LeafAnswers = ListOf<LeafAnswer>;

impl TryCopy for Piece {
    fn copy(&self, alloc: Global) -> Result<Piece, OutOfMemory> {
        match self {
            Piece::Table(table) => Ok(Piece::Table(table.copy(alloc)?)),
            Piece::Groups(parts) => Ok(Piece::Groups(parts.copy(alloc)?)),
        }
    }
}

impl TryCopy for LeafAnswer {
    fn copy(&self, alloc: Global) -> Result<LeafAnswer, OutOfMemory> {
        Ok(LeafAnswer {
            pieces: self.pieces.copy(alloc)?,
            load: self.load,
            sent: self.sent,
        })
    }
}
