// What zones answer.
use mon_fold::Pieces;
use mon_value::{ListOf, OutOfMemory, TryCopy};
use std::alloc::Global;

/// What a zone answers: the pieces of the parts that zones evaluate with their leaves, in the order of the query, and
/// the load that the zone and its leaves took.
#[derive(Drop)]
pub struct ZoneAnswer {
    pub pieces: Pieces,
    pub load: u64,
}

/// The answers of zones.
pub type ZoneAnswers = ListOf<ZoneAnswer>;

impl TryCopy for ZoneAnswer {
    fn copy(&self, alloc: Global) -> Result<ZoneAnswer, OutOfMemory> {
        Ok(ZoneAnswer {
            pieces: self.pieces.copy(alloc)?,
            load: self.load,
        })
    }
}
