// What a seat is seen to know. No value of these is made: contracts alone speak of them.
use crate::places::ZoneLeaf;
use mon_hints::Place;
use mon_value::ListOf;

/// Bits of the word of a place and a bucket.
pub struct Note {
    pub place: Place,
    pub bucket: u32,
    pub bits: u64,
}

/// That a bucket was raised at a place.
pub struct Raised {
    pub place: Place,
    pub bucket: u32,
}

/// Bits that are known to be in words, and the words that were loaded, in order, with what was found.
pub struct Hints {
    pub known: ListOf<Note>,
    pub notes: ListOf<Note>,
}

/// What a seat knows, which leaves it owns, and what it raised.
pub struct SeatView {
    pub hints: Hints,
    pub leaves: ListOf<ZoneLeaf>,
    pub raised: ListOf<Raised>,
}
