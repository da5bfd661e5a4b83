// What a seat is seen to have. No value of these is made: contracts alone speak of them.
use crate::numbers::Numbers;
use mon_value::{Entry, Histories, Leaf, ListOf, Range, RangeEntry};

/// Whose history is meant.
pub enum History {
    Leaf(Leaf),
    Range(Range),
}

/// An entry of a leaf's or of a range's history.
pub enum BookEntry {
    Leaf(Entry),
    Range(RangeEntry),
}

/// A number, and the entries that were appended under it.
pub struct Kept {
    pub number: u64,
    pub own: Histories,
}

/// That a history was found so long.
pub struct LengthNote {
    pub history: u32,
    pub length: u64,
}

/// What a seat has beside the histories that it has seen: its own number with the entries under it, if it has one; the
/// numbers of seats that it met; the numbers that it can hand out, and those that nobody can any more; what it found; a
/// leaf for each room that it has there; the ranges that it holds.
pub struct Purse {
    pub own: Option<Kept>,
    pub met: ListOf<Kept>,
    pub stock: Numbers,
    pub lost: ListOf<Numbers>,
    pub notes: ListOf<LengthNote>,
    pub rooms: ListOf<Leaf>,
    pub holds: ListOf<Range>,
}

/// What two seats had seen before they became one, the ranges that the first held, and those that the second brought.
pub struct Joined {
    pub mine: Histories,
    pub theirs: Histories,
    pub kept: ListOf<Range>,
    pub lent: ListOf<Range>,
}

/// What the rule sees of a seat. An owner has a purse only as long as it has a guest.
pub struct SeatView {
    pub seen: Histories,
    pub joined: Option<Joined>,
    pub purse: Option<Purse>,
    pub owns: ListOf<History>,
    pub promised: u64,
    pub held: ListOf<Range>,
    pub notes: ListOf<LengthNote>,
}
