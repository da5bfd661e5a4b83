// How many actors and lines there are at most.

/// The highest number of an actor. The lowest is 1.
pub const LAST_ACTOR: u32 = 64;

/// How many lines a schedule has at most.
pub const MOST_LINES: u32 = 100_000;

/// How many events a line of a schedule does at most.
pub const MOST_EVENTS: u64 = u64::MAX;
