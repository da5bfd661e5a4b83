// How large a topology is.

/// How many zones there are at most.
pub const MOST_ZONES: usize = 32;

/// How many leaves a zone has at most.
pub const MOST_LEAVES_OF_ZONE: usize = 32;

/// How many leaves all zones have together at most.
pub const MOST_LEAVES: usize = 64;

/// How many ranges all zones have together at most.
pub const MOST_RANGES: usize = 512;

/// On how many leaves a range is held at most.
pub const MOST_REPLICAS: usize = 3;

/// How many replicas a range ever has at most.
pub const MOST_SLOTS: usize = 64;
