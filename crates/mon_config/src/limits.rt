// How much a configuration says.

/// The most bytes of a configuration.
pub const LONGEST_CONFIGURATION: usize = 1_048_576;

/// The greatest limit of a query's steps, and of the points of a range.
pub const GREATEST_LIMIT: u64 = 16_777_216;
