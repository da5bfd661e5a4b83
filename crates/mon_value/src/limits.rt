// The bounds of sizes and durations, and the widths of columns.

/// The most bytes of a file that is read.
pub const LONGEST_FILE: u64 = 67_108_864;

/// The most bytes of a text value, whether a field's or a point's.
pub const LONGEST_TEXT: usize = 1_024;

/// The most seconds of a duration that a query names.
pub const LONGEST_DURATION: i64 = 1_000_000_000;

/// The width in bits of a number as a point or a query has it: its magnitude is at most 2 to that power.
pub const NUMBER_BITS: u32 = 63;

/// The width in bits of the number of a table's rows.
pub const ROW_BITS: u32 = 24;

/// The width in bits of the sum of such numbers over the rows of a table.
pub const SUM_BITS: u32 = 87;

/// The width in bits of the sum of the increases of so many points: each is the difference of two such numbers.
pub const INCREASE_BITS: u32 = 88;

/// The most bits of a sum, whether of a column over its rows or of a row's cells: its magnitude is at
/// most 2 to that power.
pub const WIDEST_SUM: u32 = 126;

/// The most buckets of hints. A number of buckets is a power of two.
pub const MOST_BUCKETS: u32 = 4_096;

/// The most times that a leaf goes down or comes up.
pub const MOST_SWITCHES: u64 = 65_536;
