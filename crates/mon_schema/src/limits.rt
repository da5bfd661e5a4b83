// How much a schema has, and how much is held.

/// How many target schemas are held at most.
pub const MOST_TARGETS: usize = 64;

/// How many metrics are held at most.
pub const MOST_METRICS: usize = 1_024;

/// How many fields a target or a metric has at most.
pub const MOST_FIELDS: usize = 16;

/// How many bounds a distribution has at most.
pub const MOST_BOUNDS: usize = 64;

/// The most bytes of the name of a schema, a zone, a leaf or a standing query, a field or a column.
pub const LONGEST_NAME: usize = 64;

/// The most bytes of a metric's name.
pub const LONGEST_METRIC_NAME: usize = 256;
