//! The values that a monitoring store keeps, the lists that the other crates are made of, and the
//! definitions of values, rows, tables and the operations on them.
#![tactic(auto)]

mod aggregates;
mod aligners;
mod columns;
mod copying;
mod distributions;
mod grids;
mod histories;
mod limits;
mod lists;
mod numbers;
mod orders;
mod positions;
mod refusals;
mod rooms;
mod rows;
mod schemas;
mod shared;
mod tables;
mod texts;
mod turn_laws;
mod values;

pub use aggregates::{Aggregate, AggregateKind, Aggregates};
pub use aligners::{Aligner, earlier_points_are_enough, increases_are_of_windows};
pub use columns::{Anchor, Column, Columns};
pub use copying::TryCopy;
pub use distributions::{merging_is_orderless, percentiles_rise};
pub use grids::{Grid, TimedValue, TimedValues, grids_reach_back};
pub use histories::{Ack, Entries, Entry, Histories, Miss, Misses, RangeEntries, RangeEntry};
pub use limits::{
    INCREASE_BITS, LONGEST_DURATION, LONGEST_FILE, LONGEST_TEXT, MOST_BUCKETS, MOST_SWITCHES,
    NUMBER_BITS, ROW_BITS, SUM_BITS, WIDEST_SUM,
};
pub use lists::ListOf;
pub use numbers::read_number;
pub use orders::{
    compare, compare_targets, rows_are_ordered, targets_are_ordered, values_are_ordered,
};
pub use positions::{
    FoundDown, Founds, Leaf, LeafCounts, Leaves, Range, RangeSlot, RangeSlots, Slot, SlotLeaf,
    SlotLeaves, Slots, Zone,
};
pub use refusals::{OutOfMemory, Refusal};
pub use rooms::RoomListOf;
pub use rows::{Point, Row, RowList, SeriesKey, Target};
pub use schemas::{Field, Fields, Kind, MetricSchema, MetricSchemas, TargetSchema, TargetSchemas};
pub use shared::Shared;
pub use tables::{Cells, Positions, Table, TimedRow, TimedRows};
pub use texts::{Text, Texts};
pub use turn_laws::rows_stand_or_are_hidden;
pub use values::{
    Bounds, Counts, FieldType, FieldValue, FieldValues, Value, ValueType, write_text,
};
