//! Aggregates that are kept as partial results: items are added to parts, parts are merged, and a
//! part finishes to what all of its items come to.
#![tactic(auto)]

mod aggregate_parts;
mod alignment;
mod answers;
mod extremes;
mod folds;
mod grouping;
mod groups;
mod growth;
mod means;
mod merges;
mod merging;
mod numbers;
mod open_groups;
mod pieces;
mod sliding;
mod sums;

pub use aggregate_parts::{AggregatePart, AggregateParts, distribution_at, number_at};
pub use alignment::align;
pub use answers::{LeafAnswer, LeafAnswers, Piece, Pieces};
pub use extremes::{GreatestPart, LeastPart, MaxFold, MinFold};
pub use folds::Fold;
pub use groups::{
    Parts, finish_parts, group, groups_can_merge, groups_stand_for_rows, merge_parts,
    rows_group_apart,
};
pub use means::{MeanFold, MeanPart, means_are_floors};
pub use merges::{MergeFold, MergePart};
pub use mon_value::{Aggregate, AggregateKind, Aligner, Grid, TimedValue};
pub use numbers::{CountFold, CountPart};
pub use open_groups::{OpenGroups, group_of_row, put_group};
pub use pieces::{fold_pieces, merges_in_any_order};
pub use sliding::subtract;
pub use sums::{SumFold, SumPart};
