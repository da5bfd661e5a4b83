// The parts of a group's aggregates.
ghost use Rattle.std.specs.Prelude.{◌≡◌, ◌∷◌, [], IfOk, IfSome, IsNone, option_to_list};
ghost use Rattle.std.specs.Option.{option_copied};
ghost use Rattle.mon_value.specs.Groups.{column_of, numbers_in, distributions_in};
ghost use Rattle.mon_fold.specs.PartialGroups.{CanMergeCounts, CanMergePart, CanMergeParts, combined_counts};
ghost use Rattle.mon_fold.specs.PartialGroups.{merged_part, merged_parts, part_finished, part_over, parts_over};

use crate::extremes::{GreatestPart, LeastPart, MaxFold, MinFold};
use crate::folds::Fold;
use crate::means::{MeanFold, MeanPart};
use crate::numbers::{CountFold, CountPart};
use crate::sums::{SumFold, SumPart};
use mon_value::{Aggregate, AggregateKind, Counts, ListOf, OutOfMemory, TimedRow, TryCopy, Value};
use std::alloc::Global;

/// What an aggregate of a group has come to so far. Distributions merge into the first of them.
#[derive(Drop)]
pub enum AggregatePart {
    Sum(SumPart),
    Count(CountPart),
    Min(LeastPart),
    Max(GreatestPart),
    Mean(MeanPart),
    Merge(Option<Counts>),
}

/// The parts of a group's aggregates, in the order of the aggregates.
pub type AggregateParts = ListOf<AggregatePart>;

impl TryCopy for AggregatePart {
    fn copy(&self, alloc: Global) -> Result<AggregatePart, OutOfMemory> {
        match self {
            AggregatePart::Sum(part) => Ok(AggregatePart::Sum(*part)),
            AggregatePart::Count(part) => Ok(AggregatePart::Count(*part)),
            AggregatePart::Min(part) => Ok(AggregatePart::Min(*part)),
            AggregatePart::Max(part) => Ok(AggregatePart::Max(*part)),
            AggregatePart::Mean(part) => Ok(AggregatePart::Mean(*part)),
            AggregatePart::Merge(part) => Ok(AggregatePart::Merge(part.copy(alloc)?)),
        }
    }
}

/// The parts that stand for one row.
pub(crate) fn parts_of_row(
    alloc: Global,
    with: &[Aggregate],
    row: &TimedRow,
) -> Result<AggregateParts, OutOfMemory>
    ensures { IfOk result (λ parts. parts ≡ parts_over with.now (row.now ∷ [])) }
{
    let mut parts = AggregateParts::new(alloc);
    for aggregate in with {
        parts.push(part_of_row(alloc, aggregate, row)?)?;
    }
    Ok(parts)
}

// The part that stands for one row.
fn part_of_row(
    alloc: Global,
    aggregate: &Aggregate,
    row: &TimedRow,
) -> Result<AggregatePart, OutOfMemory>
    ensures { IfOk result (λ part. part ≡ part_over aggregate.now.what aggregate.now.column (row.now ∷ [])) }
{
    match number_part(aggregate, row) {
        Some(part) => Ok(part),
        None => Ok(AggregatePart::Merge(counts_at(alloc, row, aggregate.column)?)),
    }
}

// The part that stands for one row, for the aggregates that need no memory: all but the merge.
fn number_part(aggregate: &Aggregate, row: &TimedRow) -> Option<AggregatePart>
    ensures part { IfSome result (λ part. part ≡ part_over aggregate.now.what aggregate.now.column (row.now ∷ [])) }
    ensures merge { IsNone result → aggregate.now.what ≡ AggregateKind.Merge }
{
    let column = aggregate.column;
    match aggregate.what {
        AggregateKind::Sum => Some(AggregatePart::Sum(SumPart {
            sum: number_at(row, column),
        })),
        AggregateKind::Count => Some(AggregatePart::Count(CountPart { number: 1 })),
        AggregateKind::Min => Some(AggregatePart::Min(LeastPart {
            least: number_at(row, column),
        })),
        AggregateKind::Max => Some(AggregatePart::Max(GreatestPart {
            greatest: number_at(row, column),
        })),
        AggregateKind::Mean => Some(AggregatePart::Mean(mean_at(row, column))),
        AggregateKind::Merge => None,
    }
}

/// Adds a row to the parts of its group. No memory is taken.
pub(crate) fn add_row(with: &[Aggregate], row: &TimedRow, parts: &mut AggregateParts)
    requires { CanMergeParts parts.old (parts_over with.now (row.now ∷ [])) }
    ensures { parts.new ≡ merged_parts parts.old (parts_over with.now (row.now ∷ [])) }
{
    add_to_each(with, row, parts.as_mut_slice());
}

// Adds a row to the part of each aggregate.
fn add_to_each(with: &[Aggregate], row: &TimedRow, parts: &mut [AggregatePart])
    requires { CanMergeParts parts.old (parts_over with.now (row.now ∷ [])) }
    ensures { parts.new ≡ merged_parts parts.old (parts_over with.now (row.now ∷ [])) }
{
    for (i, aggregate) in with.iter().enumerate() {
        add_to_part(aggregate, row, &mut parts[i]);
    }
}

// Adds a row to the part of an aggregate.
fn add_to_part(aggregate: &Aggregate, row: &TimedRow, part: &mut AggregatePart)
    requires { CanMergePart part.old (part_over aggregate.now.what aggregate.now.column (row.now ∷ [])) }
    ensures { part.new ≡ merged_part part.old (part_over aggregate.now.what aggregate.now.column (row.now ∷ [])) }
{
    match number_part(aggregate, row) {
        Some(more) => merge_part(part, &more),
        None => add_counts(part, distribution_at(row, aggregate.column)),
    }
}

// Adds a distribution to the part of a merge.
fn add_counts(part: &mut AggregatePart, counts: Option<&Counts>)
    requires { CanMergePart part.old (AggregatePart.Merge (option_copied counts)) }
    ensures { part.new ≡ merged_part part.old (AggregatePart.Merge (option_copied counts.entry)) }
{
    if let AggregatePart::Merge(kept) = part {
        merge_counts(kept, counts);
    }
}

/// The number in a row's column, if it holds one.
pub fn number_at(row: &TimedRow, column: u32) -> Option<i128>
    ensures { numbers_in (column_of column (row.now ∷ [])) ≡ option_to_list result }
{
    match row.cells.as_slice().get(column as usize) {
        Some(Value::Int(number)) => Some(*number),
        _ => None,
    }
}

// The mean of the number in a row's column, if it holds one.
fn mean_at(row: &TimedRow, column: u32) -> MeanPart
    ensures { AggregatePart.Mean result ≡ part_over AggregateKind.Mean column (row.now ∷ []) }
{
    match number_at(row, column) {
        Some(number) => MeanPart {
            sum: number,
            number: 1,
        },
        None => MeanPart { sum: 0, number: 0 },
    }
}

/// The distribution in a row's column, if it holds one.
pub fn distribution_at(row: &TimedRow, column: u32) -> Option<&Counts>
    ensures { distributions_in (column_of column (row.now ∷ [])) ≡ option_to_list (option_copied result) }
{
    match row.cells.as_slice().get(column as usize) {
        Some(Value::Dist(counts)) => Some(counts),
        _ => None,
    }
}

// A copy of the distribution in a row's column, if it holds one.
fn counts_at(alloc: Global, row: &TimedRow, column: u32) -> Result<Option<Counts>, OutOfMemory>
    ensures { IfOk result (λ counts. distributions_in (column_of column (row.now ∷ [])) ≡ option_to_list counts) }
{
    match distribution_at(row, column) {
        Some(counts) => Ok(Some(counts.copy(alloc)?)),
        None => Ok(None),
    }
}

/// Merges the parts of each aggregate. No memory is taken.
pub(crate) fn merge_lists(into: &mut AggregateParts, others: &AggregateParts)
    requires { CanMergeParts into.old others.now }
    ensures { into.new ≡ merged_parts into.old others.now }
{
    merge_each(into.as_mut_slice(), others.as_slice());
}

// Merges the parts of each aggregate.
fn merge_each(into: &mut [AggregatePart], others: &[AggregatePart])
    requires { CanMergeParts into.old others.now }
    ensures { into.new ≡ merged_parts into.old others.now }
{
    for (i, other) in others.iter().enumerate() {
        merge_part(&mut into[i], other);
    }
}

// Merges a part of the same aggregate.
fn merge_part(into: &mut AggregatePart, other: &AggregatePart)
    requires { CanMergePart into.old other.now }
    ensures { into.new ≡ merged_part into.old other.now }
{
    match (into, other) {
        (AggregatePart::Sum(part), AggregatePart::Sum(more)) => SumFold.merge(part, more),
        (AggregatePart::Count(part), AggregatePart::Count(more)) => CountFold.merge(part, more),
        (AggregatePart::Min(part), AggregatePart::Min(more)) => MinFold.merge(part, more),
        (AggregatePart::Max(part), AggregatePart::Max(more)) => MaxFold.merge(part, more),
        (AggregatePart::Mean(part), AggregatePart::Mean(more)) => MeanFold.merge(part, more),
        (AggregatePart::Merge(part), AggregatePart::Merge(more)) => {
            merge_counts(part, more.as_ref())
        }
        _ => {}
    }
}

// Merges distributions.
fn merge_counts(into: &mut Option<Counts>, other: Option<&Counts>)
    requires { CanMergeCounts into.old (option_copied other) }
    ensures { into.new ≡ combined_counts into.old (option_copied other.entry) }
{
    if let (Some(counts), Some(more)) = (into, other) {
        counts.merge(more);
    }
}

/// What a part finishes to.
pub(crate) fn finish_part(part: AggregatePart) -> Option<Value>
    ensures { result ≡ part_finished part }
{
    match part {
        AggregatePart::Sum(part) => SumFold.finish(part).map(Value::Int),
        AggregatePart::Count(part) => CountFold.finish(part).map(Value::Int),
        AggregatePart::Min(part) => MinFold.finish(part).map(Value::Int),
        AggregatePart::Max(part) => MaxFold.finish(part).map(Value::Int),
        AggregatePart::Mean(part) => MeanFold.finish(part).map(Value::Int),
        AggregatePart::Merge(part) => part.map(Value::Dist),
    }
}
