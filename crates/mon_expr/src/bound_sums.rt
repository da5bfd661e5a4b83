// Sums whose columns were found once for all rows of a table.
ghost use Rattle.std.specs.Prelude.{◌≡◌, ◌<◌, ◌≤◌, ◌+◌, ◌^◌, ◌++◌, ◌∷◌, [], Bool, false, IfOk, IfSome, OnOk};
ghost use Rattle.std.specs.Prelude.{unsigned_abs, option_and_then, slice_get};
ghost use Rattle.mon_value.specs.declared.limits.TheConstants.{NUMBER_BITS};
ghost use Rattle.mon_value.specs.Groups as distribution;
ghost use Rattle.mon_value.specs.Values.{greatest_sum};
ghost use Rattle.mon_value.specs.Groups.{number_in};
ghost use Rattle.std.specs.Option.{ForSome, option_copied, option_map_or};
ghost use Rattle.mql_ast.specs.SumParts.{nodes};
ghost use Rattle.mql_ast.specs.Rows as sums;
ghost use Rattle.mql_ast.specs.Rows.{HasShares, IsTypedSum};
ghost use Rattle.mql_ast.specs.Trees.{sum_tree};
ghost use Rattle.mon_expr.specs.BoundSums.{CanDivide, CanEvaluate, CanTake, CanTotal, IsBoundExpr, bound_value};
ghost use Rattle.mon_expr.specs.BoundSums.{signed_number, term_number, term_size, terms_total};
ghost use Rattle.mon_expr.specs.BoundSums as bound;
ghost use Rattle.mon_expr.specs.SumTerms as spec;

use crate::places::place_of;
use mon_value::{
    Bounds, Cells, Columns, Counts, ListOf, OutOfMemory, Text, TryCopy, Value, ValueType,
};
use mql_ast::{Expr, Name};
use std::alloc::Global;

/// An expression over the columns of a table, each of which was found by its name once: a column as it is, or terms
/// that are added or taken away.
#[derive(Drop)]
pub enum BoundExpr {
    Column(usize),
    Terms(ListOf<SignedTerm>),
}

/// A term that is added, or taken away.
#[derive(Drop)]
pub struct SignedTerm {
    pub minus: bool,
    pub term: Term,
}

/// The number in a column, a number, or a percentile of the distribution in a column.
#[derive(Drop)]
pub enum Term {
    Column(usize),
    Number(i64),
    Percentile(usize, Bounds, u8),
}

impl BoundExpr {
    /// Finds the columns of an expression, each percentile of which is one from 1 to 100.
    pub fn new(alloc: Global, expr: &Expr, columns: &Columns) -> Result<BoundExpr, OutOfMemory>
        requires typed { IsTypedSum (sum_tree expr.now) columns.now }
        requires shares { HasShares (sum_tree expr.now) }
        ensures bound { IfOk result (λ bound. IsBoundExpr bound (sum_tree expr.now) columns.now) }
    {
        if let Expr::Column(name) = expr {
            return Ok(BoundExpr::Column(place_of(&name.text, columns)));
        }
        Ok(BoundExpr::Terms(terms_of(alloc, expr, columns)?))
    }

    /// What the expression comes to in the row with these cells in its columns. `None` exactly where a percentile in
    /// it meets a distribution without values.
    pub fn value_of(&self, alloc: Global, cells: &Cells) -> Result<Option<Value>, OutOfMemory>
        requires can { CanEvaluate self.now cells.now }
        ensures value { IfOk result (λ value. value ≡ bound_value self.now cells.now) }
    {
        match self {
            BoundExpr::Column(place) => match cells.as_slice().get(*place) {
                Some(cell) => Ok(Some(cell.copy(alloc)?)),
                None => Ok(None),
            },
            BoundExpr::Terms(terms) => Ok(total_of(terms.as_slice(), cells).map(Value::Int)),
        }
    }
}

// The terms added up, those that are taken away with their sign turned.
fn total_of(terms: &[SignedTerm], cells: &Cells) -> Option<i128>
    requires can { CanTotal terms.now cells.now }
    ensures total { result ≡ terms_total terms.now cells.now }
{
    let mut total = 0;
    for signed in terms {
        total += signed.number(cells)?;
    }
    Some(total)
}

impl SignedTerm {
    fn number(&self, cells: &Cells) -> Option<i128>
        requires can { CanTake self.now.term cells.now }
        requires small { term_size self.now.term cells.now ≤ greatest_sum }
        ensures number { result ≡ signed_number self.now cells.now }
        ensures small { IfSome result (λ number. unsigned_abs number ≤ term_size self.now.term cells.now) }
    {
        let number = self.term.number(cells)?;
        Some(if self.minus { -number } else { number })
    }
}

impl Term {
    fn number(&self, cells: &Cells) -> Option<i128>
        requires can { CanTake self.now cells.now }
        ensures number { result ≡ term_number self.now cells.now }
        ensures small { IfSome result (λ number. unsigned_abs number ≤ term_size self.now cells.now) }
    {
        match self {
            Term::Column(place) => number_at(*place, cells),
            Term::Number(number) => Some(i128::from(*number)),
            Term::Percentile(place, bounds, p) => percentile_at(*place, bounds, *p, cells),
        }
    }
}

fn number_at(place: usize, cells: &Cells) -> Option<i128>
    ensures number { result ≡ option_and_then number_in (slice_get cells.now place) }
{
    match cells.as_slice().get(place)? {
        Value::Int(number) => Some(*number),
        Value::Bool(_) => None,
        Value::Text(_) => None,
        Value::Dist(_) => None,
    }
}

fn percentile_at(place: usize, bounds: &Bounds, p: u8, cells: &Cells) -> Option<i128>
    requires can { ForSome (bound.counts_at place cells.now) (CanDivide bounds.now p) }
    ensures percentile { result ≡ option_and_then (λ counts. distribution.percentile_of counts bounds.now p)
        (bound.counts_at place cells.now) }
    ensures small { IfSome result (λ number. unsigned_abs number ≤ 2 ^ NUMBER_BITS) }
{
    let counts = counts_at(place, cells)?;
    percentile_of(counts, bounds, p)
}

fn counts_at<'a>(place: usize, cells: &'a Cells) -> Option<&'a Counts>
    ensures counts { option_copied result ≡ bound.counts_at place cells.now }
{
    match cells.as_slice().get(place)? {
        Value::Dist(counts) => Some(counts),
        Value::Int(_) => None,
        Value::Bool(_) => None,
        Value::Text(_) => None,
    }
}

fn percentile_of(counts: &Counts, bounds: &Bounds, p: u8) -> Option<i128>
    requires can { CanDivide bounds.now p counts.now }
    ensures percentile { result ≡ distribution.percentile_of counts.now bounds.now p }
    ensures small { IfSome result (λ number. unsigned_abs number ≤ 2 ^ NUMBER_BITS) }
{
    Some(i128::from(counts.percentile(bounds, p)?))
}

/// A part of a sum whose terms are still to come, and whether it is taken away.
#[derive(Drop)]
pub struct Part<'a> {
    minus: bool,
    sum: &'a Expr,
}

// The terms of a sum from the left. The parts to come are kept in a list, since a chain may have many thousand terms.
#[tactic(auto, using(crate::proofs::TermLemmas::remaining_terms_push, crate::proofs::TermLemmas::remaining_nodes_push))]
fn terms_of(alloc: Global, sum: &Expr, columns: &Columns) -> Result<ListOf<SignedTerm>, OutOfMemory>
    ensures terms { IfOk result (λ terms. terms ≡ spec.terms_of false (sum_tree sum.now) columns.now) }
{
    let mut terms = ListOf::new(alloc);
    let mut parts = Vec::new(alloc);
    parts.push(Part { minus: false, sum })?;
    while let Some(part) = parts.pop() {
        add_part(&mut terms, &mut parts, part, columns)?;
    }
    Ok(terms)
}

// Adds a term, or puts the two sides of a sum among the parts to come, the left one last.
#[tactic(auto, using(crate::proofs::TermLemmas::remaining_terms_push, crate::proofs::TermLemmas::remaining_nodes_push))]
fn add_part<'a>(
    terms: &mut ListOf<SignedTerm>,
    parts: &mut Vec<Part<'a>>,
    part: Part<'a>,
    columns: &Columns,
) -> Result<(), OutOfMemory>
    ensures terms { OnOk result (terms.new ++ spec.remaining_terms parts.new.items columns.now
        ≡ terms.old ++ (spec.part_terms part.entry columns.now ++ spec.remaining_terms parts.old.items columns.now)) }
    ensures fewer { OnOk result (spec.remaining_nodes parts.new.items
        < nodes part.entry.sum.now + spec.remaining_nodes parts.old.items) }
{
    let minus = part.minus;
    match part.sum {
        Expr::Column(name) => {
            let term = Term::Column(place_of(&name.text, columns));
            terms.push(SignedTerm { minus, term })
        }
        Expr::Number { at: _, value } => {
            let term = Term::Number(*value);
            terms.push(SignedTerm { minus, term })
        }
        Expr::Percentile { at: _, column, p } => {
            let term = percentile_term(*parts.allocator(), column, *p, columns)?;
            terms.push(SignedTerm { minus, term })
        }
        Expr::Plus(left, right) => push_sides(
            parts,
            Part { minus, sum: left },
            Part { minus, sum: right },
        ),
        Expr::Minus(left, right) => push_sides(
            parts,
            Part { minus, sum: left },
            Part {
                minus: !minus,
                sum: right,
            },
        ),
    }
}

// Puts both sides among the parts to come, the left one last.
fn push_sides<'a>(
    parts: &mut Vec<Part<'a>>,
    left: Part<'a>,
    right: Part<'a>,
) -> Result<(), OutOfMemory>
    ensures parts { OnOk result (parts.new.items ≡ (parts.old.items ++ right.entry ∷ []) ++ left.entry ∷ []) }
{
    parts.push(right)?;
    parts.push(left)?;
    Ok(())
}

// The percentile of a column, with the bounds of its buckets.
fn percentile_term(
    alloc: Global,
    column: &Name,
    p: u8,
    columns: &Columns,
) -> Result<Term, OutOfMemory>
    ensures term { IfOk result (λ term. term ≡ Term.Percentile (sums.place_of column.now.text columns.now)
        (sums.bounds_named column.now.text columns.now) p) }
{
    let place = place_of(&column.text, columns);
    let bounds = bounds_at(alloc, place, columns)?;
    Ok(Term::Percentile(place, bounds, p))
}

// The bounds of the column at a place, and none where it isn't one of distributions.
fn bounds_at(alloc: Global, place: usize, columns: &Columns) -> Result<Bounds, OutOfMemory>
    ensures bounds { IfOk result (λ bounds.
        bounds ≡ option_map_or (λ column. sums.bucket_bounds column.of) (slice_get columns.now place) []) }
{
    match columns.as_slice().get(place) {
        Some(column) => bucket_bounds(alloc, &column.of),
        None => Ok(Bounds::new(alloc)),
    }
}

fn bucket_bounds(alloc: Global, of: &ValueType) -> Result<Bounds, OutOfMemory>
    ensures bounds { IfOk result (λ bounds. bounds ≡ sums.bucket_bounds of.now) }
{
    match of {
        ValueType::Dist(bounds) => bounds.copy(alloc),
        ValueType::Int => Ok(Bounds::new(alloc)),
        ValueType::Bool => Ok(Bounds::new(alloc)),
        ValueType::Text => Ok(Bounds::new(alloc)),
    }
}
