// Copies of predicates.
ghost use Rattle.std.specs.Prelude.{◌≡◌, ◌+◌, IfOk};
ghost use Rattle.mql_ast.specs.Trees as Tree;
ghost use Rattle.mql_ast.specs.Trees.{predicate_tree};
ghost use Rattle.mql_ast.specs.PredicateParts.{nodes};
ghost use Rattle.mql_ast.specs.PredicateLinks.{link_tree, linked_tree, linked_nodes};

use crate::names::Name;
use crate::predicates::{Comparison, Literal, Pattern, Predicate};
use mon_value::TryCopy;
use std::alloc::{AllocError, Global};

/// What is made of a predicate: its opposite, or an operator and what stands on its right.
#[derive(Clone, Copy)]
pub enum PredicateLink<'a> {
    Not,
    And(&'a Predicate),
    Or(&'a Predicate),
}

impl Predicate {
    /// A copy of a predicate: the same tree. The stack doesn't grow with a chain.
    #[cycle(predicate_copies)]
    #[tactic(auto, using(crate::proofs::PredicateLinkLemmas::tree_push, crate::proofs::PredicateLinkLemmas::nodes_push))]
    pub fn copy(&self, alloc: Global) -> Result<Predicate, AllocError>
        ensures tree { IfOk result (λ copied. predicate_tree copied ≡ predicate_tree self.now) }
    {
        let mut links = Vec::new(alloc);
        let mut copied = copied_first(alloc, &mut links, self)?;
        while let Some(link) = links.pop() {
            copied = gone_on(alloc, copied, link)?;
        }
        Ok(copied)
    }
}

// A copy of the first condition of a predicate. What is made of it is put among the links, the last
// first.
#[tactic(auto, using(crate::proofs::PredicateLinkLemmas::tree_push, crate::proofs::PredicateLinkLemmas::nodes_push))]
fn copied_first<'a>(
    alloc: Global,
    links: &mut Vec<PredicateLink<'a>>,
    predicate: &'a Predicate,
) -> Result<Predicate, AllocError>
    ensures tree { IfOk result (λ first. linked_tree links.new.items (predicate_tree first)
        ≡ linked_tree links.old.items (predicate_tree predicate.now)) }
    ensures nodes { IfOk result (λ first. linked_nodes links.new.items + nodes first
        ≡ linked_nodes links.old.items + nodes predicate.now) }
{
    let mut first = predicate;
    loop {
        match first {
            Predicate::Not(inner) => {
                links.push(PredicateLink::Not)?;
                first = inner;
            }
            Predicate::And(left, right) => {
                links.push(PredicateLink::And(right))?;
                first = left;
            }
            Predicate::Or(left, right) => {
                links.push(PredicateLink::Or(right))?;
                first = left;
            }
            Predicate::Compare(column, how, literal) => {
                return copied_condition(alloc, column, *how, literal);
            }
            Predicate::Like(column, pattern) => return copied_likeness(alloc, column, pattern),
        }
    }
}

fn copied_condition(
    alloc: Global,
    column: &Name,
    how: Comparison,
    literal: &Literal,
) -> Result<Predicate, AllocError>
    ensures condition { IfOk result (λ copied. copied ≡ Predicate.Compare column.now how literal.now) }
{
    let column = column.copy(alloc)?;
    match literal.copy(alloc) {
        Ok(literal) => Ok(Predicate::Compare(column, how, literal)),
        Err(stop) => {
            drop(column);
            Err(stop)
        }
    }
}

fn copied_likeness(alloc: Global, column: &Name, pattern: &Pattern) -> Result<Predicate, AllocError>
    ensures likeness { IfOk result (λ copied. copied ≡ Predicate.Like column.now pattern.now) }
{
    let column = column.copy(alloc)?;
    match pattern.copy(alloc) {
        Ok(pattern) => Ok(Predicate::Like(column, pattern)),
        Err(stop) => {
            drop(column);
            Err(stop)
        }
    }
}

// What is made of a predicate, with a copy of what stands on the right.
#[cycle(predicate_copies)]
fn gone_on(alloc: Global, left: Predicate, link: PredicateLink<'_>) -> Result<Predicate, AllocError>
    ensures tree { IfOk result (λ copied. predicate_tree copied ≡ link_tree link.entry (predicate_tree left)) }
{
    match link {
        PredicateLink::Not => opposite(alloc, left),
        PredicateLink::And(right) => match right.copy(alloc) {
            Ok(right) => conjunction(alloc, left, right),
            Err(stop) => {
                drop(left);
                Err(stop)
            }
        },
        PredicateLink::Or(right) => match right.copy(alloc) {
            Ok(right) => disjunction(alloc, left, right),
            Err(stop) => {
                drop(left);
                Err(stop)
            }
        },
    }
}

fn opposite(alloc: Global, inner: Predicate) -> Result<Predicate, AllocError>
    ensures tree { IfOk result (λ made. predicate_tree made ≡ Tree.Not (predicate_tree inner)) }
{
    let inner = Box::new(alloc, inner)?;
    Ok(Predicate::Not(inner))
}

fn conjunction(alloc: Global, left: Predicate, right: Predicate) -> Result<Predicate, AllocError>
    ensures tree { IfOk result (λ made. predicate_tree made ≡ Tree.And (predicate_tree left) (predicate_tree right)) }
{
    match Box::new(alloc, left) {
        Ok(left) => match Box::new(alloc, right) {
            Ok(right) => Ok(Predicate::And(left, right)),
            Err(stop) => {
                drop(left);
                Err(stop.into())
            }
        },
        Err(stop) => {
            drop(right);
            Err(stop.into())
        }
    }
}

fn disjunction(alloc: Global, left: Predicate, right: Predicate) -> Result<Predicate, AllocError>
    ensures tree { IfOk result (λ made. predicate_tree made ≡ Tree.Or (predicate_tree left) (predicate_tree right)) }
{
    match Box::new(alloc, left) {
        Ok(left) => match Box::new(alloc, right) {
            Ok(right) => Ok(Predicate::Or(left, right)),
            Err(stop) => {
                drop(left);
                Err(stop.into())
            }
        },
        Err(stop) => {
            drop(right);
            Err(stop.into())
        }
    }
}
