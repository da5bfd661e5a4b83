// Copies of sums.
ghost use Rattle.std.specs.Prelude.{◌≡◌, ◌+◌, IfOk};
ghost use Rattle.mql_ast.specs.Trees as Tree;
ghost use Rattle.mql_ast.specs.Trees.{sum_tree};
ghost use Rattle.mql_ast.specs.SumParts.{nodes};
ghost use Rattle.mql_ast.specs.SumLinks.{link_tree, linked_tree, linked_nodes};

use crate::expressions::Expr;
use crate::names::Name;
use mon_value::TryCopy;
use std::alloc::{AllocError, Global};

/// What goes on a sum: an operator, and what stands on its right.
#[derive(Clone, Copy)]
pub enum SumLink<'a> {
    Plus(&'a Expr),
    Minus(&'a Expr),
}

impl Expr {
    /// A copy of a sum: the same tree. The stack doesn't grow with a chain.
    #[cycle(sum_copies)]
    #[tactic(auto, using(crate::proofs::SumLinkLemmas::tree_push, crate::proofs::SumLinkLemmas::nodes_push))]
    pub fn copy(&self, alloc: Global) -> Result<Expr, AllocError>
        ensures tree { IfOk result (λ copied. sum_tree copied ≡ sum_tree self.now) }
    {
        let mut links = Vec::new(alloc);
        let mut copied = copied_first(alloc, &mut links, self)?;
        while let Some(link) = links.pop() {
            copied = gone_on(alloc, copied, link)?;
        }
        Ok(copied)
    }
}

// A copy of the first term of a sum. What goes on from there is put among the links, the last first.
#[tactic(auto, using(crate::proofs::SumLinkLemmas::tree_push, crate::proofs::SumLinkLemmas::nodes_push))]
fn copied_first<'a>(
    alloc: Global,
    links: &mut Vec<SumLink<'a>>,
    sum: &'a Expr,
) -> Result<Expr, AllocError>
    ensures tree { IfOk result (λ first. linked_tree links.new.items (sum_tree first)
        ≡ linked_tree links.old.items (sum_tree sum.now)) }
    ensures nodes { IfOk result (λ first. linked_nodes links.new.items + nodes first
        ≡ linked_nodes links.old.items + nodes sum.now) }
{
    let mut first = sum;
    loop {
        match first {
            Expr::Plus(left, right) => {
                links.push(SumLink::Plus(right))?;
                first = left;
            }
            Expr::Minus(left, right) => {
                links.push(SumLink::Minus(right))?;
                first = left;
            }
            Expr::Column(column) => return copied_column(alloc, column),
            Expr::Number { at, value } => {
                return Ok(Expr::Number {
                    at: *at,
                    value: *value,
                });
            }
            Expr::Percentile { at, column, p } => {
                return copied_percentile(alloc, *at, column, *p);
            }
        }
    }
}

fn copied_column(alloc: Global, column: &Name) -> Result<Expr, AllocError>
    ensures column { IfOk result (λ copied. copied ≡ Expr.Column column.now) }
{
    let column = column.copy(alloc)?;
    Ok(Expr::Column(column))
}

fn copied_percentile(alloc: Global, at: u32, column: &Name, p: u8) -> Result<Expr, AllocError>
    ensures percentile { IfOk result (λ copied. copied ≡ Expr.Percentile at column.now p) }
{
    let column = column.copy(alloc)?;
    Ok(Expr::Percentile { at, column, p })
}

// The sum on the left, gone on with a copy of what stands on the right.
#[cycle(sum_copies)]
fn gone_on(alloc: Global, left: Expr, link: SumLink<'_>) -> Result<Expr, AllocError>
    ensures tree { IfOk result (λ copied. sum_tree copied ≡ link_tree link.entry (sum_tree left)) }
{
    match link {
        SumLink::Plus(right) => match right.copy(alloc) {
            Ok(right) => plus(alloc, left, right),
            Err(stop) => {
                drop(left);
                Err(stop)
            }
        },
        SumLink::Minus(right) => match right.copy(alloc) {
            Ok(right) => minus(alloc, left, right),
            Err(stop) => {
                drop(left);
                Err(stop)
            }
        },
    }
}

fn plus(alloc: Global, left: Expr, right: Expr) -> Result<Expr, AllocError>
    ensures tree { IfOk result (λ made. sum_tree made ≡ Tree.Plus (sum_tree left) (sum_tree right)) }
{
    match Box::new(alloc, left) {
        Ok(left) => match Box::new(alloc, right) {
            Ok(right) => Ok(Expr::Plus(left, right)),
            Err(stop) => {
                drop(left);
                Err(stop.into())
            }
        },
        Err(stop) => {
            drop(right);
            Err(stop.into())
        }
    }
}

fn minus(alloc: Global, left: Expr, right: Expr) -> Result<Expr, AllocError>
    ensures tree { IfOk result (λ made. sum_tree made ≡ Tree.Minus (sum_tree left) (sum_tree right)) }
{
    match Box::new(alloc, left) {
        Ok(left) => match Box::new(alloc, right) {
            Ok(right) => Ok(Expr::Minus(left, right)),
            Err(stop) => {
                drop(left);
                Err(stop.into())
            }
        },
        Err(stop) => {
            drop(right);
            Err(stop.into())
        }
    }
}
