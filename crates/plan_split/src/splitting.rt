// The plan of a query.
ghost use Rattle.std.specs.Prelude.{◌≡◌, ◌<◌, ◌+◌, ◌++◌, map, Ok, IfOk, OnOk};
ghost use Rattle.std.specs.List.{AllByRecursion};
ghost use Rattle.mon_hints.specs.Formulas.{all_named, formula_tree, formulas, IsListing};
ghost use Rattle.mon_schema.specs.Names.{SchemaLists};
ghost use Rattle.mql_ast.specs.Trees.{PipeTree};
ghost use Rattle.typed_trees.specs.ExplanationParts.{nodes};
ghost use Rattle.typed_trees.specs.Nodes.{node_tree, typed_tree};
ghost use Rattle.typed_trees.specs.Plans.{fetches};
ghost use Rattle.typed_trees.specs.Typing.{typing};
ghost use Rattle.plan_split.specs.FetchFormulas as spec;
ghost use Rattle.plan_split.specs.FetchParts.{remaining_fetches, remaining_nodes};
ghost use Rattle.plan_split.specs.Meeting.{AllHoldWhereMet};

use crate::fetches::fetch_formula;
use mon_hints::buckets_of_all;
use mon_value::OutOfMemory;
use std::alloc::Global;
use typed_trees::{Formulas, Node, Plan, Typed};

/// The plan of a typed query: its tree as it is, the formula of each of its fetches, from the left, among so many
/// buckets, and the buckets that the formulas name. After a refusal the query is gone.
pub fn split(alloc: Global, typed: Typed, buckets: u32) -> Result<Plan, OutOfMemory>
    requires some { 0 < buckets }
    ensures typed { IfOk result (λ plan. typed_tree plan.typed ≡ typed_tree typed) }
    ensures formulas { IfOk result (λ plan.
        map formula_tree plan.formulas ≡ spec.plan_formulas buckets (node_tree typed.tree)) }
    ensures buckets { IfOk result (λ plan.
        IsListing (all_named (formulas (map formula_tree plan.formulas))) plan.buckets) }
    ensures below { IfOk result (λ plan. AllByRecursion (λ bucket. bucket < buckets) plan.buckets) }
    ensures promise { IfOk result (λ plan.
        (held : SchemaLists) (query : PipeTree) → typing held query ≡ Ok (typed_tree typed)
        → AllHoldWhereMet held buckets (fetches (node_tree typed.tree)) (map formula_tree plan.formulas)) }
{
    let formulas = formulas_of(alloc, &typed.tree, buckets)?;
    let buckets = buckets_of_all(alloc, formulas.as_slice())?;
    Ok(Plan {
        typed,
        formulas,
        buckets,
    })
}

// The formula of each fetch of a tree, from the left. The parts to come are kept in a list, since a query may have many
// thousand operations or branches.
#[tactic(auto, using(crate::proofs::PartLemmas::parts_pushed))]
fn formulas_of(alloc: Global, tree: &Node, buckets: u32) -> Result<Formulas, OutOfMemory>
    requires { 0 < buckets }
    ensures formulas { IfOk result (λ formulas.
        map formula_tree formulas ≡ spec.plan_formulas buckets (node_tree tree.now)) }
{
    let mut formulas = Formulas::new(alloc);
    let mut parts = Vec::new(alloc);
    parts.push(tree)?;
    while let Some(part) = parts.pop() {
        add_part(alloc, &mut formulas, &mut parts, part, buckets)?;
    }
    Ok(formulas)
}

// Adds the formula of what flows into an alignment, or puts what flows into another node among the parts to come, the
// first of it last.
#[tactic(auto, using(crate::proofs::PartLemmas::parts_pushed))]
fn add_part<'a>(
    alloc: Global,
    formulas: &mut Formulas,
    parts: &mut Vec<&'a Node>,
    part: &'a Node,
    buckets: u32,
) -> Result<(), OutOfMemory>
    requires { 0 < buckets }
    ensures formulas { OnOk result (map formula_tree formulas.new
        ++ map (spec.fetch_formula buckets) (remaining_fetches parts.new.items)
        ≡ map formula_tree formulas.old ++ (spec.plan_formulas buckets (node_tree part.now)
        ++ map (spec.fetch_formula buckets) (remaining_fetches parts.old.items))) }
    ensures less { OnOk result (remaining_nodes parts.new.items
        < remaining_nodes parts.old.items + nodes (node_tree part.now)) }
{
    match part {
        Node::Fetch { .. } => {}
        Node::Align { input, .. } => formulas.push(fetch_formula(alloc, input, buckets)?)?,
        Node::Filter { input, .. }
        | Node::GroupBy { input, .. }
        | Node::Value { input, .. }
        | Node::Top { input, .. } => parts.push(input)?,
        Node::Join { left, right, .. } | Node::Union { left, right, .. } => {
            parts.push(right)?;
            parts.push(left)?;
        }
    }
    Ok(())
}
