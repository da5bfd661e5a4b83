// From a text to its plan.
ghost use Rattle.std.specs.Prelude.{◌≡◌, ◌<◌, Ok, IfOk};
ghost use Rattle.mon_value.specs.Answers.{GivesView};
ghost use Rattle.mql_ast.specs.Trees.{query_tree};
ghost use Rattle.typed_trees.specs.Nodes.{typed_tree};
ghost use Rattle.typed_trees.specs.Soundness.{IsQueryType};
ghost use Rattle.typed_trees.specs.Typing.{typing};
ghost use Rattle.query_texts.specs.TextTypes.{IsPlanOver, plan_type, text_type, tree_type};

use crate::faults::TextFault;
use mon_schema::Schemas;
use mon_value::Refusal;
use mql_ast::Query;
use mql_parse::parse;
use mql_types::check;
use plan_split::split;
use std::alloc::Global;
use typed_trees::{Plan, Typed};

/// The plan of a query's text over schemas, with formulas among so many buckets; or the first fault of the text, or of
/// its type.
pub fn plan_of(
    alloc: Global,
    schemas: &Schemas,
    buckets: u32,
    text: &[u8],
) -> Result<Plan, Refusal<TextFault>>
    requires { 0 < buckets }
    ensures typed { GivesView plan_type result (text_type schemas.now text.now) }
    ensures plan { IfOk result (IsPlanOver schemas.now buckets) }
{
    let typed = typed_text(alloc, schemas, text)?;
    planned(alloc, schemas, buckets, typed)
}

// The plan of a typed query.
fn planned(
    alloc: Global,
    schemas: &Schemas,
    buckets: u32,
    typed: Typed,
) -> Result<Plan, Refusal<TextFault>>
    requires some { 0 < buckets }
    requires query { IsQueryType schemas.now (typed_tree typed) }
    ensures typed { GivesView plan_type result (Ok (typed_tree typed)) }
    ensures plan { IfOk result (IsPlanOver schemas.now buckets) }
{
    Ok(split(alloc, typed, buckets)?)
}

// The typed tree of a text.
fn typed_text(alloc: Global, schemas: &Schemas, text: &[u8]) -> Result<Typed, Refusal<TextFault>>
    ensures typed { GivesView typed_tree result (text_type schemas.now text.now) }
    ensures query { IfOk result (λ typed. IsQueryType schemas.now (typed_tree typed)) }
{
    schemas.metrics_are_lawful();
    schemas.targets_tell_locations();
    match parse(alloc, text) {
        Ok(query) => {
            let typed = typed_query(alloc, schemas, &query);
            drop(query);
            typed
        }
        Err(Refusal::Fault(fault)) => Err(Refusal::Fault(TextFault::Parse(fault))),
        Err(Refusal::OutOfMemory) => Err(Refusal::OutOfMemory),
    }
}

// The typed tree of a query.
fn typed_query(alloc: Global, schemas: &Schemas, query: &Query) -> Result<Typed, Refusal<TextFault>>
    ensures typed { GivesView typed_tree result (tree_type schemas.now (query_tree query.now)) }
    ensures is { IfOk result (λ typed. typing schemas.now (query_tree query.now) ≡ Ok (typed_tree typed)) }
{
    match check(alloc, query, schemas) {
        Ok(typed) => Ok(typed),
        Err(Refusal::Fault(fault)) => Err(Refusal::Fault(TextFault::Typing(fault))),
        Err(Refusal::OutOfMemory) => Err(Refusal::OutOfMemory),
    }
}
