// The fault of a query's text.
ghost use Rattle.std.specs.Prelude.{◌≡◌, IfOk};
ghost use Rattle.mql_ast.specs.Trees.{query_tree};
ghost use Rattle.query_texts.specs.TextTypes.{text_type, tree_type};
ghost use Rattle.standing.specs.DueLists.{fault_in};

use crate::faults::StandingFault;
use mon_schema::Schemas;
use mon_value::{OutOfMemory, Refusal};
use mql_ast::Query;
use mql_parse::parse;
use mql_types::check;
use std::alloc::{AllocError, Global};

/// The first fault of a text over schemas, or of its type, if it has one.
pub(crate) fn text_fault(
    alloc: Global,
    schemas: &Schemas,
    text: &[u8],
) -> Result<Option<StandingFault>, OutOfMemory>
    ensures fault { IfOk result (λ fault. fault ≡ fault_in (text_type schemas.now text.now)) }
{
    match parse(alloc, text) {
        Ok(query) => {
            let fault = type_fault(alloc, schemas, &query);
            drop(query);
            fault
        }
        Err(Refusal::Fault(fault)) => Ok(Some(StandingFault::Parse(fault))),
        Err(Refusal::OutOfMemory) => Err(AllocError),
    }
}

// The first fault of a query's type, if it has one.
fn type_fault(
    alloc: Global,
    schemas: &Schemas,
    query: &Query,
) -> Result<Option<StandingFault>, OutOfMemory>
    ensures fault { IfOk result (λ fault. fault ≡ fault_in (tree_type schemas.now (query_tree query.now))) }
{
    match check(alloc, query, schemas) {
        Ok(_typed) => Ok(None),
        Err(Refusal::Fault(fault)) => Ok(Some(StandingFault::Typing(fault))),
        Err(Refusal::OutOfMemory) => Err(AllocError),
    }
}
