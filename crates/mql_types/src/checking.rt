// A whole query.
ghost use Rattle.std.specs.Prelude.{◌≡◌};
ghost use Rattle.mon_value.specs.Answers.{GivesView};
ghost use Rattle.mql_ast.specs.Trees.{query_tree};
ghost use Rattle.typed_trees.specs.Nodes.{node_tree, typed_tree};
ghost use Rattle.typed_trees.specs.Times.{every_said, within_said};
ghost use Rattle.typed_trees.specs.Typing.{typing};

use crate::aligning::aligned_tree;
use crate::parts::pipe_part;
use crate::times::hear_pipe;
use mon_schema::Schemas;
use mon_value::Refusal;
use mql_ast::Query;
use std::alloc::Global;
use typed_columns::TypingSetting;
use typed_trees::{Faults, Node, Times, TypeFault, Typed};

/// The typed tree of a query over the schemas, or the first of its faults: the one furthest left, and of those at one
/// place the one of the least number.
#[tactic(auto, using(typed_columns::proofs::FaultLemmas::faults), unfolding(typed_trees::specs::Typing::typing))]
pub fn check(alloc: Global, query: &Query, schemas: &Schemas) -> Result<Typed, Refusal<TypeFault>>
    ensures typed { GivesView typed_tree result (typing schemas.now (query_tree query.now)) }
{
    let mut times = Times::new();
    let mut found = Faults::new();
    hear_pipe(&query.pipe, false, &mut times, &mut found);
    times.tell_many(&mut found);
    let setting = TypingSetting {
        alloc,
        schemas,
        every: times.every(),
    };
    let part = pipe_part(setting, &query.pipe, &mut found)?;
    let tree = aligned_tree(alloc, setting.every, part)?;
    match found.first {
        Some(fault) => Err(Refusal::Fault(fault)),
        None => Ok(typed_by(times, tree)),
    }
}

// A tree with the grid of its times.
fn typed_by(times: Times, tree: Node) -> Typed
    ensures tree { node_tree result.tree ≡ node_tree tree }
    ensures every { result.every ≡ every_said times }
    ensures within { result.within ≡ within_said times }
{
    Typed {
        tree,
        every: times.every(),
        within: times.within(),
    }
}
