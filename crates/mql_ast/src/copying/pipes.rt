// Copies of pipes.
ghost use Rattle.std.specs.Prelude.{◌≡◌, IfOk, map};
ghost use Rattle.mql_ast.specs.Trees as Tree;
ghost use Rattle.mql_ast.specs.Trees.{pipe_tree, query_tree, source_tree};

use crate::copying::operations::copied_ops;
use crate::names::Name;
use crate::pipes::{Pipe, Query, Source};
use mon_value::{ListOf, TryCopy};
use std::alloc::{AllocError, Global};

impl Query {
    /// A copy of a query: the same tree. The stack doesn't grow with a chain.
    pub fn copy(&self, alloc: Global) -> Result<Query, AllocError>
        ensures tree { IfOk result (λ copied. query_tree copied ≡ query_tree self.now) }
    {
        Ok(Query {
            pipe: self.pipe.copy(alloc)?,
        })
    }
}

impl Pipe {
    /// A copy of a pipe: the same tree.
    #[cycle(pipe_copies)]
    pub fn copy(&self, alloc: Global) -> Result<Pipe, AllocError>
        ensures tree { IfOk result (λ copied. pipe_tree copied ≡ pipe_tree self.now) }
    {
        let source = self.source.copy(alloc)?;
        let ops = copied_ops(alloc, self.ops.as_slice())?;
        Ok(Pipe {
            source,
            ops: ListOf::from_vec(ops),
        })
    }
}

impl Source {
    /// A copy of a source: the same tree.
    #[cycle(pipe_copies)]
    pub fn copy(&self, alloc: Global) -> Result<Source, AllocError>
        ensures tree { IfOk result (λ copied. source_tree copied ≡ source_tree self.now) }
    {
        match self {
            Source::Fetch { at, schema, metric } => copied_fetch(alloc, *at, schema, metric),
            Source::Branches {
                at,
                pipes,
                how,
                how_at,
            } => Ok(Source::Branches {
                at: *at,
                pipes: copied_pipes(alloc, pipes.as_slice())?,
                how: *how,
                how_at: *how_at,
            }),
        }
    }
}

fn copied_fetch(alloc: Global, at: u32, schema: &Name, metric: &Name) -> Result<Source, AllocError>
    ensures tree { IfOk result (λ copied. source_tree copied ≡ Tree.Fetch at schema.now metric.now) }
{
    let schema = schema.copy(alloc)?;
    match metric.copy(alloc) {
        Ok(metric) => Ok(Source::Fetch { at, schema, metric }),
        Err(stop) => {
            drop(schema);
            Err(stop)
        }
    }
}

// Copies of all branches, in their order.
#[cycle(pipe_copies)]
fn copied_pipes(alloc: Global, pipes: &[Pipe]) -> Result<Vec<Pipe>, AllocError>
    ensures trees { IfOk result (λ copied. map pipe_tree copied.items ≡ map pipe_tree pipes.now) }
{
    let mut copied = Vec::with_capacity(alloc, pipes.len())?;
    for pipe in pipes {
        copied.push(pipe.copy(alloc)?)?;
    }
    Ok(copied)
}
