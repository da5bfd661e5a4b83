// Pipes and what flows into them.
use crate::names::Name;
use crate::operations::Ops;

/// What a query text says.
#[derive(Drop)]
pub struct Query {
    pub pipe: Pipe,
}

/// A source and the operations on it, in order.
#[cycle(pipes)]
#[derive(Drop)]
pub struct Pipe {
    pub source: Source,
    pub ops: Ops,
}

/// Where the rows of a pipe come from.
#[cycle(pipes)]
#[derive(Drop)]
pub enum Source {
    Fetch {
        at: u32,
        schema: Name,
        metric: Name,
    },
    Branches {
        at: u32,
        pipes: Vec<Pipe>,
        how: How,
        how_at: u32,
    },
}

#[derive(Clone, Copy)]
pub enum How {
    Join,
    Union,
}
