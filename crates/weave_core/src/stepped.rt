// How steps go.
use mon_value::{Text, TryCopy};
use std::alloc::{AllocError, Global};

/// How a step went.
#[derive(PartialEq, Eq, Drop)]
pub enum Stepped {
    /// The actor did its next event, and has more of them.
    Went,
    /// The next event needs a leaf or a range that another actor holds. Nothing has changed.
    Waits,
    /// The actor has ended, with this text.
    Ended(Text),
}

impl TryCopy for Stepped {
    fn copy(&self, alloc: Global) -> Result<Stepped, AllocError> {
        match self {
            Stepped::Went => Ok(Stepped::Went),
            Stepped::Waits => Ok(Stepped::Waits),
            Stepped::Ended(text) => Ok(Stepped::Ended(text.copy(alloc)?)),
        }
    }
}
