// What calls with a caller's knowledge answer.
use mon_value::{RowList, TryCopy};
use std::alloc::{AllocError, Global};

/// How a leaf was found: up, or down at this length of its history.
#[derive(Clone, Copy, PartialEq, Eq)]
pub enum Found {
    Up,
    Down(u64),
}

/// The rows of a replica, or the length of its leaf's history at which the leaf was found down.
#[derive(PartialEq, Eq, Drop)]
pub enum Copied {
    Rows(RowList),
    Down(u64),
}

/// The stock of numbers is empty.
#[derive(Clone, Copy, PartialEq, Eq)]
pub struct NumbersSpent;

impl TryCopy for Copied {
    fn copy(&self, alloc: Global) -> Result<Copied, AllocError> {
        match self {
            Copied::Rows(rows) => Ok(Copied::Rows(rows.copy(alloc)?)),
            Copied::Down(cut) => Ok(Copied::Down(*cut)),
        }
    }
}
