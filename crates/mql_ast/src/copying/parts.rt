// Copies of what holds no boxes: each equals its original.
use crate::names::Name;
use crate::operations::{Aggregate, FoldWord};
use crate::pipes::How;
use crate::predicates::{Comparison, Literal, Pattern};
use mon_value::TryCopy;
use std::alloc::{AllocError, Global};

impl TryCopy for Name {
    fn copy(&self, alloc: Global) -> Result<Name, AllocError> {
        Ok(Name {
            at: self.at,
            text: self.text.copy(alloc)?,
        })
    }
}

impl TryCopy for Comparison {
    fn copy(&self, _alloc: Global) -> Result<Comparison, AllocError> {
        Ok(*self)
    }
}

impl TryCopy for Literal {
    fn copy(&self, alloc: Global) -> Result<Literal, AllocError> {
        Ok(Literal {
            at: self.at,
            value: self.value.copy(alloc)?,
        })
    }
}

impl TryCopy for Pattern {
    fn copy(&self, alloc: Global) -> Result<Pattern, AllocError> {
        Ok(Pattern {
            at: self.at,
            pieces: self.pieces.copy(alloc)?,
        })
    }
}

impl TryCopy for FoldWord {
    fn copy(&self, _alloc: Global) -> Result<FoldWord, AllocError> {
        Ok(*self)
    }
}

impl TryCopy for Aggregate {
    fn copy(&self, alloc: Global) -> Result<Aggregate, AllocError> {
        Ok(Aggregate {
            at: self.at,
            name: self.name.copy(alloc)?,
            fold: self.fold,
            column: self.column.copy(alloc)?,
        })
    }
}

impl TryCopy for How {
    fn copy(&self, _alloc: Global) -> Result<How, AllocError> {
        Ok(*self)
    }
}
