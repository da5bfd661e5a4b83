// A value that several owners hold.
ghost use Rattle.std.specs.Prelude.{◌≡◌, IfOk};

use crate::copying::TryCopy;
use std::alloc::{AllocError, Global};
use std::hash::{Hash, Hasher};
use std::marker::Model;
use std::ops::Deref;
use std::sync::Arc;

/// A value with several owners, which is freed with the last of them. A copy is one owner more and
/// copies nothing. Contracts see the value itself, so it never shows who shares it.
#[derive(Drop)]
pub struct Shared<T> {
    owner: Arc<T>,
}

impl<T> Model for Shared<T> {
    ghost use Rattle.std.specs.Arc.{arc_value};

    ghost Value = { T };

    ghost view = { λ shared. arc_value shared.owner };
}

impl<T> Shared<T> {
    /// The first owner of a value.
    pub fn new(alloc: Global, value: T) -> Result<Self, AllocError>
    where
        T: Drop,
        ensures value { IfOk result (λ shared. shared ≡ value) }
    {
        Ok(Shared {
            owner: Arc::new(alloc, value)?,
        })
    }
}

impl<T> Deref for Shared<T> {
    type Target = T;

    ghost deref_gives = { λ shared value. value ≡ shared };

    fn deref(&self) -> &T
        ensures { result.now ≡ self.now }
    {
        &self.owner
    }
}

impl<T: Drop> TryCopy for Shared<T> {
    fn copy(&self, _alloc: Global) -> Result<Shared<T>, AllocError> {
        Ok(Shared {
            owner: Arc::try_clone(&self.owner)?,
        })
    }
}

impl<T: PartialEq> PartialEq for Shared<T> {
    ghost eq = { T.eq };

    ghost laws = { T.laws };

    fn eq(&self, other: &Self) -> bool {
        *self.owner == *other.owner
    }
}

impl<T: Eq> Eq for Shared<T> {
    ghost laws = { T.Eq.laws };
}

impl<T: Hash> Hash for Shared<T> {
    ghost hash_input = { T.hash_input };

    ghost respects_eq = { T.respects_eq };

    fn hash<H: Hasher>(&self, state: &mut H) {
        (*self.owner).hash(state);
    }
}
