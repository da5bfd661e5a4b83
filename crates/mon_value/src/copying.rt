// Copies of values that may own memory.
ghost use Rattle.std.specs.Prelude.{◌≡◌, IfOk};

use std::alloc::{AllocError, Global};

/// A value that can be copied where memory is found. A copy equals its original.
pub trait TryCopy {
    fn copy(&self, alloc: Global) -> Result<Self, AllocError>
        ensures equal { IfOk result (λ copied. copied ≡ self.now) };
}

impl TryCopy for u8 {
    fn copy(&self, _alloc: Global) -> Result<u8, AllocError> {
        Ok(*self)
    }
}

impl TryCopy for i64 {
    fn copy(&self, _alloc: Global) -> Result<i64, AllocError> {
        Ok(*self)
    }
}

impl TryCopy for u128 {
    fn copy(&self, _alloc: Global) -> Result<u128, AllocError> {
        Ok(*self)
    }
}

impl TryCopy for u32 {
    fn copy(&self, _alloc: Global) -> Result<u32, AllocError> {
        Ok(*self)
    }
}

impl TryCopy for i128 {
    fn copy(&self, _alloc: Global) -> Result<i128, AllocError> {
        Ok(*self)
    }
}

impl TryCopy for bool {
    fn copy(&self, _alloc: Global) -> Result<bool, AllocError> {
        Ok(*self)
    }
}

impl<T: TryCopy + Drop> TryCopy for Option<T> {
    fn copy(&self, alloc: Global) -> Result<Option<T>, AllocError> {
        match self {
            Some(value) => Ok(Some(value.copy(alloc)?)),
            None => Ok(None),
        }
    }
}

/// Copies of all items, in their order.
pub(crate) fn copied_items<T: TryCopy + Drop>(
    alloc: Global,
    items: &[T],
) -> Result<Vec<T>, AllocError>
    ensures items { IfOk result (λ copied. copied.items ≡ items.now) }
{
    let mut copied = Vec::with_capacity(alloc, items.len())?;
    for item in items {
        copied.push(item.copy(alloc)?)?;
    }
    Ok(copied)
}
