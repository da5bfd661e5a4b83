// The list for calls that promise to take no memory.
ghost use Rattle.std.specs.Prelude.{◌≡◌, ◌+◌, ◌<◌, ◌≤◌, ◌/◌, ◌++◌, ◌∷◌, [], length, slice_get, Some, IfOk, OnOk};

use crate::copying::{TryCopy, copied_items};
use std::alloc::{AllocError, Global};
use std::marker::Model;

/// For how many items more a full list that is short gets room.
const FEW: usize = 4;

/// A list that keeps room for items to come. Contracts see its items and the number of items that
/// go in without memory.
#[derive(Drop)]
pub struct RoomListOf<T> {
    items: Vec<T>,
}

impl<T> Model for RoomListOf<T> {
    ghost use Rattle.std.specs.Prelude.{◌-◌, vec_len, vec_capacity};
    ghost use Rattle.mon_value.specs.Rooms.{RoomList};

    ghost Value = { RoomList T };

    ghost view = { λ list. record { items = list.items.items; spare = vec_capacity list.items - vec_len list.items } };
}

impl<T> RoomListOf<T> {
    /// The empty list, which grows from `alloc`.
    pub fn new(alloc: Global) -> Self
        ensures empty { result.items ≡ [] }
    {
        RoomListOf {
            items: Vec::new(alloc),
        }
    }

    /// How many items there are.
    pub fn len(&self) -> usize
        ensures count { result ≡ length self.now.items }
    {
        self.items.len()
    }

    /// The items as a slice.
    pub fn as_slice(&self) -> &[T]
        ensures items { result.now ≡ self.now.items }
    {
        self.items.as_slice()
    }

    /// The item at a place.
    pub fn get(&self, i: usize) -> &T
        requires { i < length self.now.items }
        ensures item { slice_get self.now.items i ≡ Some result.now }
    {
        &self.items[i]
    }

    /// A list of the same items, with what room its memory has.
    pub fn copy(&self, alloc: Global) -> Result<RoomListOf<T>, AllocError>
    where
        T: TryCopy + Drop,
        ensures items { IfOk result (λ copied. copied.items ≡ self.now.items) }
    {
        Ok(RoomListOf {
            items: copied_items(alloc, self.items.as_slice())?,
        })
    }

    /// Makes room for one item more, so that the next `push` takes no memory. A long list that is full grows by a
    /// quarter, so that at most a fifth of its memory lies idle.
    pub fn reserve_one(&mut self) -> Result<(), AllocError>
        ensures room { OnOk result (1 ≤ self.new.spare) }
        ensures quarter { OnOk result (self.old.spare ≡ 0 → length self.old.items / 4 ≤ self.new.spare) }
        ensures kept { self.new.items ≡ self.old.items }
        ensures no_less { self.old.spare ≤ self.new.spare }
    {
        if self.items.len() < self.items.capacity() {
            return Ok(());
        }
        self.items.reserve_exact(room_for_more(self.items.len()))
    }

    /// Adds an item at the end, in room that was made before.
    pub fn push(&mut self, item: T)
        requires { 1 ≤ self.old.spare }
        ensures added { self.new.items ≡ self.old.items ++ item ∷ [] }
        ensures room { self.new.spare + 1 ≡ self.old.spare }
    {
        self.items.push_reserved(item);
    }
}

// For how many items more a full list of so many gets room.
fn room_for_more(count: usize) -> usize
    ensures some { 1 ≤ result }
    ensures quarter { count / 4 ≤ result }
{
    FEW.max(count / 4)
}
