// The list that the named list types of the crates are.
ghost use Rattle.std.specs.Prelude.{◌≡◌, ◌↔◌, ◌-◌, ◌<◌, ◌++◌, ◌∷◌, [], length, slice_get, Some, IsTrue, OnOk, OnErr};
ghost use Rattle.std.specs.Borrow.{sem};
ghost use Rattle.std.specs.Cmp.Lexicographic.{pointwise};
ghost use Rattle.std.specs.Option.{option_copied};
ghost use Rattle.std.specs.Iterator.Adapters.{IterYieldsInOrder};
ghost use Rattle.std.specs.Slice.Iter.{iter_rest};

use crate::copying::{TryCopy, copied_items};
use std::alloc::{AllocError, Global};
use std::cmp::Ordering;
use std::hash::{Hash, Hasher};
use std::marker::Model;
use std::slice::Iter;
use std::vec::IntoIter;

/// A list that grows at its end. Contracts see the plain list of its items.
#[derive(Drop)]
pub struct ListOf<T> {
    pub(crate) items: Vec<T>,
}

impl<T> Model for ListOf<T> {
    ghost use Rattle.std.specs.Prelude.{List};

    ghost Value = { List T };

    ghost view = { λ list. list.items.items };
}

impl<T> ListOf<T> {
    ghost use Rattle.mon_value.specs.ListLends.{LendsItems};

    /// The empty list, which grows from `alloc`.
    pub fn new(alloc: Global) -> Self
        ensures empty { result ≡ [] }
    {
        ListOf {
            items: Vec::new(alloc),
        }
    }

    /// The list of the vector's items. No memory is taken.
    pub fn from_vec(items: Vec<T>) -> Self
        ensures items { result ≡ items.items }
    {
        ListOf { items }
    }

    /// The items as a vector. No memory is taken.
    pub fn into_vec(self) -> Vec<T>
        ensures items { result.items ≡ self }
    {
        self.items
    }

    /// How many items there are.
    pub fn len(&self) -> usize
        ensures count { result ≡ length self.now }
    {
        self.items.len()
    }

    /// Whether there is no item.
    pub fn is_empty(&self) -> bool
        ensures none { IsTrue result ↔ (self.now ≡ []) }
    {
        self.items.is_empty()
    }

    /// The items as a slice.
    pub fn as_slice(&self) -> &[T]
        ensures items { result.now ≡ self.now }
    {
        self.items.as_slice()
    }

    /// The items as a slice to write to.
    pub fn as_mut_slice(&mut self) -> &mut [T]
        ensures* written { sem 𝓛 (LendsItems T.row self.entry result) }
        ensures items { result.now ≡ self.old }
    {
        self.items.as_mut_slice()
    }

    /// The items in their order.
    pub fn iter(&self) -> Iter<'_, T>
        ensures items { iter_rest result ≡ self.now }
        ensures runs { IterYieldsInOrder T }
    {
        self.items.as_slice().iter()
    }

    /// The item at a place.
    pub fn get(&self, i: usize) -> &T
        requires { i < length self.now }
        ensures item { slice_get self.now i ≡ Some result.now }
    {
        &self.items[i]
    }

    /// The first item, if there is one.
    pub fn first(&self) -> Option<&T>
        ensures item { option_copied result ≡ slice_get self.now 0 }
    {
        self.items.as_slice().first()
    }

    /// The last item, if there is one.
    pub fn last(&self) -> Option<&T>
        ensures item { option_copied result ≡ slice_get self.now (length self.now - 1) }
    {
        self.items.as_slice().last()
    }

    /// Adds an item at the end. Where memory runs out the list stays, and the item is gone.
    pub fn push(&mut self, item: T) -> Result<(), AllocError>
    where
        T: Drop,
        ensures added { OnOk result (self.new ≡ self.old ++ item ∷ []) }
        ensures kept { OnErr result (self.new ≡ self.old) }
    {
        self.items.push(item)?;
        Ok(())
    }
}

impl<'a, T> IntoIterator for &'a ListOf<T> {
    ghost use Rattle.mon_value.specs.ListItems.{LendsInOrder};

    type Item = &'a T;

    type IntoIter = Iter<'a, T>;

    ghost into_iter_gives = { λ list items. LendsInOrder list.now items };

    fn into_iter(self) -> Iter<'a, T> {
        self.items.as_slice().iter()
    }
}

impl<T: Drop> IntoIterator for ListOf<T> {
    ghost use Rattle.mon_value.specs.ListItems.{GivesInOrder};

    type Item = T;

    type IntoIter = IntoIter<T>;

    ghost into_iter_gives = { GivesInOrder };

    fn into_iter(self) -> IntoIter<T> {
        self.items.into_iter()
    }
}

impl<T: TryCopy + Drop> TryCopy for ListOf<T> {
    fn copy(&self, alloc: Global) -> Result<ListOf<T>, AllocError> {
        Ok(ListOf {
            items: copied_items(alloc, self.items.as_slice())?,
        })
    }
}

// Whether lists have the same items. Lists of fields are short, and compared again and again as rows come in.
fn same_items<T: PartialEq>(own: &[T], others: &[T]) -> bool
    ensures same { result ≡ pointwise T.eq own.now others.now }
{
    if own.len() != others.len() {
        return false;
    }
    for i in 0..own.len() {
        if own[i] != others[i] {
            return false;
        }
    }
    true
}

impl<T: PartialEq> PartialEq for ListOf<T> {
    ghost use Rattle.std.specs.Cmp.Lexicographic.{pointwise, lists_per};

    ghost eq = { pointwise T.eq };

    ghost laws = { lists_per T.laws };

    fn eq(&self, other: &Self) -> bool {
        same_items(self.as_slice(), other.as_slice())
    }
}

impl<T: Eq> Eq for ListOf<T> {
    ghost use Rattle.std.specs.Cmp.Lexicographic.{lists_equiv};

    ghost laws = { lists_equiv T.Eq.laws };
}

impl<T: PartialOrd> PartialOrd for ListOf<T> {
    ghost use Rattle.std.specs.Cmp.Lexicographic.{slice_partial_cmp, lists_po};

    ghost partial_cmp = { slice_partial_cmp T.partial_cmp };

    ghost laws = { lists_po T.PartialOrd.laws };

    fn partial_cmp(&self, other: &Self) -> Option<Ordering> {
        self.items.partial_cmp(&other.items)
    }
}

impl<T: Ord> Ord for ListOf<T> {
    ghost use Rattle.std.specs.Cmp.Lexicographic.{slice_cmp, lists_total, lists_agrees, lists_ties};

    ghost cmp = { slice_cmp T.cmp };

    ghost total = { lists_total T.total };

    ghost matches_partial_cmp = { lists_agrees T.matches_partial_cmp };

    ghost matches_eq = { lists_ties T.cmp T.matches_eq };

    fn cmp(&self, other: &Self) -> Ordering {
        self.items.cmp(&other.items)
    }
}

impl<T: Hash> Hash for ListOf<T> {
    ghost use Rattle.std.specs.Hash as fed;
    ghost use Rattle.std.specs.Hash.{items_Alike};

    ghost hash_input = { fed.slice T.hash_input };

    ghost respects_eq = { (items_Alike (record { fed = T.respects_eq })).fed };

    fn hash<H: Hasher>(&self, state: &mut H) {
        self.items.hash(state);
    }
}
