// The map: its entries in their order, and the tree over the hashes of their keys.
// A clause `writes_back` says what the map holds once the borrow that the method returns has ended.
ghost use Rattle.std.specs.Prelude.{◌≡◌, ◌+◌, ◌-◌, ◌<◌, ◌≤◌, ◌^◌, ◌++◌, ◌∷◌, ◌↔◌, []};
ghost use Rattle.std.specs.Prelude.{length, is_some, slice_get, slice_index_or, if◌then◌else◌, None, Some};
ghost use Rattle.std.specs.Prelude.{IsOk, IsSome, IsTrue, IfErr, IfOk, IfSome, OnErr, OnOk};
ghost use Rattle.std.specs.Borrow.{sem};
ghost use Rattle.std.specs.List.{IsAmong};
ghost use Rattle.std.specs.Map.{keys_of};
ghost use Rattle.std.specs.Map.Iter.{deref_pair};
ghost use Rattle.std.specs.Option.{option_map, option_copied, option_copied_mut};
ghost use Rattle.indexmap.specs.IndexMap.{values, get, get_by, get_key_by, hasher_of, set_value_at, index_map_len};
ghost use Rattle.indexmap.specs.IndexMap.{index_of_by, insert_entry, insert_index, spare};
ghost use Rattle.indexmap.specs.IndexMap.{IsEmpty, IsUnchanged, IsUnique, KeepsRoom, Updates};
ghost use Rattle.indexmap.specs.Layout.{hash_map};
ghost use Rattle.std_collections.specs.Layout.HashMap.{position};
ghost use Rattle.insertion_map.specs.Hashes.{key_hash};
ghost use Rattle.insertion_map.specs.Lends.{lends_at, lends_get, lends_index};

use crate::hash::WordHasher;
use crate::tree::HashTree;
use indexmap::Equivalent;
use std::alloc::{AllocError, AllocFailed, Global};
use std::hash::{BuildHasher, BuildHasherDefault, Hash};
use std::marker::Model;
use std::mem::replace;

// Up to so many entries a map looks at one after another.
const FEW: usize = 8;

/// A map whose entries keep the order in which their keys were inserted. Keys are found by SipHash of 64 bits.
///
/// Contracts see it as they see the kit's `IndexMap`: the entries in their order, and how many more fit without memory.
#[derive(Drop)]
pub struct InsertionMap<K: Eq + Hash, V, S: BuildHasher = BuildHasherDefault<WordHasher>> {
    entries: Vec<(K, V)>,
    tree: HashTree,
    hash_builder: S,
}

impl<K: Eq + Hash, V, S: BuildHasher> Model for InsertionMap<K, V, S> {
    ghost use Rattle.std.specs.Prelude.{◌-◌, min, length, vec_capacity};
    ghost use Rattle.indexmap.specs.IndexMap.{IndexMap as Entries};
    ghost use Rattle.indexmap.specs.Layout.{hash_map, hash_map_code, IsHashed};
    ghost use Rattle.insertion_map.specs.Hashes.{key_hash};

    ghost Value = { Entries K V S };

    ghost coded = { hash_map_code K.code V.code S.code };

    ghost view = { λ m.
        hash_map m.entries.items m.hash_builder (min m.tree.1 (vec_capacity m.entries - length m.entries.items)) };

    ghost invariant = { λ m.
        IsHashed K.eq (λ k. key_hash S.BuildHasher S.Hasher.Hasher m.hash_builder (K.hash_input k))
        m.tree.0 m.entries.items };
}

impl<K: Eq + Hash, V> InsertionMap<K, V> {
    /// An empty map, which allocates nothing until the first insert.
    pub fn new(alloc: Global) -> Self
        ensures empty { IsEmpty result }
        ensures len { index_map_len result ≡ 0 }
        ensures unique { IsUnique K.eq result }
    {
        InsertionMap::with_hasher(alloc, BuildHasherDefault::new())
    }

    /// An empty map with room for `n` entries.
    pub fn with_capacity(alloc: Global, n: usize) -> Result<Self, AllocError>
    where
        K: Drop,
        V: Drop,
        ensures empty { IfOk result IsEmpty }
        ensures len { IfOk result (λ m. index_map_len m ≡ 0) }
        ensures spare { IfOk result (λ m. n ≤ spare m) }
        ensures unique { IfOk result (IsUnique K.eq) }
        ensures succeeds { n ≡ 0 → IsOk result }
    {
        let mut map = InsertionMap::new(alloc);
        map.reserve(n)?;
        Ok(map)
    }
}

impl<K: Eq + Hash, V, S: BuildHasher> InsertionMap<K, V, S> {
    /// An empty map that hashes by `hash_builder`.
    pub fn with_hasher(alloc: Global, hash_builder: S) -> Self
        ensures empty { IsEmpty result }
        ensures len { index_map_len result ≡ 0 }
        ensures hasher { hasher_of result ≡ hash_builder }
        ensures unique { IsUnique K.eq result }
    {
        InsertionMap {
            entries: Vec::new(alloc),
            tree: HashTree::new(alloc),
            hash_builder,
        }
    }

    /// The number of entries.
    pub fn len(&self) -> usize
        ensures len { result ≡ index_map_len self.now }
        ensures small { result < 2 ^ 63 }
        ensures unique { IsUnique K.eq self.now }
    {
        let _tree = &self.tree;
        self.entries.len()
    }

    /// The entries, in their order.
    pub fn entries(&self) -> &[(K, V)]
        ensures entries { result.now ≡ self.now.entries }
        ensures unique { IsUnique K.eq self.now }
    {
        let _tree = &self.tree;
        self.entries.as_slice()
    }

    /// The entries by value, in their order.
    pub fn into_entries(self) -> Vec<(K, V)>
    where
        S: Drop,
        ensures entries { result.items ≡ self.entries }
        ensures unique { IsUnique K.eq self }
    {
        let InsertionMap {
            entries,
            tree: _tree,
            hash_builder: _hash_builder,
        } = self;
        entries
    }

    /// Whether a key equal to `key` is in the map.
    #[inline(always)]
    pub fn contains_key<Q: Equivalent<K>>(&self, key: Q) -> bool
        ensures { result ≡ is_some (get_by (Q.equivalent key) self.now) }
    {
        self.get_index_of(key).is_some()
    }

    /// The value at `key`.
    #[inline(always)]
    pub fn get<Q: Equivalent<K>>(&self, key: Q) -> Option<&V>
        ensures value { option_copied result ≡ get_by (Q.equivalent key) self.now }
        ensures member { IfSome result (λ x. IsAmong (values self.now) x.now) }
    {
        let i = self.get_index_of(key)?;
        Some(self.pair_at(i).1)
    }

    /// The index, the stored key and the value.
    #[inline(always)]
    pub fn get_full<Q: Equivalent<K>>(&self, key: Q) -> Option<(usize, &K, &V)>
        ensures index { option_map (λ p. p.0) result ≡ index_of_by (Q.equivalent key) self.now }
        ensures key { option_map (λ p. p.1.now) result ≡ get_key_by (Q.equivalent key) self.now }
        ensures value { option_map (λ p. p.2.now) result ≡ get_by (Q.equivalent key) self.now }
        ensures entry { IfSome result (λ p. slice_get self.now.entries p.0 ≡ Some (p.1.now, p.2.now)) }
    {
        let i = self.get_index_of(key)?;
        let (key, value) = self.pair_at(i);
        Some((i, key, value))
    }

    /// The index of `key`.
    #[inline(always)]
    pub fn get_index_of<Q: Equivalent<K>>(&self, key: Q) -> Option<usize>
        ensures index { result ≡ index_of_by (Q.equivalent key) self.now }
        ensures found { is_some result ≡ is_some (get_by (Q.equivalent key) self.now) }
        ensures within { IfSome result (λ i. i < index_map_len self.now) }
        ensures value { IfSome result (λ i. slice_get (values self.now) i ≡ get_by (Q.equivalent key) self.now) }
        ensures unique { IsUnique K.eq self.now }
    {
        self.seek(key)
    }

    /// The index of `key`, which is tried first at a guess: a right guess costs one comparison and no hash.
    pub fn get_near<Q: Equivalent<K>>(&self, guess: usize, key: Q) -> Option<usize>
        ensures index { result ≡ index_of_by (Q.equivalent key) self.now }
        ensures found { is_some result ≡ is_some (get_by (Q.equivalent key) self.now) }
        ensures within { IfSome result (λ i. i < index_map_len self.now) }
        ensures value { IfSome result (λ i. slice_get (values self.now) i ≡ get_by (Q.equivalent key) self.now) }
        ensures unique { IsUnique K.eq self.now }
    {
        self.locate(guess, key).ok()
    }

    /// The value at `key`, to write.
    #[inline(always)]
    pub fn get_mut<Q: Equivalent<K>>(&mut self, key: Q) -> Option<&mut V>
        ensures* writes_back { sem 𝓛 (lends_get K.row V.row S.row S.Hasher.row K.Hash S.BuildHasher S.Hasher.Hasher
            self.entry (Q.equivalent key) result) }
        ensures value { option_copied_mut result ≡ get_by (Q.equivalent key) self.old }
        ensures member { IfSome result (λ x. IsAmong (values self.old) x.now) }
        ensures unique { IsUnique K.eq self.old }
    {
        match self.get_index_of(key) {
            Some(i) => Some(self.value_mut(i)),
            None => None,
        }
    }

    /// The entry at `index`.
    pub fn get_index(&self, index: usize) -> Option<(&K, &V)>
        ensures entry { option_map deref_pair result ≡ slice_get self.now.entries index }
        ensures found { IsSome result ↔ (index < index_map_len self.now) }
        ensures value { IfSome result (λ p. get K.eq self.now p.0.now ≡ Some p.1.now) }
    {
        let entry = self.entries().get(index)?;
        Some((&entry.0, &entry.1))
    }

    /// The value at `index`, which can be written.
    pub fn get_index_mut(&mut self, index: usize) -> Option<&mut V>
        ensures* writes_back { sem 𝓛 (lends_at K.row V.row S.row S.Hasher.row K.Hash S.BuildHasher S.Hasher.Hasher
            self.entry index result) }
        ensures value { option_copied_mut result ≡ slice_get (values self.old) index }
        ensures found { IsSome result ↔ (index < index_map_len self.old) }
        ensures unique { IsUnique K.eq self.old }
    {
        if index < self.len() {
            Some(self.value_mut(index))
        } else {
            None
        }
    }

    /// Makes room for `additional` more entries, so that as many inserts need no memory.
    pub fn reserve(&mut self, additional: usize) -> Result<(), AllocError>
        ensures entries { IsUnchanged self.old self.new }
        ensures ok { OnOk result (additional ≤ spare self.new) }
        ensures succeeds { additional ≤ spare self.old → IsOk result }
        ensures room { KeepsRoom self.old self.new }
        ensures unique { IsUnique K.eq self.new }
    {
        if additional <= self.spare() {
            return Ok(());
        }
        self.tree.reserve(additional)?;
        self.entries.reserve(additional)
    }

    /// Inserts a pair. A key that is there keeps its place, and the old value is returned. A new key goes last.
    #[inline(always)]
    pub fn insert(&mut self, key: K, value: V) -> Result<Option<V>, AllocFailed<(K, V)>>
    where
        K: Drop,
        // On success `key` has `value`, its old value is returned, and other keys keep theirs.
        ensures old { IfOk result (λ old. old ≡ get K.eq self.old key) }
        ensures updates { OnOk result (Updates K.eq self.old self.new key (Some value)) }
        ensures entries { OnOk result (self.new.entries ≡ insert_entry K.eq self.old.entries key value) }
        ensures len { IfOk result (λ old.
            index_map_len self.new ≡ index_map_len self.old + (if is_some old then 0 else 1)) }

        // On failure the pair comes back and the entries stay. Only a new key can fail.
        ensures value_returned { IfErr result (λ y. y.value ≡ (key, value)) }
        ensures err { OnErr result (IsUnchanged self.old self.new) }
        ensures absent { OnErr result (get K.eq self.old key ≡ None) }

        // With room to spare it succeeds, and it uses up at most one place.
        ensures succeeds { 0 < spare self.old → IsOk result }
        ensures spare { spare self.old ≤ spare self.new + 1 }
        ensures hasher { hasher_of self.new ≡ hasher_of self.old }
        ensures unique { IsUnique K.eq self.new }
    {
        let (_, old) = self.insert_near(self.len(), key, value)?;
        Ok(old)
    }

    /// Inserts a pair as `insert` does, where the key's index is tried first at a guess, and returns its index too.
    pub fn insert_near(
        &mut self,
        guess: usize,
        key: K,
        value: V,
    ) -> Result<(usize, Option<V>), AllocFailed<(K, V)>>
    where
        K: Drop,
        // On success `key` has `value`, its old value is returned, and other keys keep theirs.
        ensures index { IfOk result (λ r. r.0 ≡ insert_index K.eq self.old key) }
        ensures old { IfOk result (λ r. r.1 ≡ get K.eq self.old key) }
        ensures updates { OnOk result (Updates K.eq self.old self.new key (Some value)) }
        ensures entries { OnOk result (self.new.entries ≡ insert_entry K.eq self.old.entries key value) }
        ensures len { IfOk result (λ r.
            index_map_len self.new ≡ index_map_len self.old + (if is_some r.1 then 0 else 1)) }

        // On failure the pair comes back and the entries stay. Only a new key can fail.
        ensures value_returned { IfErr result (λ y. y.value ≡ (key, value)) }
        ensures err { OnErr result (IsUnchanged self.old self.new) }
        ensures absent { OnErr result (get K.eq self.old key ≡ None) }

        // With room to spare it succeeds, and it uses up at most one place.
        ensures succeeds { 0 < spare self.old → IsOk result }
        ensures spare { spare self.old ≤ spare self.new + 1 }
        ensures hasher { hasher_of self.new ≡ hasher_of self.old }
        ensures unique { IsUnique K.eq self.new }
    {
        let hash = match self.locate(guess, &key) {
            Ok(i) => return Ok((i, Some(self.replace_value(i, value)))),
            Err(hash) => hash,
        };
        if !self.make_room() {
            return Err(AllocFailed {
                value: (key, value),
            });
        }
        let i = self.len();
        self.push(hash, key, value);
        Ok((i, None))
    }

    fn spare(&self) -> usize
        ensures spare { result ≡ spare self.now }
        ensures fits { index_map_len self.now + result < 2 ^ 64 }
        ensures unique { IsUnique K.eq self.now }
    {
        let unused = self.entries.capacity() - self.entries.len();
        self.tree.spare().min(unused)
    }

    #[inline(always)]
    #[tactic(auto, unfolding(crate::specs::Hashes::key_hash))]
    fn hash_of<Q: Hash + Copy>(&self, key: Q) -> u64
        ensures { result ≡ key_hash S.BuildHasher S.Hasher.Hasher (hasher_of self.now) (Q.hash_input key) }
    {
        self.hash_builder.hash_one(key)
    }

    // Where the key's entry is, which is tried first at a guess, or the key's hash where there is none.
    #[inline(always)]
    fn locate<Q: Equivalent<K>>(&self, guess: usize, key: Q) -> Result<usize, u64>
        ensures found { IfOk result (λ i. index_of_by (Q.equivalent key) self.now ≡ Some i) }
        ensures absent { OnErr result (index_of_by (Q.equivalent key) self.now ≡ None) }
        ensures hash { IfErr result (λ hash.
            hash ≡ key_hash S.BuildHasher S.Hasher.Hasher (hasher_of self.now) (Q.hash_input key)) }
        ensures unique { IsUnique K.eq self.now }
    {
        if self.is_at(guess, key) {
            return Ok(guess);
        }
        let entries = self.entries();
        if entries.len() > FEW {
            let hash = self.hash_of(key);
            return self.find(hash, key).ok_or(hash);
        }
        match first_with(entries, key) {
            Some(i) => Ok(i),
            None => Err(self.hash_of(key)),
        }
    }

    // Where the key's entry is. Among few entries it is looked for one after another, which costs less than a hash.
    #[inline(always)]
    fn seek<Q: Equivalent<K>>(&self, key: Q) -> Option<usize>
        ensures index { result ≡ index_of_by (Q.equivalent key) self.now }
        ensures unique { IsUnique K.eq self.now }
    {
        let entries = self.entries();
        if entries.len() > FEW {
            return self.find(self.hash_of(key), key);
        }
        first_with(entries, key)
    }

    // Whether the entry at an index has the key.
    fn is_at<Q: Equivalent<K>>(&self, i: usize, key: Q) -> bool
        ensures at { IsTrue result → index_of_by (Q.equivalent key) self.now ≡ Some i }
        ensures unique { IsUnique K.eq self.now }
    {
        match self.entries().get(i) {
            Some(entry) => key.equivalent(&entry.0),
            None => false,
        }
    }

    fn pair_at(&self, i: usize) -> (&K, &V)
        requires { i < index_map_len self.now }
        ensures { slice_get self.now.entries i ≡ Some (result.0.now, result.1.now) }
    {
        let entry = &self.entries[i];
        (&entry.0, &entry.1)
    }

    // Makes room for one more entry, and returns whether there was memory.
    fn make_room(&mut self) -> bool
        ensures same { IsUnchanged self.old self.new }
        ensures hasher { hasher_of self.new ≡ hasher_of self.old }
        ensures ok { IsTrue result → 0 < spare self.new }
        ensures succeeds { 0 < spare self.old → IsTrue result }
        ensures spare { spare self.old ≤ spare self.new }
    {
        self.reserve(1).is_ok()
    }

    #[inline(always)]
    fn find<Q: Equivalent<K>>(&self, hash: u64, key: Q) -> Option<usize>
        requires { hash ≡ key_hash S.BuildHasher S.Hasher.Hasher (hasher_of self.now) (Q.hash_input key) }
        ensures index { result ≡ index_of_by (Q.equivalent key) self.now }
        ensures unique { IsUnique K.eq self.now }
    {
        let entries = self.entries.as_slice();
        let test = |i|
            requires { i < length entries.now }
            ensures { (d : K) → result ≡ Q.equivalent key (slice_index_or (keys_of entries.entry.now) i d) }
        { key.equivalent(&entries[i].0) };
        self.tree.find(hash, test)
    }

    fn value_mut(&mut self, i: usize) -> &mut V
        requires { i < index_map_len self.old }
        ensures* writes_back { sem 𝓛 (lends_index K.row V.row S.row S.Hasher.row K.Hash S.BuildHasher S.Hasher.Hasher
            self.entry i result) }
        ensures value { slice_get (values self.old) i ≡ Some result.now }
    {
        &mut self.entries[i].1
    }

    fn replace_value(&mut self, i: usize, value: V) -> V
        requires { i < index_map_len self.old }
        ensures took { slice_get (values self.old) i ≡ Some result }
        ensures entries { self.new.entries ≡ set_value_at self.old.entries i value }
        ensures spare { spare self.new ≡ spare self.old }
        ensures hasher { hasher_of self.new ≡ hasher_of self.old }
    {
        replace(&mut self.entries[i].1, value)
    }

    fn push(&mut self, hash: u64, key: K, value: V)
        requires hash { hash ≡ key_hash S.BuildHasher S.Hasher.Hasher (hasher_of self.old) (K.hash_input key) }
        requires absent { get K.eq self.old key ≡ None }
        requires spare { 0 < spare self.old }
        ensures { self.new
            ≡ hash_map (self.old.entries ++ (key, value) ∷ []) (hasher_of self.old) (spare self.old - 1) }
    {
        self.tree.push(hash);
        self.entries.push_reserved((key, value));
    }
}

// The place of the first entry with the key.
fn first_with<K: Eq + Hash, V, Q: Equivalent<K>>(entries: &[(K, V)], key: Q) -> Option<usize>
    ensures first { result ≡ position (Q.equivalent key) entries.now }
{
    for (i, entry) in entries.iter().enumerate() {
        if key.equivalent(&entry.0) {
            return Some(i);
        }
    }
    None
}
