// The tree that finds entries by their hashes. It sees no key.
ghost use Rattle.std.specs.Prelude.{◌≡◌, ℕ, ◌+◌, ◌^◌, ◌<◌, ◌≤◌, true, false, [], ◌∷◌, ◌++◌, length, slice_get};
ghost use Rattle.std.specs.Prelude.{IfSome, IfNone, Some, OnOk};
ghost use Rattle.insertion_map.specs.Tree.{below, hung, EndsAt, IsTree};

use std::alloc::{AllocError, Global};
use std::marker::Model;

/// The hash of an entry, and the numbers of the entries below it, on paths that go on with an even bit or an odd one. A
/// number that is not above the entry's own says that there is none.
#[derive(Clone, Copy)]
pub struct Node {
    pub(crate) hash: u64,
    pub(crate) even: usize,
    pub(crate) odd: usize,
}

impl Node {
    fn below(&self, bits: u64) -> usize
        ensures { result ≡ below self.now bits }
    {
        if bits % 2 == 1 { self.odd } else { self.even }
    }

    fn hang(&mut self, bits: u64, number: usize)
        ensures { self.new ≡ hung self.old bits number }
    {
        if bits % 2 == 1 {
            self.odd = number;
        } else {
            self.even = number;
        }
    }
}

// Where the path of a hash ends, and the bits that are left there.
fn end_of_path(nodes: &[Node], hash: u64) -> (usize, u64)
    requires some { 0 < length nodes.now }
    requires tree { IsTree nodes.now }
    ensures { EndsAt nodes.now hash result.0 result.1 }
{
    let mut place = 0;
    let mut bits = hash;
    loop {
        let next = nodes[place].below(bits);
        if next <= place {
            return (place, bits);
        }
        place = next;
        bits /= 2;
    }
}

/// The hashes of entries, each at a place on its path. The i-th node is the i-th entry's.
#[derive(Drop)]
pub struct HashTree {
    nodes: Vec<Node>,
}

impl Model for HashTree {
    ghost use Rattle.std.specs.Prelude.{◌-◌, ℕ, List, length, vec_capacity};
    ghost use Rattle.insertion_map.specs.Tree.{IsTree, hashes_of};

    ghost Value = { List ℕ × ℕ };

    ghost view = { λ tree. (hashes_of tree.nodes.items, vec_capacity tree.nodes - length tree.nodes.items) };

    ghost invariant = { λ tree. IsTree tree.nodes.items };
}

impl HashTree {
    pub(crate) fn new(alloc: Global) -> Self
        ensures hashes { result.0 ≡ [] }
    {
        HashTree {
            nodes: Vec::new(alloc),
        }
    }

    // How many more entries fit without memory.
    pub(crate) fn spare(&self) -> usize
        ensures spare { result ≡ self.now.1 }
        ensures fits { length self.now.0 + self.now.1 < 2 ^ 64 }
    {
        self.nodes.capacity() - self.nodes.len()
    }

    pub(crate) fn reserve(&mut self, additional: usize) -> Result<(), AllocError>
        ensures hashes { self.new.0 ≡ self.old.0 }
        ensures room { OnOk result (additional ≤ self.new.1) }
        ensures kept { self.old.1 ≤ self.new.1 }
    {
        self.nodes.reserve(additional)
    }

    // The first entry on a hash's path that has this hash and passes a test. The test is asked of entries with this
    // hash alone, until it returns `true`.
    #[inline(always)]
    pub(crate) fn find<F: Fn(usize) -> bool>(&self, hash: u64, test: F) -> Option<usize>
        requires { (i : ℕ) → i < length self.now.0 → F.pre test i }
        ensures found { IfSome result (λ i. (i < length self.now.0) × F.post test i true) }
        ensures absent { IfNone result ((i : ℕ) → slice_get self.now.0 i ≡ Some hash → F.post test i false) }
    {
        let nodes = self.nodes.as_slice();
        let mut place = 0;
        let mut bits = hash;
        while let Some(node) = nodes.get(place) {
            if node.hash == hash && test(place) {
                return Some(place);
            }
            let next = node.below(bits);
            if next <= place {
                return None;
            }
            place = next;
            bits /= 2;
        }
        None
    }

    // Adds an entry with this hash, where there is room.
    pub(crate) fn push(&mut self, hash: u64)
        requires { 0 < self.old.1 }
        ensures hashes { self.new.0 ≡ self.old.0 ++ hash ∷ [] }
        ensures spare { self.new.1 + 1 ≡ self.old.1 }
    {
        let nodes = self.nodes.as_slice();
        let number = nodes.len();
        if number > 0 {
            let (place, bits) = end_of_path(nodes, hash);
            self.nodes[place].hang(bits, number);
        }
        self.nodes.push_reserved(Node {
            hash,
            even: 0,
            odd: 0,
        });
    }
}
