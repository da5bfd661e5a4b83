//! A map whose entries keep the order in which their keys were inserted, and whose look-ups no choice of keys can slow.
//!
//! It takes the place of a hash table where keys come from outside. A table has as many places as it has entries, so
//! whoever knows its hash can make keys that all fall into one place, and each look-up then goes over all of them.
//! Here a key's hash is a path through a binary tree, bit by bit (a digital search tree; Coffman and Eve 1970, Knuth
//! 6.2): an entry lies at the end of a path of at most 64 steps, about log2 of the number of entries where nobody
//! chose the keys, unless whole hashes of 64 bits are equal, which with SipHash nobody can bring about.
#![tactic(auto)]

mod hash;
mod map;
mod tree;

pub use hash::WordHasher;
pub use map::InsertionMap;
// A crate can name a map in a contract only if the types of its fields are exported.
#[doc(hidden)]
pub use tree::{HashTree, Node};
