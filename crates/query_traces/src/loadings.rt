// Words that are loaded one after another.
ghost use Rattle.std.specs.Prelude.{◌≡◌, IfOk};
ghost use Rattle.query_traces.specs.Loadings as spec;

use crate::answers::{Cuts, Resolveds};
use crate::asks::Seen;
use mon_hints::Words;
use mon_value::OutOfMemory;
use std::alloc::Global;
use typed_trees::Plan;

/// The words that were loaded so far, and what had been seen by the first of them.
#[derive(Drop)]
pub struct Loading {
    pub words: Words,
    pub seen: Seen,
}

impl Loading {
    /// No word yet.
    pub fn none(alloc: Global) -> Loading
        ensures none { result ≡ spec.no_word }
    {
        Loading {
            words: Words::new(alloc),
            seen: Seen {
                cuts: Cuts::new(alloc),
                firsts: Resolveds::new(alloc),
            },
        }
    }

    /// Whether there is a word for each bucket of the plan.
    pub fn is_whole(&self, plan: &Plan) -> bool
        ensures whole { result ≡ spec.is_whole plan.now self.now }
    {
        self.words.len() >= plan.buckets.len()
    }

    /// The bucket whose word is loaded next.
    pub fn next_bucket(&self, plan: &Plan) -> u32
        ensures bucket { result ≡ spec.next_bucket plan.now self.now }
    {
        match plan.buckets.as_slice().get(self.words.len()) {
            Some(bucket) => *bucket,
            None => 0,
        }
    }

    /// One word more.
    pub fn with_word(self, word: u64, seen: Seen) -> Result<Loading, OutOfMemory>
        ensures loaded { IfOk result (λ loading. loading ≡ spec.with_word self word seen) }
    {
        let mut words = self.words;
        let first = words.is_empty();
        words.push(word)?;
        if first {
            Ok(Loading { words, seen })
        } else {
            Ok(Loading {
                words,
                seen: self.seen,
            })
        }
    }
}
