// The hint words.
ghost use Rattle.std.specs.Prelude.{◌≡◌, ◌<◌, IfOk};
ghost use Rattle.core_store.specs.HintWords as spec;
ghost use Rattle.core_store.specs.HintWords.{HasWord, with_child_bit, hint_word_at};

use mon_hints::Place;
use mon_value::OutOfMemory;
use std::alloc::Global;
use std::marker::Model;

/// A word of each place for each bucket.
#[derive(Drop)]
pub struct HintWords {
    words: Vec<u64>,
    buckets: u32,
}

impl Model for HintWords {
    ghost use Rattle.core_store.specs.HintWords.{HintTable};

    ghost Value = { HintTable };

    ghost view = { λ hints. record { words = hints.words.items; buckets = hints.buckets } };
}

impl HintWords {
    /// Words in which no bit is set, of the root and so many zones, for so many buckets.
    pub fn new(alloc: Global, zones: u32, buckets: u32) -> Result<HintWords, OutOfMemory>
        ensures none { IfOk result (λ hints. hints ≡ spec.no_words zones buckets) }
    {
        let count = (zones as usize + 1) * buckets as usize;
        Ok(HintWords {
            words: vec![in alloc; 0; count]?,
            buckets,
        })
    }

    /// The word of a place and a bucket.
    pub fn word(&self, place: Place, bucket: u32) -> u64
        requires there { HasWord self.now place bucket }
        ensures word { result ≡ hint_word_at self.now place bucket }
    {
        self.words[place.word_index(bucket, self.buckets)]
    }

    /// Sets the bit of a child in the word of a place and a bucket.
    pub fn raise(&mut self, place: Place, child: u32, bucket: u32)
        requires there { HasWord self.old place bucket }
        requires child { child < 64 }
        ensures raised { self.new ≡ with_child_bit self.old place child bucket }
    {
        let index = place.word_index(bucket, self.buckets);
        self.words[index] |= 1 << child;
    }
}
