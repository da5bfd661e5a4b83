// The hash of a key.
ghost use Rattle.std.specs.Prelude.{◌≡◌};
ghost use Rattle.insertion_map.specs.WordHasher as spec;

use std::hash::Hasher;

/// SipHash-1-3 (Aumasson and Bernstein 2012) over words: what one call writes goes in as words of eight bytes, and what
/// is left, if anything, as a last word with its count in front, so that no write waits for the next one to fill a word.
/// With its keys fixed it still takes as many trials as there are hashes to find a key of a given hash.
#[derive(Clone, Copy)]
pub struct WordHasher {
    v0: u64,
    v1: u64,
    v2: u64,
    v3: u64,
}

impl WordHasher {
    #[inline(always)]
    fn round(&mut self)
        ensures { self.new ≡ spec.round self.old }
    {
        self.v0 = self.v0.wrapping_add(self.v1);
        self.v2 = self.v2.wrapping_add(self.v3);
        self.v1 = self.v1.rotate_left(13) ^ self.v0;
        self.v3 = self.v3.rotate_left(16) ^ self.v2;
        self.v0 = self.v0.rotate_left(32);
        self.v2 = self.v2.wrapping_add(self.v1);
        self.v0 = self.v0.wrapping_add(self.v3);
        self.v1 = self.v1.rotate_left(17) ^ self.v2;
        self.v3 = self.v3.rotate_left(21) ^ self.v0;
        self.v2 = self.v2.rotate_left(32);
    }

    #[inline(always)]
    fn absorb(&mut self, word: u64)
        ensures { self.new ≡ spec.absorb self.old word }
    {
        self.v3 ^= word;
        self.round();
        self.v0 ^= word;
    }
}

// A word that begins so, with the bytes behind.
#[inline(always)]
fn word_of(start: u64, bytes: &[u8]) -> u64
    ensures { result ≡ spec.word_of start bytes.now }
{
    let mut word = start;
    for byte in bytes {
        word = word << 8 | *byte as u64;
    }
    word
}

impl Default for WordHasher {
    ghost is_default = { λ s. s ≡ spec.initial };

    fn default() -> WordHasher {
        WordHasher {
            v0: 0x736f_6d65_7073_6575,
            v1: 0x646f_7261_6e64_6f6d,
            v2: 0x6c79_6765_6e65_7261,
            v3: 0x7465_6462_7974_6573,
        }
    }
}

impl Hasher for WordHasher {
    ghost write = { spec.write };

    ghost finish = { spec.finish };

    fn write(&mut self, bytes: &[u8]) {
        let mut rest = bytes;
        while let Some((word, behind)) = rest.split_first_chunk::<8>() {
            self.absorb(u64::from_le_bytes(*word));
            rest = behind;
        }
        if !rest.is_empty() {
            self.absorb(word_of(rest.len() as u64, rest));
        }
    }

    fn finish(&self) -> u64 {
        let mut s = *self;
        s.v2 ^= 0xFF;
        s.round();
        s.round();
        s.round();
        s.v0 ^ s.v1 ^ s.v2 ^ s.v3
    }
}
