// Where hint words stand.
ghost use Rattle.std.specs.Prelude.{◌≡◌};
ghost use Rattle.mon_hints.specs.Places as spec;

use mon_value::Zone;

/// Where a hint word stands.
#[derive(Clone, Copy, PartialEq, Eq)]
pub enum Place {
    /// At the root, with a bit for each zone.
    Root,
    /// In a zone, with a bit for each of its leaves.
    Zone(Zone),
}

impl Place {
    /// The number of a bucket's word in a table that has so many words for each place: the root's stand first, and
    /// then those of the zones.
    pub fn word_index(self, bucket: u32, buckets: u32) -> usize
        ensures index { result ≡ spec.word_index buckets self bucket }
    {
        let place = match self {
            Place::Root => 0,
            Place::Zone(zone) => zone.0 as usize + 1,
        };
        place * buckets as usize + bucket as usize
    }
}
