// Of lengths the greater ones.
ghost use Rattle.std.specs.Prelude.{◌≡◌, length};
ghost use Rattle.mon_value.specs.Histories.{farther_each};

/// Puts the greater one of two lengths in each place. No memory is taken.
pub(crate) fn join_lengths(mine: &mut [u64], theirs: &[u64])
    requires alike { length mine.old ≡ length theirs.now }
    ensures joined { mine.new ≡ farther_each (λ length. length) mine.old theirs.now }
{
    for (i, other) in theirs.iter().enumerate() {
        if mine[i] < *other {
            mine[i] = *other;
        }
    }
}
