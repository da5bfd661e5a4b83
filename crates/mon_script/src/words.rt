// Words of a line.
ghost use Rattle.std.specs.Prelude.{◌≡◌, ◌≤ℤ◌, pos, IfSome};
ghost use Rattle.mon_script.specs.Lines as spec;

use mon_value::read_number;

/// The moment that a word spells, in seconds from the epoch.
pub fn moment_of(word: &[u8]) -> Option<i64>
    ensures moment { result ≡ spec.moment_of word.now }
    ensures lawful { IfSome result (λ moment. pos 0 ≤ℤ moment) }
{
    let number = read_number(word)?;
    if number < 0 || number > i128::from(i64::MAX) {
        return None;
    }
    Some(number as i64)
}
