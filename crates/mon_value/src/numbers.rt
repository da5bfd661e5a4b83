// Numbers as points and scripts spell them.
ghost use Rattle.std.specs.Prelude.{◌≡◌, pos, option_map};
ghost use Rattle.mon_value.specs.Values.{number_of, numeral_of};

/// The most digits that a number is written with. Any number of so many digits fits an `i128`.
const MOST_DIGITS: usize = 32;

/// The number that a text spells: an optional `-` and 1 to 32 ASCII digits, of which any may be
/// zeros in front. None where the text is anything else, such as `+1` or ` 1`.
pub fn read_number(text: &[u8]) -> Option<i128>
    ensures number { result ≡ number_of text.now }
{
    match text.split_first() {
        Some((b'-', digits)) => read_numeral(digits).map(|magnitude| -magnitude),
        _ => read_numeral(text),
    }
}

// The number that 1 to 32 digits spell.
fn read_numeral(digits: &[u8]) -> Option<i128>
    ensures number { result ≡ option_map pos (numeral_of digits.now) }
{
    if digits.is_empty() || digits.len() > MOST_DIGITS {
        return None;
    }
    let mut number = 0u128;
    for digit in digits {
        if !digit.is_ascii_digit() {
            return None;
        }
        number = number * 10 + u128::from(*digit - b'0');
    }
    Some(number as i128)
}
