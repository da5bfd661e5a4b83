// Which texts are lawful as names.
ghost use Rattle.std.specs.Prelude.{◌≡◌};
ghost use Rattle.std.specs.List.{list_all};
ghost use Rattle.mon_schema.specs.Names as spec;

use crate::limits::{LONGEST_METRIC_NAME, LONGEST_NAME};

// Whether a name may begin with the byte.
fn is_name_start(byte: u8) -> bool
    ensures start { result ≡ spec.is_name_start byte }
{
    matches!(byte, b'A'..=b'Z' | b'a'..=b'z' | b'_')
}

// Whether a name may have the byte.
fn is_name_byte(byte: u8) -> bool
    ensures byte { result ≡ spec.is_name_byte byte }
{
    is_name_start(byte) || matches!(byte, b'0'..=b'9')
}

// Whether a part of a metric's name may have the byte.
fn is_part_byte(byte: u8) -> bool
    ensures byte { result ≡ spec.is_part_byte byte }
{
    is_name_byte(byte) || byte == b'.'
}

// Whether a name may have these bytes behind its first.
fn are_name_bytes(bytes: &[u8]) -> bool
    ensures bytes { result ≡ list_all spec.is_name_byte bytes.now }
{
    bytes.iter().all(|byte| is_name_byte(*byte))
}

/// Whether a text is lawful as the name of a schema, a zone, a leaf or a standing query: 1 to 64
/// letters, digits or `_`, of which the first is no digit.
#[tactic(auto, unfolding(crate::specs::Names::is_name))]
pub fn is_name(name: &[u8]) -> bool
    ensures name { result ≡ spec.is_name name.now }
{
    match name.split_first() {
        Some((first, rest)) => {
            is_name_start(*first) && are_name_bytes(rest) && rest.len() < LONGEST_NAME
        }
        None => false,
    }
}

/// Whether a text is lawful as the name of a field or a column: a name other than `time`, `true` and
/// `false`.
#[tactic(auto, unfolding(crate::specs::Names::is_column_name))]
pub(crate) fn is_column_name(name: &[u8]) -> bool
    ensures name { result ≡ spec.is_column_name name.now }
{
    is_name(name)
        && name != b"time".as_slice()
        && name != b"true".as_slice()
        && name != b"false".as_slice()
}

/// Whether a text is lawful as a metric's name: at most 256 bytes, one part or more of letters,
/// digits, `_` and `.`, each behind a slash.
#[tactic(auto, unfolding(crate::specs::Names::is_metric_name))]
pub(crate) fn is_metric_name(name: &[u8]) -> bool
    ensures name { result ≡ spec.is_metric_name name.now }
{
    match name.split_first() {
        Some((first, rest)) => {
            rest.len() < LONGEST_METRIC_NAME && *first == b'/' && follows_slash(rest)
        }
        None => false,
    }
}

// Whether the bytes may stand behind the slash that a metric's name begins with.
fn follows_slash(bytes: &[u8]) -> bool
    ensures parts { result ≡ spec.follows_slash bytes.now }
{
    let mut behind_slash = true;
    for byte in bytes {
        if *byte == b'/' && !behind_slash {
            behind_slash = true;
        } else if is_part_byte(*byte) {
            behind_slash = false;
        } else {
            return false;
        }
    }
    !behind_slash
}
