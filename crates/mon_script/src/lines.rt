// The lines of a text.
ghost use Rattle.std.specs.Prelude.{◌≡◌, ◌∷◌, [], ◌<◌, length, option_map, IfSome, MatchOption};
ghost use Rattle.mon_script.specs.Lines as spec;

/// The first line of a text without its end, and what stands behind it. An empty text has no line.
pub fn next_line(text: &[u8]) -> Option<(&[u8], &[u8])>
    ensures first { MatchOption result (text.now ≡ [])
        (λ cut. spec.lines_of text.now ≡ cut.0.now ∷ spec.lines_of cut.1.now) }
    ensures shorter { IfSome result (λ cut. length cut.1.now < length text.now) }
{
    match cut_at(text, b'\n') {
        Some((line, left)) => Some((without_return(line), left)),
        None => whole_line(text),
    }
}

// A text without a line feed is one line, unless it is empty.
fn whole_line(text: &[u8]) -> Option<(&[u8], &[u8])>
    ensures none { MatchOption result (text.now ≡ [])
        (λ cut. (cut.0.now ≡ text.now) × ((cut.1.now ≡ []) × (0 < length text.now))) }
{
    if text.is_empty() {
        return None;
    }
    Some(text.split_at(text.len()))
}

// A line without the carriage return at its end.
fn without_return(line: &[u8]) -> &[u8]
    ensures line { result.now ≡ spec.without_return line.now }
{
    match line.split_last() {
        Some((last, front)) => { if *last == b'\r' { front } else { line } }
        None => line,
    }
}

/// What stands before the first of a byte, and what stands behind it.
pub fn cut_at(text: &[u8], mark: u8) -> Option<(&[u8], &[u8])>
    ensures cut { option_map (λ cut. (cut.0.now, cut.1.now)) result ≡ spec.cut_at mark text.now }
{
    for (i, byte) in text.iter().enumerate() {
        if *byte == mark {
            return Some((&text[..i], &text[i + 1..]));
        }
    }
    None
}

/// An empty line does nothing, and so does one that begins with `#`.
pub fn is_remark(line: &[u8]) -> bool
    ensures remark { result ≡ spec.is_remark line.now }
{
    match line.split_first() {
        Some((first, _)) => *first == b'#',
        None => true,
    }
}
