// Which texts a pattern matches.
ghost use Rattle.std.specs.Prelude.{◌≡◌, ◌↔◌, IsTrue};
ghost use Rattle.std.specs.Option.{option_copied};
ghost use Rattle.mon_value.specs.Same.{IsMatch, holds_behind, is_match};
ghost use Rattle.mon_expr.specs.Greedy as spec;

use memchr::memmem;
use mon_value::Text;
use mql_ast::Pattern;

/// Whether the whole text is the pattern's pieces in their order, with any texts between them. Of each piece between
/// the first and the last the first place is taken, behind the piece before it. No memory is taken.
pub fn matches(pattern: &Pattern, text: &[u8]) -> bool
    ensures truth { result ≡ is_match pattern.now.pieces text.now }
    ensures exactly { IsTrue result ↔ IsMatch pattern.now.pieces text.now }
{
    matches_pieces(pattern.pieces.as_slice(), text)
}

/// The same of the pieces: the first stands at the front, and the others behind it.
pub(crate) fn matches_pieces(pieces: &[Text], text: &[u8]) -> bool
    ensures truth { result ≡ is_match pieces.now text.now }
{
    let Some((first, others)) = pieces.split_first() else {
        return false;
    };
    if others.is_empty() {
        return first.as_bytes() == text;
    }
    match text.strip_prefix(first.as_bytes()) {
        Some(rest) => ends_in(others, rest),
        None => false,
    }
}

// Whether a text ends in some text that the pieces match.
fn ends_in(pieces: &[Text], text: &[u8]) -> bool
    ensures truth { result ≡ holds_behind (is_match pieces.now) text.now }
{
    let Some((last, between)) = pieces.split_last() else {
        return false;
    };
    match rest_behind_all(between, text) {
        Some(rest) => rest.ends_with(last.as_bytes()),
        None => false,
    }
}

// What stands behind the pieces, each of which is taken at its first place behind the one before it.
fn rest_behind_all<'a>(pieces: &[Text], text: &'a [u8]) -> Option<&'a [u8]>
    ensures rest { option_copied result ≡ spec.rest_behind_all pieces.now text.now }
{
    let mut rest = text;
    for piece in pieces {
        rest = rest_behind(piece, rest)?;
    }
    Some(rest)
}

// What stands behind the first place of a piece.
fn rest_behind<'a>(piece: &Text, text: &'a [u8]) -> Option<&'a [u8]>
    ensures rest { option_copied result ≡ spec.rest_behind piece.now text.now }
{
    let place = memmem::find(text, piece.as_bytes())?;
    Some(&text[place + piece.as_bytes().len()..])
}
