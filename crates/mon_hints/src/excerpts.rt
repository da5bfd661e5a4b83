// What is looked for in a value.
ghost use Rattle.std.specs.Prelude.{◌≡◌, [], ◌∷◌, ◌++◌, IfOk, OnOk};
ghost use Rattle.mon_value.specs.Values.{truth_text};
ghost use Rattle.mon_hints.specs.Hints.{pattern_excerpts, value_excerpts, windows};

use itoa::Buffer;
use mon_value::{FieldValue, ListOf, OutOfMemory, Texts};
use std::alloc::Global;

/// The byte that stands twice in front of a text.
pub const FRONT_MARK: u8 = 1;

/// The byte that stands twice behind a text.
pub const BACK_MARK: u8 = 2;

const FRONT: [u8; 2] = [FRONT_MARK, FRONT_MARK];

const BACK: [u8; 2] = [BACK_MARK, BACK_MARK];

/// A part of a value: three bytes of a text between its marks, or the whole text of another value.
pub type Excerpt = ListOf<u8>;

/// Excerpts in the order in which they stand in their value.
pub type Excerpts = ListOf<Excerpt>;

/// The texts between the cuts of a pattern, in order.
pub type Pieces = Texts;

/// The excerpts of a pattern: the windows of three bytes of each of its pieces, of which the first has two marks in
/// front of it and the last two behind it. Every text that the pattern matches has them all.
pub fn excerpts_of(alloc: Global, pieces: &Pieces) -> Result<Excerpts, OutOfMemory>
    ensures excerpts { IfOk result (λ excerpts. excerpts ≡ pattern_excerpts pieces.now) }
{
    let mut excerpts = Excerpts::new(alloc);
    let Some((last, others)) = pieces.as_slice().split_last() else {
        return Ok(excerpts);
    };
    let mut front = FRONT.as_slice();
    for piece in others {
        push_windows(alloc, &mut excerpts, front, piece.as_bytes(), &[])?;
        front = &[];
    }
    push_windows(alloc, &mut excerpts, front, last.as_bytes(), &BACK)?;
    Ok(excerpts)
}

/// The excerpts of a field's value: the windows of a text between its marks, or the whole text of another value.
pub fn excerpts_of_value(alloc: Global, value: &FieldValue) -> Result<Excerpts, OutOfMemory>
    ensures excerpts { IfOk result (λ excerpts. excerpts ≡ value_excerpts value.now) }
{
    let mut excerpts = Excerpts::new(alloc);
    match value {
        FieldValue::Int(number) => {
            let mut buffer = Buffer::new();
            push_excerpt(alloc, &mut excerpts, buffer.format(*number).as_bytes())?;
        }
        FieldValue::Bool(truth) => push_excerpt(alloc, &mut excerpts, truth_bytes(*truth))?,
        FieldValue::Text(text) => {
            push_windows(alloc, &mut excerpts, &FRONT, text.as_bytes(), &BACK)?;
        }
    }
    Ok(excerpts)
}

/// The text of a truth value.
pub(crate) fn truth_bytes(truth: bool) -> &'static [u8]
    ensures text { result.now ≡ truth_text truth }
{
    if truth { b"true" } else { b"false" }
}

// Adds the windows of a piece between marks.
fn push_windows(
    alloc: Global,
    excerpts: &mut Excerpts,
    front: &[u8],
    piece: &[u8],
    back: &[u8],
) -> Result<(), OutOfMemory>
    ensures added { OnOk result (excerpts.new ≡ excerpts.old ++ windows (front.now ++ piece.now ++ back.now)) }
{
    let mut bytes = Vec::from_slice(alloc, front)?;
    bytes.extend_from_slice(piece)?;
    bytes.extend_from_slice(back)?;
    for window in bytes.as_slice().windows(3) {
        push_excerpt(alloc, excerpts, window)?;
    }
    Ok(())
}

fn push_excerpt(alloc: Global, excerpts: &mut Excerpts, bytes: &[u8]) -> Result<(), OutOfMemory>
    ensures added { OnOk result (excerpts.new ≡ excerpts.old ++ bytes.now ∷ []) }
{
    excerpts.push(Excerpt::from_vec(Vec::from_slice(alloc, bytes)?))
}
