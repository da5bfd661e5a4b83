// Texts in quotes and patterns.
ghost use Rattle.std.specs.Prelude.{◌≡◌, ◌++◌, ◌∷◌, [], OnOk, string_bytes, if◌then◌else◌};
ghost use Rattle.std.specs.Char.{encode_utf8};
ghost use Rattle.mql_ast.specs.Printed.{escaped_text, is_text_mark, is_pattern_mark, quotation, pattern_signs};
ghost use Rattle.mql_ast.specs.Marks.{marks_of};

use crate::predicates::Pieces;
use mon_value::Text;
use std::alloc::AllocError;

/// The signs that stand behind a backslash.
#[derive(Clone, Copy)]
pub enum Marks {
    Text,
    Pattern,
}

impl Marks {
    fn has(self, sign: char) -> bool
        ensures { result ≡ marks_of self sign }
    {
        match self {
            Marks::Text => is_text_mark(sign),
            Marks::Pattern => is_pattern_mark(sign),
        }
    }
}

fn is_text_mark(sign: char) -> bool
    ensures { result ≡ is_text_mark sign }
{
    sign == '"' || sign == '\\'
}

fn is_pattern_mark(sign: char) -> bool
    ensures { result ≡ is_pattern_mark sign }
{
    sign == '.'
        || sign == '*'
        || sign == '+'
        || sign == '?'
        || sign == '('
        || sign == ')'
        || sign == '['
        || sign == ']'
        || sign == '{'
        || sign == '}'
        || sign == '|'
        || sign == '^'
        || sign == '$'
        || sign == '\\'
}

// The text, with a backslash before each of its marks.
fn push_escaped(out: &mut String, text: &str, marks: Marks) -> Result<(), AllocError>
    ensures { OnOk result (string_bytes out.new ≡ string_bytes out.old ++ escaped_text (marks_of marks) text.now) }
{
    for sign in text.chars() {
        push_sign(out, sign, marks)?;
    }
    Ok(())
}

// A sign, behind a backslash where it is a mark.
fn push_sign(out: &mut String, sign: char, marks: Marks) -> Result<(), AllocError>
    ensures { OnOk result (string_bytes out.new
        ≡ string_bytes out.old ++ ((if marks_of marks sign then 92 ∷ [] else []) ++ encode_utf8 sign)) }
{
    if marks.has(sign) {
        out.push('\\')?;
    }
    out.push(sign)
}

/// The text in quotes.
pub fn push_quoted(out: &mut String, text: &str) -> Result<(), AllocError>
    ensures { OnOk result (string_bytes out.new ≡ string_bytes out.old ++ quotation text.now) }
{
    out.push_str("\"")?;
    push_escaped(out, text, Marks::Text)?;
    out.push_str("\"")
}

/// The signs of a pattern, in quotes.
pub fn push_pattern(out: &mut String, pieces: &Pieces) -> Result<(), AllocError>
    ensures { OnOk result (string_bytes out.new ≡ string_bytes out.old ++ quotation (pattern_signs pieces.now)) }
{
    let mut signs = String::new(*out.allocator());
    push_signs(&mut signs, pieces.as_slice())?;
    push_quoted(out, signs.as_str())
}

fn push_signs(signs: &mut String, pieces: &[Text]) -> Result<(), AllocError>
    ensures { OnOk result (string_bytes signs.new ≡ string_bytes signs.old ++ pattern_signs pieces.now) }
{
    let Some((first, rest)) = pieces.split_first() else {
        return Ok(());
    };
    push_escaped(signs, first.as_str(), Marks::Pattern)?;
    for piece in rest {
        signs.push_str(".*")?;
        push_escaped(signs, piece.as_str(), Marks::Pattern)?;
    }
    Ok(())
}
