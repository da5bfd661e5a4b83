// Where a line stands: outside of any block, or in a block behind so many lines.
ghost use Rattle.std.specs.Prelude.{◌≡◌, ◌≤◌, IfOk};
ghost use Rattle.mon_script.specs.Lines.{lines_of};
ghost use Rattle.mon_script.specs.Blocks as spec;

use crate::faults::ScriptKind;
use crate::forms::{BlockMark, LineForm};
use crate::lines::next_line;

/// How many lines a script has at most.
pub const MOST_LINES: u32 = 100_000;

/// How many lines a block has at most.
pub const MOST_LINES_OF_BLOCK: u32 = 16;

/// What a line does to blocks.
#[derive(Clone, Copy)]
pub enum Mark {
    /// It begins one.
    Opens,
    /// It ends one.
    Closes,
    /// It may stand in one.
    Acts,
    /// It may stand outside of them alone.
    Lone,
}

/// What a line of a form does to blocks.
pub fn mark_of(form: &LineForm) -> Mark
    ensures mark { result ≡ spec.mark_of form.now }
{
    match form {
        LineForm::Feed(_) => Mark::Acts,
        LineForm::Pour { .. } => Mark::Acts,
        LineForm::Ask(_) => Mark::Acts,
        LineForm::Control(_) => Mark::Acts,
        LineForm::Follow { .. } => Mark::Lone,
        LineForm::Standing(_) => Mark::Lone,
        LineForm::Block(mark) => block_mark(*mark),
    }
}

fn block_mark(mark: BlockMark) -> Mark
    ensures mark { result ≡ spec.block_mark mark }
{
    match mark {
        BlockMark::Together => Mark::Opens,
        BlockMark::End => Mark::Closes,
    }
}

/// Where the line behind one stands, or why the one may not stand where it does, in front of the text that is left.
pub(crate) fn stand_at(
    number: u32,
    place: Option<u32>,
    mark: Mark,
    left: &[u8],
) -> Result<Option<u32>, ScriptKind>
    ensures next { result ≡ spec.stand_at number place mark (lines_of left.now) }
    ensures few { IfOk result (λ next. number ≤ MOST_LINES) }
{
    let next = match place {
        Some(lines) => in_block(lines, mark)?,
        None => outside(mark, left)?,
    };
    if number > MOST_LINES {
        return Err(ScriptKind::TooManyLines);
    }
    Ok(next)
}

// Where the line behind one stands that stands in a block, behind so many lines.
fn in_block(lines: u32, mark: Mark) -> Result<Option<u32>, ScriptKind>
    ensures next { result ≡ spec.in_block lines mark }
{
    match mark {
        Mark::Opens => Err(ScriptKind::Nested),
        Mark::Closes => {
            if lines == 0 {
                Err(ScriptKind::NoEnd)
            } else {
                Ok(None)
            }
        }
        Mark::Acts => one_more(lines),
        Mark::Lone => {
            one_more(lines)?;
            Err(ScriptKind::NotInBlock)
        }
    }
}

// A block takes another line, unless it is full.
fn one_more(lines: u32) -> Result<Option<u32>, ScriptKind>
    ensures next { result ≡ spec.one_more lines }
{
    if lines < MOST_LINES_OF_BLOCK {
        Ok(Some(lines + 1))
    } else {
        Err(ScriptKind::BlockFull)
    }
}

// Where the line behind one stands that stands outside of blocks.
fn outside(mark: Mark, left: &[u8]) -> Result<Option<u32>, ScriptKind>
    ensures next { result ≡ spec.outside mark (lines_of left.now) }
{
    match mark {
        Mark::Opens => {
            if has_end(left) {
                Ok(Some(0))
            } else {
                Err(ScriptKind::NoEnd)
            }
        }
        Mark::Closes => Err(ScriptKind::NoEnd),
        Mark::Acts => Ok(None),
        Mark::Lone => Ok(None),
    }
}

// Whether a line of a text ends a block.
fn has_end(text: &[u8]) -> bool
    ensures has { result ≡ spec.has_end (lines_of text.now) }
{
    let mut rest = text;
    while let Some((line, left)) = next_line(rest) {
        if line == b"end".as_slice() {
            return true;
        }
        rest = left;
    }
    false
}
