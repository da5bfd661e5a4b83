// Tables as they were printed, line by line.
ghost use Rattle.std.specs.Prelude.{◌≡◌, ◌≤◌, drop, length};
ghost use Rattle.mon_script.specs.Lines.{lines_of};
ghost use Rattle.trials.specs.Reading.{read_of};
ghost use Rattle.trials.specs.Summaries.{table_behind};

use crate::cells::{last_cell, sum_with};
use mon_script::next_line;

/// A table that was read behind its header: the sum of its last column, the line that says how many rows it has, and
/// the text behind that.
#[derive(Clone, Copy)]
pub(crate) struct Table<'a> {
    pub sum: Option<i128>,
    pub count: &'a [u8],
    pub rest: &'a [u8],
}

/// The table at the front of a text, which begins with its header.
pub(crate) fn table_at(text: &[u8]) -> Table<'_>
    ensures table { read_of result ≡ table_behind (lines_of text.now) }
{
    let mut sum = Some(0);
    let mut rest = lines_behind(text, 1);
    while let Some((line, behind)) = next_line(rest) {
        rest = behind;
        match last_cell(line) {
            Some(cell) => sum = sum_with(sum, cell),
            None => return Table {
                sum,
                count: line,
                rest,
            },
        }
    }
    Table {
        sum,
        count: rest,
        rest,
    }
}

/// The text behind so many lines.
pub(crate) fn lines_behind(text: &[u8], count: usize) -> &[u8]
    ensures behind { lines_of result.now ≡ drop count (lines_of text.now) }
    ensures within { length result.now ≤ length text.now }
{
    let mut rest = text;
    for _line in 0..count {
        let Some((_, behind)) = next_line(rest) else {
            return rest;
        };
        rest = behind;
    }
    rest
}
