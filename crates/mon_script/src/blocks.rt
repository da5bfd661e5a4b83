// Blocks of a script that was read.
ghost use Rattle.std.specs.Prelude.{◌≡◌, option_map};
ghost use Rattle.mon_script.specs.Blocks as spec;

use crate::places::{Mark, mark_of};
use crate::script::ScriptLine;

/// The lines of a block, of which the first is the first one here, and those behind its end.
pub fn cut_block(lines: &[ScriptLine]) -> Option<(&[ScriptLine], &[ScriptLine])>
    ensures cut { option_map (λ cut. (cut.0.now, cut.1.now)) result ≡ spec.cut_block lines.now }
{
    for (i, line) in lines.iter().enumerate() {
        if ends_block(line) {
            return Some((&lines[..i], &lines[i + 1..]));
        }
    }
    None
}

// Whether a line ends a block.
fn ends_block(line: &ScriptLine) -> bool
    ensures ends { result ≡ spec.ends_block line.now }
{
    match mark_of(&line.what) {
        Mark::Opens => false,
        Mark::Closes => true,
        Mark::Acts => false,
        Mark::Lone => false,
    }
}
