// How the lines of a script are cut into parts.
ghost use Rattle.std.specs.Prelude.{◌≡◌, option_map};
ghost use Rattle.mon_run.specs.within.Blocks as spec;

use mon_script::{Mark, ScriptLine, cut_block, mark_of};

/// The lines of the block that a line begins, if it begins one, and those behind its end.
pub(crate) fn block_behind<'a>(
    line: &ScriptLine,
    behind: &'a [ScriptLine],
) -> Option<(&'a [ScriptLine], &'a [ScriptLine])>
    ensures cut { option_map (λ cut. (cut.0.now, cut.1.now)) result ≡ spec.block_behind line.now behind.now }
{
    match mark_of(&line.what) {
        Mark::Opens => cut_block(behind),
        Mark::Closes => None,
        Mark::Acts => None,
        Mark::Lone => None,
    }
}

/// The lines behind a part: behind the line, or behind the end of its block.
pub(crate) fn left_behind<'a>(line: &ScriptLine, behind: &'a [ScriptLine]) -> &'a [ScriptLine]
    ensures left { result.now ≡ spec.left_behind line.now behind.now }
{
    match block_behind(line, behind) {
        Some((_block, left)) => left,
        None => behind,
    }
}
