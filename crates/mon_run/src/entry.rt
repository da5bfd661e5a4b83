// The run of the words behind the program's name.
ghost use Rattle.std.specs.Prelude.{◌≡◌, true, [], map, string_bytes};
ghost use Rattle.mon_run.specs.Endings.{LastFailed, is_status, progress, seen_by};
ghost use Rattle.mon_run.specs.Steps.{Rose};
ghost use Rattle.mon_run.specs.Trials.{IsRun};

use crate::command;
use crate::outcome::Outcome;
use crate::outside::{Folder, Sink};
use crate::trial::run_made;
use crate::words::trial_number;
use mon_store::Gate;
use std::alloc::Global;
use std::sync::Wait;
use std::thread::Threads;

/// Runs words: `run` or `weave`, the name of a configuration, and the name of a script or of a schedule; or `gen` and a
/// number, whose input it writes piece by piece; or `trial` and a number, whose input it runs from memory, and whose
/// summary it then writes. The lines of a script run in order, those of a block beside each other, held where the gate
/// holds them; and the texts of each part go to the sink before the next one begins. The text of a schedule goes there
/// as one. A run that ends before its last line says why in a line of its own.
pub fn run<R: Threads + Wait + Sync, F: Folder, O: Sink, G: Gate + Sync>(
    rt: &R,
    alloc: Global,
    words: &[String],
    folder: &mut F,
    out: &mut O,
    gate: &G,
) -> Outcome
    ensures ran { IsRun (map string_bytes words.now) result.status (seen_by result.ended)
        (progress (F.state folder.old) (O.state out.old) [])
        (progress (F.state folder.new) (O.state out.new) result.lines) }
    ensures cannot_read { result.status ≡ 4 → LastFailed (F.state folder.old) (F.state folder.new) }
    ensures write_failed { result.status ≡ 5 → Rose (O.state out.old).faults (O.state out.new).faults }
    ensures status { is_status result.status ≡ true }
{
    match trial_number(words) {
        Some(number) => run_made(rt, alloc, number, out, gate),
        None => command::run(rt, alloc, words, folder, out, gate),
    }
}
