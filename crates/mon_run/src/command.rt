// The run of a command: a configuration, and a script with its files of points, or a schedule.
ghost use Rattle.std.specs.Prelude.{◌≡◌, true, [], map, string_bytes};
ghost use Rattle.mon_run.specs.Endings.{LastFailed, Runs, is_status, progress, seen_by};
ghost use Rattle.mon_run.specs.Steps.{Rose};

use crate::outcome::Outcome;
use crate::outside::{Folder, Sink};
use crate::runs::{Log, Run};
use mon_store::Gate;
use mon_value::ListOf;
use std::alloc::Global;
use std::sync::Wait;
use std::thread::Threads;

/// Runs a command: `run` or `weave`, the name of a configuration, and the name of a script or of a schedule; or `gen`
/// and a number, whose input it writes piece by piece. The lines of a script run in order, those of a block beside each
/// other, held where the gate holds them; and the texts of each part go to the sink before the next one begins. The
/// text of a schedule goes there as one. A run that ends before its last line says why in a line of its own.
pub fn run<R: Threads + Wait + Sync, F: Folder, O: Sink, G: Gate + Sync>(
    rt: &R,
    alloc: Global,
    words: &[String],
    folder: &mut F,
    out: &mut O,
    gate: &G,
) -> Outcome
    ensures ran { Runs (map string_bytes words.now) result.status (seen_by result.ended)
        (progress (F.state folder.old) (O.state out.old) [])
        (progress (F.state folder.new) (O.state out.new) result.lines) }
    ensures cannot_read { result.status ≡ 4 → LastFailed (F.state folder.old) (F.state folder.new) }
    ensures write_failed { result.status ≡ 5 → Rose (O.state out.old).faults (O.state out.new).faults }
    ensures status { is_status result.status ≡ true }
{
    let mut log = Log::new(alloc);
    let mut run = Run {
        alloc,
        folder,
        out,
        log: &mut log,
    };
    let ended = run.command(rt, gate, words);
    let status = run.close(ended);
    let Log { traces, ended } = log;
    Outcome {
        status,
        ended,
        lines: ListOf::from_vec(traces),
    }
}
