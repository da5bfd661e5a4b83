// Trials: the made input of a number is run from memory, and what is said of that run is written.
ghost use Rattle.std.specs.Prelude.{◌≡◌, ◌==◌, ◌⊎◌, ◌∷◌, ◌++◌, false, true, [], List, Some, map, IfOk, OnOk};
ghost use Rattle.std.specs.Prelude.{string_bytes};
ghost use Rattle.mon_run.specs.Endings.{Follows, is_status, progress, seen_by};
ghost use Rattle.mon_run.specs.Steps.{Rose, ending};
ghost use Rattle.mon_run.specs.Outside.{FolderState, files_of, sink_state};
ghost use Rattle.mon_run.specs.Trials as spec;
ghost use Rattle.mon_run.specs.within.Tried.{EndsWith, RanMade};
ghost use Rattle.run_traces.specs.declared.traces.LineTrace.{LineTrace as Came};

use crate::command;
use crate::outcome::Outcome;
use crate::outside::{CalmFolder, MemoryFile, MemoryFiles, MemorySink, Sink, write_all};
use mon_script::{made_config, made_points, made_script};
use mon_store::Gate;
use mon_value::{ListOf, OutOfMemory, Text};
use run_traces::{LineTrace, LineTraces};
use std::alloc::Global;
use std::sync::Wait;
use std::thread::Threads;
use trials::summary;

/// The status of a run for which there is not enough memory.
const OUT_OF_MEMORY: u8 = 6;

/// The status of a run whose sink failed.
const WRITE_FAILED: u8 = 5;

/// Runs the made input of a number from memory, and writes what is said of that run.
pub(crate) fn run_made<R: Threads + Wait + Sync, O: Sink, G: Gate + Sync>(
    rt: &R,
    alloc: Global,
    number: u64,
    out: &mut O,
    gate: &G,
) -> Outcome
    ensures tries { (folder : FolderState) → spec.Tries number result.status (seen_by result.ended)
        (progress folder (O.state out.old) []) (progress folder (O.state out.new) result.lines) }
    ensures read { (result.status == 4) ≡ false }
    ensures write_failed { result.status ≡ 5 → Rose (O.state out.old).faults (O.state out.new).faults }
    ensures status { is_status result.status ≡ true }
{
    let mut sink = MemorySink::new(alloc, usize::MAX);
    let Ok(outcome) = run_in_memory(rt, alloc, number, &mut sink, gate) else {
        return Outcome {
            status: OUT_OF_MEMORY,
            ended: None,
            lines: LineTraces::new(alloc),
        };
    };
    let Outcome {
        status,
        ended,
        lines,
    } = outcome;
    let status = say(alloc, out, status, lines.as_slice(), sink.written());
    Outcome {
        status,
        ended,
        lines,
    }
}

// Runs the made input of a number from memory.
fn run_in_memory<R: Threads + Wait + Sync, S: Sink, G: Gate + Sync>(
    rt: &R,
    alloc: Global,
    number: u64,
    sink: &mut S,
    gate: &G,
) -> Result<Outcome, OutOfMemory>
    requires fresh { S.state sink.old ≡ sink_state (Some []) 0 }
    ensures ran { IfOk result (λ outcome. RanMade number (S.state sink.new) outcome) }
{
    let files = made_files(alloc, number)?;
    let words = made_words(alloc)?;
    let mut folder = CalmFolder::new(alloc, files);
    Ok(command::run(rt, alloc, words.as_slice(), &mut folder, sink, gate))
}

// Writes what is said of a run that had a status, and gives the status of the whole.
fn say<O: Sink>(alloc: Global, out: &mut O, status: u8, lines: &[LineTrace], printed: &[u8]) -> u8
    ensures said { (folder : FolderState) (ends : List Came) → Follows (spec.trial_end status lines.now printed.now)
        result (progress folder (O.state out.old) ends) (progress folder (O.state out.new) ends) }
    ensures ends { EndsWith result (O.state out.old) (O.state out.new) }
{
    if ran_all(status) {
        return match summary(alloc, lines, printed) {
            Ok(text) => write_text(out, status, text.as_slice()),
            Err(_) => OUT_OF_MEMORY,
        };
    }
    if says_why(status) {
        return write_text(out, status, printed);
    }
    OUT_OF_MEMORY
}

// Writes a text, and gives the status of a run that ends with it.
fn write_text<O: Sink>(out: &mut O, status: u8, text: &[u8]) -> u8
    ensures wrote { (folder : FolderState) (ends : List Came) → Follows (ending status text.now)
        result (progress folder (O.state out.old) ends) (progress folder (O.state out.new) ends) }
    ensures ends { (result ≡ status) ⊎ ((result ≡ 5) × Rose (O.state out.old).faults (O.state out.new).faults) }
{
    match write_all(out, text) {
        Ok(()) => status,
        Err(_) => WRITE_FAILED,
    }
}

// Whether all lines ran.
fn ran_all(status: u8) -> bool
    ensures all { result ≡ spec.ran_all status }
{
    status == 0 || status == 7
}

// Whether a run said why it ended before.
fn says_why(status: u8) -> bool
    ensures says { result ≡ spec.says_why status }
{
    status == 1 || status == 2 || status == 3 || status == 8
}

// The words that run the made input.
fn made_words(alloc: Global) -> Result<Vec<String>, OutOfMemory>
    ensures words { IfOk result (λ words. map string_bytes words.items ≡ spec.made_words) }
{
    let mut words = Vec::new(alloc);
    push_word(alloc, &mut words, "run")?;
    push_word(alloc, &mut words, "config.json")?;
    push_word(alloc, &mut words, "script.txt")?;
    Ok(words)
}

// Adds a word.
fn push_word(alloc: Global, words: &mut Vec<String>, word: &str) -> Result<(), OutOfMemory>
    ensures added { OnOk result (map string_bytes words.new.items
        ≡ map string_bytes words.old.items ++ word.now ∷ []) }
{
    words.push(String::from_str(alloc, word)?)?;
    Ok(())
}

// The files of the made input of a number.
fn made_files(alloc: Global, number: u64) -> Result<MemoryFiles, OutOfMemory>
    ensures files { IfOk result (λ files. files_of files ≡ spec.made_files number) }
{
    let mut files = MemoryFiles::new(alloc);
    push_file(
        alloc,
        &mut files,
        "config.json",
        &made_config(alloc, number)?,
    )?;
    push_file(alloc, &mut files, "p0.csv", &made_points(alloc, number, 0)?)?;
    push_file(alloc, &mut files, "p1.csv", &made_points(alloc, number, 1)?)?;
    push_file(alloc, &mut files, "p2.csv", &made_points(alloc, number, 2)?)?;
    push_file(alloc, &mut files, "p3.csv", &made_points(alloc, number, 3)?)?;
    push_file(
        alloc,
        &mut files,
        "script.txt",
        &made_script(alloc, number)?,
    )?;
    Ok(files)
}

// Adds a file.
fn push_file(
    alloc: Global,
    files: &mut MemoryFiles,
    name: &str,
    text: &Text,
) -> Result<(), OutOfMemory>
    ensures added { OnOk result (files_of files.new ≡ files_of files.old ++ (name.now, text.now) ∷ []) }
{
    let mut content = Vec::new(alloc);
    content.extend_from_slice(text.as_bytes())?;
    let name = Text::from_str(alloc, name)?;
    files.push(MemoryFile { name, content })
}
