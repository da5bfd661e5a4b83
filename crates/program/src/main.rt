//! The program `mon`: runs the command that its words say over real files and the standard output.
#![tactic(auto)]

use mon_run::{FileFolder, OpenGate, OutSink, run};
use std::io::ErrorKind;
use std::process::ExitCode;
use std::{env, io};

/// The status of a run for which there is not enough memory.
const OUT_OF_MEMORY: u8 = 6;

fn main(rt: HostRuntime) -> ExitCode {
    let alloc = rt.alloc();
    let words = match words(&rt) {
        Ok(words) => words,
        Err(error) if error.kind() == ErrorKind::OutOfMemory => {
            return ExitCode::from(OUT_OF_MEMORY);
        }
        // Words that aren't text are no command.
        Err(_) => Vec::new(alloc),
    };
    let mut folder = FileFolder::new(alloc, &rt);
    let mut output = OutSink::new(&rt);
    let gate = OpenGate;
    let outcome = run(
        &rt,
        alloc,
        words.as_slice(),
        &mut folder,
        &mut output,
        &gate,
    );
    ExitCode::from(outcome.status)
}

// The words behind the program's name.
fn words(rt: &HostRuntime) -> io::Result<Vec<String>> {
    let mut words = Vec::new(rt.alloc());
    for word in env::args(rt)?.skip(1) {
        words.push(word)?;
    }
    Ok(words)
}
