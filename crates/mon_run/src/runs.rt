// A run: where it reads and writes, and what it has come to.
ghost use Rattle.std.specs.Bool.{⊤};
ghost use Rattle.std.specs.Prelude.{◌≡◌, ◌≤◌, ◌∷◌, ◌++◌, [], false, length, map, IfErr, IfOk, None, OnErr, OnOk};
ghost use Rattle.std.specs.Prelude.{string_bytes};
ghost use Rattle.mon_config.specs.Numbers.{AreLawful};
ghost use Rattle.mon_run.specs.Endings.{Did, CommandTells, RunTells};
ghost use Rattle.mon_run.specs.Plans as plan;
ghost use Rattle.mon_run.specs.Steps as step;
ghost use Rattle.mon_run.specs.Steps.{Ask, End, Write};
ghost use Rattle.mon_run.specs.within.Lines.{NamedTells, TextTells};
ghost use Rattle.mon_run.specs.within.Stops.{Between, Closes, ConfigStops, Continues, Ends, HasConfig};
ghost use Rattle.mon_run.specs.within.Stops.{ReadStops, StopsBetween, Weaves};
ghost use Rattle.mon_run.specs.within.Stops.{WriteStops, files_plan, named_plan, noted, words_plan};
ghost use Rattle.mon_run.specs.within.Stops.{is_silent as silent, status_of as code};
ghost use Rattle.weave_core.specs.Schedules.{IsPrinted};

use crate::outside::{Folder, FolderFault, Sink, write_all};
use crate::schedules::weave;
use crate::stop::Stop;
use crate::texts::own_text;
use crate::words::{Verb, command_in, made_number};
use know::Ended;
use mon_config::{Config, read_config};
use mon_script::MadeInput;
use mon_store::Gate;
use mon_value::{LONGEST_FILE, OutOfMemory, Text};
use run_traces::LineTrace;
use std::alloc::Global;
use std::sync::Wait;
use std::thread::Threads;

/// What a run has come to: what the lines that ran came to, and what its script's caller had seen at the end, where a
/// store was made.
#[derive(Drop)]
pub(crate) struct Log {
    pub traces: Vec<LineTrace>,
    pub ended: Option<Ended>,
}

impl Log {
    /// Nothing so far.
    pub fn new(alloc: Global) -> Log
        ensures traces { result.traces.items ≡ [] }
        ensures ended { result.ended ≡ None }
    {
        Log {
            traces: Vec::new(alloc),
            ended: None,
        }
    }
}

/// A run: it reads of a folder, writes to a sink, and keeps what it has come to.
#[derive(Drop)]
pub(crate) struct Run<'f, 'o, 'l, F: Folder, O: Sink> {
    pub alloc: Global,
    pub folder: &'f mut F,
    pub out: &'o mut O,
    pub log: &'l mut Log,
}

impl<'f, 'o, 'l, F: Folder, O: Sink> Run<'f, 'o, 'l, F, O> {
    /// Runs the command that the words say, and says whether a line of a script was refused.
    pub fn command<R: Threads + Wait + Sync, G: Gate + Sync>(
        &mut self,
        rt: &R,
        gate: &G,
        words: &[String],
    ) -> Result<bool, Stop>
        requires fresh { self.old.log.now.traces.items ≡ [] }
        requires none_noted { self.old.log.now.ended ≡ None }
        ensures continues { Continues F.state O.state self.old self.new }
        ensures ended { Between F.state O.state (Weaves (words_plan (map string_bytes words.now))
            plan.IsWovenBy (RunTells (map string_bytes words.now)) (noted self.new) result) self.old self.new }
    {
        match made_number(words) {
            Some(number) => self.made(number),
            None => self.stored(rt, gate, words),
        }
    }

    // Writes the input of a number, piece by piece.
    fn made(&mut self, number: u64) -> Result<bool, Stop>
        ensures continues { Continues F.state O.state self.old self.new }
        ensures folder { F.state self.new.folder.now ≡ F.state self.old.folder.now }
        ensures left { self.new.log.now.ended ≡ self.old.log.now.ended }
        ensures ended { Between F.state O.state (Ends (plan.made_plan number) result) self.old self.new }
    {
        let mut input = MadeInput::new(number);
        while let Some(piece) = input.next(self.alloc)? {
            self.write(piece.as_bytes())?;
        }
        Ok(false)
    }

    // Runs a command over stored files.
    fn stored<R: Threads + Wait + Sync, G: Gate + Sync>(
        &mut self,
        rt: &R,
        gate: &G,
        words: &[String],
    ) -> Result<bool, Stop>
        requires none { plan.made_number (map string_bytes words.now) ≡ None }
        requires fresh { self.old.log.now.traces.items ≡ [] }
        requires none_noted { self.old.log.now.ended ≡ None }
        ensures continues { Continues F.state O.state self.old self.new }
        ensures ended { Between F.state O.state (Weaves (words_plan (map string_bytes words.now))
            plan.IsWovenBy (RunTells (map string_bytes words.now)) (noted self.new) result) self.old self.new }
    {
        match command_in(words) {
            Some((verb, config, file)) => self.files(rt, gate, verb, config, file),
            None => Err(Stop::Usage),
        }
    }

    // Runs a script or a schedule under a configuration, by the names of their files.
    fn files<R: Threads + Wait + Sync, G: Gate + Sync>(
        &mut self,
        rt: &R,
        gate: &G,
        verb: Verb,
        config: &str,
        file: &str,
    ) -> Result<bool, Stop>
        requires fresh { self.old.log.now.traces.items ≡ [] }
        requires none_noted { self.old.log.now.ended ≡ None }
        ensures continues { Continues F.state O.state self.old self.new }
        ensures ended { Between F.state O.state (Weaves (files_plan (plan.command verb config.now file.now))
            plan.IsWovenBy (CommandTells (plan.command verb config.now file.now)) (noted self.new) result)
            self.old self.new }
    {
        let config = self.configuration(config)?;
        self.file_under(rt, gate, verb, config, file)
    }

    // Reads a configuration by the name of its file.
    fn configuration(&mut self, name: &str) -> Result<Config, Stop>
        ensures continues { Continues F.state O.state self.old self.new }
        ensures log { self.new.log.now ≡ self.old.log.now }
        ensures lawful { IfOk result (λ config. AreLawful config.buckets config.limit config.range_points) }
        ensures config { IfOk result (λ config. Between F.state O.state (HasConfig name.now config) self.old self.new) }
        ensures stops { IfErr result (StopsBetween F.state O.state (ConfigStops name.now) self.old self.new) }
    {
        let text = self.read(name)?;
        let config = read_config(self.alloc, text.as_slice())?;
        Ok(config)
    }

    // Runs a script or a schedule under a configuration, by the name of its file.
    fn file_under<R: Threads + Wait + Sync, G: Gate + Sync>(
        &mut self,
        rt: &R,
        gate: &G,
        verb: Verb,
        config: Config,
        name: &str,
    ) -> Result<bool, Stop>
        requires lawful { AreLawful config.buckets config.limit config.range_points }
        requires fresh { self.old.log.now.traces.items ≡ [] }
        requires none_noted { self.old.log.now.ended ≡ None }
        ensures continues { Continues F.state O.state self.old self.new }
        ensures ended { Between F.state O.state (Weaves (named_plan config verb name.now)
            (λ reads. IsPrinted config (plan.first_content reads)) (NamedTells verb config)
            (noted self.new) result) self.old self.new }
    {
        match self.read(name) {
            Ok(content) => self.text_under(rt, gate, verb, config, content.as_slice()),
            Err(stop) => {
                drop(config);
                Err(stop)
            }
        }
    }

    // Runs a script or a schedule under a configuration.
    fn text_under<R: Threads + Wait + Sync, G: Gate + Sync>(
        &mut self,
        rt: &R,
        gate: &G,
        verb: Verb,
        config: Config,
        text: &[u8],
    ) -> Result<bool, Stop>
        requires lawful { AreLawful config.buckets config.limit config.range_points }
        requires fresh { self.old.log.now.traces.items ≡ [] }
        requires none_noted { self.old.log.now.ended ≡ None }
        ensures continues { Continues F.state O.state self.old self.new }
        ensures ended { Between F.state O.state (Weaves (λ of. plan.file_plan of config verb text.now)
            (λ reads. IsPrinted config text.now) (TextTells verb config text.now)
            (noted self.new) result) self.old self.new }
    {
        match verb {
            Verb::Run => self.script(rt, gate, config, text),
            Verb::Weave => self.schedule(config, text),
        }
    }

    // Runs a schedule under a configuration. Its text is written as one.
    fn schedule(&mut self, config: Config, text: &[u8]) -> Result<bool, Stop>
        requires lawful { AreLawful config.buckets config.limit config.range_points }
        requires none_noted { self.old.log.now.ended ≡ None }
        ensures continues { Continues F.state O.state self.old self.new }
        ensures left { self.new.log.now.ended ≡ self.old.log.now.ended }
        ensures ended { Between F.state O.state (Weaves (λ of reads. plan.schedule_plan of.woven)
            (λ reads. IsPrinted config text.now) (λ early reads histories traces. ⊤)
            (noted self.new) result) self.old self.new }
    {
        let woven = weave(self.alloc, config, text)?;
        self.write(woven.text.as_bytes())?;
        match woven.fault {
            Some(fault) => Err(Stop::Schedule(fault)),
            None => Ok(false),
        }
    }

    // Notes what a line came to.
    pub(crate) fn end(&mut self, trace: LineTrace) -> Result<(), Stop>
        ensures continues { Continues F.state O.state self.old self.new }
        ensures left { self.new.log.now.ended ≡ self.old.log.now.ended }
        ensures ended { OnOk result (Between F.state O.state (Did (End trace ∷ [])) self.old self.new) }
        ensures kept { OnErr result (Between F.state O.state (Did []) self.old self.new) }
        ensures stops { IfErr result (λ stop. stop ≡ Stop.OutOfMemory) }
    {
        push_trace(&mut self.log.traces, trace)?;
        Ok(())
    }

    // Reads a file of the run.
    pub(crate) fn read(&mut self, name: &str) -> Result<Vec<u8>, Stop>
        ensures continues { Continues F.state O.state self.old self.new }
        ensures log { self.new.log.now ≡ self.old.log.now }
        ensures bounded { IfOk result (λ content. length content.items ≤ LONGEST_FILE) }
        ensures asked { IfOk result (λ content. Between F.state O.state (Did (Ask name.now content.items ∷ []))
            self.old self.new) }
        ensures stops { IfErr result (StopsBetween F.state O.state (ReadStops name.now) self.old self.new) }
    {
        let kept = Text::from_str(self.alloc, name)?;
        match self.folder.read(self.alloc, name, LONGEST_FILE) {
            Ok(content) => Ok(content),
            Err(FolderFault::Failed) => Err(Stop::CannotRead(kept)),
            Err(FolderFault::TooLong) => Err(Stop::TooLong(kept)),
            Err(FolderFault::OutOfMemory) => Err(Stop::OutOfMemory),
        }
    }

    // Writes a text of the run.
    pub(crate) fn write(&mut self, text: &[u8]) -> Result<(), Stop>
        ensures continues { Continues F.state O.state self.old self.new }
        ensures folder { F.state self.new.folder.now ≡ F.state self.old.folder.now }
        ensures log { self.new.log.now ≡ self.old.log.now }
        ensures wrote { OnOk result (Between F.state O.state (Did (Write text.now ∷ [])) self.old self.new) }
        ensures stops { IfErr result (StopsBetween F.state O.state (WriteStops text.now) self.old self.new) }
    {
        match write_all(self.out, text) {
            Ok(()) => Ok(()),
            Err(_) => Err(Stop::WriteFailed),
        }
    }

    // Writes the text of its own that a run ends with, unless a write failed or memory ran out, and
    // gives its status.
    fn say(&mut self, stop: &Stop) -> u8
        ensures continues { Continues F.state O.state self.old self.new }
        ensures folder { F.state self.new.folder.now ≡ F.state self.old.folder.now }
        ensures log { self.new.log.now ≡ self.old.log.now }
        ensures closes { Between F.state O.state (Closes (Err stop.now) result) self.old self.new }
    {
        if is_silent(stop) {
            return status_of(stop);
        }
        let Ok(text) = own_text(self.alloc, stop) else {
            return status_of(&Stop::OutOfMemory);
        };
        match self.write(text.as_bytes()) {
            Ok(()) => status_of(stop),
            Err(failed) => status_of(&failed),
        }
    }

    /// Ends the run: it says why it stopped, where it did, and gives its status.
    pub fn close(&mut self, ended: Result<bool, Stop>) -> u8
        ensures continues { Continues F.state O.state self.old self.new }
        ensures folder { F.state self.new.folder.now ≡ F.state self.old.folder.now }
        ensures log { self.new.log.now ≡ self.old.log.now }
        ensures closes { Between F.state O.state (Closes ended result) self.old self.new }
    {
        match ended {
            Ok(refused) => end_status(refused),
            Err(stop) => self.say(&stop),
        }
    }
}

// What a line came to, behind the others.
fn push_trace(traces: &mut Vec<LineTrace>, trace: LineTrace) -> Result<(), OutOfMemory>
    ensures added { OnOk result (traces.new.items ≡ traces.old.items ++ trace ∷ []) }
    ensures kept { OnErr result (traces.new.items ≡ traces.old.items) }
{
    traces.push(trace)?;
    Ok(())
}

// The status of a run whose lines all ran.
fn end_status(refused: bool) -> u8
    ensures status { result ≡ step.end_status refused }
{
    if refused { 7 } else { 0 }
}

// Whether a run that stops says nothing: a write failed, or memory ran out.
fn is_silent(stop: &Stop) -> bool
    ensures silent { result ≡ silent stop.now }
{
    matches!(stop, Stop::WriteFailed | Stop::OutOfMemory)
}

// The status of a run that stops.
fn status_of(stop: &Stop) -> u8
    ensures status { result ≡ code stop.now }
{
    match stop {
        Stop::Usage => 1,
        Stop::Config(_) => 2,
        Stop::Script(_) | Stop::Schedule(_) => 3,
        Stop::CannotRead(_) => 4,
        Stop::WriteFailed => 5,
        Stop::OutOfMemory => 6,
        Stop::TooLong(_) => 8,
    }
}
