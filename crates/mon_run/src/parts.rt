// The run of a part of a script: a line alone, or the lines of a block.
ghost use Rattle.std.specs.Prelude.{◌≡◌, ◌≤◌, ◌<◌, ◌+◌, ◌∷◌, ◌++◌, ℕ, [], length, map, vec_capacity, vec_len, IfErr};
ghost use Rattle.std.specs.Prelude.{◌⊎◌, true, IfOk, None, OnErr, OnOk, Some};
ghost use Rattle.std.specs.List.{AllByRecursion};
ghost use Rattle.history_book.specs.Seats.{HasEveryNumber};
ghost use Rattle.line_runs.specs.declared.lines.LineRan.{LineRan as Ran};
ghost use Rattle.mon_script.specs.Blocks.{AreInBlocks, mark_of};
ghost use Rattle.mon_script.specs.Lawful.{IsLawfulForm, IsLawfulLine};
ghost use Rattle.mon_script.specs.declared.places.Mark.TheVariants.{Acts};
ghost use Rattle.mon_run.specs.Endings.{Did};
ghost use Rattle.mon_run.specs.within.Blocks.{block_behind as block, left_behind as left};
ghost use Rattle.mon_run.specs.within.Dues.{AloneDue, BlockDue, DueSoFar, DueTo};
ghost use Rattle.mon_run.specs.within.Lines.{AloneHalts, AloneRan, BlockHalts, BlockRan, FileRead, FileStops};
ghost use Rattle.mon_run.specs.within.Lines.{FilesRead};
ghost use Rattle.mon_run.specs.within.Lines.{FilesStop, LinesHalt, LinesRanTo, Noted, TextsStop, block_traces, prints};
ghost use Rattle.mon_run.specs.within.Stops.{Between, Continues, StopsBetween};
ghost use Rattle.part_runs.specs.PartsDone.{CanSplit};
ghost use Rattle.run_traces.specs.RanLines.{acts_by};

use crate::blocks::block_behind;
use crate::outside::{Folder, Sink};
use crate::runs::Run;
use crate::stop::Stop;
use know::Names;
use line_runs::LineRan;
use mon_script::{LineForm, MOST_LINES_OF_BLOCK, ScriptLine};
use mon_store::{Gate, Pass, Store};
use mon_value::{ListOf, Text};
use part_runs::{LineRans, run_alone, run_beside};
use run_traces::{LineFiles, LineTrace};
use standing::Standing;
use std::sync::Wait;
use std::thread::Threads;

/// How many lines a block has at most, with the one that begins it and the one that ends it.
const MOST_OF_BLOCK: usize = 18;

impl<'f, 'o, 'l, F: Folder, O: Sink> Run<'f, 'o, 'l, F, O> {
    /// Runs the part that a line begins, in front of the lines behind it.
    pub(crate) fn part<N: Names + Send + Sync, R: Threads + Wait + Sync, G: Gate + Sync>(
        &mut self,
        rt: &R,
        gate: &G,
        store: &Store<N>,
        p: &mut Pass<N>,
        standing: &mut Standing,
        line: &ScriptLine,
        behind: &[ScriptLine],
    ) -> Result<(), Stop>
        requires lawful { AllByRecursion (IsLawfulLine store.now.topology) (line.now ∷ behind.now) }
        requires blocks { AreInBlocks None (line.now ∷ behind.now) }
        requires every { HasEveryNumber p.old.purse }
        requires stock { CanSplit (1 + length behind.now) p.old }
        ensures continues { Continues F.state O.state self.old self.new }
        ensures ran { OnOk result (Between F.state O.state (LinesRanTo store.now (line.now ∷ behind.now)
            (left line.now behind.now) p.old.seen p.new.seen) self.old self.new) }
        ensures stops { IfErr result (StopsBetween F.state O.state
            (LinesHalt store.now (line.now ∷ behind.now) p.old.seen p.new.seen) self.old self.new) }
        ensures due { OnOk result (DueTo store.now.schemas (line.now ∷ behind.now) (left line.now behind.now)
            standing.old standing.new self.old.log.now.traces.items self.new.log.now.traces.items) }
        ensures due_so_far { OnErr result (DueSoFar store.now.schemas (line.now ∷ behind.now) standing.old
            self.old.log.now.traces.items self.new.log.now.traces.items) }
        ensures every { OnOk result (HasEveryNumber p.new.purse) }
        ensures stock { OnOk result (CanSplit (length (left line.now behind.now)) p.new) }
    {
        match block_behind(line, behind) {
            Some((lines, _left)) => self.block(rt, gate, store, p, lines),
            None => self.alone(rt, store, p, standing, &line.what),
        }
    }

    // Runs a line alone, and writes its text.
    fn alone<N: Names, R: Threads + Wait + Sync>(
        &mut self,
        rt: &R,
        store: &Store<N>,
        p: &mut Pass<N>,
        standing: &mut Standing,
        what: &LineForm,
    ) -> Result<(), Stop>
        requires lawful { IsLawfulForm store.now.topology what.now }
        requires acts { acts_by (mark_of what.now) ≡ true }
        requires every { HasEveryNumber p.old.purse }
        ensures continues { Continues F.state O.state self.old self.new }
        ensures ran { OnOk result (Between F.state O.state
            (AloneRan store.now what.now p.old.seen p.new.seen) self.old self.new) }
        ensures stops { IfErr result (StopsBetween F.state O.state
            (AloneHalts store.now what.now p.old.seen p.new.seen) self.old self.new) }
        ensures due { OnOk result (AloneDue store.now.schemas what.now standing.old standing.new
            self.old.log.now.traces.items self.new.log.now.traces.items) }
        ensures due_so_far { OnErr result ((self.new.log.now.traces.items ≡ self.old.log.now.traces.items)
            ⊎ AloneDue store.now.schemas what.now standing.old standing.new self.old.log.now.traces.items
            self.new.log.now.traces.items) }
        ensures every { OnOk result (HasEveryNumber p.new.purse) }
        ensures stock { OnOk result (p.new.purse.stock ≡ p.old.purse.stock) }
    {
        let content = self.content(what)?;
        let ran = run_alone(rt, self.alloc, store, p, standing, what, &content)?;
        let LineRan { trace, text } = ran;
        self.end(trace)?;
        self.write(text.as_bytes())
    }

    // Runs the lines of a block beside each other, and writes their texts.
    fn block<N: Names + Send + Sync, R: Threads + Wait + Sync, G: Gate + Sync>(
        &mut self,
        rt: &R,
        gate: &G,
        store: &Store<N>,
        p: &mut Pass<N>,
        lines: &[ScriptLine],
    ) -> Result<(), Stop>
        requires lawful { AllByRecursion (IsLawfulLine store.now.topology) lines.now }
        requires acts { AllByRecursion (λ line. mark_of line.what ≡ Acts) lines.now }
        requires few { length lines.now ≤ MOST_LINES_OF_BLOCK }
        requires every { HasEveryNumber p.old.purse }
        requires stock { CanSplit (length lines.now) p.old }
        ensures continues { Continues F.state O.state self.old self.new }
        ensures ran { OnOk result (Between F.state O.state
            (BlockRan store.now lines.now p.old.seen p.new.seen) self.old self.new) }
        ensures stops { IfErr result (StopsBetween F.state O.state
            (BlockHalts store.now lines.now p.old.seen p.new.seen) self.old self.new) }
        ensures due { OnOk result (BlockDue lines.now self.old.log.now.traces.items self.new.log.now.traces.items) }
        ensures due_so_far { OnErr result ((self.new.log.now.traces.items ≡ self.old.log.now.traces.items)
            ⊎ BlockDue lines.now self.old.log.now.traces.items self.new.log.now.traces.items) }
        ensures every { OnOk result (HasEveryNumber p.new.purse) }
        ensures stock { OnOk result ((n : ℕ) → CanSplit (length lines.now + n) p.old → CanSplit n p.new) }
    {
        let contents = self.contents(lines)?;
        let mut texts = self.room()?;
        let rans = run_beside(rt, self.alloc, store, gate, p, lines, contents.as_slice())?;
        self.came(&mut texts, rans);
        self.texts(texts.as_slice())
    }

    // Makes room for what the lines of a block come to, and for their texts.
    fn room(&mut self) -> Result<Vec<Text>, Stop>
        ensures continues { Continues F.state O.state self.old self.new }
        ensures same { Between F.state O.state (λ before after. after ≡ before) self.old self.new }
        ensures stops { IfErr result (λ stop. stop ≡ Stop.OutOfMemory) }
        ensures traces { OnOk result (vec_len self.new.log.now.traces + MOST_OF_BLOCK
            ≤ vec_capacity self.new.log.now.traces) }
        ensures none { IfOk result (λ texts. texts.items ≡ []) }
        ensures texts { IfOk result (λ texts. vec_len texts + MOST_OF_BLOCK ≤ vec_capacity texts) }
    {
        self.log.traces.reserve(MOST_OF_BLOCK)?;
        let mut texts = Vec::new(self.alloc);
        texts.reserve(MOST_OF_BLOCK)?;
        Ok(texts)
    }

    // Notes what the lines of a block came to, and takes their texts.
    fn came(&mut self, texts: &mut Vec<Text>, rans: LineRans)
        requires traces { vec_len self.old.log.now.traces + (length rans + 2) ≤ vec_capacity self.old.log.now.traces }
        requires texts { vec_len texts.old + length rans ≤ vec_capacity texts.old }
        ensures continues { Continues F.state O.state self.old self.new }
        ensures noted { Between F.state O.state (Noted (block_traces (map (λ (ran : Ran). ran.trace) rans)))
            self.old self.new }
        ensures texts { texts.new.items ≡ texts.old.items ++ map (λ (ran : Ran). ran.text) rans }
    {
        note_block(&mut self.log.traces, texts, rans);
    }

    // Reads the files of lines, in their order.
    fn contents(&mut self, lines: &[ScriptLine]) -> Result<ListOf<LineFiles>, Stop>
        ensures continues { Continues F.state O.state self.old self.new }
        ensures log { self.new.log.now ≡ self.old.log.now }
        ensures count { IfOk result (λ contents. length contents ≡ length lines.now) }
        ensures read { IfOk result (λ contents. Between F.state O.state (FilesRead lines.now contents)
            self.old self.new) }
        ensures stops { IfErr result (StopsBetween F.state O.state (FilesStop lines.now) self.old self.new) }
    {
        let mut contents = ListOf::new(self.alloc);
        for line in lines {
            let content = self.content(&line.what)?;
            contents.push(content)?;
        }
        Ok(contents)
    }

    // Reads the files of a line, if it names any.
    fn content(&mut self, what: &LineForm) -> Result<LineFiles, Stop>
        ensures continues { Continues F.state O.state self.old self.new }
        ensures log { self.new.log.now ≡ self.old.log.now }
        ensures read { IfOk result (λ content. Between F.state O.state (FileRead what.now content) self.old self.new) }
        ensures stops { IfErr result (StopsBetween F.state O.state (FileStops what.now) self.old self.new) }
    {
        match what {
            LineForm::Feed(name) => self.one_file(name),
            LineForm::Pour { first, second } => self.two_files(first, second),
            LineForm::Ask(_) => Ok(LineFiles::none(self.alloc)),
            LineForm::Follow { .. } => Ok(LineFiles::none(self.alloc)),
            LineForm::Control(_) => Ok(LineFiles::none(self.alloc)),
            LineForm::Standing(_) => Ok(LineFiles::none(self.alloc)),
            LineForm::Block(_) => Ok(LineFiles::none(self.alloc)),
        }
    }

    // Reads the file of a feed.
    fn one_file(&mut self, name: &Text) -> Result<LineFiles, Stop>
        ensures continues { Continues F.state O.state self.old self.new }
        ensures log { self.new.log.now ≡ self.old.log.now }
        ensures read { IfOk result (λ content. Between F.state O.state (FileRead (LineForm.Feed name.now) content)
            self.old self.new) }
        ensures stops { IfErr result (StopsBetween F.state O.state (FileStops (LineForm.Feed name.now))
            self.old self.new) }
    {
        let content = self.read(name.as_str())?;
        Ok(LineFiles::one(self.alloc, ListOf::from_vec(content)))
    }

    // Reads the files of a pour, one after the other.
    fn two_files(&mut self, first: &Text, second: &Text) -> Result<LineFiles, Stop>
        ensures continues { Continues F.state O.state self.old self.new }
        ensures log { self.new.log.now ≡ self.old.log.now }
        ensures read { IfOk result (λ content. Between F.state O.state
            (FileRead (LineForm.Pour first.now second.now) content) self.old self.new) }
        ensures stops { IfErr result (StopsBetween F.state O.state (FileStops (LineForm.Pour first.now second.now))
            self.old self.new) }
    {
        let one = self.read(first.as_str())?;
        match self.read(second.as_str()) {
            Ok(other) => Ok(LineFiles {
                first: ListOf::from_vec(one),
                second: ListOf::from_vec(other),
            }),
            Err(stop) => {
                drop(one);
                Err(stop)
            }
        }
    }

    // Writes texts, one after another.
    fn texts(&mut self, texts: &[Text]) -> Result<(), Stop>
        ensures continues { Continues F.state O.state self.old self.new }
        ensures folder { F.state self.new.folder.now ≡ F.state self.old.folder.now }
        ensures log { self.new.log.now ≡ self.old.log.now }
        ensures wrote { OnOk result (Between F.state O.state (Did (prints texts.now)) self.old self.new) }
        ensures stops { IfErr result (StopsBetween F.state O.state (TextsStop texts.now) self.old self.new) }
    {
        for text in texts {
            self.write(text.as_bytes())?;
        }
        Ok(())
    }
}

// Notes what the lines of a block came to, and what begins it and what ends it; and takes their texts.
fn note_block(traces: &mut Vec<LineTrace>, texts: &mut Vec<Text>, rans: LineRans)
    requires traces { vec_len traces.old + (length rans + 2) ≤ vec_capacity traces.old }
    requires texts { vec_len texts.old + length rans ≤ vec_capacity texts.old }
    ensures traces { traces.new.items ≡ traces.old.items ++ block_traces (map (λ (ran : Ran). ran.trace) rans) }
    ensures texts { texts.new.items ≡ texts.old.items ++ map (λ (ran : Ran). ran.text) rans }
{
    traces.push_reserved(LineTrace::Done);
    for ran in rans.into_vec() {
        note_line(traces, texts, ran);
    }
    traces.push_reserved(LineTrace::Done);
}

// Notes what a line came to, and takes its text.
fn note_line(traces: &mut Vec<LineTrace>, texts: &mut Vec<Text>, ran: LineRan)
    requires traces { vec_len traces.old < vec_capacity traces.old }
    requires texts { vec_len texts.old < vec_capacity texts.old }
    ensures traces { traces.new.items ≡ traces.old.items ++ ran.trace ∷ [] }
    ensures texts { texts.new.items ≡ texts.old.items ++ ran.text ∷ [] }
    ensures room { (vec_len traces.new ≡ vec_len traces.old + 1) × (vec_capacity traces.new ≡ vec_capacity traces.old) }
    ensures place { (vec_len texts.new ≡ vec_len texts.old + 1) × (vec_capacity texts.new ≡ vec_capacity texts.old) }
{
    let LineRan { trace, text } = ran;
    traces.push_reserved(trace);
    texts.push_reserved(text);
}
