// The run of a script: a store is made by its configuration, and the parts of the script run over it.
ghost use Rattle.std.specs.Prelude.{◌≡◌, ◌≤◌, [], length, IfErr, None, OnOk, Some};
ghost use Rattle.std.specs.List.{AllByRecursion, list_any};
ghost use Rattle.history_book.specs.Seats.{HasEveryNumber};
ghost use Rattle.mon_config.specs.Configs.{IsLimited};
ghost use Rattle.mon_script.specs.Blocks.{AreInBlocks};
ghost use Rattle.mon_script.specs.Lawful.{IsLawfulLine};
ghost use Rattle.mon_store.specs.Beginnings.{IsFirst};
ghost use Rattle.mon_store.specs.Blanks.{IsNamed};
ghost use Rattle.mon_run.specs.within.Dues.{DueSoFar};
ghost use Rattle.mon_run.specs.within.Lines.{LinesHalt, LinesRan, ScriptEnds, TextEnds};
ghost use Rattle.mon_run.specs.within.Stops.{Between, Continues, StopsBetween, noted};
ghost use Rattle.part_runs.specs.PartsDone.{CanSplit};
ghost use Rattle.run_traces.specs.LineDues.{is_due_refused as due_refuses, is_refused as refuses};
ghost use Rattle.run_traces.specs.declared.traces.DueTrace.{DueTrace as Asked};
ghost use Rattle.standing.specs.DueLists.{standing_state};

use crate::blocks::left_behind;
use crate::outside::{Folder, Sink};
use crate::runs::Run;
use crate::stop::Stop;
use know::{Ended, Names};
use mon_config::Config;
use mon_script::{MOST_LINES, ScriptLine, read_script};
use mon_store::{Gate, Pass, Store, StoreBlank};
use run_traces::{DueEnd, DueTrace, LineTrace, runs_go_on, runs_hold};
use standing::Standing;
use std::marker::Brand;
use std::mem;
use std::sync::Wait;
use std::thread::Threads;

impl<'f, 'o, 'l, F: Folder, O: Sink> Run<'f, 'o, 'l, F, O> {
    /// Runs a script under a configuration, and says whether a line was refused.
    pub(crate) fn script<R: Threads + Wait + Sync, G: Gate + Sync>(
        &mut self,
        rt: &R,
        gate: &G,
        config: Config,
        text: &[u8],
    ) -> Result<bool, Stop>
        requires limited { IsLimited config }
        requires fresh { self.old.log.now.traces.items ≡ [] }
        requires none_noted { self.old.log.now.ended ≡ None }
        ensures continues { Continues F.state O.state self.old self.new }
        ensures ended { Between F.state O.state (TextEnds config text.now (noted self.new) result) self.old self.new }
    {
        match read_script(self.alloc, text, &config.topology) {
            Ok(script) => self.spelled(rt, gate, config, script.as_slice()),
            Err(refusal) => {
                drop(config);
                Err(Stop::from(refusal))
            }
        }
    }

    // Makes the tables of a store, and runs the lines of a script over it.
    fn spelled<R: Threads + Wait + Sync, G: Gate + Sync>(
        &mut self,
        rt: &R,
        gate: &G,
        config: Config,
        lines: &[ScriptLine],
    ) -> Result<bool, Stop>
        requires limited { IsLimited config }
        requires lawful { AllByRecursion (IsLawfulLine config.topology) lines.now }
        requires blocks { AreInBlocks None lines.now }
        requires few { length lines.now ≤ MOST_LINES }
        requires fresh { self.old.log.now.traces.items ≡ [] }
        requires none_noted { self.old.log.now.ended ≡ None }
        ensures continues { Continues F.state O.state self.old self.new }
        ensures ended { Between F.state O.state (ScriptEnds config lines.now (noted self.new) result) self.old
            self.new }
    {
        match StoreBlank::new(self.alloc, config) {
            Ok(blank) => self.under_name::<Brand, R, G>(rt, gate, blank, lines),
            Err(_error) => Err(Stop::OutOfMemory),
        }
    }

    // The part that is generic in the store's name.
    fn under_name<N: Names + Send + Sync, R: Threads + Wait + Sync, G: Gate + Sync>(
        &mut self,
        rt: &R,
        gate: &G,
        blank: StoreBlank,
        lines: &[ScriptLine],
    ) -> Result<bool, Stop>
        requires named { IsNamed N.raise N.book N.setting blank }
        requires lawful { AllByRecursion (IsLawfulLine blank.config.topology) lines.now }
        requires blocks { AreInBlocks None lines.now }
        requires few { length lines.now ≤ MOST_LINES }
        requires fresh { self.old.log.now.traces.items ≡ [] }
        requires none_noted { self.old.log.now.ended ≡ None }
        ensures continues { Continues F.state O.state self.old self.new }
        ensures ended { Between F.state O.state
            (ScriptEnds blank.config lines.now (noted self.new) result) self.old self.new }
    {
        match Store::<N>::new(self.alloc, blank) {
            Ok((store, pass)) => self.over(rt, gate, store, pass, lines),
            Err(_error) => Err(Stop::OutOfMemory),
        }
    }

    // Runs the lines over a store, and notes what its caller has seen.
    fn over<N: Names + Send + Sync, R: Threads + Wait + Sync, G: Gate + Sync>(
        &mut self,
        rt: &R,
        gate: &G,
        store: Store<N>,
        pass: Pass<N>,
        lines: &[ScriptLine],
    ) -> Result<bool, Stop>
        requires first { IsFirst store pass }
        requires lawful { AllByRecursion (IsLawfulLine store.topology) lines.now }
        requires blocks { AreInBlocks None lines.now }
        requires few { length lines.now ≤ MOST_LINES }
        requires fresh { self.old.log.now.traces.items ≡ [] }
        ensures continues { Continues F.state O.state self.old self.new }
        ensures ended { Between F.state O.state (ScriptEnds store lines.now (noted self.new) result) self.old self.new }
    {
        runs_go_on();
        runs_hold();
        store.is_set_up();
        let mut pass = pass;
        let ended = self.lines(rt, gate, &store, &mut pass, lines);
        self.note(pass.finish());
        drop(store);
        match ended {
            Ok(()) => Ok(is_one_refused(self.log.traces.as_slice())),
            Err(stop) => Err(stop),
        }
    }

    // Notes what the script's caller had seen at the end.
    fn note(&mut self, ended: Ended)
        ensures continues { Continues F.state O.state self.old self.new }
        ensures same { Between F.state O.state (λ before after. after ≡ before) self.old self.new }
        ensures noted { self.new.log.now.ended ≡ Some ended }
    {
        drop(mem::replace(&mut self.log.ended, Some(ended)));
    }

    // Runs the lines of a script, part after part.
    fn lines<N: Names + Send + Sync, R: Threads + Wait + Sync, G: Gate + Sync>(
        &mut self,
        rt: &R,
        gate: &G,
        store: &Store<N>,
        p: &mut Pass<N>,
        lines: &[ScriptLine],
    ) -> Result<(), Stop>
        requires lawful { AllByRecursion (IsLawfulLine store.now.topology) lines.now }
        requires blocks { AreInBlocks None lines.now }
        requires every { HasEveryNumber p.old.purse }
        requires stock { CanSplit (length lines.now) p.old }
        ensures continues { Continues F.state O.state self.old self.new }
        ensures ran { OnOk result (Between F.state O.state
            (LinesRan store.now lines.now p.old.seen p.new.seen) self.old self.new) }
        ensures stops { IfErr result (StopsBetween F.state O.state
            (LinesHalt store.now lines.now p.old.seen p.new.seen) self.old self.new) }
        ensures due { DueSoFar store.now.schemas lines.now (standing_state [] None) self.old.log.now.traces.items
            self.new.log.now.traces.items }
    {
        let mut standing = Standing::new(self.alloc);
        let mut left = lines;
        while let Some((line, behind)) = left.split_first() {
            self.part(rt, gate, store, p, &mut standing, line, behind)?;
            left = left_behind(line, behind);
        }
        Ok(())
    }
}

// Whether one of the lines was refused, or a query that was due.
fn is_one_refused(traces: &[LineTrace]) -> bool
    ensures refused { result ≡ list_any refuses traces.now }
{
    traces.iter().any(is_refused)
}

fn is_refused(trace: &LineTrace) -> bool
    ensures refused { result ≡ refuses trace.now }
{
    match trace {
        LineTrace::Ticked(dues) => is_one_due_refused(dues.as_slice()),
        LineTrace::Refused(_) => true,
        LineTrace::Fed { .. } => false,
        LineTrace::Poured { .. } => false,
        LineTrace::Asked { .. } => false,
        LineTrace::Followed { .. } => false,
        LineTrace::Controlled(_) => false,
        LineTrace::Done => false,
    }
}

// Whether one of the queries that were due was refused.
fn is_one_due_refused(dues: &[DueTrace]) -> bool
    ensures refused { result ≡ list_any (λ (one : Asked). due_refuses one.end) dues.now }
{
    dues.iter().any(is_due_refused)
}

fn is_due_refused(one: &DueTrace) -> bool
    ensures refused { result ≡ due_refuses one.now.end }
{
    matches!(one.end, DueEnd::Refused(_))
}
