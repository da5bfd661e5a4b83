// A line alone.
ghost use Rattle.std.specs.Prelude.{◌≡◌, ◌≤ℤ◌, pos, false, true, IfOk, OnOk};
ghost use Rattle.history_book.specs.Histories.{AreFronts};
ghost use Rattle.history_book.specs.Seats.{HasEveryNumber};
ghost use Rattle.mon_script.specs.Follows.{AreLawfulMoments};
ghost use Rattle.mon_script.specs.Lawful.{IsLawfulForm};
ghost use Rattle.mon_script.specs.StandingLines.{IsLawfulStanding};
ghost use Rattle.mon_script.specs.Blocks.{mark_of};
ghost use Rattle.mon_script.specs.declared.places.Mark.TheVariants.{Acts, Lone};
ghost use Rattle.part_runs.specs.PartsDone.{ActedAlone, AloneDid};
ghost use Rattle.run_traces.specs.LineDues.{is_ticked};
ghost use Rattle.run_traces.specs.RanLines.{acts_by};

use crate::ticks::tick;
use know::Names;
use line_runs::{LineRan, add_standing, follow, run_line};
use mon_script::{BlockMark, LineForm, Mark, Moments, StandingLine, mark_of};
use mon_store::{Pass, Store};
use mon_value::{OutOfMemory, Text};
use run_traces::{LineFiles, runs_go_on, texts_stay};
use standing::Standing;
use std::alloc::Global;
use std::sync::Wait;
use std::thread::Threads;

/// Runs a line under the script's caller, which knows the queries that stand. Where memory runs out, rows of a feed or a pour
/// may have been written, a leaf may have been switched or recovered, and a query may stand.
pub fn run_alone<N: Names, R: Threads + Wait + Sync>(
    rt: &R,
    alloc: Global,
    store: &Store<N>,
    p: &mut Pass<N>,
    standing: &mut Standing,
    what: &LineForm,
    content: &LineFiles,
) -> Result<LineRan, OutOfMemory>
    requires lawful { IsLawfulForm store.now.topology what.now }
    requires acts { acts_by (mark_of what.now) ≡ true }
    requires every { HasEveryNumber p.old.purse }
    ensures ran { IfOk result (λ ran. AloneDid store.now what.now content.now ran p.old p.new standing.old standing.new) }
    ensures stock { OnOk result (p.new.purse.stock ≡ p.old.purse.stock) }
    ensures fronts { AreFronts p.old.seen p.new.seen }
{
    match mark_of(what) {
        Mark::Acts => acting(rt, alloc, store, p, what, content),
        Mark::Lone => lone(rt, alloc, store, p, standing, what, content),
        Mark::Opens => unreachable!(),
        Mark::Closes => unreachable!(),
    }
}

// A line that may stand in a block.
fn acting<N: Names, R: Threads + Wait + Sync>(
    rt: &R,
    alloc: Global,
    store: &Store<N>,
    p: &mut Pass<N>,
    what: &LineForm,
    content: &LineFiles,
) -> Result<LineRan, OutOfMemory>
    requires lawful { IsLawfulForm store.now.topology what.now }
    requires acts { mark_of what.now ≡ Acts }
    requires every { HasEveryNumber p.old.purse }
    ensures ran { IfOk result (λ ran. ActedAlone store.now what.now content.now ran p.old p.new) }
    ensures plain { IfOk result (λ ran. is_ticked ran.trace ≡ false) }
    ensures stock { OnOk result (p.new.purse.stock ≡ p.old.purse.stock) }
    ensures fronts { AreFronts p.old.seen p.new.seen }
{
    runs_go_on();
    texts_stay();
    p.is_sound();
    let ran = run_line(rt, alloc, store, p, what, content);
    p.is_sound();
    ran
}

// A line that may stand outside of blocks alone.
fn lone<N: Names, R: Wait>(
    rt: &R,
    alloc: Global,
    store: &Store<N>,
    p: &mut Pass<N>,
    standing: &mut Standing,
    what: &LineForm,
    content: &LineFiles,
) -> Result<LineRan, OutOfMemory>
    requires lawful { IsLawfulForm store.now.topology what.now }
    requires lone { mark_of what.now ≡ Lone }
    requires every { HasEveryNumber p.old.purse }
    ensures ran { IfOk result (λ ran. AloneDid store.now what.now content.now ran p.old p.new standing.old standing.new) }
    ensures stock { OnOk result (p.new.purse.stock ≡ p.old.purse.stock) }
    ensures fronts { AreFronts p.old.seen p.new.seen }
{
    match what {
        LineForm::Standing(line) => { stand_or_tick(rt, alloc, store, p, standing, line, content) }
        LineForm::Follow { moments, text } => following(
            rt, alloc, store, p, *moments, text, content,
        ),
        LineForm::Feed(_) => unreachable!(),
        LineForm::Pour { .. } => unreachable!(),
        LineForm::Ask(_) => unreachable!(),
        LineForm::Control(_) => unreachable!(),
        LineForm::Block(BlockMark::Together) => unreachable!(),
        LineForm::Block(BlockMark::End) => unreachable!(),
    }
}

// A query that is followed.
fn following<N: Names, R: Wait>(
    rt: &R,
    alloc: Global,
    store: &Store<N>,
    p: &mut Pass<N>,
    moments: Moments,
    text: &Text,
    content: &LineFiles,
) -> Result<LineRan, OutOfMemory>
    requires moments { AreLawfulMoments moments }
    requires every { HasEveryNumber p.old.purse }
    ensures ran { IfOk result (λ ran. ActedAlone store.now (LineForm.Follow moments text.now) content.now ran
        p.old p.new) }
    ensures plain { IfOk result (λ ran. is_ticked ran.trace ≡ false) }
    ensures stock { OnOk result (p.new.purse.stock ≡ p.old.purse.stock) }
    ensures fronts { AreFronts p.old.seen p.new.seen }
{
    runs_go_on();
    texts_stay();
    p.is_sound();
    let ran = follow(rt, alloc, store, p, moments, text);
    p.is_sound();
    ran
}

// A query is to stand, or those that are due are asked.
fn stand_or_tick<N: Names, R: Wait>(
    rt: &R,
    alloc: Global,
    store: &Store<N>,
    p: &mut Pass<N>,
    standing: &mut Standing,
    line: &StandingLine,
    content: &LineFiles,
) -> Result<LineRan, OutOfMemory>
    requires lawful { IsLawfulStanding line.now }
    requires every { HasEveryNumber p.old.purse }
    ensures ran { IfOk result (λ ran. AloneDid store.now (LineForm.Standing line.now) content.now ran p.old p.new
        standing.old standing.new) }
    ensures stock { OnOk result (p.new.purse.stock ≡ p.old.purse.stock) }
    ensures fronts { AreFronts p.old.seen p.new.seen }
{
    match line {
        StandingLine::Stand { name, period, text } => {
            stand(alloc, store, p, standing, name, *period, text, content)
        }
        StandingLine::Tick(moment) => tick(rt, alloc, store, p, standing, *moment, content),
    }
}

// A query is to stand.
fn stand<N: Names>(
    alloc: Global,
    store: &Store<N>,
    p: &mut Pass<N>,
    standing: &mut Standing,
    name: &Text,
    period: i64,
    text: &Text,
    content: &LineFiles,
) -> Result<LineRan, OutOfMemory>
    requires period { pos 1 ≤ℤ period }
    requires every { HasEveryNumber p.old.purse }
    ensures ran { IfOk result (λ ran. AloneDid store.now
        (LineForm.Standing (StandingLine.Stand name.now period text.now)) content.now ran p.old p.new standing.old standing.new) }
    ensures same { p.new ≡ p.old }
{
    runs_go_on();
    texts_stay();
    p.is_sound();
    let config = store.config();
    add_standing(
        alloc,
        &config.topology,
        &config.schemas,
        standing,
        name,
        period,
        text,
    )
}
