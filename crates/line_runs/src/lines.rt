// A line of a script.
ghost use Rattle.std.specs.Prelude.{◌≡◌, ◌≤ℤ◌, pos, [], IfOk};
ghost use Rattle.history_book.specs.Histories.{AreFronts};
ghost use Rattle.line_runs.specs.LineWrites.{LineRanSo, LineWrote, ran_line};
ghost use Rattle.mon_script.specs.Lawful.{IsLawfulForm};
ghost use Rattle.mon_script.specs.Blocks.{mark_of};
ghost use Rattle.mon_script.specs.declared.places.Mark.TheVariants.{Acts};
ghost use Rattle.run_traces.specs.LineAsks.{query_form};
ghost use Rattle.run_traces.specs.RanLines.{no_files};

use crate::asks::{ask, ask_question};
use crate::controls::run_control;
use crate::feeds::feed;
use crate::pours::pour;
use know::Names;
use mon_script::{BlockMark, How, LineForm};
use mon_store::{Pass, Store};
use mon_value::{OutOfMemory, Text};
use run_traces::{LineFiles, LineTrace};
use std::alloc::Global;
use std::sync::Wait;
use std::thread::Threads;

/// What a line came to, and what it prints.
#[derive(Drop)]
pub struct LineRan {
    pub trace: LineTrace,
    pub text: Text,
}

/// Runs a line under its caller that may stand in a block, with what the files hold that it names. Where memory runs out,
/// rows of a feed or a pour may have been written, and a control may have been done.
pub fn run_line<N: Names, R: Threads + Wait + Sync>(
    rt: &R,
    alloc: Global,
    store: &Store<N>,
    p: &mut Pass<N>,
    what: &LineForm,
    content: &LineFiles,
) -> Result<LineRan, OutOfMemory>
    requires lawful { IsLawfulForm store.now.topology what.now }
    requires acts { mark_of what.now ≡ Acts }
    ensures wrote { IfOk result (λ ran. LineRanSo store.now what.now content.now ran p.old p.new) }
    ensures fronts { AreFronts p.old.seen p.new.seen }
{
    match what {
        LineForm::Feed(name) => feed(rt, alloc, store, p, name, content),
        LineForm::Pour { first, second } => pour(rt, alloc, store, p, first, second, content),
        LineForm::Ask(asked) => ask_question(rt, alloc, store, p, asked),
        LineForm::Control(control) => run_control(rt, alloc, store, p, *control),
        LineForm::Follow { .. } => unreachable!(),
        LineForm::Standing(_) => unreachable!(),
        LineForm::Block(BlockMark::Together) => unreachable!(),
        LineForm::Block(BlockMark::End) => unreachable!(),
    }
}

/// Asks a text at a moment, as a line that asks for its table.
pub fn run_query<N: Names, R: Wait>(
    rt: &R,
    alloc: Global,
    store: &Store<N>,
    p: &mut Pass<N>,
    moment: i64,
    text: &Text,
) -> Result<LineRan, OutOfMemory>
    requires moment { pos 0 ≤ℤ moment }
    ensures wrote { IfOk result (λ ran. LineWrote store.now
        (ran_line (query_form moment text.now) no_files ran.trace []) ran.text p.old p.new) }
    ensures fronts { AreFronts p.old.seen p.new.seen }
{
    ask(rt, alloc, store, p, How::Query, moment, text)
}
