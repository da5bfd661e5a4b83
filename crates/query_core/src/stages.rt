// How far a query is, and what each answer makes of that.
ghost use Rattle.std.specs.Prelude.{◌≡◌, drop, IfOk, OnOk};
ghost use Rattle.std.specs.Option.{option_copied};
ghost use Rattle.query_traces.specs.Rounds.{IsSmall, round_of, with_slot};
ghost use Rattle.query_core.specs.Courses.{left, with_found};
ghost use Rattle.query_traces.specs.Loadings.{no_word, with_word};
ghost use Rattle.query_core.specs.Program as spec;

use crate::courses::{Course, cuts_seen};
use mon_fold::{LeafAnswer, LeafAnswers};
use mon_value::{Leaf, OutOfMemory, Range, Slot};
use plan_split::let_in;
use query_traces::{
    Answer, Area, Loading, Look, QuerySetting, Round, RoundFault, Seen, Told, Visits, some_flag,
};
use std::alloc::Global;

/// How far a query is.
#[derive(Drop)]
pub(crate) enum Stage {
    /// It loads the root's words.
    Rooting(Loading),
    /// It loads the words of a zone that the root's let in.
    Entering(Course, Round, Loading),
    /// It resolves a range of the zone.
    Resolving(Course, Round, Range),
    /// It loads the zone's words again.
    Reloading(Course, Round, Loading),
    /// It visits a leaf of the zone.
    Visiting(Course, Round, Visits, Leaf),
    /// It has ended.
    Ended(Result<Answer, RoundFault>),
}

/// Where a query goes on once a zone is behind.
#[derive(Drop)]
pub(crate) enum Turn {
    /// At this stage.
    Goes(Stage),
    /// It is through with all zones.
    Through(Course),
}

/// What an answer leads to.
#[derive(Drop)]
pub(crate) enum Step {
    /// The query goes on.
    Takes(Turn),
    /// It is through with a zone, of whose leaves these answers are to be mixed.
    Gathered(Course, LeafAnswers),
}

impl Stage {
    /// The round that a zone's ranges are in.
    pub(crate) fn round(&self) -> Option<&Round>
        ensures round { option_copied result ≡ spec.round_in self.now }
    {
        match self {
            Stage::Resolving(_, round, _)
            | Stage::Reloading(_, round, _)
            | Stage::Visiting(_, round, _, _) => Some(round),
            Stage::Rooting(_) | Stage::Entering(_, _, _) | Stage::Ended(_) => None,
        }
    }

    /// Where an answer leads.
    pub(crate) fn told(self, setting: &QuerySetting, told: Told) -> Result<Step, OutOfMemory>
        ensures step { IfOk result (λ step. step ≡ spec.after setting.now self told) }
    {
        match told {
            Told::Word(word, seen) => self.told_word(setting, word, seen),
            Told::Slot(slot, leaf) => self.told_slot(setting, slot, leaf),
            Told::NoSlot => self.told_no_slot(setting),
            Told::Down(cut) => self.told_down(setting, cut),
            Told::Unread(cut) => self.told_unread(cut),
            Told::Read(cut, answer) => self.told_read(cut, answer),
            Told::Over(_, cut) => self.told_over(setting, cut),
        }
    }

    /// A word was loaded.
    fn told_word(self, setting: &QuerySetting, word: u64, seen: Seen) -> Result<Step, OutOfMemory>
        ensures step { IfOk result (λ step. step ≡ spec.told_word setting.now self word seen) }
    {
        match self {
            Stage::Rooting(loading) => load_root(setting, loading, word, seen),
            Stage::Entering(course, round, loading) => {
                load_zone(setting, course, round, loading, word, seen)
            }
            Stage::Reloading(course, round, loading) => {
                load_again(setting, course, round, loading, word, seen)
            }
            stage => {
                drop(seen);
                Ok(going(stage))
            }
        }
    }

    /// The range resolves to a slot.
    fn told_slot(self, setting: &QuerySetting, slot: Slot, leaf: Leaf) -> Result<Step, OutOfMemory>
        ensures step { IfOk result (λ step. step ≡ spec.told_slot self slot leaf) }
    {
        match self {
            Stage::Resolving(course, round, range) => {
                resolve(setting, course, round, range, slot, leaf)
            }
            stage => Ok(going(stage)),
        }
    }

    /// The range resolves to no slot.
    fn told_no_slot(self, setting: &QuerySetting) -> Result<Step, OutOfMemory>
        ensures step { IfOk result (λ step. step ≡ spec.told_no_slot self) }
    {
        match self {
            Stage::Resolving(course, round, range) => {
                let founds = course.founds_in(setting.alloc(), &round.area());
                drop(course);
                drop(round);
                Ok(refused(RoundFault::NoReplica(range, founds?)))
            }
            stage => Ok(going(stage)),
        }
    }

    /// The leaf is down: the zone begins again at its first range, and what was gathered there is let go of.
    fn told_down(self, setting: &QuerySetting, cut: u64) -> Result<Step, OutOfMemory>
        ensures step { IfOk result (λ step. step ≡ spec.told_down self cut) }
    {
        match self {
            Stage::Visiting(course, round, visits, leaf) => {
                drop(visits);
                let area = round.area();
                drop(round);
                begin_again(setting, course, area, leaf, cut)
            }
            stage => Ok(going(stage)),
        }
    }

    /// The leaf is not read.
    fn told_unread(self, cut: u64) -> Result<Step, OutOfMemory>
        ensures step { IfOk result (λ step. step ≡ spec.told_unread self cut) }
    {
        match self {
            Stage::Visiting(course, round, visits, leaf) => {
                let mut visits = visits;
                visits.look(leaf, Look::unread(cut));
                visiting(course, round, visits)
            }
            stage => Ok(going(stage)),
        }
    }

    /// The leaf is read.
    fn told_read(self, cut: u64, answer: LeafAnswer) -> Result<Step, OutOfMemory>
        ensures step { IfOk result (λ step. step ≡ spec.told_read self cut answer) }
    {
        match self {
            Stage::Visiting(course, round, visits, leaf) => {
                let mut visits = visits;
                match visits.read(leaf, cut, answer) {
                    Ok(()) => visiting(course, round, visits),
                    Err(fault) => {
                        drop(course);
                        drop(round);
                        drop(visits);
                        Err(fault)
                    }
                }
            }
            stage => {
                drop(answer);
                Ok(going(stage))
            }
        }
    }

    /// The leaf's load is above the limit.
    fn told_over(self, setting: &QuerySetting, cut: u64) -> Result<Step, OutOfMemory>
        ensures step { IfOk result (λ step. step ≡ spec.told_over setting.now self cut) }
    {
        match self {
            Stage::Visiting(course, round, visits, leaf) => {
                let mut visits = visits;
                visits.look(leaf, Look::unread(cut));
                let (course, answers) = gathered(course, round, visits)?;
                drop(answers);
                stop(setting, course)
            }
            stage => Ok(going(stage)),
        }
    }
}

fn going(stage: Stage) -> Step
    ensures step { result ≡ spec.going stage }
{
    Step::Takes(Turn::Goes(stage))
}

fn refused(fault: RoundFault) -> Step
    ensures step { result ≡ spec.going (spec.refused_stage fault) }
{
    going(Stage::Ended(Err(fault)))
}

/// The end of a query whose load is above the limit.
pub(crate) fn stopped(setting: &QuerySetting, course: Course) -> Result<Stage, OutOfMemory>
    ensures stage { IfOk result (λ stage. stage ≡ spec.stopped_stage setting.now course) }
{
    let trace = course.into_trace(setting.alloc())?;
    Ok(Stage::Ended(Err(RoundFault::StepLimit(setting.limit(), trace))))
}

// The query ends because its load is above the limit.
fn stop(setting: &QuerySetting, course: Course) -> Result<Step, OutOfMemory>
    ensures step { IfOk result (λ step. step ≡ spec.going (spec.stopped_stage setting.now course)) }
{
    let stage = stopped(setting, course)?;
    Ok(going(stage))
}

// Goes on from a course to the next zone.
fn go_on(setting: &QuerySetting, course: Course) -> Result<Step, OutOfMemory>
    ensures step { IfOk result (λ step. step ≡ spec.on_from setting.now course) }
{
    let turn = next_zone(setting, course)?;
    Ok(Step::Takes(turn))
}

// Loads a word of the root's.
fn load_root(
    setting: &QuerySetting,
    loading: Loading,
    word: u64,
    seen: Seen,
) -> Result<Step, OutOfMemory>
    ensures step { IfOk result (λ step. step ≡ spec.loaded_root setting.now (with_word loading word seen)) }
{
    let loading = loading.with_word(word, seen)?;
    loaded_root(setting, loading)
}

// A word of the root's was loaded.
fn loaded_root(setting: &QuerySetting, loading: Loading) -> Result<Step, OutOfMemory>
    ensures step { IfOk result (λ step. step ≡ spec.loaded_root setting.now loading) }
{
    if loading.is_whole(setting.plan()) {
        let course = Course::new(setting, loading)?;
        go_on(setting, course)
    } else {
        Ok(going(Stage::Rooting(loading)))
    }
}

/// Goes on to the next zone that the root's words let in, and past those before it.
pub(crate) fn next_zone(setting: &QuerySetting, course: Course) -> Result<Turn, OutOfMemory>
    ensures turn { IfOk result (λ turn. turn ≡ spec.next_zone (drop course.begun setting.now.areas) course) }
{
    let mut course = course;
    while course.begun < setting.areas().len() {
        let area = setting.areas()[course.begun];
        if course.begin() {
            return entering(setting, course, area);
        }
        match course.pass(&area) {
            Ok(()) => {}
            Err(fault) => {
                drop(course);
                return Err(fault);
            }
        }
    }
    Ok(Turn::Through(course))
}

// Goes on to the words of a zone that the root's let in.
fn entering(setting: &QuerySetting, course: Course, area: Area) -> Result<Turn, OutOfMemory>
    requires small { IsSmall area }
    ensures turn { IfOk result
        (λ turn. turn ≡ Turn.Goes (Stage.Entering course (round_of area) no_word)) }
{
    let alloc = setting.alloc();
    match Round::new(alloc, area) {
        Ok(round) => Ok(Turn::Goes(Stage::Entering(course, round, Loading::none(alloc)))),
        Err(fault) => {
            drop(course);
            Err(fault)
        }
    }
}

// Loads a zone's word for the first time.
fn load_zone(
    setting: &QuerySetting,
    course: Course,
    round: Round,
    loading: Loading,
    word: u64,
    seen: Seen,
) -> Result<Step, OutOfMemory>
    ensures step { IfOk result
        (λ step. step ≡ spec.loaded_zone setting.now course round (with_word loading word seen)) }
{
    match loading.with_word(word, seen) {
        Ok(loading) => loaded_zone(setting, course, round, loading),
        Err(fault) => {
            drop(course);
            drop(round);
            Err(fault)
        }
    }
}

// A zone's word was loaded for the first time.
fn loaded_zone(
    setting: &QuerySetting,
    course: Course,
    round: Round,
    loading: Loading,
) -> Result<Step, OutOfMemory>
    ensures step { IfOk result (λ step. step ≡ spec.loaded_zone setting.now course round loading) }
{
    if loading.is_whole(setting.plan()) {
        opened_zone(setting, course, round, loading)
    } else {
        Ok(going(Stage::Entering(course, round, loading)))
    }
}

// All words of a zone were loaded for the first time.
fn opened_zone(
    setting: &QuerySetting,
    course: Course,
    round: Round,
    loading: Loading,
) -> Result<Step, OutOfMemory>
    ensures step { IfOk result (λ step. step ≡ spec.opened_zone setting.now course round loading) }
{
    let area = round.area();
    match lets_some_in(setting, &area, &loading) {
        Ok(some) => {
            if some {
                drop(loading);
                Ok(resolving(setting, course, round))
            } else {
                drop(round);
                let left = left_out(setting, course, &area, &loading.seen);
                drop(loading);
                left
            }
        }
        Err(fault) => {
            drop(course);
            drop(round);
            drop(loading);
            Err(fault)
        }
    }
}

// Whether the words of a zone let some leaf of it in.
fn lets_some_in(setting: &QuerySetting, area: &Area, loading: &Loading) -> Result<bool, OutOfMemory>
    requires small { IsSmall area.now }
    ensures some { IfOk result (λ some. some ≡ spec.let_some_in setting.now area.now loading.now) }
{
    let flags = let_in(setting.alloc(), setting.plan(), &loading.words, area.leaves)?;
    Ok(some_flag(flags.as_slice()))
}

// Is through with a zone that its words left out.
fn left_out(
    setting: &QuerySetting,
    course: Course,
    area: &Area,
    seen: &Seen,
) -> Result<Step, OutOfMemory>
    ensures step { IfOk result (λ step. step ≡ spec.on_from setting.now (left course area.now seen.now)) }
{
    let mut course = course;
    match course.leave(area, seen) {
        Ok(()) => go_on(setting, course),
        Err(fault) => {
            drop(course);
            Err(fault)
        }
    }
}

// A range of the zone resolved to a slot.
fn resolve(
    setting: &QuerySetting,
    course: Course,
    round: Round,
    range: Range,
    slot: Slot,
    leaf: Leaf,
) -> Result<Step, OutOfMemory>
    ensures step { IfOk result (λ step. step ≡ spec.resolving course (with_slot round range slot leaf)) }
{
    match round.with_slot(range, slot, leaf) {
        Ok(round) => Ok(resolving(setting, course, round)),
        Err(fault) => {
            drop(course);
            Err(fault)
        }
    }
}

// A leaf of a zone was found down, and the zone begins again at its first range.
fn begin_again(
    setting: &QuerySetting,
    course: Course,
    area: Area,
    leaf: Leaf,
    cut: u64,
) -> Result<Step, OutOfMemory>
    requires small { IsSmall area }
    ensures step { IfOk result (λ step. step ≡ spec.resolving (with_found course leaf cut) (round_of area)) }
{
    let mut course = course;
    match round_without(setting.alloc(), &mut course, area, leaf, cut) {
        Ok(round) => Ok(resolving(setting, course, round)),
        Err(fault) => {
            drop(course);
            Err(fault)
        }
    }
}

// A new round of a zone, once it is kept that a leaf of the zone was found down.
fn round_without(
    alloc: Global,
    course: &mut Course,
    area: Area,
    leaf: Leaf,
    cut: u64,
) -> Result<Round, OutOfMemory>
    requires small { IsSmall area }
    ensures found { OnOk result (course.new ≡ with_found course.old leaf cut) }
    ensures round { IfOk result (λ round. round ≡ round_of area) }
{
    course.find(leaf, cut)?;
    Round::new(alloc, area)
}

// Goes on to the next range of the zone, or to its words, which are loaded again.
fn resolving(setting: &QuerySetting, course: Course, round: Round) -> Step
    ensures step { result ≡ spec.resolving course round }
{
    match round.next_range() {
        Some(range) => going(Stage::Resolving(course, round, range)),
        None => going(Stage::Reloading(course, round, Loading::none(setting.alloc()))),
    }
}

// Loads a zone's word again.
fn load_again(
    setting: &QuerySetting,
    course: Course,
    round: Round,
    loading: Loading,
    word: u64,
    seen: Seen,
) -> Result<Step, OutOfMemory>
    ensures step { IfOk result
        (λ step. step ≡ spec.loaded_again setting.now course round (with_word loading word seen)) }
{
    match loading.with_word(word, seen) {
        Ok(loading) => loaded_again(setting, course, round, loading),
        Err(fault) => {
            drop(course);
            drop(round);
            Err(fault)
        }
    }
}

// A zone's word was loaded again.
fn loaded_again(
    setting: &QuerySetting,
    course: Course,
    round: Round,
    loading: Loading,
) -> Result<Step, OutOfMemory>
    ensures step { IfOk result (λ step. step ≡ spec.loaded_again setting.now course round loading) }
{
    if loading.is_whole(setting.plan()) {
        let begun = begin_visits(setting, &round, &loading);
        drop(loading);
        match begun {
            Ok(visits) => visiting(course, round, visits),
            Err(fault) => {
                drop(course);
                drop(round);
                Err(fault)
            }
        }
    } else {
        Ok(going(Stage::Reloading(course, round, loading)))
    }
}

// Before the first visit of a round, once the zone's words were loaded again.
fn begin_visits(
    setting: &QuerySetting,
    round: &Round,
    loading: &Loading,
) -> Result<Visits, OutOfMemory>
    ensures visits { IfOk result (λ visits. visits ≡ spec.begin_visits setting.now round.now loading.now) }
{
    let alloc = setting.alloc();
    let area = round.area();
    let flags = let_in(alloc, setting.plan(), &loading.words, area.leaves)?;
    let leaves = round.leaves_to_visit(alloc, &flags)?;
    Visits::new(
        alloc,
        leaves,
        area.first_leaf,
        cuts_seen(&loading.seen, &area),
    )
}

// Goes on to the next leaf that is to be visited; where there is none, the zone's answers are gathered.
fn visiting(course: Course, round: Round, visits: Visits) -> Result<Step, OutOfMemory>
    ensures step { IfOk result (λ step. step ≡ spec.visiting course round visits) }
{
    let mut visits = visits;
    match visits.go_on() {
        Some(leaf) => Ok(going(Stage::Visiting(course, round, visits, leaf))),
        None => {
            let (course, answers) = gathered(course, round, visits)?;
            Ok(Step::Gathered(course, answers))
        }
    }
}

// Is through with a zone.
fn gathered(
    course: Course,
    round: Round,
    visits: Visits,
) -> Result<(Course, LeafAnswers), OutOfMemory>
    ensures course { IfOk result (λ found. found.0 ≡ spec.with_zone course round visits) }
    ensures answers { IfOk result (λ found. found.1 ≡ visits.answers) }
{
    let mut course = course;
    let (looks, answers) = visits.into_parts();
    let closed = course.close(round.resolved(), &looks);
    drop(round);
    match closed {
        Ok(()) => Ok((course, answers)),
        Err(fault) => {
            drop(course);
            drop(answers);
            Err(fault)
        }
    }
}
