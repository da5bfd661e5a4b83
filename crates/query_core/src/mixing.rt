// Answers that are mixed: those of a zone's leaves, and those of all zones.
ghost use Rattle.std.specs.Prelude.{◌≡◌, IfOk, Ok};
ghost use Rattle.mixer.specs.ZoneAnswers.{HasZoneParts};
ghost use Rattle.typed_trees.specs.Nodes.{typed_tree};
ghost use Rattle.query_core.specs.Mixtures as spec;

use crate::courses::Course;
use crate::stages::{Stage, Step, Turn, next_zone, stopped};
use mixer::{ZoneAnswers, mix_root, mix_zone};
use mon_fold::LeafAnswers;
use mon_value::{OutOfMemory, Refusal, Table};
use query_traces::{Answer, QuerySetting, Told};
use std::alloc::AllocError;
use std::mem;
use typed_trees::op_levels;

/// The stage to which an answer leads, once what it gathered is mixed.
#[tactic(auto, using(crate::proofs::StageLemmas::may_settle, crate::proofs::StageLemmas::settles_so))]
pub(crate) fn told_so(
    setting: &QuerySetting,
    stage: Stage,
    told: Told,
) -> Result<Stage, OutOfMemory>
    requires { spec.MayBeTold setting.now stage told }
    ensures stage { IfOk result (spec.LeadsTo setting.now stage told) }
{
    let step = stage.told(setting, told)?;
    settled(setting, step)
}

// The stage to which a step leads.
fn settled(setting: &QuerySetting, step: Step) -> Result<Stage, OutOfMemory>
    requires { spec.MayMix setting.now step }
    ensures stage { IfOk result (spec.Settles setting.now step) }
{
    match step {
        Step::Takes(turn) => turned(setting, turn),
        Step::Gathered(course, answers) => mixed_zone(setting, course, answers),
    }
}

// The answers of a zone's leaves are mixed, unless their load is above the limit.
#[tactic(auto, using(crate::proofs::MixLemmas::zone_mixed))]
fn mixed_zone(
    setting: &QuerySetting,
    course: Course,
    answers: LeafAnswers,
) -> Result<Stage, OutOfMemory>
    requires { spec.HasParts setting.now course.answers answers }
    ensures stage { IfOk result (spec.IsZoneMixed setting.now course answers) }
{
    match mix_zone(setting.alloc(), setting.plan(), answers, setting.limit()) {
        Ok(answer) => {
            let mut course = course;
            course.keep(answer)?;
            let turn = next_zone(setting, course)?;
            turned(setting, turn)
        }
        Err(Refusal::Fault(_over)) => stopped(setting, course),
        Err(Refusal::OutOfMemory) => {
            drop(course);
            Err(AllocError)
        }
    }
}

// Where a query goes on at a stage, it is at this stage; once it is through with all zones, their answers are mixed.
fn turned(setting: &QuerySetting, turn: Turn) -> Result<Stage, OutOfMemory>
    requires { spec.MayMixRoot setting.now turn }
    ensures stage { IfOk result (spec.TurnSettles setting.now turn) }
{
    match turn {
        Turn::Goes(stage) => Ok(stage),
        Turn::Through(course) => mixed_root(setting, course),
    }
}

// The answers of all zones are mixed, unless their load is above the limit.
#[tactic(auto, using(crate::proofs::MixLemmas::asked_zones, crate::proofs::MixLemmas::root_stops))]
fn mixed_root(setting: &QuerySetting, course: Course) -> Result<Stage, OutOfMemory>
    requires { HasZoneParts (typed_tree setting.now.plan.typed) setting.now.limit course.answers }
    ensures stage { IfOk result (spec.IsRootMixed setting.now course) }
{
    let alloc = setting.alloc();
    let mut course = course;
    let answers = mem::replace(&mut course.answers, ZoneAnswers::new(alloc));
    match mix_root(alloc, setting.plan(), answers, setting.limit()) {
        Ok(table) => answered(setting, course, table),
        Err(Refusal::Fault(_over)) => stopped(setting, course),
        Err(Refusal::OutOfMemory) => {
            drop(course);
            Err(AllocError)
        }
    }
}

// The end of a query with its table.
fn answered(setting: &QuerySetting, course: Course, table: Table) -> Result<Stage, OutOfMemory>
    ensures stage { IfOk result (λ stage. stage ≡ spec.root_stage setting.now course (Ok table)) }
{
    match course.into_trace(setting.alloc()) {
        Ok(trace) => match op_levels(setting.alloc(), &setting.plan().typed) {
            Ok(levels) => Ok(Stage::Ended(Ok(Answer {
                table,
                trace,
                levels,
            }))),
            Err(stop) => {
                drop(trace);
                drop(table);
                Err(stop)
            }
        },
        Err(stop) => {
            drop(table);
            Err(stop)
        }
    }
}
