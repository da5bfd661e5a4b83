// Lines that follow a query from one moment to later ones.
ghost use Rattle.std.specs.Prelude.{◌≡◌, ◌∷◌, ◌<◌, ◌≤◌, ◌≤ℤ◌, [], MatchOption, IfSome};
ghost use Rattle.mon_value.specs.Answers.{Gives};
ghost use Rattle.mon_script.specs.Follows as spec;
ghost use Rattle.mon_script.specs.Follows.{AreLawfulMoments, all_moments};

use crate::faults::ScriptKind;
use crate::forms::LineForm;
use crate::lines::cut_at;
use crate::standing_lines::period_of;
use crate::words::moment_of;
use mon_value::{Refusal, Text, read_number};
use std::alloc::Global;

/// How many moments a query is followed over at most.
const MOST_MOMENTS: i128 = 1_000;

/// Moments one after another, in seconds from the epoch.
#[derive(Clone, Copy)]
pub struct Moments {
    pub first: i64,
    /// From each one to the next.
    pub period: i64,
    pub count: u32,
}

impl Moments {
    /// Those behind the first one, if there are any.
    pub fn later(self) -> Option<Moments>
        requires lawful { AreLawfulMoments self }
        ensures later { MatchOption result (all_moments self ≡ self.first ∷ [])
            (λ later. all_moments self ≡ self.first ∷ all_moments later) }
        ensures still { IfSome result AreLawfulMoments }
        ensures fewer { IfSome result (λ later. later.count < self.count) }
        ensures risen { IfSome result (λ later. self.first ≤ℤ later.first) }
    {
        if self.count == 1 {
            return None;
        }
        Some(Moments {
            first: self.first + self.period,
            period: self.period,
            count: self.count - 1,
        })
    }
}

/// A moment, a period, a number of moments and a text, each behind one space.
pub(crate) fn follow_form(alloc: Global, rest: &[u8]) -> Result<LineForm, Refusal<ScriptKind>>
    ensures form { Gives result (spec.follow_form rest.now) }
{
    match cut_at(rest, b' ') {
        Some((first, rest)) => behind_first(alloc, first, rest),
        None => Err(Refusal::Fault(ScriptKind::BadWord)),
    }
}

fn behind_first(alloc: Global, first: &[u8], rest: &[u8]) -> Result<LineForm, Refusal<ScriptKind>>
    ensures form { Gives result (spec.behind_first first.now rest.now) }
{
    match cut_at(rest, b' ') {
        Some((period, rest)) => behind_period(alloc, first, period, rest),
        None => Err(Refusal::Fault(ScriptKind::BadWord)),
    }
}

fn behind_period(
    alloc: Global,
    first: &[u8],
    period: &[u8],
    rest: &[u8],
) -> Result<LineForm, Refusal<ScriptKind>>
    ensures form { Gives result (spec.behind_period first.now period.now rest.now) }
{
    match cut_at(rest, b' ') {
        Some((count, text)) => followed(alloc, moments_spelled(first, period, count), text),
        None => Err(Refusal::Fault(ScriptKind::BadWord)),
    }
}

// A text that is followed over moments, if there are such moments.
fn followed(
    alloc: Global,
    moments: Option<Moments>,
    text: &[u8],
) -> Result<LineForm, Refusal<ScriptKind>>
    ensures form { Gives result (spec.followed moments text.now) }
{
    match Text::from_utf8(alloc, text)? {
        Some(text) => timed(moments, text),
        None => Err(Refusal::Fault(ScriptKind::BadWord)),
    }
}

fn timed(moments: Option<Moments>, text: Text) -> Result<LineForm, Refusal<ScriptKind>>
    ensures form { Gives result (spec.timed moments text) }
{
    match moments {
        Some(moments) => Ok(LineForm::Follow { moments, text }),
        None => Err(Refusal::Fault(ScriptKind::BadNumber)),
    }
}

// The moments that three words spell: the first, the period and how many.
fn moments_spelled(first: &[u8], period: &[u8], count: &[u8]) -> Option<Moments>
    ensures moments { result ≡ spec.moments_spelled first.now period.now count.now }
{
    let first = moment_of(first)?;
    let period = period_of(period)?;
    let count = count_of(count)?;
    fitting(Moments {
        first,
        period,
        count,
    })
}

// How many moments a word spells.
fn count_of(word: &[u8]) -> Option<u32>
    ensures count { result ≡ spec.count_of word.now }
    ensures some { IfSome result (λ count. 1 ≤ count) }
{
    let number = read_number(word)?;
    if number < 1 || number > MOST_MOMENTS {
        return None;
    }
    Some(number as u32)
}

// Moments of which the last is one too.
fn fitting(moments: Moments) -> Option<Moments>
    requires some { 1 ≤ moments.count }
    ensures fitting { result ≡ spec.fitting moments }
{
    let steps = u64::from(moments.count - 1);
    let behind = moments.period.unsigned_abs().checked_mul(steps)?;
    let last = moments.first.unsigned_abs().checked_add(behind)?;
    if last > i64::MAX as u64 {
        return None;
    }
    Some(moments)
}
