// What a query came to in the zones that it is through with.
ghost use Rattle.std.specs.Prelude.{◌≡◌, ◌+◌, ◌<◌, ◌^◌, ◌++◌, filter, IfOk, OnOk};
ghost use Rattle.query_traces.specs.Rounds.{has_leaf};
ghost use Rattle.query_core.specs.Courses as spec;

use crate::segments::{from_place, segment};
use mixer::{ZoneAnswer, ZoneAnswers};
use mon_value::{FoundDown, Founds, Leaf, OutOfMemory};
use plan_split::let_in;
use query_traces::{
    Area, Flags, Loading, Look, Looks, QuerySetting, Resolved, Resolveds, Seen, Trace, add_unread,
    cuts_of, flag_at, read_of, sent_of,
};
use std::alloc::Global;
use std::mem;

/// What had been seen by the first root word, which zones the root words let in, and how many zones were begun; of the
/// zones that are behind, what their ranges resolved to, what is known of their leaves, and their answers; and which
/// leaves were found down.
#[derive(Drop)]
pub(crate) struct Course {
    pub(crate) seen: Seen,
    pub(crate) entered: Flags,
    pub(crate) begun: usize,
    pub(crate) resolved: Resolveds,
    pub(crate) looks: Looks,
    pub(crate) founds: Founds,
    pub(crate) answers: ZoneAnswers,
}

impl Course {
    /// Before the first zone, once all root words are loaded.
    pub(crate) fn new(setting: &QuerySetting, loading: Loading) -> Result<Course, OutOfMemory>
        ensures new { IfOk result (λ course. course ≡ spec.course_of setting.now loading) }
    {
        let alloc = setting.alloc();
        let count = setting.areas().len() as u32;
        let entered = let_in(alloc, setting.plan(), &loading.words, count)?;
        Ok(Course {
            seen: loading.seen,
            entered,
            begun: 0,
            resolved: Resolveds::new(alloc),
            looks: Looks::new(alloc),
            founds: Founds::new(alloc),
            answers: ZoneAnswers::new(alloc),
        })
    }

    /// Begins the next zone, and says whether the root words let it in.
    pub(crate) fn begin(&mut self) -> bool
        requires { self.old.begun + 1 < 2 ^ 64 }
        ensures entered { result ≡ spec.is_entered self.old }
        ensures begun { self.new ≡ spec.with_next_zone self.old }
    {
        let entered = flag_at(self.entered.as_slice(), self.begun);
        self.begun += 1;
        entered
    }

    /// Is through with a zone that was not entered: it stands as it had been seen by the first root word.
    pub(crate) fn pass(&mut self, area: &Area) -> Result<(), OutOfMemory>
        ensures passed { OnOk result (self.new ≡ spec.left self.old area.now self.old.seen) }
    {
        add_resolved(&mut self.resolved, firsts_seen(&self.seen, area))?;
        add_unread(&mut self.looks, cuts_seen(&self.seen, area))
    }

    /// Is through with a zone that its words left out: it stands as it had been seen by the first of them.
    pub(crate) fn leave(&mut self, area: &Area, seen: &Seen) -> Result<(), OutOfMemory>
        ensures left { OnOk result (self.new ≡ spec.left self.old area.now seen.now) }
    {
        add_resolved(&mut self.resolved, firsts_seen(seen, area))?;
        add_unread(&mut self.looks, cuts_seen(seen, area))
    }

    /// Is through with a zone that was looked at.
    pub(crate) fn close(&mut self, resolved: &[Resolved], looks: &[Look]) -> Result<(), OutOfMemory>
        ensures closed { OnOk result (self.new ≡ spec.with_zone_behind self.old resolved.now looks.now) }
    {
        add_resolved(&mut self.resolved, resolved)?;
        add_looks(&mut self.looks, looks)
    }

    /// Keeps the answer of a zone.
    pub(crate) fn keep(&mut self, answer: ZoneAnswer) -> Result<(), OutOfMemory>
        ensures kept { OnOk result (self.new ≡ spec.with_zone_answer self.old answer) }
    {
        self.answers.push(answer)?;
        Ok(())
    }

    /// Keeps a leaf that was found down.
    pub(crate) fn find(&mut self, leaf: Leaf, cut: u64) -> Result<(), OutOfMemory>
        ensures found { OnOk result (self.new ≡ spec.with_found self.old leaf cut) }
    {
        self.founds.push(FoundDown { leaf, cut })?;
        Ok(())
    }

    /// The leaves of a zone that were found down.
    pub(crate) fn founds_in(&self, alloc: Global, area: &Area) -> Result<Founds, OutOfMemory>
        ensures founds { IfOk result (λ founds. founds ≡ spec.founds_in self.now area.now) }
    {
        founds_in(alloc, self.founds.as_slice(), area)
    }

    /// What was looked at. Zones that the query did not come to stand as they had been seen by the first root word. The
    /// answers are let go of.
    pub(crate) fn into_trace(self, alloc: Global) -> Result<Trace, OutOfMemory>
        ensures trace { IfOk result (λ trace. trace ≡ spec.trace_of self) }
    {
        let mut course = self;
        let trace = course.take_trace(alloc);
        drop(course);
        trace
    }

    // Takes what was looked at out of the course.
    fn take_trace(&mut self, alloc: Global) -> Result<Trace, OutOfMemory>
        ensures trace { IfOk result (λ trace. trace ≡ spec.trace_of self.old) }
    {
        self.pass_rest()?;
        let looks = self.looks.as_slice();
        let cuts = cuts_of(alloc, looks)?;
        let read = read_of(alloc, looks)?;
        let sent = sent_of(alloc, looks)?;
        Ok(Trace {
            resolved: mem::replace(&mut self.resolved, Resolveds::new(alloc)),
            cuts,
            read,
            down: mem::replace(&mut self.founds, Founds::new(alloc)),
            sent,
        })
    }

    // Is through with the zones that the query did not come to: they stand as they had been seen by the first root
    // word.
    fn pass_rest(&mut self) -> Result<(), OutOfMemory>
        ensures resolved { OnOk result (self.new.resolved ≡ spec.all_resolved self.old) }
        ensures looks { OnOk result (self.new.looks ≡ spec.all_looks self.old) }
        ensures founds { self.new.founds ≡ self.old.founds }
    {
        let ranges = self.resolved.len();
        let leaves = self.looks.len();
        add_resolved(
            &mut self.resolved,
            from_place(self.seen.firsts.as_slice(), ranges),
        )?;
        add_unread(
            &mut self.looks,
            from_place(self.seen.cuts.as_slice(), leaves),
        )
    }
}

/// The lengths that had been seen of a zone's leaves.
pub(crate) fn cuts_seen<'a>(seen: &'a Seen, area: &Area) -> &'a [u64]
    ensures cuts { result.now ≡ spec.cuts_seen seen.now area.now }
{
    segment(
        seen.cuts.as_slice(),
        area.first_leaf.0 as usize,
        area.leaves as usize,
    )
}

// The slots that a zone's ranges had been seen to resolve to.
fn firsts_seen<'a>(seen: &'a Seen, area: &Area) -> &'a [Resolved]
    ensures firsts { result.now ≡ spec.firsts_seen seen.now area.now }
{
    segment(
        seen.firsts.as_slice(),
        area.first_range.0 as usize,
        area.ranges as usize,
    )
}

// Those leaves of a zone that are among some that were found down.
fn founds_in(alloc: Global, all: &[FoundDown], area: &Area) -> Result<Founds, OutOfMemory>
    ensures founds { IfOk result (λ founds. founds ≡ filter (λ found. has_leaf area.now found.leaf) all.now) }
{
    let mut founds = Founds::new(alloc);
    for found in all {
        if area.has_leaf(found.leaf) {
            founds.push(*found)?;
        }
    }
    Ok(founds)
}

fn add_resolved(all: &mut Resolveds, more: &[Resolved]) -> Result<(), OutOfMemory>
    ensures added { OnOk result (all.new ≡ all.old ++ more.now) }
{
    for resolved in more {
        all.push(*resolved)?;
    }
    Ok(())
}

fn add_looks(all: &mut Looks, more: &[Look]) -> Result<(), OutOfMemory>
    ensures added { OnOk result (all.new ≡ all.old ++ more.now) }
{
    for look in more {
        all.push(*look)?;
    }
    Ok(())
}
