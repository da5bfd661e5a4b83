// What holds of queries beside writes and recoveries.
ghost use Rattle.std.specs.Prelude.{◌≡◌, ◌≤ℤ◌, ℕ, List, Ok, Err, pos};
ghost use Rattle.mon_topo.specs.Settings.{Setting};
ghost use Rattle.mon_value.specs.declared.positions.FoundDown.{FoundDown as Found};
ghost use Rattle.mon_value.specs.declared.positions.Range.{Range as RangeOf};
ghost use Rattle.query_traces.specs.Answers.{IsAnsweredRightly, IsStoppedRightly};
ghost use Rattle.query_traces.specs.Askings.{IsAskedOf};
ghost use Rattle.query_traces.specs.Founds.{HasNoReplica};
ghost use Rattle.query_core.specs.Machine.{new_query};
ghost use Rattle.query_traces.specs.declared.answers.Answer.{Answer as AnswerOf};
ghost use Rattle.query_traces.specs.declared.answers.RoundFault.TheVariants.{NoReplica, StepLimit};
ghost use Rattle.query_traces.specs.declared.answers.Trace.{Trace as TraceOf};
ghost use Rattle.query_core.specs.declared.stages.Stage.TheVariants.{Ended};
ghost use Rattle.core_theory.specs.Core.{CanGoOn, Core, CoreEvent, Reader, core_gone_on, query_now};
ghost use Rattle.core_theory.specs.FoundDown.{FindsAllDown, FindsWhatItSays, RecoversAsItSays};
ghost use Rattle.core_theory.specs.Licensed.{IsNewCore, IsReader, IsWoven};
ghost use Rattle.write_core.specs.World.{World};

use query_core::sessions_answer_rightly;
use write_core::what_is_said_was_noted;

/// Whichever writes, recoveries and queries go on, in whatever order, and whatever they are told of the world as it
/// stands, each query's session stays licensed, and what its caller has seen and knows stays a sound part of the
/// truth, while the writes and recoveries keep their invariant; all this holds before any of them has begun.
pub fn queries_are_licensed()
    ensures begins { (store : Setting) (core : Core store) → IsNewCore store core → IsWoven store core }
    ensures stays { (store : Setting) (core : Core store) (events : List (CoreEvent store)) → CanGoOn store core events
        → IsWoven store core → IsWoven store (core_gone_on store core events) }
{}

/// So each query that is asked of the store ends rightly, whatever else goes on. Its table is what it means,
/// evaluated in one place, over the rows of its trace: each target's are those that one replica keeps at one cut of its
/// leaf's history. The trace is of the histories that its caller has seen; it holds each row that had been
/// acknowledged to the caller as the query began, or a trim that the replica or its range had by then hides the row; and a leaf that was not read has no row there that the query wants.
/// It stops for its load only where the load over the rows of its trace is above the limit. Where it ends because a
/// range has no replica, each slot that served at a length of the range's history between those that its caller had
/// seen as it began and those seen at its end is on a leaf of the range's zone that it found down between them, and
/// all these are named.
pub fn queries_answer_rightly()
    ensures answered { (store : Setting) (world : World) (reader : Reader store) (answer : AnswerOf)
        → IsReader store world reader → reader.first ≡ new_query reader.setting → IsAskedOf store reader.setting
        → pos 0 ≤ℤ reader.moment → (query_now store reader).stage ≡ Ended (Ok answer)
        → IsAnsweredRightly store reader.setting reader.moment reader.begin.seen reader.view.seen answer }
    ensures stopped { (store : Setting) (world : World) (reader : Reader store) (limit : ℕ) (trace : TraceOf)
        → IsReader store world reader → reader.first ≡ new_query reader.setting → IsAskedOf store reader.setting
        → pos 0 ≤ℤ reader.moment → (query_now store reader).stage ≡ Ended (Err (StepLimit limit trace))
        → IsStoppedRightly store reader.setting reader.moment reader.begin.seen reader.view.seen limit trace }
    ensures no_replica { (store : Setting) (world : World) (reader : Reader store) (range : RangeOf)
        (named : List Found) → IsReader store world reader → reader.first ≡ new_query reader.setting
        → IsAskedOf store reader.setting
        → pos 0 ≤ℤ reader.moment → (query_now store reader).stage ≡ Ended (Err (NoReplica range named))
        → HasNoReplica store.zones reader.begin.seen reader.view.seen range named }
{
    sessions_answer_rightly();
}

/// Whatever goes on, in whatever order: each leaf of which a write that has ended says that its replica there missed
/// the row, it found down by an event of its own, at that cut. So where no replica took the row, each leaf that the
/// write names is one that it found down; and these are the leaves of all replicas that serve, in order.
pub fn writes_name_what_they_found()
    ensures found { (store : Setting) (core : Core store) (events : List (CoreEvent store)) (i : ℕ)
        → IsNewCore store core → CanGoOn store core events
        → FindsWhatItSays (core_gone_on store core events).world i }
    ensures all { (store : Setting) (core : Core store) (events : List (CoreEvent store)) (i : ℕ)
        → IsNewCore store core → CanGoOn store core events → FindsAllDown (core_gone_on store core events).world i }
{
    what_is_said_was_noted();
}

/// Whatever goes on, in whatever order: where a recovery has ended with a slot, its leaf's history opened the replica
/// with the rows that were left before, which were acknowledged and not trimmed since, and then its range's history,
/// which is legal. Where it has ended without one, it has seen what was in its way, and each leaf that it names it found
/// down by an event of its own, at that cut.
pub fn recoveries_come_out_rightly()
    ensures recovered { (store : Setting) (core : Core store) (events : List (CoreEvent store)) (i : ℕ)
        → IsNewCore store core → CanGoOn store core events
        → RecoversAsItSays store (core_gone_on store core events).world i }
{
    what_is_said_was_noted();
}
