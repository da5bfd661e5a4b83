// What holds of every schedule.
ghost use Rattle.std.specs.Prelude.{◌≡◌, true, ℕ, List, Result, Contains};
ghost use Rattle.mon_config.specs.declared.config.Config.{Config as ConfigOf};
ghost use Rattle.mon_value.specs.declared.positions.FoundDown.{FoundDown as Found};
ghost use Rattle.mon_value.specs.declared.positions.Range.{Range as RangeOf};
ghost use Rattle.query_core.specs.ToldDowns.{EndNames};
ghost use Rattle.query_traces.specs.declared.answers.Answer.{Answer as AnswerOf};
ghost use Rattle.query_traces.specs.declared.answers.RoundFault.{RoundFault as FaultOf};
ghost use Rattle.query_traces.specs.declared.answers.Trace.{Trace as TraceOf};
ghost use Rattle.query_core.specs.declared.stages.Stage.TheVariants.{Ended};
ghost use Rattle.core_theory.specs.Core.{query_now};
ghost use Rattle.core_theory.specs.FoundDown.{FindsAllDown, FindsWhatItSays, RecoversAsItSays};
ghost use Rattle.core_theory.specs.Licensed.{IsWoven};
ghost use Rattle.weave_core.specs.Reached.{AnsweredRightly, FoundNoneRightly, HasAnswered, HasFoundNone, HasStoppedSo};
ghost use Rattle.weave_core.specs.Reached.{LinesLead, StoppedRightly, downs_heard};
ghost use Rattle.weave_core.specs.Schedules.{IsFirstState};
ghost use Rattle.weave_core.specs.States.{Asking, State};
ghost use Rattle.core_store.specs.Agreements.{store_of};
ghost use Rattle.schedule_lines.specs.declared.lines.LineForm.{LineForm as Form};
ghost use Rattle.write_core.specs.Deeds.{HasDone};
ghost use Rattle.write_core.specs.Invariant.{IsAcknowledged};
ghost use Rattle.write_core.specs.Marks.{some_took};
ghost use Rattle.write_core.specs.Program.{Ended as Written, Marked};
ghost use Rattle.write_core.specs.World.{Writer, Writes};
ghost use Rattle.write_core.specs.declared.marks.Mark.{Mark};

use core_theory::queries_answer_rightly;
use query_core::ends_name_what_was_told;
use write_core::{what_is_said_was_noted, writes_keep_the_invariant};

/// Wherever the lines of a schedule lead to, the histories are held, what each actor knows leads to all that it has
/// seen, and each query's session is licensed. So each query that ended has answered rightly, or stopped for its load
/// rightly, or found that a range has no replica; and each leaf that its end names as down it was told so at a visit,
/// with that cut. The histories have of a write or a trim one put of its row, or of its bound, for each replica that took
/// it, on that replica's leaf and on no other, and one acknowledgement once it ended, if some replica took it, which
/// stands in a legal history then. Each leaf of which a write or a trim that has ended says that its replica there missed
/// it was found down by an event of its own, at that cut; and where no replica took it, these are the leaves of all
/// replicas that serve. Where a recovery has ended with a slot, its leaf's history opened the replica with the rows that
/// were acknowledged before and that no trim had hidden, and then its range's history, which is legal. Where it has ended
/// without one, it has seen what was in its way, and each leaf that it names it found down by an event of its own, at
/// that cut.
pub fn schedules_answer_rightly()
    ensures woven { (config : ConfigOf) (first state : State (store_of config)) (lines : List Form)
        → IsFirstState config first → LinesLead config first lines state → IsWoven (store_of config) state.core }
    ensures answered { (config : ConfigOf) (first state : State (store_of config)) (lines : List Form) (k : ℕ)
        (answer : AnswerOf) → IsFirstState config first → LinesLead config first lines state → state.roles k ≡ Asking
        → HasAnswered config (state.core.readers k) answer → AnsweredRightly config (state.core.readers k) answer }
    ensures stopped { (config : ConfigOf) (first state : State (store_of config)) (lines : List Form) (k limit : ℕ)
        (trace : TraceOf) → IsFirstState config first → LinesLead config first lines state → state.roles k ≡ Asking
        → HasStoppedSo config (state.core.readers k) limit trace
        → StoppedRightly config (state.core.readers k) limit trace }
    ensures no_replica { (config : ConfigOf) (first state : State (store_of config)) (lines : List Form) (k : ℕ)
        (range : RangeOf) (named : List Found) → IsFirstState config first → LinesLead config first lines state
        → state.roles k ≡ Asking → HasFoundNone config (state.core.readers k) range named
        → FoundNoneRightly config (state.core.readers k) range named }
    ensures named { (config : ConfigOf) (first state : State (store_of config)) (lines : List Form) (k : ℕ)
        (end : Result AnswerOf FaultOf) → IsFirstState config first → LinesLead config first lines state
        → state.roles k ≡ Asking → (query_now (store_of config) (state.core.readers k)).stage ≡ Ended end
        → EndNames (Contains (downs_heard config (state.core.readers k))) end }
    ensures done { (config : ConfigOf) (first state : State (store_of config)) (lines : List Form) (k : ℕ)
        (writer : Writer) → IsFirstState config first → LinesLead config first lines state
        → state.core.world.actors k ≡ Writes writer → HasDone state.core.world.truth writer writer.stage }
    ensures written { (config : ConfigOf) (first state : State (store_of config)) (lines : List Form) (k : ℕ)
        (writer : Writer) (marks : List Mark) → IsFirstState config first → LinesLead config first lines state
        → state.core.world.actors k ≡ Writes writer → writer.stage ≡ Written (Marked marks) → some_took marks ≡ true
        → IsAcknowledged (store_of config) writer marks }
    ensures found { (config : ConfigOf) (first state : State (store_of config)) (lines : List Form) (k : ℕ)
        → IsFirstState config first → LinesLead config first lines state → FindsWhatItSays state.core.world k }
    ensures all { (config : ConfigOf) (first state : State (store_of config)) (lines : List Form) (k : ℕ)
        → IsFirstState config first → LinesLead config first lines state → FindsAllDown state.core.world k }
    ensures recovered { (config : ConfigOf) (first state : State (store_of config)) (lines : List Form) (k : ℕ)
        → IsFirstState config first → LinesLead config first lines state
        → RecoversAsItSays (store_of config) state.core.world k }
{
    queries_answer_rightly();
    ends_name_what_was_told();
    writes_keep_the_invariant();
    what_is_said_was_noted();
}
