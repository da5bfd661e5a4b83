// What holds of every query's session.
ghost use Rattle.std.specs.Prelude.{◌≡◌, ◌<◌, ◌≤ℤ◌, ℕ, ℤ, pos, List, [], Result, Contains, length, take, Ok, Err};
ghost use Rattle.std.specs.List.{sum};
ghost use Rattle.std.specs.List.Sorted.{IsStrictlyIncreasing};
ghost use Rattle.mon_value.specs.Histories.{leaf_history};
ghost use Rattle.mon_topo.specs.Settings.{Setting};
ghost use Rattle.mon_value.specs.declared.positions.FoundDown.{FoundDown as Found};
ghost use Rattle.mon_value.specs.declared.positions.Leaf.{Leaf as LeafOf};
ghost use Rattle.mon_value.specs.declared.positions.Range.{Range as RangeOf};
ghost use Rattle.query_traces.specs.Answers.{IsAnsweredRightly, IsStoppedRightly};
ghost use Rattle.query_traces.specs.AskedPlaces.{IsThere};
ghost use Rattle.query_traces.specs.Askings.{IsAskedOf};
ghost use Rattle.query_traces.specs.Founds.{HasNoReplica};
ghost use Rattle.query_core.specs.Machine.{Query, new_query, slots_at};
ghost use Rattle.query_core.specs.Mixtures.{MayBeTold};
ghost use Rattle.query_traces.specs.Rounds.{typed_of, QuerySetting};
ghost use Rattle.query_core.specs.Orders.{ComeInOrder, ComeWholeInOrder, events_told, words_loaded};
ghost use Rattle.query_core.specs.Program.{ask_of};
ghost use Rattle.mon_meaning.specs.ReadableSlots.{CanBeRead};
ghost use Rattle.query_core.specs.SentTold.{sent_told};
ghost use Rattle.query_core.specs.Sessions.{Event, IsLicensed, query_after};
ghost use Rattle.query_traces.specs.TrueAnswers.{IsTrueAnswer};
ghost use Rattle.mon_topo.specs.Views.{IsSound, IsViewWithin, View};
ghost use Rattle.query_core.specs.Sessions.{view_after};
ghost use Rattle.query_core.specs.ToldDowns.{EndNames, NamesAll, downs_told};
ghost use Rattle.query_traces.specs.Traces.{IsBetween};
ghost use Rattle.query_traces.specs.declared.answers.RoundFault.{RoundFault as FaultOf};
ghost use Rattle.query_traces.specs.declared.answers.Answer.{Answer as AnswerOf};
ghost use Rattle.query_traces.specs.declared.answers.RoundFault.TheVariants.{NoReplica, StepLimit};
ghost use Rattle.query_traces.specs.declared.answers.Trace.{Trace as TraceOf};
ghost use Rattle.query_traces.specs.declared.asks.Ask.TheVariants.{Visit};
ghost use Rattle.query_traces.specs.declared.asks.Told.{Told as ToldOf};
ghost use Rattle.query_core.specs.declared.stages.Stage.TheVariants.{Ended};

/// Every licensed session of a query that is asked of a store ends rightly. A table is what the query means,
/// evaluated in one place, over the rows of the trace: each target's are those of one replica at one cut of its
/// leaf's history. The trace is of the histories that were seen; it holds each row that had been acknowledged by the
/// time of the first event; and a leaf that was not read has no row there that the query wants. The query stops for
/// its load only where the load over the rows of its trace is above the limit, and looks at no leaf before the first
/// event, also at none that it had not come to. Where it ends because a range has no
/// replica, each slot that served at a length of the range's history that was found in the session is on a leaf of
/// the range's zone that was found down in it, and all these are named.
pub fn sessions_answer_rightly()
    ensures answered { (store : Setting) (setting : QuerySetting) (moment : ℤ) (view : View)
        (events : List (Event store setting moment)) (answer : AnswerOf)
        → IsAskedOf store setting → pos 0 ≤ℤ moment → IsSound store view
        → IsLicensed store setting moment view (new_query setting) events
        → (query_after store setting moment (new_query setting) events).stage ≡ Ended (Ok answer)
        → IsAnsweredRightly store setting moment view.seen (view_after store setting moment view events).seen answer }
    ensures stopped { (store : Setting) (setting : QuerySetting) (moment : ℤ) (view : View)
        (events : List (Event store setting moment)) (limit : ℕ) (trace : TraceOf)
        → IsAskedOf store setting → pos 0 ≤ℤ moment → IsSound store view
        → IsLicensed store setting moment view (new_query setting) events
        → (query_after store setting moment (new_query setting) events).stage ≡ Ended (Err (StepLimit limit trace))
        → IsStoppedRightly store setting moment view.seen (view_after store setting moment view events).seen limit
        trace }
    ensures no_replica { (store : Setting) (setting : QuerySetting) (moment : ℤ) (view : View)
        (events : List (Event store setting moment)) (range : RangeOf) (named : List Found)
        → IsAskedOf store setting → pos 0 ≤ℤ moment → IsSound store view
        → IsLicensed store setting moment view (new_query setting) events
        → (query_after store setting moment (new_query setting) events).stage ≡ Ended (Err (NoReplica range named))
        → HasNoReplica store.zones view.seen (view_after store setting moment view events).seen range named }
{}

/// Each leaf that the end of a licensed session's query names as down was told so in the session, with that cut. Its
/// trace has all that were, and where a range has no replica all of its zone that were are named, in the order in which
/// they were told.
pub fn ends_name_what_was_told()
    ensures named { (store : Setting) (setting : QuerySetting) (moment : ℤ) (view : View)
        (events : List (Event store setting moment)) (end : Result AnswerOf FaultOf)
        → IsLicensed store setting moment view (new_query setting) events
        → (query_after store setting moment (new_query setting) events).stage ≡ Ended end
        → EndNames (Contains (downs_told store setting moment (new_query setting) events)) end }
    ensures all { (store : Setting) (setting : QuerySetting) (moment : ℤ) (view : View)
        (events : List (Event store setting moment)) (end : Result AnswerOf FaultOf)
        → IsAskedOf store setting → IsSound store view
        → IsLicensed store setting moment view (new_query setting) events
        → (query_after store setting moment (new_query setting) events).stage ≡ Ended end
        → NamesAll store.zones (downs_told store setting moment (new_query setting) events) end }
{}

/// Where no leaf was found down, the trace of a licensed session's table counts all that its leaves sent: as much as
/// the session was told.
pub fn traces_count_what_was_sent()
    ensures sent { (store : Setting) (setting : QuerySetting) (moment : ℤ) (view : View)
        (events : List (Event store setting moment)) (answer : AnswerOf)
        → IsAskedOf store setting → pos 0 ≤ℤ moment → IsSound store view
        → IsLicensed store setting moment view (new_query setting) events
        → (query_after store setting moment (new_query setting) events).stage ≡ Ended (Ok answer)
        → answer.trace.down ≡ [] → sum answer.trace.sent ≡ sent_told store setting moment events }
{}

/// The events of a licensed session come in one order, whatever it is told: the root's words, in ascending order of
/// their buckets; then each zone that they let in, in the order of the zones. In a zone its words are loaded; then, in
/// each round, each of its ranges resolves, its words are loaded again, and leaves are visited, in the zone's order. A
/// query that ends with a table has been through all zones that the root's words let in.
pub fn sessions_keep_the_order()
    ensures ascending { (store : Setting) (setting : QuerySetting) → IsAskedOf store setting
        → IsStrictlyIncreasing setting.plan.buckets }
    ensures ordered { (store : Setting) (setting : QuerySetting) (moment : ℤ) (view : View)
        (events : List (Event store setting moment)) → 0 < length setting.plan.buckets
        → IsLicensed store setting moment view (new_query setting) events
        → ComeInOrder setting (words_loaded store setting moment events)
        (events_told store setting moment (new_query setting) events) }
    ensures whole { (store : Setting) (setting : QuerySetting) (moment : ℤ) (view : View)
        (events : List (Event store setting moment)) (answer : AnswerOf) → 0 < length setting.plan.buckets
        → IsLicensed store setting moment view (new_query setting) events
        → (query_after store setting moment (new_query setting) events).stage ≡ Ended (Ok answer)
        → ComeWholeInOrder setting (words_loaded store setting moment events)
        (events_told store setting moment (new_query setting) events) }
{}

/// What a licensed session of a query that is asked of a store asks next may be told truly, by what is seen and known
/// then: the answers that this leads to mix are over divided rows. And where it visits a leaf, the slots that
/// resolved to it can be read together, at each length of the leaf's history that is found then. The zones, ranges
/// and leaves that it asks of are there.
pub fn sessions_may_go_on()
    ensures told { (store : Setting) (setting : QuerySetting) (moment : ℤ) (view : View)
        (events : List (Event store setting moment)) (later : View) (answer : ToldOf)
        → IsAskedOf store setting → pos 0 ≤ℤ moment → IsSound store view
        → IsLicensed store setting moment view (new_query setting) events
        → IsViewWithin (view_after store setting moment view events) later → IsSound store later
        → let query : Query = query_after store setting moment (new_query setting) events in
        IsTrueAnswer store setting moment (view_after store setting moment view events) later query.avoided
        (slots_at query) (ask_of setting query.stage) answer
        → MayBeTold setting query.stage answer }
    ensures read { (store : Setting) (setting : QuerySetting) (moment : ℤ) (view : View)
        (events : List (Event store setting moment)) (later : View) (leaf : LeafOf) (cut : ℕ)
        → IsAskedOf store setting → pos 0 ≤ℤ moment → IsSound store view
        → IsLicensed store setting moment view (new_query setting) events
        → IsViewWithin (view_after store setting moment view events) later → IsSound store later
        → IsBetween (length (leaf_history (view_after store setting moment view events).seen leaf))
        (length (leaf_history later.seen leaf)) cut
        → let query : Query = query_after store setting moment (new_query setting) events in
        ask_of setting query.stage ≡ Visit leaf
        → CanBeRead (typed_of setting) (take cut (leaf_history later.seen leaf)) (slots_at query) }
    ensures there { (store : Setting) (setting : QuerySetting) (moment : ℤ) (view : View)
        (events : List (Event store setting moment))
        → IsAskedOf store setting → pos 0 ≤ℤ moment → IsSound store view
        → IsLicensed store setting moment view (new_query setting) events
        → IsThere store.zones (ask_of setting (query_after store setting moment (new_query setting) events).stage) }
{}
