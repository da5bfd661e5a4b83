// What holds of every trace.
ghost use Rattle.std.specs.Prelude.{◌≡◌, ℕ, ℤ, List};
ghost use Rattle.mon_value.specs.declared.histories.Histories.{Histories};
ghost use Rattle.mon_value.specs.declared.positions.FoundDown.{FoundDown as Found};
ghost use Rattle.mon_value.specs.declared.positions.Leaf.{Leaf as LeafOf};
ghost use Rattle.mon_value.specs.declared.rows.SeriesKey.{SeriesKey as KeyOf};
ghost use Rattle.typed_trees.specs.Nodes.{TypedTree as Typed};
ghost use Rattle.typed_trees.specs.declared.plans.Plan.{Plan as PlanOf};
ghost use Rattle.query_traces.specs.Founds.{IsFoundBetween};
ghost use Rattle.query_traces.specs.Traces.{AreWider, IsFreshBetween, IsReadRightly, IsTraceBetween, Lengths};
ghost use Rattle.query_traces.specs.Traces.{source_of};
ghost use Rattle.query_traces.specs.declared.answers.Trace.{Trace as TraceOf};

/// What is said of a trace between two moments stays as histories grow, and between an earlier moment and a later
/// one; so do its rows, and what was found down.
pub fn traces_stay()
    ensures of { (typed : Typed) (moment : ℤ) (from to earlier later : Lengths) (seen more : Histories)
        (trace : TraceOf) → AreWider from to earlier later seen more → IsTraceBetween typed moment from to seen trace
        → IsTraceBetween typed moment earlier later more trace }
    ensures rows { (typed : Typed) (moment : ℤ) (from to earlier later : Lengths) (seen more : Histories)
        (trace : TraceOf) → AreWider from to earlier later seen more → IsTraceBetween typed moment from to seen trace
        → source_of more trace ≡ source_of seen trace }
    ensures fresh { (typed : Typed) (moment : ℤ) (from to earlier later : Lengths) (seen more : Histories)
        (trace : TraceOf) → AreWider from to earlier later seen more → IsTraceBetween typed moment from to seen trace
        → IsFreshBetween from to seen trace → IsFreshBetween earlier later more trace }
    ensures read { (typed : Typed) (moment : ℤ) (from to earlier later : Lengths) (seen more : Histories)
        (trace : TraceOf) (plan : PlanOf) (buckets_of : KeyOf → List ℕ) (leaf : LeafOf)
        → AreWider from to earlier later seen more → IsTraceBetween typed moment from to seen trace
        → IsReadRightly typed plan buckets_of seen trace leaf → IsReadRightly typed plan buckets_of more trace leaf }
    ensures found { (from to earlier later : Lengths) (seen more : Histories) (found : Found)
        → AreWider from to earlier later seen more → IsFoundBetween from to seen found
        → IsFoundBetween earlier later more found }
{}
