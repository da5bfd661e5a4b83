// What holds of all that callers know.
ghost use Rattle.std.specs.Prelude.{List};
ghost use Rattle.history_book.specs.Histories.{AreFronts};
ghost use Rattle.know.specs.Knowledge.{Knowledge};
ghost use Rattle.mon_topo.specs.declared.zones.ZoneSpec.{ZoneSpec};
ghost use Rattle.query_traces.specs.declared.answers.Trace.{Trace};
ghost use Rattle.mon_store.specs.Gathers.{HasSeenTrace};

/// Who has seen what a query looked at has seen it for good, so its rows may be gathered behind other calls.
pub fn seen_traces_stay_seen()
    ensures stay { (zones : List ZoneSpec) (before after : Knowledge) (trace : Trace)
        → AreFronts before.seen after.seen → HasSeenTrace zones before trace → HasSeenTrace zones after trace }
{}
