// A query that is told what its caller finds, up to its end.
ghost use Rattle.std.specs.Prelude.{◌≡◌, ◌≢◌, IfOk, OnOk};
ghost use Rattle.know.specs.Knowledge.{Knowledge};
ghost use Rattle.query_core.specs.Machine.{new_query};
ghost use Rattle.query_core.specs.Program.{ask_of};
ghost use Rattle.query_traces.specs.Rounds.{QuerySetting};
ghost use Rattle.query_traces.specs.declared.asks.Ask.TheVariants.{Finished};
ghost use Rattle.running_query.specs.Asking.{IsAskedHere, IsSomewhere, IsUnderWay};
ghost use Rattle.running_query.specs.Ends.{EndsRightly};
ghost use Rattle.running_query.specs.Looks.{GoesOn};

use crate::cells::QueryCells;
use crate::looks::Looks;
use know::{Know, Names, Tables};
use mon_value::OutOfMemory;
use query_core::{
    Answer, QueryMachine, RoundFault, ends_name_what_was_told, find_next, sessions_answer_rightly,
    sessions_keep_the_order, traces_count_what_was_sent,
};
use std::alloc::Global;
use std::sync::Wait;

/// Goes through a query, by looks at words, ranges and leaves. Its end is right, by what its caller had seen before
/// and has seen then.
pub fn looked_up<R: Wait, N: Names, C: QueryCells<N>>(
    rt: &R,
    alloc: Global,
    tables: &Tables<N>,
    cells: &C,
    know: &mut Know<N>,
    machine: QueryMachine,
    moment: i64,
) -> Result<Result<Answer, RoundFault>, OutOfMemory>
    requires asked { IsAskedHere N.setting N.raise machine.setting moment know.old }
    requires new { machine ≡ new_query machine.setting }
    ensures goes { GoesOn N.setting know.old know.new }
    ensures ends { IfOk result (EndsRightly N.setting machine.setting moment know.old know.new) }
{
    let mut side = Looks {
        alloc,
        tables,
        cells,
    };
    let mut machine = machine;
    'events: for _ in rt.forever() {
        if machine.is_finished() {
            sessions_answer_rightly();
            ends_name_what_was_told();
            traces_count_what_was_sent();
            sessions_keep_the_order();
            return Ok(machine.finish());
        }
        match step(&mut side, know, &mut machine, moment) {
            Ok(()) => {}
            Err(fault) => {
                drop(machine);
                return Err(fault);
            }
        }
    }
    unreachable!()
}

// One event of a query that has not ended.
fn step<'a, N: Names, C: QueryCells<N>>(
    side: &mut Looks<'a, N, C>,
    know: &mut Know<N>,
    machine: &mut QueryMachine,
    moment: i64,
) -> Result<(), OutOfMemory>
    requires somewhere { IsSomewhere N.setting N.raise moment know.old machine.old }
    requires goes_on { ask_of machine.old.setting machine.old.stage ≢ Finished }
    ensures goes { GoesOn N.setting know.old know.new }
    ensures setting { machine.new.setting ≡ machine.old.setting }
    ensures on { OnOk result ((setting : QuerySetting) (entry : Knowledge) → machine.old.setting ≡ setting
        → IsUnderWay N.setting N.raise setting moment entry know.old machine.old
        → IsUnderWay N.setting N.raise setting moment entry know.new machine.new) }
{
    let found = find_next(side, know, machine, moment)?;
    machine.told(found)
}
