// Steps of actors.
ghost use Rattle.std.specs.Prelude.{◌≡◌, ℕ, IfOk};
ghost use Rattle.mon_config.specs.declared.config.Config.{Config as ConfigOf};
ghost use Rattle.weave_core.specs.ActorSteps.{ActorSteps, IsIn, IsSomewhere, QueriedSo, RecoveredSo, RetiredSo};
ghost use Rattle.weave_core.specs.ActorSteps.{SwitchedSo, WrittenSo};
ghost use Rattle.weave_core.specs.States.{State};
ghost use Rattle.core_store.specs.Agreements.{store_of};
ghost use Rattle.weave_core.specs.declared.actors.Task.TheVariants.{Ended};

use crate::actors::{Actor, Task};
use crate::queries::{QueryTurn, query};
use crate::stepped::Stepped;
use crate::texts::{
    Deed, deed_of, query_text, recover_text, retire_text, switch_text, write_end_text,
};
use core_store::{RecoverTurn, Retiring, Store, Switched, Switching, WriteTurn};
use mon_topo::Sight;
use mon_value::OutOfMemory;
use write_core::Retirement;

/// Does the next event of an actor, unless another one is in its way, and tells how that went; nothing where it has
/// ended.
pub(crate) fn step_actor(
    store: &mut Store,
    own: Actor,
) -> Result<(Actor, Option<Stepped>), OutOfMemory>
    requires somewhere { IsSomewhere store.old own }
    ensures stepped { (config : ConfigOf) (state : State (store_of config)) (i : ℕ) → IsIn config state i store.old own
        → IfOk result (λ pair. ActorSteps config state i store.new own pair.0 pair.1) }
{
    let Actor { task, sight, begun } = own;
    let mut sight = sight;
    match task {
        Task::Ended => Ok((ended(sight, begun), None)),
        Task::Refused(text) => Ok((ended(sight, true), Some(Stepped::Ended(text)))),
        Task::Switches(switching) => {
            let came = store.switch(switching, &mut sight);
            switched(store, switching, came, sight, begun)
        }
        Task::Retires(retiring) => {
            let came = store.retire(retiring, &mut sight);
            retired(store, retiring, came, sight, begun)
        }
        Task::Recovers(recovering) => {
            let turn = store.recover(recovering, &mut sight)?;
            recovered(store, turn, sight, begun)
        }
        Task::Writes(writing) => {
            let deed = deed_of(&writing.change);
            let turn = store.write(writing, &mut sight)?;
            written(store, deed, turn, sight, begun)
        }
        Task::Queries(querying) => {
            let turn = query(store, querying, &mut sight)?;
            queried(store, turn, sight, begun)
        }
    }
}

// An actor that has ended.
fn ended(sight: Sight, begun: bool) -> Actor
    ensures ended { result ≡ record { task = Ended; sight = sight; begun = begun } }
{
    Actor {
        task: Task::Ended,
        sight,
        begun,
    }
}

// An actor that switched a leaf, or waits for it, and what came of it.
fn switched(
    store: &Store,
    switching: Switching,
    came: Option<Switched>,
    sight: Sight,
    begun: bool,
) -> Result<(Actor, Option<Stepped>), OutOfMemory>
    ensures switched { IfOk result (λ pair.
        SwitchedSo store.now.config.topology switching came sight begun pair.0 pair.1) }
{
    match came {
        Some(came) => {
            let text = switch_text(store.alloc, &store.config.topology, switching, came)?;
            Ok((ended(sight, true), Some(Stepped::Ended(text))))
        }
        None => Ok((
            Actor {
                task: Task::Switches(switching),
                sight,
                begun,
            },
            Some(Stepped::Waits),
        )),
    }
}

// An actor that retired a range's replica, or waits for the range, and what came of it.
fn retired(
    store: &Store,
    retiring: Retiring,
    came: Option<Retirement>,
    sight: Sight,
    begun: bool,
) -> Result<(Actor, Option<Stepped>), OutOfMemory>
    ensures retired { IfOk result (λ pair.
        RetiredSo store.now.config.topology retiring came sight begun pair.0 pair.1) }
{
    match came {
        Some(came) => {
            let text = retire_text(store.alloc, &store.config.topology, retiring, came)?;
            Ok((ended(sight, true), Some(Stepped::Ended(text))))
        }
        None => Ok((
            Actor {
                task: Task::Retires(retiring),
                sight,
                begun,
            },
            Some(Stepped::Waits),
        )),
    }
}

// An actor that took this turn of its recovery, and what came of it.
fn recovered(
    store: &Store,
    turn: RecoverTurn,
    sight: Sight,
    begun: bool,
) -> Result<(Actor, Option<Stepped>), OutOfMemory>
    ensures recovered { IfOk result (λ pair. RecoveredSo store.now.config.topology turn sight begun pair.0 pair.1) }
{
    match turn {
        RecoverTurn::Went(recovering) => Ok((
            Actor {
                task: Task::Recovers(recovering),
                sight,
                begun: true,
            },
            Some(Stepped::Went),
        )),
        RecoverTurn::Waits(recovering) => Ok((
            Actor {
                task: Task::Recovers(recovering),
                sight,
                begun,
            },
            Some(Stepped::Waits),
        )),
        RecoverTurn::Ended(range, leaf, outcome) => {
            let text = recover_text(store.alloc, &store.config.topology, range, leaf, &outcome)?;
            Ok((ended(sight, true), Some(Stepped::Ended(text))))
        }
    }
}

// An actor that took this turn of its write or trim, and what came of it.
fn written(
    store: &Store,
    deed: Deed,
    turn: WriteTurn,
    sight: Sight,
    begun: bool,
) -> Result<(Actor, Option<Stepped>), OutOfMemory>
    ensures written { IfOk result (λ pair. WrittenSo store.now.config.topology deed turn sight begun pair.0 pair.1) }
{
    match turn {
        WriteTurn::Went(writing) => Ok((
            Actor {
                task: Task::Writes(writing),
                sight,
                begun: true,
            },
            Some(Stepped::Went),
        )),
        WriteTurn::Waits(writing) => Ok((
            Actor {
                task: Task::Writes(writing),
                sight,
                begun,
            },
            Some(Stepped::Waits),
        )),
        WriteTurn::Ended(range, end) => {
            let text = write_end_text(store.alloc, &store.config.topology, deed, range, &end)?;
            Ok((ended(sight, true), Some(Stepped::Ended(text))))
        }
    }
}

// An actor that took this turn of its query, and what came of it.
fn queried(
    store: &Store,
    turn: QueryTurn,
    sight: Sight,
    begun: bool,
) -> Result<(Actor, Option<Stepped>), OutOfMemory>
    ensures queried { IfOk result (λ pair. QueriedSo store.now.config.topology turn sight begun pair.0 pair.1) }
{
    match turn {
        QueryTurn::Went(querying) => Ok((
            Actor {
                task: Task::Queries(querying),
                sight,
                begun: true,
            },
            Some(Stepped::Went),
        )),
        QueryTurn::Waits(querying) => Ok((
            Actor {
                task: Task::Queries(querying),
                sight,
                begun,
            },
            Some(Stepped::Waits),
        )),
        QueryTurn::Ended(end) => {
            let text = query_text(store.alloc, &store.config.topology, end)?;
            Ok((ended(sight, true), Some(Stepped::Ended(text))))
        }
    }
}
