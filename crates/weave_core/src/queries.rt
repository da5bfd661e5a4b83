// The events of a query.
ghost use Rattle.std.specs.Prelude.{◌≡◌, ◌≢◌, ℕ, IfOk};
ghost use Rattle.mon_config.specs.declared.config.Config.{Config as ConfigOf};
ghost use Rattle.query_core.specs.Mixtures.{MayBeTold};
ghost use Rattle.query_core.specs.Program.{ask_of};
ghost use Rattle.query_traces.specs.declared.asks.Ask.TheVariants.{Finished};
ghost use Rattle.core_theory.specs.Core.{Core};
ghost use Rattle.weave_core.specs.QuerySides.{IsAskedThere, TellsThere};
ghost use Rattle.weave_core.specs.QueryTurns.{IsAskedSomewhere, IsAsking, IsTurnOf, QueriesSo, TurnsBy};
ghost use Rattle.core_store.specs.Agreements.{store_of};

use crate::query_looks::{find, look};
use core_store::Store;
use mon_hints::Place;
use mon_topo::Sight;
use mon_value::{Leaf, OutOfMemory, Range};
use query_core::{Answer, QueryMachine, QuerySide, RoundFault, Seen, Told, find_next};

/// A query on its way: its moment, and what it does next.
#[derive(Drop)]
pub(crate) struct Querying {
    pub moment: i64,
    pub machine: QueryMachine,
}

/// How far a query is after a step.
#[derive(Drop)]
pub(crate) enum QueryTurn {
    Went(Querying),
    Waits(Querying),
    Ended(Result<Answer, RoundFault>),
}

/// Does the next event of a query that has seen so much, unless someone else is in its way.
pub(crate) fn query(
    store: &mut Store,
    querying: Querying,
    sight: &mut Sight,
) -> Result<QueryTurn, OutOfMemory>
    requires asking { IsAskedSomewhere store.old querying sight.old }
    ensures turn { (config : ConfigOf) (core : Core (store_of config)) (k : ℕ)
        → IsAsking config core k store.old querying sight.old
        → IfOk result (QueriesSo config core k querying store.new sight.old sight.new) }
{
    match find_there(store, sight, &querying.machine, querying.moment) {
        Ok(Some(told)) => told_on(querying, told),
        Ok(None) => Ok(QueryTurn::Waits(querying)),
        Err(fault) => {
            drop(querying);
            Err(fault)
        }
    }
}

// What a store tells of the next event of a query.
fn find_there(
    store: &mut Store,
    sight: &mut Sight,
    machine: &QueryMachine,
    moment: i64,
) -> Result<Option<Told>, OutOfMemory>
    requires goes_on { ask_of machine.now.setting machine.now.stage ≢ Finished }
    requires asked { IsAskedThere store.old sight.old machine.now moment
        (ask_of machine.now.setting machine.now.stage) }
    ensures told { IfOk result (λ found. TellsThere store.old sight.old machine.now moment
        (ask_of machine.now.setting machine.now.stage) found store.new sight.new) }
{
    let mut side = StoreSide { store };
    find_next(&mut side, sight, machine, moment)
}

// A store, as the queries of actors ask it.
#[derive(Drop)]
struct StoreSide<'s> {
    store: &'s mut Store,
}

// A query's caller looks for itself, and has seen so much. It finds nothing where someone else is in its way.
impl<'s> QuerySide for StoreSide<'s> {
    ghost use Rattle.std.specs.Prelude.{◌≡◌};
    ghost use Rattle.weave_core.specs.QuerySides.{IsAskedThere, TellsThere};

    type Caller = Sight;

    type Found = Option<Told>;

    ghost asks = { λ side sight query moment asked. IsAskedThere side.store.now sight query moment asked };

    ghost tells = { λ side sight query moment asked found new now. TellsThere side.store.now sight query moment asked
        found new.store.now now };

    ghost leaves = { λ side sight new now. new.store.ghost_name ≡ side.store.ghost_name };

    fn load(
        &mut self,
        sight: &mut Sight,
        _machine: &QueryMachine,
        _moment: i64,
        place: Place,
        bucket: u32,
    ) -> Result<Option<Told>, OutOfMemory> {
        let seen = Seen::of(self.store.alloc, sight)?;
        Ok(Some(Told::Word(self.store.words.word(place, bucket), seen)))
    }

    fn resolve(
        &mut self,
        sight: &mut Sight,
        machine: &QueryMachine,
        _moment: i64,
        range: Range,
    ) -> Result<Option<Told>, OutOfMemory> {
        let seat = &mut self.store.ranges[range.0 as usize];
        Ok(find(seat, range, machine.avoided(), sight))
    }

    fn visit(
        &mut self,
        sight: &mut Sight,
        machine: &QueryMachine,
        moment: i64,
        leaf: Leaf,
    ) -> Result<Option<Told>, OutOfMemory> {
        let alloc = self.store.alloc;
        let limit = self.store.config.limit;
        let seat = &mut self.store.leaves[leaf.0 as usize];
        look(alloc, machine, moment, limit, seat, leaf, sight)
    }
}

// Goes on by what its last event came to.
fn told_on(querying: Querying, told: Told) -> Result<QueryTurn, OutOfMemory>
    requires may { MayBeTold querying.machine.setting querying.machine.stage told }
    ensures turns { IfOk result (TurnsBy querying told) }
{
    let mut querying = querying;
    match querying.machine.told(told) {
        Ok(()) => Ok(turn_of(querying)),
        Err(fault) => {
            drop(querying);
            Err(fault)
        }
    }
}

// Whether a query goes on, or how it has ended.
fn turn_of(querying: Querying) -> QueryTurn
    ensures turn { IsTurnOf querying result }
{
    if querying.machine.is_finished() {
        QueryTurn::Ended(querying.machine.finish())
    } else {
        QueryTurn::Went(querying)
    }
}
