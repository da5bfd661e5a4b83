// The core: its store and its actors.
ghost use Rattle.std.specs.Prelude.{◌≡◌, ◌<◌, ◌≤◌, ◌+◌, None, Some, length, option_map, replicate, set};
ghost use Rattle.std.specs.Prelude.{IfOk, IfSome, OnOk};
ghost use Rattle.std.specs.Option.{option_copied};
ghost use Rattle.mon_config.specs.declared.config.Config.{Config as ConfigOf};
ghost use Rattle.weave_core.specs.ActorAgreements.{Agrees, actor_numbered};
ghost use Rattle.mon_config.specs.Configs.{IsLimited};
ghost use Rattle.weave_core.specs.NewActors.{hearing_of};
ghost use Rattle.weave_core.specs.Schedules.{meet_fault};
ghost use Rattle.mon_topo.specs.Sights.{AreAlike};
ghost use Rattle.weave_core.specs.States as spec;
ghost use Rattle.weave_core.specs.States.{State};
ghost use Rattle.core_store.specs.Agreements.{store_of};
ghost use Rattle.weave_core.specs.WeaveCalls.{BeginsSo, DeclaresSo, IsWeaveKept, IsKeptUnless, IsStepped, MayDeclare};
ghost use Rattle.weave_core.specs.WeaveCalls.{MeetsSo};

use crate::actor_steps::step_actor;
use crate::actors::Actor;
use crate::stepped::Stepped;
use core_store::Store;
use mon_config::Config;
use mon_topo::Sight;
use mon_value::{OutOfMemory, Refusal};
use schedule_lines::{Call, Event, LAST_ACTOR, WeaveFault};
use std::alloc::Global;

/// A store whose writes and queries go one event at a time, whichever is asked to go next. No event waits in it: an
/// actor that is in another one's way stays where it is. Contracts speak of the states of the core that it agrees
/// with. Once a call was refused for want of memory, it is to be dropped. Each actor stands at its number, and none
/// at the place 0.
#[derive(Drop)]
pub struct Weave {
    store: Store,
    actors: Vec<Option<Actor>>,
}

impl Weave {
    /// The store of a configuration, without rows and actors.
    pub fn new(alloc: Global, config: Config) -> Result<Weave, OutOfMemory>
        requires limited { IsLimited config }
        ensures begins { IfOk result (BeginsSo config) }
    {
        let store = Store::new(alloc, config)?;
        match no_actors(alloc) {
            Ok(actors) => Ok(Weave { store, actors }),
            Err(fault) => {
                drop(store);
                Err(fault)
            }
        }
    }

    /// Says what the actor of a number, which is not declared yet, is to do.
    pub fn declare(&mut self, actor: u32, call: Call) -> Result<(), OutOfMemory>
        requires kept { IsWeaveKept self.old }
        requires least { 1 ≤ actor }
        requires most { actor ≤ LAST_ACTOR }
        requires may { (config : ConfigOf) (state : State (store_of config)) → Agrees config self.old state
            → MayDeclare config state actor call }
        ensures kept { OnOk result (IsWeaveKept self.new) }
        ensures declared { (config : ConfigOf) (state : State (store_of config)) → Agrees config self.old state
            → OnOk result (DeclaresSo config state actor call self.new) }
    {
        let own = Actor::new(&self.store, actor, call)?;
        put_actor(self.actors.as_mut_slice(), actor, own);
        Ok(())
    }

    /// Does the next event of an actor, and nothing where another one holds what it needs.
    pub fn step(&mut self, actor: u32) -> Result<Stepped, Refusal<WeaveFault>>
        requires kept { IsWeaveKept self.old }
        ensures kept { IsKeptUnless result self.new }
        ensures stepped { (config : ConfigOf) (state : State (store_of config)) → Agrees config self.old state
            → IsStepped config state actor self.new result }
    {
        let Some(own) = take_actor(self.actors.as_mut_slice(), actor) else {
            return Err(Refusal::Fault(WeaveFault::NoActor));
        };
        let (own, stepped) = step_actor(&mut self.store, own)?;
        put_actor(self.actors.as_mut_slice(), actor, own);
        stepped.ok_or(Refusal::Fault(WeaveFault::Finished))
    }

    /// Lets an actor that has not begun see what another one, which has ended, has seen.
    pub fn meet(&mut self, actor: u32, other: u32)
        requires kept { IsWeaveKept self.old }
        requires may { (config : ConfigOf) (state : State (store_of config)) → Agrees config self.old state
            → meet_fault (store_of config) state actor other ≡ None }
        ensures kept { IsWeaveKept self.new }
        ensures met { (config : ConfigOf) (state : State (store_of config)) → Agrees config self.old state
            → MeetsSo config state actor other self.new }
    {
        let Some(ended) = take_actor(self.actors.as_mut_slice(), other) else {
            return;
        };
        let place = &mut self.actors[actor as usize];
        hear(place, &ended.sight);
        put_actor(self.actors.as_mut_slice(), other, ended);
    }

    /// The next event of an actor: none where it is not declared, has ended, or has none at all.
    pub fn next_event(&self, actor: u32) -> Option<Event>
        ensures next { (config : ConfigOf) (state : State (store_of config)) → Agrees config self.now state
            → result ≡ spec.next_event (store_of config) state actor }
    {
        match self.actor(actor) {
            Some(own) => own.next_event(),
            None => None,
        }
    }

    /// Whether an actor is declared.
    pub fn is_declared(&self, actor: u32) -> bool
        ensures declared { (config : ConfigOf) (state : State (store_of config)) → Agrees config self.now state
            → result ≡ spec.is_declared (store_of config) state actor }
    {
        self.actor(actor).is_some()
    }

    /// Whether some event of an actor went, or it has ended.
    pub fn has_begun(&self, actor: u32) -> bool
        ensures begun { (config : ConfigOf) (state : State (store_of config)) → Agrees config self.now state
            → result ≡ spec.has_begun (store_of config) state actor }
    {
        match self.actor(actor) {
            Some(own) => own.has_begun(),
            None => false,
        }
    }

    /// Whether an actor has ended.
    pub fn has_ended(&self, actor: u32) -> bool
        ensures ended { (config : ConfigOf) (state : State (store_of config)) → Agrees config self.now state
            → result ≡ spec.has_ended (store_of config) state actor }
    {
        match self.actor(actor) {
            Some(own) => own.has_ended(),
            None => false,
        }
    }

    /// The configuration.
    pub fn config(&self) -> &Config
        ensures config { (config : ConfigOf) (state : State (store_of config)) → Agrees config self.now state
            → result.now ≡ config }
    {
        &self.store.config
    }

    // The actor of a number, if it is declared.
    fn actor(&self, number: u32) -> Option<&Actor>
        ensures actor { option_copied result ≡ actor_numbered self.now.actors.items number }
    {
        actor_at(self.actors.as_slice(), number)
    }
}

// The actor of a number, if it is declared.
fn actor_at(actors: &[Option<Actor>], number: u32) -> Option<&Actor>
    ensures actor { option_copied result ≡ actor_numbered actors.now number }
{
    let place = number as usize;
    if place < actors.len() {
        actors[place].as_ref()
    } else {
        None
    }
}

// Places for all actors, none of whom is declared.
fn no_actors(alloc: Global) -> Result<Vec<Option<Actor>>, OutOfMemory>
    ensures none { IfOk result (λ actors. actors.items ≡ replicate (LAST_ACTOR + 1) None) }
{
    let mut actors = Vec::with_capacity(alloc, LAST_ACTOR as usize + 1)?;
    for _number in 0..LAST_ACTOR + 1 {
        actors.push(None)?;
    }
    Ok(actors)
}

// Takes the actor of a number out of its place, if it is declared.
fn take_actor(actors: &mut [Option<Actor>], number: u32) -> Option<Actor>
    ensures taken { result ≡ actor_numbered actors.old number }
    ensures left { actors.new ≡ set actors.old number None }
{
    let place = number as usize;
    if place < actors.len() {
        actors[place].take()
    } else {
        None
    }
}

// Puts an actor at its place. Who stood there is let go of by one call, which is proved apart.
fn put_actor(actors: &mut [Option<Actor>], number: u32, own: Actor)
    requires there { number < length actors.old }
    ensures put { actors.new ≡ set actors.old number (Some own) }
{
    drop(actors[number as usize].replace(own));
}

// Lets an actor, if there is one, see what was seen.
fn hear(place: &mut Option<Actor>, seen: &Sight)
    requires alike { IfSome place.old (λ own. AreAlike own.sight seen.now) }
    ensures heard { place.new ≡ option_map (hearing_of seen.now) place.old }
{
    if let Some(own) = place {
        own.sight.join(seen);
    }
}
