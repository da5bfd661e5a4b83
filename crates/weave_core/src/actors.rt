// Actors: writes, queries, switches and recoveries on their way.
ghost use Rattle.std.specs.Prelude.{◌≡◌, ◌||◌, None, IfOk};
ghost use Rattle.core_store.specs.Agreements.{IsServed};
ghost use Rattle.weave_core.specs.Tasks.{event_of, is_over};
ghost use Rattle.core_store.specs.declared.writes.Change.TheVariants.{Adds};
ghost use Rattle.weave_core.specs.NewActors.{IsTaskOf, IsDeclaredActor, IsTrimTask, IsWriteTask};
ghost use Rattle.write_core.specs.Program.{new_write as machine_of};

use crate::asked_events::{event_of_copy, event_of_query, event_of_write};
use crate::queries::Querying;
use crate::query_plans::query_task;
use crate::texts::no_zone;
use core_store::{Change, Recovering, Retiring, Store, Switching, Writing};
use mon_topo::Sight;
use mon_value::{OutOfMemory, Range, Row, Text, TryCopy};
use schedule_lines::{Call, Event};
use std::alloc::Global;
use write_core::{CopyMachine, WriteMachine};

/// What an actor has left to do.
#[derive(Drop)]
pub(crate) enum Task {
    /// Its call has no event: it ends at its first step, with this text.
    Refused(Text),
    /// It switches a leaf.
    Switches(Switching),
    /// It retires a range's replica on a leaf.
    Retires(Retiring),
    /// It recovers a range.
    Recovers(Recovering),
    /// It writes, or trims.
    Writes(Writing),
    /// It queries.
    Queries(Querying),
    /// It has ended.
    Ended,
}

/// An actor: how far it is, what it has seen, and whether some event of it went.
#[derive(Drop)]
pub(crate) struct Actor {
    pub task: Task,
    pub sight: Sight,
    pub begun: bool,
}

impl Actor {
    /// An actor of a number that has not begun.
    pub(crate) fn new(store: &Store, number: u32, call: Call) -> Result<Actor, OutOfMemory>
        requires served { IsServed store.now.config }
        ensures new { IfOk result (IsDeclaredActor store.now.config number call store.now.first_sight) }
    {
        let sight = store.first_sight.copy(store.alloc)?;
        let task = task_of(store, number, call)?;
        Ok(Actor {
            task,
            sight,
            begun: false,
        })
    }

    /// Whether it has ended.
    pub(crate) fn has_ended(&self) -> bool
        ensures ended { result ≡ is_over self.now.task }
    {
        match &self.task {
            Task::Refused(_)
            | Task::Switches(_)
            | Task::Retires(_)
            | Task::Recovers(_)
            | Task::Writes(_)
            | Task::Queries(_) => false,
            Task::Ended => true,
        }
    }

    /// Whether some event of it went, or it has ended.
    pub(crate) fn has_begun(&self) -> bool
        ensures begun { result ≡ (self.now.begun || is_over self.now.task) }
    {
        self.begun || self.has_ended()
    }

    /// Its next event, if it has one.
    pub(crate) fn next_event(&self) -> Option<Event>
        ensures next { result ≡ event_of self.now.task }
    {
        match &self.task {
            Task::Writes(writing) => event_of_write(&writing.machine.next()),
            Task::Queries(querying) => event_of_query(&querying.machine.next()),
            Task::Recovers(recovering) => event_of_copy(recovering.machine.next()),
            Task::Switches(_) => Some(Event::Switch),
            Task::Retires(_) => Some(Event::Retire),
            Task::Refused(_) | Task::Ended => None,
        }
    }
}

// What a call comes to that has not begun.
fn task_of(store: &Store, number: u32, call: Call) -> Result<Task, OutOfMemory>
    requires served { IsServed store.now.config }
    ensures task { IfOk result (IsTaskOf store.now.config number call) }
{
    match call {
        Call::Write(row) => write_task(store, number, row),
        Call::Query(moment, text) => query_task(store, moment, &text),
        Call::Down(leaf) => Ok(Task::Switches(Switching {
            number,
            leaf,
            down: true,
        })),
        Call::Up(leaf) => Ok(Task::Switches(Switching {
            number,
            leaf,
            down: false,
        })),
        Call::Recover(range, leaf) => Ok(Task::Recovers(Recovering {
            number,
            range,
            leaf,
            machine: CopyMachine::new(store.alloc),
        })),
        Call::Trim(range, before) => Ok(new_trim(store.alloc, number, range, before)),
        Call::Retire(range, leaf) => Ok(Task::Retires(Retiring {
            number,
            range,
            leaf,
        })),
    }
}

// A trim of a range below a moment that has not begun.
fn new_trim(alloc: Global, number: u32, range: Range, before: i64) -> Task
    ensures task { IsTrimTask number range before result }
{
    Task::Writes(Writing {
        number,
        change: Change::Hides(before),
        range,
        machine: WriteMachine::new(alloc, range),
        inside: None,
    })
}

// A write of a row, or the text that no zone lists its location.
fn write_task(store: &Store, number: u32, row: Row) -> Result<Task, OutOfMemory>
    ensures task { IfOk result (IsWriteTask store.now.config number row) }
{
    match store.config.range_of(&row.key) {
        Some(range) => Ok(Task::Writes(new_write(store.alloc, number, row, range)?)),
        None => Ok(Task::Refused(no_zone(store.alloc)?)),
    }
}

// A write of a row to a range that has not begun.
fn new_write(alloc: Global, number: u32, row: Row, range: Range) -> Result<Writing, OutOfMemory>
    ensures number { IfOk result (λ writing. writing.number ≡ number) }
    ensures change { IfOk result (λ writing. writing.change ≡ Adds row row.key) }
    ensures range { IfOk result (λ writing. writing.range ≡ range) }
    ensures machine { IfOk result (λ writing. writing.machine ≡ machine_of range) }
    ensures inside { IfOk result (λ writing. writing.inside ≡ None) }
{
    let key = row.key.copy(alloc)?;
    Ok(Writing {
        number,
        change: Change::Adds(row, key),
        range,
        machine: WriteMachine::new(alloc, range),
        inside: None,
    })
}
