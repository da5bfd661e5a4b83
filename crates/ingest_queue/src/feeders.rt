// A file's records on their way to the queue.
ghost use Rattle.std.specs.Prelude.{◌≡◌, ◌+◌, ◌<◌, ◌∷◌, [], length, true, IfNone, IfOk, MatchOption, None, OnOk, Some};
ghost use Rattle.std.specs.Bool.{MatchBool};
ghost use Rattle.crossbeam_queue.specs.Passes.{view, IsPassOf};
ghost use Rattle.ingest_queue.specs.Feeding.{IsFeeding, left_of, numbered};
ghost use Rattle.ingest_queue.specs.Roles.{IsNext, each, may, sent_by};

use crate::records::Records;
use crate::roles::{Files, Hand, Queue, push};
use crate::starts::Starts;
use crate::turns::Turn;
use mon_value::OutOfMemory;
use std::alloc::AllocError;
use std::marker::Model;
use std::mem;
use std::sync::Wait;

/// The reader of a file. One record may be held back, which met a full queue. Contracts see that record, and those that
/// are left behind it.
#[derive(Drop)]
pub(crate) struct Feeder<Q: Records> {
    records: Q,
    second: bool,
    // The number of the record that was read last.
    number: u32,
    held: Option<Turn>,
    arrived: bool,
    gone: bool,
}

impl<Q: Records> Model for Feeder<Q> {
    ghost use Rattle.std.specs.Prelude.{List, Option, ◌+◌};
    ghost use Rattle.ingest_queue.specs.Feeding.{numbered};
    ghost use Rattle.ingest_queue.specs.declared.turns.Turn.{Turn};

    ghost Value = { Option Turn × List Turn };

    ghost view = { λ feeder. (feeder.held, numbered feeder.second (feeder.number + 1) (Q.left feeder.records)) };
}

impl<Q: Records> Feeder<Q> {
    /// All records of the first file or of the second.
    pub(crate) fn new(records: Q, second: bool) -> Feeder<Q>
        ensures left { left_of result ≡ numbered second 1 (Q.left records) }
    {
        Feeder {
            records,
            second,
            number: 0,
            held: None,
            arrived: false,
            gone: false,
        }
    }

    // Takes the next record, if there is one.
    pub(crate) fn take(&mut self) -> Result<Option<Turn>, OutOfMemory>
        ensures taken { IfOk result (λ next. MatchOption next ((left_of self.old ≡ []) × (left_of self.new ≡ []))
            (λ turn. left_of self.old ≡ turn ∷ left_of self.new)) }
        ensures held { OnOk result (self.new.0 ≡ None) }
    {
        match mem::replace(&mut self.held, None) {
            Some(turn) => Ok(Some(turn)),
            None => self.read(),
        }
    }

    // Reads the next record, where none is held back.
    fn read(&mut self) -> Result<Option<Turn>, OutOfMemory>
        requires none { self.old.0 ≡ None }
        ensures read { IfOk result (λ next. MatchOption next ((self.old.1 ≡ []) × (self.new.1 ≡ []))
            (λ turn. self.old.1 ≡ turn ∷ self.new.1)) }
        ensures held { OnOk result (self.new.0 ≡ None) }
    {
        let number = next_number(self.number)?;
        match self.records.next()? {
            Some(read) => {
                self.number = number;
                Ok(Some(Turn {
                    second: self.second,
                    number,
                    read,
                }))
            }
            None => Ok(None),
        }
    }

    // Holds a record back that was taken.
    fn hold(&mut self, turn: Turn)
        requires none { self.old.0 ≡ None }
        ensures held { self.new ≡ (Some turn, self.old.1) }
    {
        drop(mem::replace(&mut self.held, Some(turn)));
    }

    // Tells that the file is begun, where that was not told.
    fn arrive<S: Starts>(&mut self, starts: &S)
        ensures same { self.new ≡ self.old }
    {
        if !self.arrived {
            starts.arrive(file_number(self.second));
            self.arrived = true;
        }
    }

    // Tells that the file has ended, where that was not told.
    fn leave<S: Starts>(&mut self, starts: &S)
        ensures same { self.new ≡ self.old }
    {
        if !self.gone {
            starts.leave(file_number(self.second));
            self.gone = true;
        }
    }
}

// The files are 1 and 2.
fn file_number(second: bool) -> u32 {
    if second { 2 } else { 1 }
}

// The next record's number. No memory holds so many records that there is none.
fn next_number(number: u32) -> Result<u32, OutOfMemory>
    ensures next { IfOk result (λ next. next ≡ number + 1) }
{
    number.checked_add(1).ok_or(AllocError)
}

// Pushes a record, or holds it back.
fn push_or_hold<F: Files, Q: Records, R: Wait>(
    rt: &R,
    queue: &Queue<F>,
    pass: &mut Hand,
    feeder: &mut Feeder<Q>,
    turn: Turn,
) -> bool
    requires pass { IsPassOf queue.now pass.old × (may turn.second (view pass.old) ≡ true) }
    requires next { IsNext (each F.one F.other) (view pass.old) turn }
    requires none { feeder.old.0 ≡ None }
    ensures pass { IsPassOf queue.now pass.new }
    ensures pushed { MatchBool result
        ((feeder.new ≡ feeder.old) × (view pass.new ≡ sent_by turn.second (view pass.old) turn))
        ((feeder.new ≡ (Some turn, feeder.old.1)) × (view pass.new ≡ view pass.old)) }
{
    match push(rt, queue, pass, turn) {
        Ok(()) => true,
        Err(back) => {
            feeder.hold(back);
            false
        }
    }
}

/// Pushes a file's records until the queue stays full or somebody in the way, or the file ends. Whether one was pushed.
pub(crate) fn feed<F: Files, Q: Records, S: Starts, R: Wait>(
    rt: &R,
    queue: &Queue<F>,
    pass: &mut Hand,
    feeder: &mut Feeder<Q>,
    second: bool,
    starts: &S,
) -> Result<bool, OutOfMemory>
    requires pass { IsPassOf queue.now pass.old }
    requires feeding { IsFeeding (each F.one F.other) second (view pass.old) (left_of feeder.old) }
    ensures pass { IsPassOf queue.now pass.new }
    ensures feeding { OnOk result (IsFeeding (each F.one F.other) second (view pass.new) (left_of feeder.new)) }
    ensures fed { IfOk result (λ fed. MatchBool fed (length (left_of feeder.new) < length (left_of feeder.old))
        (length (left_of feeder.new) ≡ length (left_of feeder.old))) }
{
    feeder.arrive(starts);
    let mut fed = false;
    while let Some(turn) = feeder.take()? {
        if !push_or_hold(rt, queue, pass, feeder, turn) {
            return Ok(fed);
        }
        fed = true;
    }
    feeder.leave(starts);
    Ok(fed)
}
