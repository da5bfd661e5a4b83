// The rule of the queue.
ghost use Rattle.std.specs.Prelude.{◌≡◌, true, [], IfOk, IfSome, OnOk, IfNone, MatchOption, MatchResult, ◌<◌};
ghost use Rattle.crossbeam_queue.specs.Passes.{view, IsPassOf, ruled_capacity};
ghost use Rattle.ingest_queue.specs.Roles.{IsEmptied, IsNext, IsTaken, alone, each, given, is_shared, may, put, sent_by, whole, without};

use crate::naps::nap;
use crate::turns::Turn;
use crossbeam_queue::protocol::{Join, Lesson, Outcome, Protocol, Split};
use crossbeam_queue::{Pass, RuledArrayQueue};
use std::alloc::{AllocError, Global};
use std::collections::LinkedList;
use std::marker::{Brand, PhantomData};
use std::sync::Wait;

// Microseconds that the queue is left to the writer where it is full, and to the readers where it is empty: the writer
// takes a few for each record, so that it pops some dozens of them meanwhile.
const FULL_NAP: u64 = 30;

const EMPTY_NAP: u64 = 20;

/// What a pass may do, and what it has done. No value of it is made.
pub(crate) struct Role {
    pub first: bool,
    pub second: bool,
    pub pops: bool,
    pub put_first: LinkedList<Turn>,
    pub put_second: LinkedList<Turn>,
    pub got: LinkedList<Turn>,
}

/// The records of both files, which the rule of a queue names.
pub(crate) trait Files {
    ghost use Rattle.std.specs.Prelude.{List};
    ghost use Rattle.ingest_queue.specs.declared.turns.Turn.{Turn};

    ghost one: { List Turn };

    ghost other: { List Turn };
}

impl Files for Brand {
    ghost use Rattle.std.specs.Prelude.{[]};

    ghost one = { [] };

    ghost other = { [] };
}

/// What each file's pusher has pushed begins the file, and is what was popped of that file and what the queue holds of
/// it, in order.
pub(crate) struct InOrder<F> {
    files: PhantomData<F>,
}

impl<F: Files> Protocol<Turn, Role> for InOrder<F> {
    ghost use Rattle.std.specs.Prelude.{[]};
    ghost use Rattle.ingest_queue.specs.Roles.{IsInOrder, each, whole};

    ghost holds = { IsInOrder (each F.one F.other) };

    ghost first = { whole [] [] [] };
}

/// One of the two files, as a type.
pub(crate) trait OneFile {
    ghost use Rattle.std.specs.Prelude.{Bool};

    ghost second: { Bool };
}

/// The first file.
pub(crate) struct First;

impl OneFile for First {
    ghost use Rattle.std.specs.Prelude.{false};

    ghost second = { false };
}

/// The second file.
pub(crate) struct Second;

impl OneFile for Second {
    ghost use Rattle.std.specs.Prelude.{true};

    ghost second = { true };
}

/// The right to push a file's records goes to a pass of its own, and comes back.
pub(crate) struct RightOf<X> {
    file: PhantomData<X>,
}

impl<X: OneFile> Split<Role> for RightOf<X> {
    ghost use Rattle.ingest_queue.specs.Roles.{alone, put, without};

    ghost left = { λ v. without X.second v };

    ghost right = { λ v. alone X.second (put X.second v) };
}

impl<X: OneFile> Join<Role> for RightOf<X> {
    ghost use Rattle.ingest_queue.specs.Roles.{given, put, spent};

    ghost both = { λ v w. given X.second v (put X.second w) };

    ghost spent = { spent };
}

/// A push, and what is known of a full queue.
pub(crate) struct Sends;

impl Outcome<Turn, Role> for Sends {
    ghost use Rattle.std.specs.Prelude.{◌≡◌};
    ghost use Rattle.ingest_queue.specs.Roles.{sent_by};

    ghost then = { λ v x w. w ≡ sent_by x.second v x };
}

/// A pop, and what is known of an empty queue.
pub(crate) struct Takes<F> {
    files: PhantomData<F>,
}

impl<F: Files> Outcome<Turn, Role> for Takes<F> {
    ghost use Rattle.ingest_queue.specs.Roles.{IsTaken, each};

    ghost then = { IsTaken (each F.one F.other) };
}

/// What the pass with all rights knows of what the queue holds.
impl Lesson<Turn, Role> for Sends {
    ghost use Rattle.ingest_queue.specs.Roles.{IsHeld};

    ghost fact = { IsHeld };
}

impl<F: Files> Lesson<Turn, Role> for Takes<F> {
    ghost use Rattle.ingest_queue.specs.Roles.{IsHeld};

    ghost fact = { IsHeld };
}

/// The queue.
pub(crate) type Queue<F> = RuledArrayQueue<Turn, Role, InOrder<F>>;

/// What one thread knows of it.
pub(crate) type Hand = Pass<Turn, Role>;

/// A queue with the pass that has all rights.
pub(crate) fn open<F: Files>(alloc: Global, room: usize) -> Result<(Queue<F>, Hand), AllocError>
    requires { 0 < room }
    ensures pass { IfOk result (λ q. IsPassOf q.0 q.1 × (view q.1 ≡ whole [] [] [])) }
    ensures room { IfOk result (λ q. ruled_capacity q.0 ≡ room) }
{
    RuledArrayQueue::ruled(alloc, room)
}

/// The right to push a file's records, as a pass of its own.
pub(crate) fn part<F: Files, X: OneFile>(queue: &Queue<F>, pass: &mut Hand) -> Hand
    requires { IsPassOf queue.now pass.old × (may X.second (view pass.old) ≡ true) }
    ensures left { IsPassOf queue.now pass.new × (view pass.new ≡ without X.second (view pass.old)) }
    ensures right { IsPassOf queue.now result × (view result ≡ alone X.second (put X.second (view pass.old))) }
{
    queue.another::<RightOf<X>>(pass)
}

/// Takes a file's pusher back.
pub(crate) fn take_back<F: Files, X: OneFile>(queue: &Queue<F>, pass: &mut Hand, other: Hand)
    requires { IsPassOf queue.now pass.old × IsPassOf queue.now other × (may X.second (view other) ≡ true) }
    ensures { IsPassOf queue.now pass.new × (view pass.new ≡ given X.second (view pass.old) (put X.second (view other))) }
{
    queue.absorb::<RightOf<X>>(pass, other);
}

/// Pushes a record, where there is room and nobody in the way, at once or behind a nap.
pub(crate) fn push<F: Files, R: Wait>(
    rt: &R,
    queue: &Queue<F>,
    pass: &mut Hand,
    turn: Turn,
) -> Result<(), Turn>
    requires pass { IsPassOf queue.now pass.old × (may turn.second (view pass.old) ≡ true) }
    requires next { IsNext (each F.one F.other) (view pass.old) turn }
    ensures pass { IsPassOf queue.now pass.new }
    ensures pushed { MatchResult result (λ _. view pass.new ≡ sent_by turn.second (view pass.old) turn)
        (λ back. (back ≡ turn) × (view pass.new ≡ view pass.old)) }
{
    match queue.try_push_as::<Sends>(pass, turn) {
        Ok(()) => Ok(()),
        Err(back) => {
            nap(rt, FULL_NAP);
            queue.try_push_as::<Sends>(pass, back)
        }
    }
}

/// Pops a record, where there is one and nobody in the way, at once or behind a nap.
pub(crate) fn pop<F: Files, R: Wait>(rt: &R, queue: &Queue<F>, pass: &mut Hand) -> Option<Turn>
    requires { IsPassOf queue.now pass.old × ((view pass.old).pops ≡ true) }
    ensures pass { IsPassOf queue.now pass.new }
    ensures popped { MatchOption result (view pass.new ≡ view pass.old)
        (λ turn. IsTaken (each F.one F.other) (view pass.old) turn (view pass.new)) }
{
    match queue.try_pop_as::<Takes<F>>(pass) {
        Some(turn) => Some(turn),
        None => {
            nap(rt, EMPTY_NAP);
            queue.try_pop_as::<Takes<F>>(pass)
        }
    }
}

/// Pops a record, or finds that whatever was pushed was popped.
pub(crate) fn pop_surely<F: Files, R: Wait>(
    rt: &R,
    queue: &Queue<F>,
    pass: &mut Hand,
) -> Option<Turn>
    requires { IsPassOf queue.now pass.old × is_shared (view pass.old) }
    ensures pass { IsPassOf queue.now pass.new }
    ensures popped { MatchOption result
        ((view pass.new ≡ view pass.old) × IsEmptied (view pass.old))
        (λ turn. IsTaken (each F.one F.other) (view pass.old) turn (view pass.new)) }
{
    queue.pop_as::<Takes<F>, R>(rt, pass)
}

/// Pushes a record where whatever was pushed was popped, so that there is room.
pub(crate) fn push_surely<F: Files, R: Wait>(rt: &R, queue: &Queue<F>, pass: &mut Hand, turn: Turn)
    requires pass { IsPassOf queue.now pass.old × is_shared (view pass.old) }
    requires room { 0 < ruled_capacity queue.now }
    requires next { IsNext (each F.one F.other) (view pass.old) turn }
    requires empty { IsEmptied (view pass.old) }
    ensures pass { IsPassOf queue.now pass.new }
    ensures pushed { view pass.new ≡ sent_by turn.second (view pass.old) turn }
{
    match queue.push_as::<Sends, R>(rt, pass, turn) {
        Ok(()) => {}
        Err(_back) => unreachable!(),
    }
}
