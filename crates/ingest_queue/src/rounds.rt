// Rounds in which both files' records are pushed while the writer pops.
ghost use Rattle.std.specs.Prelude.{◌≡◌, ◌+◌, ◌<◌, length, true, false, IfOk, OnOk};
ghost use Rattle.std.specs.Bool.{MatchBool};
ghost use Rattle.crossbeam_queue.specs.Passes.{view, IsPassOf, ruled_capacity};
ghost use Rattle.ingest_queue.specs.Coming.{AllCame, AllTaken, HasWritten, IsNearer, IsStill, IsUnderWay, either_of, poured_by, pops_alone, turns};
ghost use Rattle.ingest_queue.specs.Feeding.{IsFeeding, left_of};
ghost use Rattle.ingest_queue.specs.Roles.{AreFirst, IsEmptied, each};

use crate::came::Trail;
use crate::ends::Poured;
use crate::feeders::{Feeder, feed};
use crate::records::Records;
use crate::roles::{Files, First, Hand, Queue, Second, part, push_surely, take_back};
use crate::row_writers::RowWriter;
use crate::starts::Starts;
use crate::writers::drain;
use mon_value::OutOfMemory;
use std::sync::Wait;
use std::thread::{Threads, join_mut};

// Pushes records of both files beside each other. Whether one was pushed.
fn feed_both<
    F: Files + Send + Sync,
    Q: Records + Drop + Send,
    S: Starts + Sync,
    R: Threads + Wait + Sync,
>(
    rt: &R,
    queue: &Queue<F>,
    first_pass: &mut Hand,
    first: &mut Feeder<Q>,
    second_pass: &mut Hand,
    second: &mut Feeder<Q>,
    starts: &S,
) -> Result<bool, OutOfMemory>
    requires first { IsPassOf queue.now first_pass.old }
    requires second { IsPassOf queue.now second_pass.old }
    requires feeding { IsFeeding (each F.one F.other) false (view first_pass.old) (left_of first.old) }
    requires other { IsFeeding (each F.one F.other) true (view second_pass.old) (left_of second.old) }
    ensures first { IsPassOf queue.now first_pass.new }
    ensures second { IsPassOf queue.now second_pass.new }
    ensures feeding { OnOk result (IsFeeding (each F.one F.other) false (view first_pass.new) (left_of first.new)) }
    ensures other { OnOk result (IsFeeding (each F.one F.other) true (view second_pass.new) (left_of second.new)) }
    ensures fed { IfOk result (λ fed. MatchBool fed
        (length (left_of first.new) + length (left_of second.new) < length (left_of first.old) + length (left_of second.old))
        (length (left_of first.new) + length (left_of second.new) ≡ length (left_of first.old) + length (left_of second.old))) }
{
    let (one, other) = join_mut(
        rt,
        &mut || feed(rt, queue, first_pass, first, false, starts),
        &mut || feed(rt, queue, second_pass, second, true, starts),
    );
    either(one, other)
}

// Whether one of two threads did something, where neither ended early.
fn either(
    one: Result<bool, OutOfMemory>,
    other: Result<bool, OutOfMemory>,
) -> Result<bool, OutOfMemory>
    ensures either { result ≡ either_of one other }
{
    let one = one?;
    let other = other?;
    if one {
        return Ok(true);
    }
    Ok(other)
}

// One round: the records of both files are pushed by threads of their own while this one pops and writes. Whether a
// record was pushed or popped.
fn round_over<
    F: Files + Send + Sync,
    Q: Records + Drop + Send,
    S: Starts + Sync,
    R: Threads + Wait + Sync,
    W: RowWriter,
>(
    rt: &R,
    queue: &Queue<F>,
    first_pass: &mut Hand,
    first: &mut Feeder<Q>,
    second_pass: &mut Hand,
    second: &mut Feeder<Q>,
    starts: &S,
    pass: &mut Hand,
    writer: &mut W,
    trail: &mut Trail,
    poured: &mut Poured,
) -> Result<bool, OutOfMemory>
    requires first { IsPassOf queue.now first_pass.old }
    requires second { IsPassOf queue.now second_pass.old }
    requires feeding { IsFeeding (each F.one F.other) false (view first_pass.old) (left_of first.old) }
    requires other { IsFeeding (each F.one F.other) true (view second_pass.old) (left_of second.old) }
    requires pass { IsPassOf queue.now pass.old }
    requires own { view pass.old ≡ pops_alone (turns trail.old) }
    requires popped { AreFirst (each F.one F.other) (turns trail.old) }
    requires fit { AllTaken (W.takes writer.old) (each F.one F.other) }
    requires ends { poured.old ≡ poured_by trail.old }
    ensures first { IsPassOf queue.now first_pass.new }
    ensures second { IsPassOf queue.now second_pass.new }
    ensures feeding { OnOk result (IsFeeding (each F.one F.other) false (view first_pass.new) (left_of first.new)) }
    ensures other { OnOk result (IsFeeding (each F.one F.other) true (view second_pass.new) (left_of second.new)) }
    ensures pass { IsPassOf queue.now pass.new }
    ensures own { OnOk result (view pass.new ≡ pops_alone (turns trail.new)) }
    ensures popped { AreFirst (each F.one F.other) (turns trail.new) }
    ensures ends { OnOk result (poured.new ≡ poured_by trail.new) }
    ensures written { HasWritten (W.takes writer.old) (W.takes writer.new) (W.offers writer.old) (W.offers writer.new)
        (λ (from : W) list. W.told from list writer.old) (λ (from : W) list. W.told from list writer.new)
        trail.old trail.new }
    ensures moved { IfOk result (λ moved. MatchBool moved
        (IsNearer (left_of first.old) (left_of second.old) trail.old (left_of first.new) (left_of second.new) trail.new)
        (IsStill (left_of first.old) (left_of second.old) trail.old (left_of first.new) (left_of second.new) trail.new)) }
{
    let (fed, drained) = join_mut(
        rt,
        &mut || -> Result<bool, OutOfMemory>
            requires first { IsPassOf queue.now first_pass.now }
            requires second { IsPassOf queue.now second_pass.now }
            requires feeding { IsFeeding (each F.one F.other) false (view first_pass.now) (left_of first.now) }
            requires other { IsFeeding (each F.one F.other) true (view second_pass.now) (left_of second.now) }
        { feed_both(rt, queue, first_pass, first, second_pass, second, starts) },
        &mut || drain(rt, queue, pass, writer, trail, poured),
    );
    either(fed, drained)
}

/// One round, for which the right to push goes to the readers of both files and comes back.
pub(crate) fn round<
    F: Files + Send + Sync,
    Q: Records + Drop + Send,
    S: Starts + Sync,
    R: Threads + Wait + Sync,
    W: RowWriter,
>(
    rt: &R,
    queue: &Queue<F>,
    hand: &mut Hand,
    first: &mut Feeder<Q>,
    second: &mut Feeder<Q>,
    starts: &S,
    writer: &mut W,
    trail: &mut Trail,
    poured: &mut Poured,
) -> Result<bool, OutOfMemory>
    requires pass { IsPassOf queue.now hand.old }
    requires way { IsUnderWay (each F.one F.other) (view hand.old) (left_of first.old) (left_of second.old) }
    requires got { (view hand.old).got ≡ turns trail.old }
    requires fit { AllTaken (W.takes writer.old) (each F.one F.other) }
    requires ends { poured.old ≡ poured_by trail.old }
    ensures pass { OnOk result (IsPassOf queue.now hand.new) }
    ensures way { OnOk result (IsUnderWay (each F.one F.other) (view hand.new) (left_of first.new) (left_of second.new)) }
    ensures got { OnOk result ((view hand.new).got ≡ turns trail.new) }
    ensures popped { AreFirst (each F.one F.other) (turns trail.new) }
    ensures ends { OnOk result (poured.new ≡ poured_by trail.new) }
    ensures written { HasWritten (W.takes writer.old) (W.takes writer.new) (W.offers writer.old) (W.offers writer.new)
        (λ (from : W) list. W.told from list writer.old) (λ (from : W) list. W.told from list writer.new)
        trail.old trail.new }
    ensures moved { IfOk result (λ moved. MatchBool moved
        (IsNearer (left_of first.old) (left_of second.old) trail.old (left_of first.new) (left_of second.new) trail.new)
        (IsStill (left_of first.old) (left_of second.old) trail.old (left_of first.new) (left_of second.new) trail.new)) }
{
    let mut first_pass = part::<F, First>(queue, hand);
    let mut second_pass = part::<F, Second>(queue, hand);
    match round_over(
        rt,
        queue,
        &mut first_pass,
        first,
        &mut second_pass,
        second,
        starts,
        hand,
        writer,
        trail,
        poured,
    ) {
        Ok(moved) => {
            take_back::<F, First>(queue, hand, first_pass);
            take_back::<F, Second>(queue, hand, second_pass);
            Ok(moved)
        }
        Err(fault) => Err(fault),
    }
}

/// Pushes the next record of the first file that has one, where all that was pushed was popped. Where neither has one,
/// all records came.
pub(crate) fn push_next<F: Files, Q: Records, R: Wait>(
    rt: &R,
    queue: &Queue<F>,
    hand: &mut Hand,
    first: &mut Feeder<Q>,
    second: &mut Feeder<Q>,
) -> Result<bool, OutOfMemory>
    requires pass { IsPassOf queue.now hand.old }
    requires room { 0 < ruled_capacity queue.now }
    requires empty { IsEmptied (view hand.old) }
    requires way { IsUnderWay (each F.one F.other) (view hand.old) (left_of first.old) (left_of second.old) }
    ensures pass { IsPassOf queue.now hand.new }
    ensures way { OnOk result (IsUnderWay (each F.one F.other) (view hand.new) (left_of first.new) (left_of second.new)) }
    ensures got { OnOk result ((view hand.new).got ≡ (view hand.old).got) }
    ensures moved { IfOk result (λ moved. MatchBool moved
        (length (left_of first.new) + length (left_of second.new) < length (left_of first.old) + length (left_of second.old))
        (AllCame (each F.one F.other) (view hand.old).got)) }
{
    match first.take() {
        Ok(Some(turn)) => {
            push_surely(rt, queue, hand, turn);
            Ok(true)
        }
        Ok(None) => match second.take() {
            Ok(Some(turn)) => {
                push_surely(rt, queue, hand, turn);
                Ok(true)
            }
            Ok(None) => Ok(false),
            Err(fault) => Err(fault),
        },
        Err(fault) => Err(fault),
    }
}
