// Rounds until both files have ended and all that was pushed was popped.
ghost use Rattle.std.specs.Prelude.{◌≡◌, ◌<◌, [], false, true, IfOk, OnOk};
ghost use Rattle.std.specs.Bool.{MatchBool};
ghost use Rattle.crossbeam_queue.specs.Passes.{view, IsPassOf, ruled_capacity};
ghost use Rattle.ingest_queue.specs.Coming.{AllCame, AllTaken, HasWritten, IsNearer, IsOffered, IsUnderWay, offered, poured_by, turns};
ghost use Rattle.ingest_queue.specs.Feeding.{left_of, numbered};
ghost use Rattle.ingest_queue.specs.Pours.{AreTakenBy, IsBegun, IsPoured};
ghost use Rattle.ingest_queue.specs.Roles.{AreFirst, each};

use crate::came::Trail;
use crate::ends::Poured;
use crate::feeders::Feeder;
use crate::records::Records;
use crate::roles::{Files, Hand, Queue, open, pop_surely};
use crate::rounds::{push_next, round};
use crate::row_writers::RowWriter;
use crate::starts::Starts;
use crate::writers::keep;
use mon_value::OutOfMemory;
use std::alloc::Global;
use std::marker::Brand;
use std::sync::Wait;
use std::thread::Threads;

// Pops one record and offers it, or pushes the next one where whatever was pushed was popped. Where there is none, all
// records came.
fn settle<F: Files, Q: Records, R: Wait, W: RowWriter>(
    rt: &R,
    queue: &Queue<F>,
    hand: &mut Hand,
    first: &mut Feeder<Q>,
    second: &mut Feeder<Q>,
    writer: &mut W,
    trail: &mut Trail,
    poured: &mut Poured,
) -> Result<bool, OutOfMemory>
    requires pass { IsPassOf queue.now hand.old }
    requires room { 0 < ruled_capacity queue.now }
    requires way { IsUnderWay (each F.one F.other) (view hand.old) (left_of first.old) (left_of second.old) }
    requires got { (view hand.old).got ≡ turns trail.old }
    requires popped { AreFirst (each F.one F.other) (turns trail.old) }
    requires fit { AllTaken (W.takes writer.old) (each F.one F.other) }
    requires ends { poured.old ≡ poured_by trail.old }
    ensures pass { IsPassOf queue.now hand.new }
    ensures way { OnOk result (IsUnderWay (each F.one F.other) (view hand.new) (left_of first.new) (left_of second.new)) }
    ensures got { OnOk result ((view hand.new).got ≡ turns trail.new) }
    ensures popped { AreFirst (each F.one F.other) (turns trail.new) }
    ensures ends { OnOk result (poured.new ≡ poured_by trail.new) }
    ensures written { HasWritten (W.takes writer.old) (W.takes writer.new) (W.offers writer.old) (W.offers writer.new)
        (λ (from : W) list. W.told from list writer.old) (λ (from : W) list. W.told from list writer.new)
        trail.old trail.new }
    ensures moved { IfOk result (λ moved. MatchBool moved
        (IsNearer (left_of first.old) (left_of second.old) trail.old (left_of first.new) (left_of second.new) trail.new)
        (AllCame (each F.one F.other) (turns trail.new))) }
{
    match pop_surely(rt, queue, hand) {
        Some(turn) => {
            keep::<F, W>(writer, turn, trail, poured)?;
            Ok(true)
        }
        None => push_next(rt, queue, hand, first, second),
    }
}

// A round, and where nothing was pushed and nothing popped in it, one record more. Whether there was one.
fn go_on<
    F: Files + Send + Sync,
    Q: Records + Drop + Send,
    S: Starts + Sync,
    R: Threads + Wait + Sync,
    W: RowWriter,
>(
    rt: &R,
    queue: &Queue<F>,
    hand: &mut Hand,
    first: &mut Feeder<Q>,
    second: &mut Feeder<Q>,
    starts: &S,
    writer: &mut W,
    trail: &mut Trail,
    poured: &mut Poured,
) -> Result<bool, OutOfMemory>
    requires pass { IsPassOf queue.now hand.old }
    requires room { 0 < ruled_capacity queue.now }
    requires way { IsUnderWay (each F.one F.other) (view hand.old) (left_of first.old) (left_of second.old) }
    requires got { (view hand.old).got ≡ turns trail.old }
    requires fit { AllTaken (W.takes writer.old) (each F.one F.other) }
    requires ends { poured.old ≡ poured_by trail.old }
    ensures pass { OnOk result (IsPassOf queue.now hand.new) }
    ensures way { OnOk result (IsUnderWay (each F.one F.other) (view hand.new) (left_of first.new) (left_of second.new)) }
    ensures got { OnOk result ((view hand.new).got ≡ turns trail.new) }
    ensures popped { AreFirst (each F.one F.other) (turns trail.new) }
    ensures ends { OnOk result (poured.new ≡ poured_by trail.new) }
    ensures written { HasWritten (W.takes writer.old) (W.takes writer.new) (W.offers writer.old) (W.offers writer.new)
        (λ (from : W) list. W.told from list writer.old) (λ (from : W) list. W.told from list writer.new)
        trail.old trail.new }
    ensures moved { IfOk result (λ moved. MatchBool moved
        (IsNearer (left_of first.old) (left_of second.old) trail.old (left_of first.new) (left_of second.new) trail.new)
        (AllCame (each F.one F.other) (turns trail.new))) }
{
    match round(
        rt, queue, hand, first, second, starts, writer, trail, poured,
    ) {
        Ok(true) => Ok(true),
        Ok(false) => settle(rt, queue, hand, first, second, writer, trail, poured),
        Err(fault) => Err(fault),
    }
}

// Rounds until all records came.
fn pour_all<
    F: Files + Send + Sync,
    Q: Records + Drop + Send,
    S: Starts + Sync,
    R: Threads + Wait + Sync,
    W: RowWriter,
>(
    rt: &R,
    queue: &Queue<F>,
    hand: &mut Hand,
    first: &mut Feeder<Q>,
    second: &mut Feeder<Q>,
    starts: &S,
    writer: &mut W,
    trail: &mut Trail,
    poured: &mut Poured,
) -> Result<(), OutOfMemory>
    requires pass { IsPassOf queue.now hand.old }
    requires room { 0 < ruled_capacity queue.now }
    requires way { IsUnderWay (each F.one F.other) (view hand.old) (left_of first.old) (left_of second.old) }
    requires got { (view hand.old).got ≡ turns trail.old }
    requires fit { AllTaken (W.takes writer.old) (each F.one F.other) }
    requires ends { poured.old ≡ poured_by trail.old }
    ensures all { OnOk result (AllCame (each F.one F.other) (turns trail.new)) }
    ensures ends { OnOk result (poured.new ≡ poured_by trail.new) }
    ensures popped { AreFirst (each F.one F.other) (turns trail.new) }
    ensures written { HasWritten (W.takes writer.old) (W.takes writer.new) (W.offers writer.old) (W.offers writer.new)
        (λ (from : W) list. W.told from list writer.old) (λ (from : W) list. W.told from list writer.new)
        trail.old trail.new }
{
    while go_on(
        rt, queue, hand, first, second, starts, writer, trail, poured,
    )? {}
    Ok(())
}

// Pours both files through a queue of their own.
fn pour_in<
    F: Files + Send + Sync,
    Q: Records + Drop + Send,
    S: Starts + Sync,
    R: Threads + Wait + Sync,
    W: RowWriter,
>(
    rt: &R,
    alloc: Global,
    first: Q,
    second: Q,
    room: usize,
    writer: &mut W,
    starts: &S,
    trail: &mut Trail,
) -> Result<Poured, OutOfMemory>
    requires first { numbered false 1 (Q.left first) ≡ F.one }
    requires second { numbered true 1 (Q.left second) ≡ F.other }
    requires room { 0 < room }
    requires none { trail.old ≡ [] }
    requires begun { W.told writer.old [] writer.old }
    requires fit { AllTaken (W.takes writer.old) (each F.one F.other) }
    ensures all { OnOk result (AllCame (each F.one F.other) (turns trail.new)) }
    ensures ends { IfOk result (λ poured. poured ≡ poured_by trail.new) }
    ensures popped { AreFirst (each F.one F.other) (turns trail.new) }
    ensures offered { IsOffered (W.offers writer.old) (W.offers writer.new) trail.new }
    ensures told { W.told writer.old (offered trail.new) writer.new }
    ensures takes { W.takes writer.new ≡ W.takes writer.old }
{
    let (queue, mut hand) = open::<F>(alloc, room)?;
    let mut one = Feeder::new(first, false);
    let mut other = Feeder::new(second, true);
    let mut poured = Poured::new(alloc);
    let done = pour_all(
        rt,
        &queue,
        &mut hand,
        &mut one,
        &mut other,
        starts,
        writer,
        trail,
        &mut poured,
    );
    drop(one);
    drop(other);
    drop(queue);
    match done {
        Ok(()) => Ok(poured),
        Err(fault) => {
            drop(poured);
            Err(fault)
        }
    }
}

/// Pours the records of both files to the writer.
pub(crate) fn pour_records<
    Q: Records + Drop + Send,
    S: Starts + Sync,
    R: Threads + Wait + Sync,
    W: RowWriter,
>(
    rt: &R,
    alloc: Global,
    first: Q,
    second: Q,
    room: u32,
    writer: &mut W,
    starts: &S,
) -> Result<Poured, OutOfMemory>
    requires room { 0 < room }
    requires first { AreTakenBy (W.takes writer.old) (Q.left first) }
    requires second { AreTakenBy (W.takes writer.old) (Q.left second) }
    requires begun { W.told writer.old [] writer.old }
    ensures poured { IfOk result (IsPoured (Q.left first) (Q.left second) (W.offers writer.old) (W.offers writer.new)
        (λ made. W.told writer.old made writer.new)) }
    ensures begun { IsBegun (Q.left first) (Q.left second) (W.offers writer.old) (W.offers writer.new)
        (λ made. W.told writer.old made writer.new) }
    ensures takes { W.takes writer.new ≡ W.takes writer.old }
{
    let mut trail = Trail::new();
    pour_in::<Brand, Q, S, R, W>(
        rt,
        alloc,
        first,
        second,
        room as usize,
        writer,
        starts,
        &mut trail,
    )
}
