// The records that are popped are offered to the writer.
ghost use Rattle.std.specs.Prelude.{◌≡◌, ◌∷◌, ◌++◌, [], length, ◌<◌, true, IfOk, OnOk, OnErr, List, option_to_list};
ghost use Rattle.std.specs.Bool.{MatchBool};
ghost use Rattle.crossbeam_queue.specs.Passes.{view, IsPassOf};
ghost use Rattle.ingest_queue.specs.Coming.{AllTaken, HasWritten, offer_of, poured_by, pops_alone, turn_of, turns};
ghost use Rattle.ingest_queue.specs.Offers.{AreAnswered};
ghost use Rattle.ingest_queue.specs.Pours.{IsTakenBy};
ghost use Rattle.ingest_queue.specs.Roles.{AreFirst, each};
ghost use Rattle.ingest_queue.specs.declared.row_writers.Offer.{Offer as OfferView};

use crate::came::{Came, Trail};
use crate::ends::Poured;
use crate::roles::{Files, Hand, Queue, pop};
use crate::row_writers::RowWriter;
use crate::turns::Turn;
use mon_points::RowRead;
use mon_value::OutOfMemory;
use std::sync::Wait;

// What becomes of a record: its row is offered, if it is one.
fn answer<W: RowWriter>(writer: &mut W, turn: Turn) -> Result<Came, OutOfMemory>
    requires taken { IsTakenBy (W.takes writer.old) turn.read }
    ensures turn { IfOk result (λ came. turn_of came ≡ turn) }
    ensures offered { IfOk result (λ came. W.offers writer.new ≡ W.offers writer.old ++ option_to_list (offer_of came)) }
    ensures answered { IfOk result (λ came. AreAnswered (option_to_list (offer_of came))) }
    ensures told { IfOk result (λ came. (from : W) (list : List OfferView) → W.told from list writer.old
        → W.told from (list ++ option_to_list (offer_of came)) writer.new) }
    ensures kept { OnErr result (W.offers writer.new ≡ W.offers writer.old) }
    ensures still { OnErr result ((from : W) (list : List OfferView) → W.told from list writer.old
        → W.told from list writer.new) }
    ensures takes { W.takes writer.new ≡ W.takes writer.old }
{
    let second = turn.second;
    let number = turn.number;
    match turn.read {
        RowRead::Row(row) => match writer.write(&row) {
            Ok(answer) => Ok(Came::Row {
                second,
                number,
                row,
                answer,
            }),
            Err(fault) => {
                drop(row);
                Err(fault)
            }
        },
        RowRead::Fault(fault) => Ok(Came::Fault {
            second,
            number,
            fault,
        }),
    }
}

/// Offers a record that was popped, and keeps what became of it. Where memory runs out behind the offer, the record came
/// all the same.
pub(crate) fn keep<F: Files, W: RowWriter>(
    writer: &mut W,
    turn: Turn,
    trail: &mut Trail,
    poured: &mut Poured,
) -> Result<(), OutOfMemory>
    requires fit { AllTaken (W.takes writer.old) (each F.one F.other) }
    requires first { AreFirst (each F.one F.other) (turns trail.old) }
    requires next { AreFirst (each F.one F.other) (turns trail.old ++ turn ∷ []) }
    requires ends { poured.old ≡ poured_by trail.old }
    ensures turns { OnOk result (turns trail.new ≡ turns trail.old ++ turn ∷ []) }
    ensures longer { OnOk result (length trail.old < length trail.new) }
    ensures ends { OnOk result (poured.new ≡ poured_by trail.new) }
    ensures first { AreFirst (each F.one F.other) (turns trail.new) }
    ensures written { HasWritten (W.takes writer.old) (W.takes writer.new) (W.offers writer.old) (W.offers writer.new)
        (λ (from : W) list. W.told from list writer.old) (λ (from : W) list. W.told from list writer.new)
        trail.old trail.new }
{
    match answer(writer, turn) {
        Ok(came) => {
            trail.note(&came);
            poured.add(came)
        }
        Err(fault) => Err(fault),
    }
}

/// Pops records and offers them until there stays none or somebody in the way. Whether there was one.
pub(crate) fn drain<F: Files, R: Wait, W: RowWriter>(
    rt: &R,
    queue: &Queue<F>,
    pass: &mut Hand,
    writer: &mut W,
    trail: &mut Trail,
    poured: &mut Poured,
) -> Result<bool, OutOfMemory>
    requires pass { IsPassOf queue.now pass.old }
    requires own { view pass.old ≡ pops_alone (turns trail.old) }
    requires first { AreFirst (each F.one F.other) (turns trail.old) }
    requires fit { AllTaken (W.takes writer.old) (each F.one F.other) }
    requires ends { poured.old ≡ poured_by trail.old }
    ensures pass { IsPassOf queue.now pass.new }
    ensures own { OnOk result (view pass.new ≡ pops_alone (turns trail.new)) }
    ensures first { AreFirst (each F.one F.other) (turns trail.new) }
    ensures ends { OnOk result (poured.new ≡ poured_by trail.new) }
    ensures more { IfOk result (λ one. MatchBool one (length trail.old < length trail.new) (trail.new ≡ trail.old)) }
    ensures written { HasWritten (W.takes writer.old) (W.takes writer.new) (W.offers writer.old) (W.offers writer.new)
        (λ (from : W) list. W.told from list writer.old) (λ (from : W) list. W.told from list writer.new)
        trail.old trail.new }
{
    let mut drained = false;
    while let Some(turn) = pop(rt, queue, pass) {
        keep::<F, W>(writer, turn, trail, poured)?;
        drained = true;
    }
    Ok(drained)
}
