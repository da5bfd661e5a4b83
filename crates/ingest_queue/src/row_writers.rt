// Who writes the rows that come.
ghost use Rattle.std.specs.Prelude.{◌≡◌, ◌∷◌, ◌++◌, [], true, IfOk, OnErr};
ghost use Rattle.ingest_queue.specs.Offers.{CanBeAnswered};

use mon_value::{OutOfMemory, Row};
use range_cell::WriteFault;

/// What a row came to that was offered.
#[derive(Drop)]
pub enum Wrote {
    /// It was written.
    Written,
    /// It was refused, for another reason than want of memory.
    Refused(WriteFault),
}

/// A row that was offered, with its answer. Only contracts speak of it.
#[derive(Drop)]
pub struct Offer {
    pub row: Row,
    pub answer: Wrote,
}

/// Writes rows one after another. Contracts see the test that a row has to pass; the rows that were offered so far, each
/// with its answer; and what else a writer tells of such offers, from one state of it to a later one.
pub trait RowWriter {
    ghost use Rattle.std.specs.Prelude.{Bool, List};
    ghost use Rattle.ingest_queue.specs.declared.row_writers.Offer.{Offer as OfferView};
    ghost use Rattle.mon_value.specs.declared.rows.Row.{Row as RowView};

    ghost takes: { Self → RowView → Bool };

    ghost offers: { Self → List OfferView };

    ghost told: { Self → List OfferView → Self → Type 0 };

    /// Offers a row. Where memory runs out the row was not offered.
    fn write(&mut self, row: &Row) -> Result<Wrote, OutOfMemory>
        requires taken { takes self.old row.now ≡ true }
        ensures offered { IfOk result (λ answer. offers self.new
            ≡ offers self.old ++ record { row = row.now; answer = answer } ∷ []) }
        ensures answered { IfOk result CanBeAnswered }
        ensures told { IfOk result (λ answer. (from : Self) (list : List OfferView) → told from list self.old
            → told from (list ++ record { row = row.now; answer = answer } ∷ []) self.new) }
        ensures kept { OnErr result (offers self.new ≡ offers self.old) }
        ensures still { OnErr result ((from : Self) (list : List OfferView) → told from list self.old
            → told from list self.new) }
        ensures takes { takes self.new ≡ takes self.old };
}
