// What became of the records that were popped.
ghost use Rattle.std.specs.Prelude.{◌≡◌, ◌∷◌, ◌++◌, [], List, OnOk};
ghost use Rattle.ingest_queue.specs.Coming.{accepted_by, answered_by, kept_by, poured_by, refused_by};
ghost use Rattle.ingest_queue.specs.Ends.{refused_at};
ghost use Rattle.ingest_queue.specs.declared.came.Came.{Came as CameView};

use crate::ends::{FileEnd, Poured};
use crate::fed_rows::FedRows;
use crate::refusals::{RowRefusal, RowRefusals, RowRefused};
use crate::row_writers::Wrote;
use http_server::Log;
use mon_points::RowFault;
use mon_value::{OutOfMemory, Row};
use std::alloc::Global;
use std::marker::Model;

/// A record that was popped, with its number in the first file or in the second.
#[derive(Drop)]
pub(crate) enum Came {
    /// A row, with what it was answered.
    Row {
        second: bool,
        number: u32,
        row: Row,
        answer: Wrote,
    },
    /// A record that is no row.
    Fault {
        second: bool,
        number: u32,
        fault: RowFault,
    },
}

/// The records that came, in their order. Only contracts know them: nothing is kept at run time.
#[derive(Drop)]
pub(crate) struct Trail {
    log: Log<Came, ()>,
}

impl Model for Trail {
    ghost use Rattle.std.specs.Prelude.{List, map};
    ghost use Rattle.ingest_queue.specs.declared.came.Came.{Came};

    ghost Value = { List Came };

    ghost view = { λ trail. map (λ logged. logged.0) trail.log.items };
}

impl Trail {
    /// No record came.
    pub(crate) fn new() -> Trail
        ensures empty { result ≡ [] }
    {
        Trail { log: Log::new() }
    }

    /// One record more came.
    pub(crate) fn note(&mut self, came: &Came)
        ensures noted { self.new ≡ self.old ++ came.now ∷ [] }
    {
        self.log = self.log.and(came, &());
    }
}

impl FileEnd {
    /// No record came.
    fn new(alloc: Global) -> FileEnd
        ensures accepted { result.accepted ≡ [] }
        ensures refused { result.refused ≡ [] }
    {
        FileEnd {
            accepted: FedRows::new(),
            refused: RowRefusals::new(alloc),
        }
    }
}

impl Poured {
    /// No record came.
    pub(crate) fn new(alloc: Global) -> Poured
        ensures none { result ≡ poured_by [] }
    {
        Poured {
            accepted: FedRows::new(),
            first: FileEnd::new(alloc),
            second: FileEnd::new(alloc),
        }
    }

    /// One record more came, behind these.
    pub(crate) fn add(&mut self, came: Came) -> Result<(), OutOfMemory>
        ensures added { (all : List CameView) → self.old ≡ poured_by all
            → OnOk result (self.new ≡ poured_by (all ++ came ∷ [])) }
    {
        match came {
            Came::Row {
                second,
                number,
                row,
                answer,
            } => self.answer(second, number, row, answer),
            Came::Fault {
                second,
                number,
                fault,
            } => self.refuse(second, number, RowRefused::Read(fault)),
        }
    }

    // A row was answered so.
    fn answer(
        &mut self,
        second: bool,
        number: u32,
        row: Row,
        answer: Wrote,
    ) -> Result<(), OutOfMemory>
        ensures answered { OnOk result (self.new ≡ answered_by second number row answer self.old) }
    {
        match answer {
            Wrote::Written => self.accept(second, row),
            Wrote::Refused(fault) => {
                drop(row);
                self.refuse(second, number, RowRefused::Write(fault))
            }
        }
    }

    // A row was written.
    fn accept(&mut self, second: bool, row: Row) -> Result<(), OutOfMemory>
        ensures accepted { OnOk result (self.new ≡ accepted_by second row self.old) }
    {
        match self.accepted.add(&row) {
            Ok(()) => self.accept_of(second, row),
            Err(fault) => {
                drop(row);
                Err(fault)
            }
        }
    }

    // Its file accepts it.
    fn accept_of(&mut self, second: bool, row: Row) -> Result<(), OutOfMemory>
        ensures accepted { OnOk result (self.new ≡ kept_by second row self.old) }
    {
        if second {
            return self.second.accepted.push(row);
        }
        self.first.accepted.push(row)
    }

    // A record was refused.
    fn refuse(&mut self, second: bool, number: u32, fault: RowRefused) -> Result<(), OutOfMemory>
        ensures refused { OnOk result (self.new ≡ refused_by second (refused_at number fault) self.old) }
    {
        let refusal = RowRefusal { number, fault };
        if second {
            return self.second.refused.push(refusal);
        }
        self.first.refused.push(refusal)
    }
}
