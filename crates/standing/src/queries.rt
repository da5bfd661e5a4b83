// Standing queries, by their names and in the order in which they were added.
ghost use Rattle.std.specs.Prelude.{◌≡◌, ◌≤ℤ◌, pos, [], None, IfOk, OnErr, OnOk};
ghost use Rattle.mon_value.specs.Answers.{AnswersBy, Gives};
ghost use Rattle.standing.specs.DueLists.{add_fault, is_taken, at_moment, standing_query, standing_state, with_query};
ghost use Rattle.standing.specs.DueLists as lists;

use crate::blocks::{note, settle};
use crate::dues::{Dues, due_list, fault_of};
use crate::faults::{DueFault, StandingFault};
use crate::texts::text_fault;
use mon_schema::Schemas;
use mon_value::{OutOfMemory, Refusal, Text, TryCopy};
use std::alloc::Global;
use std::collections::BTreeSet;
use std::marker::Model;

/// A query that stands: it is due at each multiple of its period, in seconds.
#[derive(Drop)]
pub struct StandingQuery {
    pub name: Text,
    pub period: i64,
    pub text: Text,
}

/// Standing queries, and the last moment at which those that are due were asked for. Contracts see the queries in the
/// order in which they were added. Beside the queries stands the next moment of each block of them.
#[derive(Drop)]
pub struct Standing {
    alloc: Global,
    queries: Vec<StandingQuery>,
    names: BTreeSet<Text>,
    last: Option<i64>,
    nexts: Vec<u64>,
}

impl Model for Standing {
    ghost use Rattle.standing.specs.DueLists.{StandingState};

    ghost Value = { StandingState };

    ghost use Rattle.standing.specs.StandingFields.{HoldTogether, state_of};

    ghost view = { state_of };

    ghost invariant = { HoldTogether };
}

impl Standing {
    /// No queries, and no last moment.
    pub fn new(alloc: Global) -> Standing
        ensures nothing { result ≡ standing_state [] None }
    {
        Standing {
            alloc,
            queries: Vec::new(alloc),
            names: BTreeSet::new(alloc),
            last: None,
            nexts: Vec::new(alloc),
        }
    }

    /// Adds a query under a name that no other one has. Its text has a type over the schemas. Nothing changes where it
    /// is refused.
    pub fn add(
        &mut self,
        name: &Text,
        period: i64,
        text: &Text,
        schemas: &Schemas,
    ) -> Result<(), Refusal<StandingFault>>
        requires period { pos 1 ≤ℤ period }
        ensures refused { AnswersBy result (add_fault schemas.now self.old.queries name.now text.now) }
        ensures kept { OnErr result (self.new ≡ self.old) }
        ensures added { OnOk result (self.new ≡ with_query self.old (standing_query name.now period text.now)) }
    {
        if self.has(name) {
            return Err(Refusal::Fault(StandingFault::NameTaken));
        }
        match text_fault(self.alloc, schemas, text.as_bytes())? {
            Some(fault) => Err(Refusal::Fault(fault)),
            None => Ok(self.push(name, period, text)?),
        }
    }

    // Whether a query of a name stands.
    fn has(&self, name: &Text) -> bool
        ensures taken { result ≡ is_taken name.now self.now.queries }
    {
        self.names.contains(name)
    }

    // Adds a query whose name is free.
    fn push(&mut self, name: &Text, period: i64, text: &Text) -> Result<(), OutOfMemory>
        requires period { pos 1 ≤ℤ period }
        ensures kept { OnErr result (self.new ≡ self.old) }
        ensures added { OnOk result (self.new ≡ with_query self.old (standing_query name.now period text.now)) }
    {
        let query = query_of(self.alloc, name, period, text)?;
        let key = name.copy(self.alloc)?;
        self.queries.reserve(1)?;
        self.nexts.reserve(1)?;
        self.names.insert(key)?;
        note(&mut self.nexts, self.last, self.queries.as_slice(), &query);
        self.queries.push_reserved(query);
        Ok(())
    }

    /// The queries that are due at a moment: each one's text is to be asked at each of its times above the last moment.
    /// The moment is then the last one. Nothing changes where it is refused.
    pub fn due(&mut self, moment: i64) -> Result<Dues, Refusal<DueFault>>
        requires moment { pos 0 ≤ℤ moment }
        ensures due { Gives result (lists.due_answer self.old.last moment self.old.queries) }
        ensures kept { OnErr result (self.new ≡ self.old) }
        ensures last { OnOk result (self.new ≡ at_moment self.old moment) }
    {
        let fault = fault_of(
            self.last,
            moment,
            self.queries.as_slice(),
            self.nexts.as_slice(),
        );
        match fault {
            Some(fault) => Err(Refusal::Fault(fault)),
            None => Ok(self.take(moment)?),
        }
    }

    // The queries that are due at a moment that is the last one then.
    fn take(&mut self, moment: i64) -> Result<Dues, OutOfMemory>
        requires moment { pos 0 ≤ℤ moment }
        requires taken { lists.due_fault self.old.last moment self.old.queries ≡ None }
        ensures dues { IfOk result (λ dues. dues ≡ lists.due_list self.old.last moment self.old.queries) }
        ensures kept { OnErr result (self.new ≡ self.old) }
        ensures last { OnOk result (self.new ≡ at_moment self.old moment) }
    {
        let queries = self.queries.as_slice();
        let dues = due_list(
            self.alloc,
            self.last,
            moment,
            queries,
            self.nexts.as_slice(),
        )?;
        settle(self.nexts.as_mut_slice(), self.last, moment, queries);
        self.last = Some(moment);
        Ok(dues)
    }
}

// A query with copies of these texts.
fn query_of(
    alloc: Global,
    name: &Text,
    period: i64,
    text: &Text,
) -> Result<StandingQuery, OutOfMemory>
    ensures query { IfOk result (λ query. query ≡ standing_query name.now period text.now) }
{
    Ok(StandingQuery {
        name: name.copy(alloc)?,
        period,
        text: text.copy(alloc)?,
    })
}
