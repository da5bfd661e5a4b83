// Who answers what a query asks.
ghost use Rattle.std.specs.Prelude.{◌≢◌, IfOk};
ghost use Rattle.query_core.specs.Program.{ask_of};
ghost use Rattle.query_core.specs.Sides.{word_asked};
ghost use Rattle.query_traces.specs.declared.asks.Ask.TheVariants as the_ask;

use crate::machine::QueryMachine;
use mon_hints::Place;
use mon_value::{Leaf, OutOfMemory, Range};
use query_traces::Ask;

/// Who answers what a query asks of words, ranges and leaves: the actors of a schedule, or a store whose leaves and
/// ranges are locked. A side looks for a caller, and what it finds may be more than an answer, as that someone else is
/// in the way. Contracts see what it asks for before it looks, what it tells of an answer, and what it leaves in any
/// case.
pub trait QuerySide {
    ghost use Rattle.std.specs.Prelude.{ℤ};
    ghost use Rattle.query_core.specs.Machine.{Query};
    ghost use Rattle.query_traces.specs.declared.asks.Ask.{Ask as AskOf};

    type Caller;

    type Found;

    ghost asks: { Self → Self.Caller → Query → ℤ → AskOf → Type 0 };

    ghost tells: { Self → Self.Caller → Query → ℤ → AskOf → Self.Found → Self → Self.Caller → Type 0 };

    ghost leaves: { Self → Self.Caller → Self → Self.Caller → Type 0 };

    /// Loads the word of a place and a bucket.
    fn load(
        &mut self,
        caller: &mut Self::Caller,
        machine: &QueryMachine,
        moment: i64,
        place: Place,
        bucket: u32,
    ) -> Result<Self::Found, OutOfMemory>
        requires asked { asks self.old caller.old machine.now moment (word_asked place bucket) }
        ensures told { IfOk result (λ found.
            tells self.old caller.old machine.now moment (word_asked place bucket) found self.new caller.new) }
        ensures left { leaves self.old caller.old self.new caller.new };

    /// Finds the first replica of a range that serves on none of the leaves that the query avoids.
    fn resolve(
        &mut self,
        caller: &mut Self::Caller,
        machine: &QueryMachine,
        moment: i64,
        range: Range,
    ) -> Result<Self::Found, OutOfMemory>
        requires asked { asks self.old caller.old machine.now moment (the_ask.Resolve range) }
        ensures told { IfOk result (λ found.
            tells self.old caller.old machine.now moment (the_ask.Resolve range) found self.new caller.new) }
        ensures left { leaves self.old caller.old self.new caller.new };

    /// Looks at a leaf, and reads the slots that resolved to it where the plan is met there.
    fn visit(
        &mut self,
        caller: &mut Self::Caller,
        machine: &QueryMachine,
        moment: i64,
        leaf: Leaf,
    ) -> Result<Self::Found, OutOfMemory>
        requires asked { asks self.old caller.old machine.now moment (the_ask.Visit leaf) }
        ensures told { IfOk result (λ found.
            tells self.old caller.old machine.now moment (the_ask.Visit leaf) found self.new caller.new) }
        ensures left { leaves self.old caller.old self.new caller.new };
}

/// What a side finds when it is asked for the next event of a query that goes on.
pub fn find_next<S: QuerySide>(
    side: &mut S,
    caller: &mut S::Caller,
    machine: &QueryMachine,
    moment: i64,
) -> Result<S::Found, OutOfMemory>
    requires goes_on { ask_of machine.now.setting machine.now.stage ≢ the_ask.Finished }
    requires asked { S.asks side.old caller.old machine.now moment (ask_of machine.now.setting machine.now.stage) }
    ensures told { IfOk result (λ found. S.tells side.old caller.old machine.now moment
        (ask_of machine.now.setting machine.now.stage) found side.new caller.new) }
    ensures left { S.leaves side.old caller.old side.new caller.new }
{
    match machine.next() {
        Ask::LoadRoot(bucket) => side.load(caller, machine, moment, Place::Root, bucket),
        Ask::LoadZone(zone, bucket) => {
            side.load(caller, machine, moment, Place::Zone(zone), bucket)
        }
        Ask::Resolve(range) => side.resolve(caller, machine, moment, range),
        Ask::Visit(leaf) => side.visit(caller, machine, moment, leaf),
        Ask::Finished => unreachable!(),
    }
}
