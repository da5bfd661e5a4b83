// Conditions that lead to one another.
ghost use Rattle.std.specs.Prelude.{length, reverse, IsTrue};
ghost use Rattle.mon_expr.specs.ConditionLists.{are_ordered, is_before};

use mon_value::FieldValue;
use mql_ast::{Comparison, Pieces};

/// A predicate over the columns of a table, each of which was found by its name once.
///
/// It is a list of conditions, each with what comes next where it holds and where it doesn't. What comes next stands
/// earlier in the list, so a row meets each condition once at most, and no more of them than decide it.
#[derive(Drop)]
pub struct BoundPredicate {
    pub(crate) conditions: Vec<Condition>,
    pub(crate) first: Next,
    ghost ordered: { IsTrue (are_ordered (reverse conditions.items)) },
    ghost begins: { IsTrue (is_before first (length conditions.items)) },
}

/// A condition on the cell at a place.
#[derive(Drop)]
pub struct Condition {
    pub(crate) place: usize,
    pub(crate) test: Test,
    pub(crate) if_true: Next,
    pub(crate) if_false: Next,
}

/// What a condition asks of its cell.
#[derive(Drop)]
pub enum Test {
    Compare(Comparison, FieldValue),
    Like(Pieces),
}

/// The answer, or the place of the condition that comes next.
#[derive(Clone, Copy)]
pub enum Next {
    Answer(bool),
    Condition(usize),
}
