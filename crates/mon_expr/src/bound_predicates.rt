// Predicates whose columns were found once for all rows of a table.
ghost use Rattle.std.specs.Prelude.{◌≡◌, ◌++◌, ◌∷◌, [], length, reverse, true, IsTrue, IfOk};
ghost use Rattle.mql_ast.specs.Trees.{predicate_tree};
ghost use Rattle.mon_expr.specs.BoundPredicates.{bound_truth, IsAdded, IsBoundPredicate};
ghost use Rattle.mon_expr.specs.ConditionLists.{are_ordered, condition_truth, is_before, is_test_passed, next_of};

use crate::condition_lists::{BoundPredicate, Condition, Next, Test};
use crate::conditions::{is_compared, is_like};
use crate::places::place_of;
use mon_value::{Cells, Columns, OutOfMemory, TryCopy, Value};
use mql_ast::Predicate;
use std::alloc::Global;

impl BoundPredicate {
    /// Finds the columns of a predicate.
    pub fn new(
        alloc: Global,
        predicate: &Predicate,
        columns: &Columns,
    ) -> Result<BoundPredicate, OutOfMemory>
        ensures bound { IfOk result (λ bound. IsBoundPredicate bound (predicate_tree predicate.now) columns.now) }
    {
        let mut conditions = Vec::new(alloc);
        let first = add_predicate(
            &mut conditions,
            predicate,
            columns,
            Next::Answer(true),
            Next::Answer(false),
        )?;
        Ok(BoundPredicate { conditions, first })
    }

    /// Whether the predicate holds of the row with these cells in its columns. No memory is taken.
    pub fn holds(&self, cells: &Cells) -> bool
        ensures truth { result ≡ bound_truth self.now cells.now }
    {
        let mut next = self.first;
        loop {
            match next {
                Next::Answer(truth) => return truth,
                Next::Condition(at) => next = self.conditions[at].next(cells),
            }
        }
    }
}

impl Condition {
    // What comes next for the row with these cells.
    fn next(&self, cells: &Cells) -> Next
        ensures next { result ≡ next_of self.now cells.now }
    {
        if self.is_met(cells) {
            self.if_true
        } else {
            self.if_false
        }
    }

    fn is_met(&self, cells: &Cells) -> bool
        ensures truth { result ≡ condition_truth self.now cells.now }
    {
        match cells.as_slice().get(self.place) {
            Some(cell) => self.test.is_passed(cell),
            None => false,
        }
    }
}

impl Test {
    fn is_passed(&self, cell: &Value) -> bool
        ensures truth { result ≡ is_test_passed self.now cell.now }
    {
        match self {
            Test::Compare(how, literal) => is_compared(*how, literal, cell),
            Test::Like(pieces) => is_like(pieces.as_slice(), cell),
        }
    }
}

// Adds the conditions of a predicate, each behind those that come next, and gives the one to begin with. A loop goes
// down the left, where a chain may have many thousand conditions.
fn add_predicate(
    conditions: &mut Vec<Condition>,
    predicate: &Predicate,
    columns: &Columns,
    if_true: Next,
    if_false: Next,
) -> Result<Next, OutOfMemory>
    requires ordered { IsTrue (are_ordered (reverse conditions.old.items)) }
    requires true_before { IsTrue (is_before if_true (length conditions.old.items)) }
    requires false_before { IsTrue (is_before if_false (length conditions.old.items)) }
    ensures added { IfOk result (λ first. IsAdded (predicate_tree predicate.now) columns.now if_true if_false
        conditions.old.items conditions.new.items first) }
{
    let mut rest = predicate;
    let mut if_true = if_true;
    let mut if_false = if_false;
    loop {
        match rest {
            Predicate::Compare(name, how, literal) => {
                let alloc = *conditions.allocator();
                let test = Test::Compare(*how, literal.value.copy(alloc)?);
                let place = place_of(&name.text, columns);
                return add_condition(
                    conditions,
                    Condition {
                        place,
                        test,
                        if_true,
                        if_false,
                    },
                );
            }
            Predicate::Like(name, pattern) => {
                let alloc = *conditions.allocator();
                let test = Test::Like(pattern.pieces.copy(alloc)?);
                let place = place_of(&name.text, columns);
                return add_condition(
                    conditions,
                    Condition {
                        place,
                        test,
                        if_true,
                        if_false,
                    },
                );
            }
            Predicate::Not(inner) => {
                (if_true, if_false) = (if_false, if_true);
                rest = inner;
            }
            Predicate::And(left, right) => {
                if_true = add_predicate(conditions, right, columns, if_true, if_false)?;
                rest = left;
            }
            Predicate::Or(left, right) => {
                if_false = add_predicate(conditions, right, columns, if_true, if_false)?;
                rest = left;
            }
        }
    }
}

// Adds a condition at the end, and gives its place.
fn add_condition(conditions: &mut Vec<Condition>, condition: Condition) -> Result<Next, OutOfMemory>
    ensures added { IfOk result (λ next. conditions.new.items ≡ conditions.old.items ++ condition ∷ []) }
    ensures next { IfOk result (λ next. next ≡ Next.Condition (length conditions.old.items)) }
{
    let at = conditions.len();
    conditions.push(condition)?;
    Ok(Next::Condition(at))
}
