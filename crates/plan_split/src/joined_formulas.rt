// Formulas joined to one, in one list for a whole chain.
ghost use Rattle.std.specs.Prelude.{◌≡◌, ◌∷◌, ◌++◌, [], map, IfOk};
ghost use Rattle.mon_hints.specs.Formulas.{formula_tree};
ghost use Rattle.plan_split.specs.FetchFormulas as spec;

use mon_hints::Formula;
use mon_value::OutOfMemory;
use std::alloc::Global;

/// All of some formulas; of none it is `All`.
pub(crate) fn all_of(all: Vec<Formula>) -> Formula
    ensures tree { formula_tree result ≡ spec.all_of (map formula_tree all.items) }
{
    if all.is_empty() {
        Formula::All
    } else {
        Formula::And(all)
    }
}

/// Both of two formulas.
pub(crate) fn both(alloc: Global, left: Formula, right: Formula) -> Result<Formula, OutOfMemory>
    ensures tree { IfOk result (λ joined. formula_tree joined ≡ spec.both (formula_tree left) (formula_tree right)) }
{
    let all = appended(wanted(alloc, left)?, wanted(alloc, right)?)?;
    Ok(all_of(all))
}

/// One of two formulas at least. It names the buckets of both, also where one of them is `All`.
pub(crate) fn one_of(alloc: Global, left: Formula, right: Formula) -> Result<Formula, OutOfMemory>
    ensures tree { IfOk result (λ joined. formula_tree joined ≡ spec.one_of (formula_tree left) (formula_tree right)) }
{
    let any = appended(choices(alloc, left)?, choices(alloc, right)?)?;
    Ok(Formula::Or(any))
}

// The formulas of which a formula wants all.
fn wanted(alloc: Global, formula: Formula) -> Result<Vec<Formula>, OutOfMemory>
    ensures trees { IfOk result (λ wanted. map formula_tree wanted.items ≡ spec.wanted_formulas (formula_tree formula)) }
{
    match formula {
        Formula::All => Ok(Vec::new(alloc)),
        Formula::Bucket(bucket) => alone(alloc, Formula::Bucket(bucket)),
        Formula::And(all) => Ok(all),
        Formula::Or(any) => alone(alloc, Formula::Or(any)),
    }
}

// The formulas of which a formula wants one.
fn choices(alloc: Global, formula: Formula) -> Result<Vec<Formula>, OutOfMemory>
    ensures trees { IfOk result (λ choices. map formula_tree choices.items ≡ spec.choices (formula_tree formula)) }
{
    match formula {
        Formula::All => alone(alloc, Formula::All),
        Formula::Bucket(bucket) => alone(alloc, Formula::Bucket(bucket)),
        Formula::And(all) => alone(alloc, Formula::And(all)),
        Formula::Or(any) => Ok(any),
    }
}

// The formulas of one list, and then those of another.
fn appended(some: Vec<Formula>, more: Vec<Formula>) -> Result<Vec<Formula>, OutOfMemory>
    ensures items { IfOk result (λ all. all.items ≡ some.items ++ more.items) }
{
    let mut all = some;
    for formula in more {
        all.push(formula)?;
    }
    Ok(all)
}

// A list of one formula.
fn alone(alloc: Global, formula: Formula) -> Result<Vec<Formula>, OutOfMemory>
    ensures tree { IfOk result (λ list. list.items ≡ formula ∷ []) }
{
    let mut list = Vec::new(alloc);
    list.push(formula)?;
    Ok(list)
}
