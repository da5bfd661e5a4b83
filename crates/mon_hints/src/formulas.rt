// Formulas over buckets.
ghost use Rattle.std.specs.Prelude.{◌≡◌, ◌++◌, map, IfOk, OnOk};
ghost use Rattle.mon_hints.specs.Formulas.{formula_tree, formulas, named_buckets, all_named, IsListing};

use crate::fingerprints::Buckets;
use mon_value::OutOfMemory;
use std::alloc::Global;

/// Which buckets a series must have. One of all of none holds of every series, and one of any of none of no series.
#[derive(Drop)]
pub enum Formula {
    All,
    Bucket(u32),
    And(Vec<Formula>),
    Or(Vec<Formula>),
}

impl Formula {
    /// The buckets that the formula names: rising, each once.
    pub fn buckets(&self, alloc: Global) -> Result<Buckets, OutOfMemory>
        ensures listing { IfOk result (λ listed. IsListing (named_buckets (formula_tree self.now)) listed) }
    {
        let mut named = Vec::new(alloc);
        push_named(&mut named, self)?;
        Ok(listing(named))
    }

    /// A copy of the formula: the same tree.
    #[cycle(copies)]
    pub fn copy(&self, alloc: Global) -> Result<Formula, OutOfMemory>
        ensures tree { IfOk result (λ copied. formula_tree copied ≡ formula_tree self.now) }
    {
        match self {
            Formula::All => Ok(Formula::All),
            Formula::Bucket(bucket) => Ok(Formula::Bucket(*bucket)),
            Formula::And(all) => Ok(Formula::And(copied_formulas(alloc, all.as_slice())?)),
            Formula::Or(any) => Ok(Formula::Or(copied_formulas(alloc, any.as_slice())?)),
        }
    }
}

/// The buckets that some formulas name together: rising, each once.
pub fn buckets_of_all(alloc: Global, several: &[Formula]) -> Result<Buckets, OutOfMemory>
    ensures listing { IfOk result (λ listed. IsListing (all_named (formulas (map formula_tree several.now))) listed) }
{
    let mut named = Vec::new(alloc);
    push_all_named(&mut named, several)?;
    Ok(listing(named))
}

// Buckets in order, each once.
fn listing(mut buckets: Vec<u32>) -> Buckets
    ensures listing { IsListing buckets.items result }
{
    buckets.sort_unstable();
    buckets.dedup();
    Buckets::from_vec(buckets)
}

// Copies of all formulas, in their order.
#[cycle(copies)]
fn copied_formulas(alloc: Global, several: &[Formula]) -> Result<Vec<Formula>, OutOfMemory>
    ensures trees { IfOk result (λ copied. map formula_tree copied.items ≡ map formula_tree several.now) }
{
    let mut copied = Vec::with_capacity(alloc, several.len())?;
    for formula in several {
        copied.push(formula.copy(alloc)?)?;
    }
    Ok(copied)
}

// Adds the buckets that a formula names, in their order in it.
#[cycle(naming)]
fn push_named(named: &mut Vec<u32>, formula: &Formula) -> Result<(), OutOfMemory>
    ensures added { OnOk result (named.new.items ≡ named.old.items ++ named_buckets (formula_tree formula.now)) }
{
    match formula {
        Formula::All => Ok(()),
        Formula::Bucket(bucket) => {
            named.push(*bucket)?;
            Ok(())
        }
        Formula::And(all) => push_all_named(named, all.as_slice()),
        Formula::Or(any) => push_all_named(named, any.as_slice()),
    }
}

#[cycle(naming)]
fn push_all_named(named: &mut Vec<u32>, several: &[Formula]) -> Result<(), OutOfMemory>
    ensures added { OnOk result (named.new.items
        ≡ named.old.items ++ all_named (formulas (map formula_tree several.now))) }
{
    for formula in several {
        push_named(named, formula)?;
    }
    Ok(())
}
