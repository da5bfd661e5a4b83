// The formula of a fetch.
ghost use Rattle.std.specs.Prelude.{◌≡◌, ◌<◌, ℕ, List, if◌then◌else◌, IfOk, OnOk};
ghost use Rattle.mon_hints.specs.Formulas.{FormulaTree, formula_tree};
ghost use Rattle.mql_ast.specs.Trees.{predicate_tree};
ghost use Rattle.typed_trees.specs.Meaning as loads;
ghost use Rattle.typed_trees.specs.Nodes.{node_tree};
ghost use Rattle.plan_split.specs.FetchFormulas as spec;
ghost use Rattle.plan_split.specs.FormulaLinks.{filtered_formula};
ghost use Rattle.plan_split.specs.FetchFormulas.{predicate_formula};

use crate::joined_formulas::both;
use crate::predicates::BucketSetting;
use mon_hints::Formula;
use mon_value::{Columns, OutOfMemory};
use mql_ast::Predicate;
use std::alloc::Global;
use typed_trees::{Node, names_keys};

/// Which buckets, among so many, a series has where it meets a fetch: that of its metric, and what the filters want
/// that name its keys alone. The filters are kept in a list, since a fetch may have many thousand.
pub(crate) fn fetch_formula(
    alloc: Global,
    fetch: &Node,
    buckets: u32,
) -> Result<Formula, OutOfMemory>
    requires { 0 < buckets }
    ensures formula { IfOk result (λ formula. formula_tree formula
        ≡ spec.fetch_formula buckets (node_tree fetch.now)) }
{
    let mut filters = Vec::new(alloc);
    let mut rest = fetch;
    loop {
        match rest {
            Node::Filter { info, by, input } => {
                push_key_filter(&mut filters, by, &info.columns)?;
                rest = input;
            }
            Node::Fetch {
                info: _,
                schema,
                metric,
            } => {
                let schema = schema.as_bytes();
                let setting = BucketSetting {
                    alloc,
                    schema,
                    buckets,
                };
                let formula = Formula::Bucket(setting.bucket(&[], metric.as_bytes()));
                return setting.filtered(formula, filters);
            }
            _ => {
                let setting = BucketSetting {
                    alloc,
                    schema: &[],
                    buckets,
                };
                return setting.filtered(Formula::All, filters);
            }
        }
    }
}

// Puts a filter with the others where it names keys alone.
#[tactic(auto, using(crate::proofs::LinkLemmas::filters_pushed))]
fn push_key_filter<'a>(
    filters: &mut Vec<&'a Predicate>,
    by: &'a Predicate,
    columns: &Columns,
) -> Result<(), OutOfMemory>
    ensures pushed { OnOk result ((buckets : ℕ) (schema : List ℕ) (formula : FormulaTree)
        → filtered_formula buckets schema filters.new.items formula
        ≡ filtered_formula buckets schema filters.old.items
        (if loads.names_keys columns.now (predicate_tree by.now)
        then spec.both formula (predicate_formula buckets schema (predicate_tree by.now)) else formula)) }
{
    if names_keys(by, columns) {
        filters.push(by)?;
    }
    Ok(())
}

impl<'a> BucketSetting<'a> {
    // A formula with those of filters, the last of them first.
    #[tactic(auto, using(crate::proofs::LinkLemmas::filters_pushed))]
    fn filtered(&self, formula: Formula, filters: Vec<&Predicate>) -> Result<Formula, OutOfMemory>
        requires { 0 < self.now.buckets }
        ensures formula { IfOk result (λ filtered. formula_tree filtered
            ≡ filtered_formula self.now.buckets self.now.schema.now filters.entry.items (formula_tree formula)) }
    {
        let mut filtered = formula;
        let mut rest = filters;
        while let Some(by) = rest.pop() {
            filtered = both(self.alloc, filtered, self.formula(by)?)?;
        }
        Ok(filtered)
    }
}
