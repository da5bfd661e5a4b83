// The formula of a predicate.
ghost use Rattle.std.specs.Prelude.{◌≡◌, ◌+◌, ◌<◌, IfOk};
ghost use Rattle.mon_hints.specs.Hints as hint;
ghost use Rattle.mon_hints.specs.Formulas.{formula_tree};
ghost use Rattle.mql_ast.specs.PredicateParts.{nodes};
ghost use Rattle.mql_ast.specs.Trees.{predicate_tree};
ghost use Rattle.plan_split.specs.FormulaLinks.{link_formula, linked_formula, linked_nodes};
ghost use Rattle.plan_split.specs.FetchFormulas as spec;
ghost use Rattle.plan_split.specs.Meeting.{HoldsWhereTrue};

use crate::joined_formulas::{all_of, both, one_of};
use mon_hints::{Excerpt, Formula, bucket_of, excerpts_of, excerpts_of_value};
use mon_value::{FieldValue, OutOfMemory, Text};
use mql_ast::{Comparison, Pattern, Predicate};
use std::alloc::Global;

/// Which buckets, among so many, a series has where a predicate holds of its fields. The predicate names key columns
/// alone, and the schema is that of the series' target. `All` where the predicate wants no bucket.
pub fn formula_of(
    alloc: Global,
    predicate: &Predicate,
    schema: &[u8],
    buckets: u32,
) -> Result<Formula, OutOfMemory>
    requires { 0 < buckets }
    ensures formula { IfOk result (λ formula. formula_tree formula
        ≡ spec.predicate_formula buckets schema.now (predicate_tree predicate.now)) }
    ensures promise { IfOk result (λ formula.
        HoldsWhereTrue buckets schema.now (predicate_tree predicate.now) (formula_tree formula)) }
{
    BucketSetting {
        alloc,
        schema,
        buckets,
    }
    .formula(predicate)
}

/// What buckets are taken of: the fields of a schema, among so many buckets.
#[derive(Clone, Copy)]
pub(crate) struct BucketSetting<'a> {
    pub(crate) alloc: Global,
    pub(crate) schema: &'a [u8],
    pub(crate) buckets: u32,
}

/// An operator, and what stands on its right.
#[derive(Clone, Copy)]
pub(crate) enum Link<'a> {
    And(&'a Predicate),
    Or(&'a Predicate),
}

impl<'a> BucketSetting<'a> {
    /// The formula of a predicate. The stack doesn't grow with a chain.
    #[cycle(predicate_formulas)]
    #[tactic(auto, using(crate::proofs::LinkLemmas::links_pushed))]
    pub(crate) fn formula(&self, predicate: &Predicate) -> Result<Formula, OutOfMemory>
        requires { 0 < self.now.buckets }
        ensures formula { IfOk result (λ formula. formula_tree formula
            ≡ spec.predicate_formula self.now.buckets self.now.schema.now (predicate_tree predicate.now)) }
    {
        let mut links = Vec::new(self.alloc);
        let mut formula = self.first_formula(&mut links, predicate)?;
        while let Some(link) = links.pop() {
            formula = self.joined(formula, link)?;
        }
        Ok(formula)
    }

    // The formula of the first condition of a predicate, or of a negation that stands there. What is made of it is put
    // among the links, the last first.
    #[tactic(auto, using(crate::proofs::LinkLemmas::links_pushed))]
    fn first_formula<'p>(
        &self,
        links: &mut Vec<Link<'p>>,
        predicate: &'p Predicate,
    ) -> Result<Formula, OutOfMemory>
        requires { 0 < self.now.buckets }
        ensures formula { IfOk result (λ first.
            linked_formula self.now.buckets self.now.schema.now links.new.items (formula_tree first)
            ≡ linked_formula self.now.buckets self.now.schema.now links.old.items
            (spec.predicate_formula self.now.buckets self.now.schema.now (predicate_tree predicate.now))) }
        ensures nodes { IfOk result (λ first. linked_nodes links.new.items
            < linked_nodes links.old.items + nodes predicate.now) }
    {
        let mut first = predicate;
        loop {
            match first {
                Predicate::And(left, right) => {
                    links.push(Link::And(right))?;
                    first = left;
                }
                Predicate::Or(left, right) => {
                    links.push(Link::Or(right))?;
                    first = left;
                }
                Predicate::Not(_) => return Ok(Formula::All),
                Predicate::Compare(name, how, literal) => {
                    return self.comparison(&name.text, *how, &literal.value);
                }
                Predicate::Like(name, pattern) => return self.likeness(&name.text, pattern),
            }
        }
    }

    // A formula joined with that of what stands on the right.
    #[cycle(predicate_formulas)]
    fn joined(&self, left: Formula, link: Link<'_>) -> Result<Formula, OutOfMemory>
        requires { 0 < self.now.buckets }
        ensures formula { IfOk result (λ joined. formula_tree joined
            ≡ link_formula self.now.buckets self.now.schema.now link.entry (formula_tree left)) }
    {
        match link {
            Link::And(right) => both(self.alloc, left, self.formula(right)?),
            Link::Or(right) => one_of(self.alloc, left, self.formula(right)?),
        }
    }

    // The formula of a comparison of a field with a value.
    fn comparison(
        &self,
        field: &Text,
        how: Comparison,
        value: &FieldValue,
    ) -> Result<Formula, OutOfMemory>
        requires { 0 < self.now.buckets }
        ensures formula { IfOk result (λ formula. formula_tree formula
            ≡ spec.comparison_formula self.now.buckets self.now.schema.now field.now how value.now) }
    {
        match how {
            Comparison::Equal => {
                let excerpts = excerpts_of_value(self.alloc, value)?;
                self.all_excerpts(field, excerpts.as_slice())
            }
            Comparison::NotEqual
            | Comparison::Less
            | Comparison::AtMost
            | Comparison::Greater
            | Comparison::AtLeast => Ok(Formula::All),
        }
    }

    // The formula of a pattern that a field is like.
    fn likeness(&self, field: &Text, pattern: &Pattern) -> Result<Formula, OutOfMemory>
        requires { 0 < self.now.buckets }
        ensures formula { IfOk result (λ formula. formula_tree formula
            ≡ spec.likeness_formula self.now.buckets self.now.schema.now field.now pattern.now.pieces) }
    {
        let excerpts = excerpts_of(self.alloc, &pattern.pieces)?;
        self.all_excerpts(field, excerpts.as_slice())
    }

    // All buckets of some excerpts of a field.
    fn all_excerpts(&self, field: &Text, excerpts: &[Excerpt]) -> Result<Formula, OutOfMemory>
        requires { 0 < self.now.buckets }
        ensures formula { IfOk result (λ formula. formula_tree formula
            ≡ spec.excerpts_formula self.now.buckets self.now.schema.now field.now excerpts.now) }
    {
        let mut all = Vec::with_capacity(self.alloc, excerpts.len())?;
        for excerpt in excerpts {
            all.push(Formula::Bucket(self.bucket(field.as_bytes(), excerpt.as_slice())))?;
        }
        Ok(all_of(all))
    }

    /// The bucket of an excerpt of a field.
    pub(crate) fn bucket(&self, field: &[u8], excerpt: &[u8]) -> u32
        requires { 0 < self.now.buckets }
        ensures bucket { result
            ≡ hint.bucket_of self.now.buckets self.now.schema.now field.now excerpt.now }
    {
        bucket_of(self.schema, field, excerpt, self.buckets)
    }
}
