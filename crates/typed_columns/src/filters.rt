// What a filter may ask.
ghost use Rattle.std.specs.Prelude.{◌≡◌, ◌+◌, ◌<◌, ◌++◌, List, OnOk};
ghost use Rattle.mql_ast.specs.Trees.{predicate_tree};
ghost use Rattle.typed_trees.specs.Faults.{first_with};
ghost use Rattle.typed_trees.specs.Fetches as spec;
ghost use Rattle.typed_trees.specs.FixedColumns.{fixed_by};
ghost use Rattle.typed_columns.specs.PredicateParts.{remaining_faults, remaining_fixed, remaining_nodes};
ghost use Rattle.mql_ast.specs.PredicateParts.{nodes};
ghost use Rattle.mon_value.specs.declared.columns.Column.{Column};

use crate::places::NamedColumns;
use mon_value::{Column, FieldValue, Shared, ValueType};
use mql_ast::{Comparison, Name, Predicate};
use std::alloc::{AllocError, Global};
use typed_trees::{Faults, TypeWord};

/// Tells each condition that its column doesn't meet.
pub fn tell_predicate(
    alloc: Global,
    columns: &[Shared<Column>],
    predicate: &Predicate,
    found: &mut Faults,
) -> Result<(), AllocError>
    ensures faults { OnOk result (found.new.first
        ≡ first_with found.old.first (spec.predicate_faults columns.now (predicate_tree predicate.now))) }
{
    let columns = NamedColumns::new(alloc, columns)?;
    let told = tell_parts(alloc, &columns, predicate, found);
    drop(columns);
    told
}

// Tells each condition that its column doesn't meet. What is still to be looked at is kept in a list, since a chain may
// have many thousand conditions.
#[tactic(auto, using(crate::proofs::PredicateLemmas::parts_pushed))]
fn tell_parts(
    alloc: Global,
    columns: &NamedColumns<'_>,
    predicate: &Predicate,
    found: &mut Faults,
) -> Result<(), AllocError>
    ensures faults { OnOk result (found.new.first
        ≡ first_with found.old.first (spec.predicate_faults columns.now (predicate_tree predicate.now))) }
{
    let mut parts = Vec::new(alloc);
    parts.push(predicate)?;
    while let Some(part) = parts.pop() {
        tell_part(columns, &mut parts, part, found)?;
    }
    Ok(())
}

// Tells a condition that its column doesn't meet, or puts the parts of a predicate among those to come, its first part
// last.
#[tactic(auto, using(crate::proofs::PredicateLemmas::parts_pushed))]
fn tell_part<'a>(
    columns: &NamedColumns<'_>,
    parts: &mut Vec<&'a Predicate>,
    part: &'a Predicate,
    found: &mut Faults,
) -> Result<(), AllocError>
    ensures faults { OnOk result (first_with found.new.first (remaining_faults columns.now parts.new.items)
        ≡ first_with found.old.first
        (spec.predicate_faults columns.now (predicate_tree part.now) ++ remaining_faults columns.now parts.old.items)) }
    ensures less { OnOk result (remaining_nodes parts.new.items < nodes part.now + remaining_nodes parts.old.items) }
{
    match part {
        Predicate::Compare(name, how, literal) => {
            tell_comparison(columns, name, *how, &literal.value, found);
            Ok(())
        }
        Predicate::Like(name, _) => {
            tell_likeness(columns, name, found);
            Ok(())
        }
        Predicate::Not(inner) => {
            parts.push(inner)?;
            Ok(())
        }
        Predicate::And(left, right) => push_both(parts, left, right),
        Predicate::Or(left, right) => push_both(parts, left, right),
    }
}

/// Both sides, the first of them last.
#[tactic(auto, using(crate::proofs::PredicateLemmas::parts_pushed))]
pub(crate) fn push_both<'a>(
    parts: &mut Vec<&'a Predicate>,
    left: &'a Predicate,
    right: &'a Predicate,
) -> Result<(), AllocError>
    ensures faults { OnOk result ((columns : List Column) → remaining_faults columns parts.new.items
        ≡ spec.predicate_faults columns (predicate_tree left.now)
        ++ (spec.predicate_faults columns (predicate_tree right.now) ++ remaining_faults columns parts.old.items)) }
    ensures fixed { OnOk result (remaining_fixed parts.new.items ≡ fixed_by (predicate_tree left.now)
        ++ (fixed_by (predicate_tree right.now) ++ remaining_fixed parts.old.items)) }
    ensures nodes { OnOk result (remaining_nodes parts.new.items
        ≡ nodes left.now + (nodes right.now + remaining_nodes parts.old.items)) }
{
    parts.push(right)?;
    parts.push(left)?;
    Ok(())
}

// Tells a comparison with a literal of another type, or of an order among truth values.
fn tell_comparison(
    columns: &NamedColumns<'_>,
    name: &Name,
    how: Comparison,
    literal: &FieldValue,
    found: &mut Faults,
)
    ensures faults { found.new.first ≡ first_with found.old.first (spec.condition_faults columns.now name.now
        (λ of. spec.can_compare of how literal.now) (spec.literal_word literal.now)) }
{
    if let Some(column) = columns.known(name, found) {
        let fits = can_compare(&column.of, how, literal);
        found.tell_unlike(fits, name.at, &column.of, literal_word(literal));
    }
}

// Tells a pattern that isn't asked of a text.
fn tell_likeness(columns: &NamedColumns<'_>, name: &Name, found: &mut Faults)
    ensures faults { found.new.first ≡ first_with found.old.first
        (spec.condition_faults columns.now name.now spec.is_text_type TypeWord.Text) }
{
    if let Some(column) = columns.known(name, found) {
        let fits = matches!(column.of, ValueType::Text);
        found.tell_unlike(fits, name.at, &column.of, TypeWord::Text);
    }
}

// Whether a column of a type can be compared so with a literal.
fn can_compare(of: &ValueType, how: Comparison, literal: &FieldValue) -> bool
    ensures compared { result ≡ spec.can_compare of.now how literal.now }
{
    match literal {
        FieldValue::Int(_) => matches!(of, ValueType::Int),
        FieldValue::Text(_) => matches!(of, ValueType::Text),
        FieldValue::Bool(_) => matches!(of, ValueType::Bool) && is_equality(how),
    }
}

fn is_equality(how: Comparison) -> bool
    ensures equality { result ≡ spec.is_equality how }
{
    matches!(how, Comparison::Equal | Comparison::NotEqual)
}

// What a literal's type is called.
fn literal_word(literal: &FieldValue) -> TypeWord
    ensures word { result ≡ spec.literal_word literal.now }
{
    match literal {
        FieldValue::Int(_) => TypeWord::Int,
        FieldValue::Bool(_) => TypeWord::Bool,
        FieldValue::Text(_) => TypeWord::Text,
    }
}
