// Predicates.
ghost use Rattle.std.specs.Prelude.{◌≡◌, ◌==◌, ◌||◌, ◌+◌, ◌<◌, ◌++◌, ◌∷◌, [], OnOk, codes, string_bytes};
ghost use Rattle.std.specs.Prelude.{if◌then◌else◌};
ghost use Rattle.mql_ast.specs.Trees.{predicate_tree};
ghost use Rattle.mql_ast.specs.Printed.{condition_text, in_parentheses, likeness_text, predicate_text};
ghost use Rattle.mql_ast.specs.PredicateParts.{remaining_text, part_weight, remaining_weight};

use crate::names::Name;
use crate::predicates::{Comparison, Literal, Pattern, Predicate};
use crate::printing::escapes::push_pattern;
use crate::printing::words::push_value;
use std::alloc::AllocError;

/// What is still to be printed: a predicate, with how closely an operator beside it binds, or signs.
#[derive(Drop)]
pub enum PredicatePart<'a> {
    Predicate(&'a Predicate, u8),
    Signs(&'static str),
}

/// Prints a predicate. What is still to come is kept in a list, since a chain may have many thousand
/// conditions.
#[tactic(auto, using(crate::proofs::PredicatePartLemmas::text_push, crate::proofs::PredicatePartLemmas::weight_push))]
pub fn print_predicate(out: &mut String, predicate: &Predicate) -> Result<(), AllocError>
    ensures text { OnOk result (string_bytes out.new
        ≡ string_bytes out.old ++ predicate_text 0 (predicate_tree predicate.now)) }
{
    let mut parts = Vec::new(*out.allocator());
    parts.push(PredicatePart::Predicate(predicate, 0))?;
    while let Some(part) = parts.pop() {
        match part {
            PredicatePart::Predicate(predicate, level) => {
                print_part(out, &mut parts, predicate, level)?
            }
            PredicatePart::Signs(signs) => out.push_str(signs)?,
        }
    }
    Ok(())
}

// Prints a condition, or puts the parts of a predicate among those to come, its first part last.
#[tactic(auto, using(crate::proofs::PredicatePartLemmas::text_push, crate::proofs::PredicatePartLemmas::weight_push))]
fn print_part<'a>(
    out: &mut String,
    parts: &mut Vec<PredicatePart<'a>>,
    predicate: &'a Predicate,
    level: u8,
) -> Result<(), AllocError>
    ensures text { OnOk result (string_bytes out.new ++ remaining_text parts.new.items
        ≡ string_bytes out.old ++ (predicate_text level (predicate_tree predicate.now)
        ++ remaining_text parts.old.items)) }
    ensures less { OnOk result (remaining_weight parts.new.items
        < part_weight (PredicatePart.Predicate predicate.entry level) + remaining_weight parts.old.items) }
{
    match predicate {
        Predicate::Compare(column, how, literal) => print_condition(out, column, *how, literal),
        Predicate::Like(column, pattern) => print_likeness(out, column, pattern),
        Predicate::Not(inner) => print_opposite(out, parts, inner),
        Predicate::And(left, right) => {
            print_operands(out, parts, level == 2, (left, 1), " && ", (right, 2))
        }
        Predicate::Or(left, right) => {
            print_operands(out, parts, binds(level), (left, 0), " || ", (right, 1))
        }
    }
}

// Whether an operator beside a predicate binds closer than `||`.
fn binds(level: u8) -> bool
    ensures binds { result ≡ (level == 1 || level == 2) }
{
    level == 1 || level == 2
}

// Prints the sign of an opposite, with what it is the opposite of to come.
#[tactic(auto, using(crate::proofs::PredicatePartLemmas::text_push, crate::proofs::PredicatePartLemmas::weight_push))]
fn print_opposite<'a>(
    out: &mut String,
    parts: &mut Vec<PredicatePart<'a>>,
    inner: &'a Predicate,
) -> Result<(), AllocError>
    ensures text { OnOk result (string_bytes out.new ++ remaining_text parts.new.items
        ≡ string_bytes out.old ++ ((codes "!" ++ predicate_text 2 (predicate_tree inner.now))
        ++ remaining_text parts.old.items)) }
    ensures weight { OnOk result (remaining_weight parts.new.items
        ≡ part_weight (PredicatePart.Predicate inner.entry 2) + remaining_weight parts.old.items) }
{
    out.push_str("!")?;
    parts.push(PredicatePart::Predicate(inner, 2))?;
    Ok(())
}

// Two operands with their sign to come, and the first parenthesis, where there are any.
fn print_operands<'a>(
    out: &mut String,
    parts: &mut Vec<PredicatePart<'a>>,
    parentheses: bool,
    left: (&'a Predicate, u8),
    sign: &'static str,
    right: (&'a Predicate, u8),
) -> Result<(), AllocError>
    ensures text { OnOk result (string_bytes out.new ++ remaining_text parts.new.items
        ≡ string_bytes out.old ++ (in_parentheses parentheses (predicate_text left.entry.1
        (predicate_tree left.entry.0.now) ++ (sign.now ++ predicate_text right.entry.1
        (predicate_tree right.entry.0.now))) ++ remaining_text parts.old.items)) }
    ensures less { OnOk result (remaining_weight parts.new.items
        < part_weight (PredicatePart.Predicate left.entry.0 left.entry.1)
        + (part_weight (PredicatePart.Predicate right.entry.0 right.entry.1) + (3 + remaining_weight parts.old.items))) }
{
    open(out, parts, parentheses)?;
    push_operands(parts, left, sign, right)
}

// The first parenthesis, where there are any, with the last to come.
#[tactic(auto, using(crate::proofs::PredicatePartLemmas::text_push, crate::proofs::PredicatePartLemmas::weight_push))]
fn open(
    out: &mut String,
    parts: &mut Vec<PredicatePart<'_>>,
    parentheses: bool,
) -> Result<(), AllocError>
    ensures signs { OnOk result (string_bytes out.new ≡ string_bytes out.old ++ (if parentheses then 40 ∷ [] else [])) }
    ensures to_come { OnOk result (remaining_text parts.new.items
        ≡ (if parentheses then 41 ∷ [] else []) ++ remaining_text parts.old.items) }
    ensures weight { OnOk result (remaining_weight parts.new.items < 2 + remaining_weight parts.old.items) }
{
    if parentheses {
        parts.push(PredicatePart::Signs(")"))?;
        out.push_str("(")?;
    }
    Ok(())
}

// Two operands with their sign, the first of them last.
#[tactic(auto, using(crate::proofs::PredicatePartLemmas::text_push, crate::proofs::PredicatePartLemmas::weight_push))]
fn push_operands<'a>(
    parts: &mut Vec<PredicatePart<'a>>,
    left: (&'a Predicate, u8),
    sign: &'static str,
    right: (&'a Predicate, u8),
) -> Result<(), AllocError>
    ensures to_come { OnOk result (remaining_text parts.new.items
        ≡ predicate_text left.entry.1 (predicate_tree left.entry.0.now)
        ++ (sign.now ++ (predicate_text right.entry.1 (predicate_tree right.entry.0.now)
        ++ remaining_text parts.old.items))) }
    ensures weight { OnOk result (remaining_weight parts.new.items
        ≡ part_weight (PredicatePart.Predicate left.entry.0 left.entry.1)
        + (1 + (part_weight (PredicatePart.Predicate right.entry.0 right.entry.1)
        + remaining_weight parts.old.items))) }
{
    parts.push(PredicatePart::Predicate(right.0, right.1))?;
    parts.push(PredicatePart::Signs(sign))?;
    parts.push(PredicatePart::Predicate(left.0, left.1))?;
    Ok(())
}

fn print_condition(
    out: &mut String,
    column: &Name,
    how: Comparison,
    literal: &Literal,
) -> Result<(), AllocError>
    ensures text { OnOk result (string_bytes out.new
        ≡ string_bytes out.old ++ condition_text column.now how literal.now) }
{
    out.push_str(column.text.as_str())?;
    out.push_str(" ")?;
    out.push_str(how.sign())?;
    out.push_str(" ")?;
    push_value(out, &literal.value)
}

fn print_likeness(out: &mut String, column: &Name, pattern: &Pattern) -> Result<(), AllocError>
    ensures text { OnOk result (string_bytes out.new ≡ string_bytes out.old ++ likeness_text column.now pattern.now) }
{
    out.push_str(column.text.as_str())?;
    out.push_str(" =~ ")?;
    push_pattern(out, &pattern.pieces)
}
