// Sums.
ghost use Rattle.std.specs.Prelude.{◌≡◌, ◌+◌, ◌<◌, ◌++◌, ◌∷◌, [], OnOk, string_bytes, true, false, codes};
ghost use Rattle.std.specs.Prelude.{if◌then◌else◌};
ghost use Rattle.mql_ast.specs.Trees.{sum_tree};
ghost use Rattle.mql_ast.specs.Printed.{sum_text, share_text};
ghost use Rattle.mql_ast.specs.SumParts.{remaining_text, part_weight, remaining_weight};

use crate::expressions::Expr;
use crate::names::Name;
use crate::printing::words::{push_number, push_signed};
use std::alloc::AllocError;

/// What is still to be printed: a sum, as an operand or whole, or signs.
#[derive(Drop)]
pub enum SumPart<'a> {
    Sum(&'a Expr, bool),
    Signs(&'static str),
}

/// Prints a sum. What is still to come is kept in a list, since a chain may have many thousand terms.
#[tactic(auto, using(crate::proofs::SumPartLemmas::text_push, crate::proofs::SumPartLemmas::weight_push))]
pub fn print_sum(out: &mut String, sum: &Expr) -> Result<(), AllocError>
    ensures text { OnOk result (string_bytes out.new ≡ string_bytes out.old ++ sum_text false (sum_tree sum.now)) }
{
    let mut parts = Vec::new(*out.allocator());
    parts.push(SumPart::Sum(sum, false))?;
    while let Some(part) = parts.pop() {
        match part {
            SumPart::Sum(sum, operand) => print_part(out, &mut parts, sum, operand)?,
            SumPart::Signs(signs) => out.push_str(signs)?,
        }
    }
    Ok(())
}

// Prints a term, or puts the parts of a sum among those to come, its first part last.
#[tactic(auto, using(crate::proofs::SumPartLemmas::text_push, crate::proofs::SumPartLemmas::weight_push))]
fn print_part<'a>(
    out: &mut String,
    parts: &mut Vec<SumPart<'a>>,
    sum: &'a Expr,
    operand: bool,
) -> Result<(), AllocError>
    ensures text { OnOk result (string_bytes out.new ++ remaining_text parts.new.items
        ≡ string_bytes out.old ++ (sum_text operand (sum_tree sum.now) ++ remaining_text parts.old.items)) }
    ensures less { OnOk result (remaining_weight parts.new.items
        < part_weight (SumPart.Sum sum.entry operand) + remaining_weight parts.old.items) }
{
    match sum {
        Expr::Column(column) => out.push_str(column.text.as_str()),
        Expr::Number { at: _, value } => push_signed(out, *value),
        Expr::Percentile { at: _, column, p } => print_percentile(out, column, *p),
        Expr::Plus(left, right) => {
            open(out, parts, operand)?;
            push_operands(parts, left, " + ", right)
        }
        Expr::Minus(left, right) => {
            open(out, parts, operand)?;
            push_operands(parts, left, " - ", right)
        }
    }
}

// The first parenthesis, where there are any, with the last to come.
#[tactic(auto, using(crate::proofs::SumPartLemmas::text_push, crate::proofs::SumPartLemmas::weight_push))]
fn open(out: &mut String, parts: &mut Vec<SumPart<'_>>, parentheses: bool) -> Result<(), AllocError>
    ensures signs { OnOk result (string_bytes out.new ≡ string_bytes out.old ++ (if parentheses then 40 ∷ [] else [])) }
    ensures to_come { OnOk result (remaining_text parts.new.items
        ≡ (if parentheses then 41 ∷ [] else []) ++ remaining_text parts.old.items) }
    ensures weight { OnOk result (remaining_weight parts.new.items < 2 + remaining_weight parts.old.items) }
{
    if parentheses {
        parts.push(SumPart::Signs(")"))?;
        out.push_str("(")?;
    }
    Ok(())
}

// Two operands with their sign, the first of them last.
#[tactic(auto, using(crate::proofs::SumPartLemmas::text_push, crate::proofs::SumPartLemmas::weight_push))]
fn push_operands<'a>(
    parts: &mut Vec<SumPart<'a>>,
    left: &'a Expr,
    sign: &'static str,
    right: &'a Expr,
) -> Result<(), AllocError>
    ensures to_come { OnOk result (remaining_text parts.new.items
        ≡ sum_text false (sum_tree left.now)
        ++ (sign.now ++ (sum_text true (sum_tree right.now) ++ remaining_text parts.old.items))) }
    ensures weight { OnOk result (remaining_weight parts.new.items
        ≡ part_weight (SumPart.Sum left.entry false)
        + (1 + (part_weight (SumPart.Sum right.entry true) + remaining_weight parts.old.items))) }
{
    parts.push(SumPart::Sum(right, true))?;
    parts.push(SumPart::Signs(sign))?;
    parts.push(SumPart::Sum(left, false))?;
    Ok(())
}

fn print_percentile(out: &mut String, column: &Name, p: u8) -> Result<(), AllocError>
    ensures text { OnOk result (string_bytes out.new
        ≡ string_bytes out.old ++ (codes "percentile(" ++ (column.now.text ++ share_text p))) }
{
    out.push_str("percentile(")?;
    out.push_str(column.text.as_str())?;
    print_share(out, p)
}

// Which share of a column's values a percentile takes.
fn print_share(out: &mut String, p: u8) -> Result<(), AllocError>
    ensures text { OnOk result (string_bytes out.new ≡ string_bytes out.old ++ share_text p) }
{
    out.push_str(", ")?;
    push_number(out, u32::from(p))?;
    out.push_str(")")
}
