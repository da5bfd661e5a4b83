// What the sums of `value` are.
ghost use Rattle.std.specs.Prelude.{◌≡◌, ◌+◌, ◌<◌, IfOk, OnOk};
ghost use Rattle.mql_ast.specs.Rows.{column_named};
ghost use Rattle.mql_ast.specs.Trees.{sum_tree};
ghost use Rattle.typed_trees.specs.Faults.{first_with};
ghost use Rattle.typed_trees.specs.Items as spec;
ghost use Rattle.typed_columns.specs.OperandLinks.{link, operand_links, linked_nodes, seen_operand, seen_sum};
ghost use Rattle.mql_ast.specs.SumParts.{nodes};

use crate::places::NamedColumns;
use mon_value::ValueType;
use mql_ast::{Expr, Name};
use std::alloc::{AllocError, Global};
use typed_trees::{Faults, OF_NUMBER, Operand, TypeKind, TypeWord, Width, type_word};

// The most bits of a distribution's total of which every percentile is computed, and by how many it is widened.
const MOST_PERCENTILE_BITS: u32 = 119;

const PERCENTILE_BITS: u32 = 7;

/// Tells what is wrong in a sum whose terms have to be numbers. What stands on the right of a link is kept in a list,
/// since a chain may have many thousand terms.
#[cycle(operands)]
#[tactic(auto, using(crate::proofs::OperandLemmas::links_pushed))]
pub(crate) fn sum_operand(
    alloc: Global,
    columns: &NamedColumns<'_>,
    sum: &Expr,
    found: &mut Faults,
) -> Result<Operand, AllocError>
    ensures operand { IfOk result (λ operand. operand ≡ spec.operand_of columns.now (sum_tree sum.now)) }
    ensures faults { OnOk result (found.new.first
        ≡ first_with found.old.first (spec.operand_faults columns.now (sum_tree sum.now))) }
{
    let mut links = Vec::new(alloc);
    let mut so_far = first_term(columns, &mut links, sum, found)?;
    while let Some(link) = links.pop() {
        so_far = gone_on(alloc, columns, so_far, link, found)?;
    }
    Ok(so_far)
}

// The first term of a sum. What stands on the right of its links is put in the list, the last first.
#[tactic(auto, using(crate::proofs::OperandLemmas::links_pushed))]
fn first_term<'a>(
    columns: &NamedColumns<'_>,
    links: &mut Vec<&'a Expr>,
    sum: &'a Expr,
    found: &mut Faults,
) -> Result<Operand, AllocError>
    ensures operand { IfOk result
        (λ first. operand_links columns.now links.new.items (seen_operand first found.new.first)
        ≡ operand_links columns.now links.old.items (seen_sum columns.now (sum_tree sum.now) found.old.first)) }
    ensures nodes { OnOk result (linked_nodes links.new.items < linked_nodes links.old.items + nodes sum.now) }
{
    let mut first = sum;
    loop {
        match first {
            Expr::Plus(left, right) => {
                links.push(right)?;
                first = left;
            }
            Expr::Minus(left, right) => {
                links.push(right)?;
                first = left;
            }
            Expr::Column(name) => {
                let width = columns.number(name, found);
                return Ok(Operand { at: name.at, width });
            }
            Expr::Number { at, value: _ } => return Ok(a_number(*at)),
            Expr::Percentile { at, column, p: _ } => {
                tell_percentile(columns, column, found);
                return Ok(a_number(*at));
            }
        }
    }
}

// An operand put together with what stands on its right.
#[cycle(operands)]
fn gone_on(
    alloc: Global,
    columns: &NamedColumns<'_>,
    left: Operand,
    right: &Expr,
    found: &mut Faults,
) -> Result<Operand, AllocError>
    ensures operand { IfOk result (λ made. seen_operand made found.new.first
        ≡ link columns.now (sum_tree right.now) (seen_operand left found.old.first)) }
{
    let right = sum_operand(alloc, columns, right, found)?;
    Ok(together(left, right, found))
}

// Two operands put together.
fn together(left: Operand, right: Operand, found: &mut Faults) -> Operand
    ensures operand { result ≡ spec.operands_together left right }
    ensures faults { found.new.first ≡ first_with found.old.first
        (spec.optional_width_faults left.at (spec.width_together left.width right.width)) }
{
    let width = match left.width {
        Some(width) => match right.width {
            Some(other) => Some(width.added(other)),
            None => None,
        },
        None => None,
    };
    if let Some(width) = width {
        width.tell_wide(left.at, found);
    }
    Operand { at: left.at, width }
}

// A number of a query, or a percentile.
fn a_number(at: u32) -> Operand
    ensures operand { result ≡ spec.number_operand at }
{
    Operand {
        at,
        width: Some(OF_NUMBER),
    }
}

// Tells a percentile of what isn't a distribution, or is too wide.
fn tell_percentile(columns: &NamedColumns<'_>, name: &Name, found: &mut Faults)
    ensures faults { found.new.first ≡ first_with found.old.first
        (spec.percentile_faults (column_named name.now.text columns.now) name.now.at) }
{
    let Some(column) = columns.known(name, found) else {
        return;
    };
    match &column.of {
        ValueType::Dist(_) => {
            let bits = column.cell_bits.saturating_add(PERCENTILE_BITS);
            let wide = column.cell_bits > MOST_PERCENTILE_BITS;
            found.tell_where(wide, name.at, TypeKind::TooWide(bits));
        }
        ValueType::Int | ValueType::Bool | ValueType::Text => {
            found.tell(
                name.at,
                TypeKind::Mismatch(type_word(&column.of), TypeWord::Dist),
            );
        }
    }
}
