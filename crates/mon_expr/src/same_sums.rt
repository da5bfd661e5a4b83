// Whether two sums are the same.
ghost use Rattle.std.specs.Prelude.{◌≡◌, IsTrue};
ghost use Rattle.mon_expr.specs.SameTrees.{bare_sum};
ghost use Rattle.mql_ast.specs.Trees as tree;
ghost use Rattle.mql_ast.specs.Trees.{sum_tree};

use mql_ast::{Expr, Name};

/// Whether two sums are the same, wherever they stand in their texts. A loop goes down the left, where a chain may
/// have many thousand terms. No memory is taken.
pub fn are_same_sum(one: &Expr, other: &Expr) -> bool
    ensures same { IsTrue result → bare_sum (sum_tree one.now) ≡ bare_sum (sum_tree other.now) }
    ensures told { bare_sum (sum_tree one.now) ≡ bare_sum (sum_tree other.now) → IsTrue result }
{
    let mut one = one;
    let mut other = other;
    loop {
        match one {
            Expr::Column(name) => return is_column(other, name),
            Expr::Number { at: _, value } => return is_number(other, *value),
            Expr::Percentile { at: _, column, p } => return is_percentile(other, column, *p),
            Expr::Plus(left, right) => match other {
                Expr::Plus(lefts, rights) => {
                    if !are_same_sum(right, rights) {
                        return false;
                    }
                    one = left;
                    other = lefts;
                }
                _ => return false,
            },
            Expr::Minus(left, right) => match other {
                Expr::Minus(lefts, rights) => {
                    if !are_same_sum(right, rights) {
                        return false;
                    }
                    one = left;
                    other = lefts;
                }
                _ => return false,
            },
        }
    }
}

// Whether a sum is the column of a name.
fn is_column(sum: &Expr, name: &Name) -> bool
    ensures same { IsTrue result → bare_sum (tree.Column name.now) ≡ bare_sum (sum_tree sum.now) }
    ensures told { bare_sum (tree.Column name.now) ≡ bare_sum (sum_tree sum.now) → IsTrue result }
{
    match sum {
        Expr::Column(other) => name.text == other.text,
        _ => false,
    }
}

// Whether a sum is a number.
fn is_number(sum: &Expr, number: i64) -> bool
    ensures same { IsTrue result → bare_sum (tree.Number 0 number) ≡ bare_sum (sum_tree sum.now) }
    ensures told { bare_sum (tree.Number 0 number) ≡ bare_sum (sum_tree sum.now) → IsTrue result }
{
    match sum {
        Expr::Number { at: _, value } => number == *value,
        _ => false,
    }
}

// Whether a sum is such a percentile of the column of a name.
fn is_percentile(sum: &Expr, name: &Name, share: u8) -> bool
    ensures same { IsTrue result
        → bare_sum (tree.Percentile 0 name.now share) ≡ bare_sum (sum_tree sum.now) }
    ensures told { bare_sum (tree.Percentile 0 name.now share) ≡ bare_sum (sum_tree sum.now)
        → IsTrue result }
{
    match sum {
        Expr::Percentile { at: _, column, p } => name.text == column.text && share == *p,
        _ => false,
    }
}
