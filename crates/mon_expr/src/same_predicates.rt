// Whether two predicates are the same.
ghost use Rattle.std.specs.Prelude.{◌≡◌, IsTrue};
ghost use Rattle.mon_expr.specs.SameTrees.{bare_predicate};
ghost use Rattle.mql_ast.specs.Trees as tree;
ghost use Rattle.mql_ast.specs.Trees.{predicate_tree};

use mql_ast::{Comparison, Literal, Name, Pattern, Pieces, Predicate};

/// Whether two predicates are the same, wherever they stand in their texts: they are written alike, but for blanks and
/// parentheses. A loop goes down the left, where a chain may have many thousand conditions. No memory is taken.
pub fn are_same_predicate(one: &Predicate, other: &Predicate) -> bool
    ensures same { IsTrue result
        → bare_predicate (predicate_tree one.now) ≡ bare_predicate (predicate_tree other.now) }
    ensures told { bare_predicate (predicate_tree one.now) ≡ bare_predicate (predicate_tree other.now)
        → IsTrue result }
{
    let mut one = one;
    let mut other = other;
    loop {
        match one {
            Predicate::Compare(name, how, literal) => {
                return is_comparison(other, name, *how, literal);
            }
            Predicate::Like(name, pattern) => return is_likeness(other, name, pattern),
            Predicate::Not(inner) => match other {
                Predicate::Not(others) => {
                    one = inner;
                    other = others;
                }
                _ => return false,
            },
            Predicate::And(left, right) => match other {
                Predicate::And(lefts, rights) => {
                    if !are_same_predicate(right, rights) {
                        return false;
                    }
                    one = left;
                    other = lefts;
                }
                _ => return false,
            },
            Predicate::Or(left, right) => match other {
                Predicate::Or(lefts, rights) => {
                    if !are_same_predicate(right, rights) {
                        return false;
                    }
                    one = left;
                    other = lefts;
                }
                _ => return false,
            },
        }
    }
}

// Whether a predicate compares the column of a name with a literal so.
fn is_comparison(predicate: &Predicate, name: &Name, how: Comparison, literal: &Literal) -> bool
    ensures same { IsTrue result → bare_predicate (tree.Compare name.now how literal.now)
        ≡ bare_predicate (predicate_tree predicate.now) }
    ensures told { bare_predicate (tree.Compare name.now how literal.now)
        ≡ bare_predicate (predicate_tree predicate.now) → IsTrue result }
{
    match predicate {
        Predicate::Compare(other, asked, against) => {
            name.text == other.text
                && is_same_comparison(how, *asked)
                && literal.value == against.value
        }
        _ => false,
    }
}

// Whether a predicate matches the column of a name with a pattern.
fn is_likeness(predicate: &Predicate, name: &Name, pattern: &Pattern) -> bool
    ensures same { IsTrue result → bare_predicate (tree.Like name.now pattern.now)
        ≡ bare_predicate (predicate_tree predicate.now) }
    ensures told { bare_predicate (tree.Like name.now pattern.now)
        ≡ bare_predicate (predicate_tree predicate.now) → IsTrue result }
{
    match predicate {
        Predicate::Like(other, asked) => {
            name.text == other.text && are_same_pieces(&pattern.pieces, &asked.pieces)
        }
        _ => false,
    }
}

// Whether two patterns are cut into the same pieces.
#[tactic(auto, using(crate::proofs::SameTreeLemmas::pieces_same, crate::proofs::SameTreeLemmas::pieces_told))]
fn are_same_pieces(pieces: &Pieces, others: &Pieces) -> bool
    ensures same { IsTrue result → pieces.now ≡ others.now }
    ensures told { pieces.now ≡ others.now → IsTrue result }
{
    *pieces == *others
}

// Whether two comparisons ask the same.
fn is_same_comparison(how: Comparison, asked: Comparison) -> bool
    ensures same { IsTrue result → how ≡ asked }
    ensures told { how ≡ asked → IsTrue result }
{
    match how {
        Comparison::Equal => matches!(asked, Comparison::Equal),
        Comparison::NotEqual => matches!(asked, Comparison::NotEqual),
        Comparison::Less => matches!(asked, Comparison::Less),
        Comparison::AtMost => matches!(asked, Comparison::AtMost),
        Comparison::Greater => matches!(asked, Comparison::Greater),
        Comparison::AtLeast => matches!(asked, Comparison::AtLeast),
    }
}
