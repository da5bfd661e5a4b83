// What an item computes.
use crate::names::Name;

/// A sum. Chains lean to the left: `a - b + c` is `Plus` of `Minus` and `c`.
pub enum Expr {
    Column(Name),
    Number { at: u32, value: i64 },
    Plus(Box<Expr>, Box<Expr>),
    Minus(Box<Expr>, Box<Expr>),
    Percentile { at: u32, column: Name, p: u8 },
}

// A loop goes down the left, since a chain may have many thousand terms.
impl Drop for Expr {
    fn drop(mut self) {
        loop {
            match self {
                Expr::Column(_) => return,
                Expr::Number { at: _, value: _ } => return,
                Expr::Percentile {
                    at: _,
                    column: _,
                    p: _,
                } => return,
                Expr::Plus(left, right) => {
                    drop(right);
                    self = Box::into_inner(left);
                }
                Expr::Minus(left, right) => {
                    drop(right);
                    self = Box::into_inner(left);
                }
            }
        }
    }
}
