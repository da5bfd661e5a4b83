// What a filter asks of a row.
use crate::names::Name;
use mon_value::{FieldValue, ListOf, Text};

/// What a filter asks. Chains of `&&` and of `||` lean to the left.
pub enum Predicate {
    Compare(Name, Comparison, Literal),
    Like(Name, Pattern),
    Not(Box<Predicate>),
    And(Box<Predicate>, Box<Predicate>),
    Or(Box<Predicate>, Box<Predicate>),
}

#[derive(Clone, Copy)]
pub enum Comparison {
    Equal,
    NotEqual,
    Less,
    AtMost,
    Greater,
    AtLeast,
}

/// A value that a column is compared with.
#[derive(Drop)]
pub struct Literal {
    pub at: u32,
    pub value: FieldValue,
}

/// A pattern, cut at each `.*`.
#[derive(Drop)]
pub struct Pattern {
    pub at: u32,
    pub pieces: Pieces,
}

/// The texts between the cuts of a pattern, in order.
pub type Pieces = ListOf<Text>;

// A loop goes down the left, since a chain may have many thousand conditions.
impl Drop for Predicate {
    fn drop(mut self) {
        loop {
            match self {
                Predicate::Compare(_, _, _) => return,
                Predicate::Like(_, _) => return,
                Predicate::Not(inner) => self = Box::into_inner(inner),
                Predicate::And(left, right) => {
                    drop(right);
                    self = Box::into_inner(left);
                }
                Predicate::Or(left, right) => {
                    drop(right);
                    self = Box::into_inner(left);
                }
            }
        }
    }
}
