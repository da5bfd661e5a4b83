// The operations of a pipe.
use crate::expressions::Expr;
use crate::names::{Name, Names};
use crate::predicates::Predicate;
use mon_value::{Aligner, ListOf};

/// An operation, with the place of its word.
#[derive(Drop)]
pub struct Op {
    pub at: u32,
    pub what: OpKind,
}

/// Operations in order.
pub type Ops = ListOf<Op>;

#[derive(Drop)]
pub enum OpKind {
    Filter(Predicate),
    Align(Aligner),
    GroupBy(Names, Aggregates),
    Value(Items),
    Top(u32, Name),
    Every(i64),
    Within(i64),
}

/// A column that `value` gives. Without a name of its own it is a single column's.
#[derive(Drop)]
pub struct Item {
    pub name: Option<Name>,
    pub sum: Expr,
}

/// Items in order.
pub type Items = ListOf<Item>;

/// A column that `group_by` computes, with the place of its fold's word. It has a column of its own
/// exactly where it isn't a count.
#[derive(Drop)]
pub struct Aggregate {
    pub at: u32,
    pub name: Option<Name>,
    pub fold: FoldWord,
    pub column: Option<Name>,
}

/// Aggregates in order.
pub type Aggregates = ListOf<Aggregate>;

#[derive(Clone, Copy)]
pub enum FoldWord {
    Count,
    Sum,
    Min,
    Max,
    Mean,
    Merge,
    Aggregate,
}
