// Copies of trees. A chain of a sum or a predicate is gone down by a loop.
mod operations;
mod parts;
mod pipes;
mod predicates;
mod sums;
