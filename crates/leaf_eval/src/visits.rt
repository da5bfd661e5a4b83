// What a query finds at a leaf.
use mon_fold::LeafAnswer;

/// What a query finds at a leaf that it looks at.
#[derive(Drop)]
pub enum Visit {
    /// The leaf is down, with so many entries in its history.
    Down(u64),
    /// No formula of the plan holds of the leaf's buckets, with so many entries in its history.
    Unread(u64),
    /// The leaf's answer, with so many entries in its history.
    Read(u64, LeafAnswer),
    /// The leaf's load is above the limit: a number between the two, and how many entries the leaf's history has.
    Over(u64, u64),
}
