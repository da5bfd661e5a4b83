//! Hints: by the buckets of a series a reader knows which series can't be what it looks for, before it reads any.
#![tactic(auto)]

mod bucket_sets;
mod excerpts;
mod fingerprints;
mod formulas;
mod hints;
mod laws;
mod masks;
mod places;

pub use bucket_sets::BucketSet;
pub use excerpts::{
    BACK_MARK, Excerpt, Excerpts, FRONT_MARK, Pieces, excerpts_of, excerpts_of_value,
};
pub use fingerprints::{Buckets, bucket_of};
pub use formulas::{Formula, buckets_of_all};
pub use hints::{hints_of, next_bucket, series_set};
pub use laws::{formulas_stay_true, patterns_are_in_texts};
pub use masks::{Words, mask};
pub use places::Place;
