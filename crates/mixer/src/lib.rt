//! Queries over rows that are divided into zones and leaves: what a zone makes of what its leaves hand up, and the root
//! of what its zones do.
#![tactic(auto)]

mod joining;
mod laws;
mod mixing;
mod mixtures;
mod paths;
mod zone_answers;
mod zone_pieces;

pub use laws::{
    divided_queries_are_mixed, first_rows_are_enough, leaf_loads_are_of_parts,
    refused_parts_refuse_queries, zones_are_asked, zones_mix_their_leaves,
};
pub use mixing::{mix_root, mix_zone};
pub use zone_answers::{ZoneAnswer, ZoneAnswers};
