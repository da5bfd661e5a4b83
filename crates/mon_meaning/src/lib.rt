//! What a typed query means, computed in one place over all rows.
#![tactic(auto)]

mod alignments;
mod answers;
mod evaluation;
mod fetches;
mod kept_points;
mod meter;
mod one_series;
mod operations;
mod parts;
mod parts_up;
mod paths;
mod pieces;
mod same_columns;
mod same_trees;
mod steps;
mod tops;
mod value_rows;

pub use answers::{central, central_by_series, grid_of};
pub use fetches::{Fetch, series_cells};
pub use kept_points::reach_start;
pub use meter::{Meter, OverLimit};
pub use one_series::{Alignment, points_reached, rows_of_series};
pub use operations::table_of;
pub use parts::part_by_series;
pub use parts_up::{GoesUp, TopPart, is_up_to, top_parts};
pub use paths::input_of;
pub use pieces::piece_of;
pub use steps::{one_sided_rows, operation_rows};
pub use tops::top_rows;
