//! A series: the points of one monitored thing in the order of their ends, and the window of them
//! that a moment sees. Rows of many series are kept by series, and the series by their metric.
#![tactic(auto)]

mod kept_point;
mod kept_rows;
mod metrics;
mod order;
mod placing;
mod series;
mod standing;

pub use kept_point::KeptPoint;
pub use kept_rows::{KeptRows, KeptSeries, SeriesMap};
pub use series::Series;
