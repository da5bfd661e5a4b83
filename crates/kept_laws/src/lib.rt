//! What one point or one row more changes of a query's tables: laws by which tables can be kept up to date in place.
#![tactic(auto)]

mod ahead;
mod flowing;
mod touching;

pub use ahead::later_rows_change_nothing;
pub use flowing::rows_flow_one_by_one;
pub use touching::points_touch_few_times;
