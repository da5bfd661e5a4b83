//! What a row more of one series exchanges in a query's tables: rows of its own series alone.
#![tactic(auto)]

mod apart;
mod exchanges;
mod flowing;
mod pairing;
mod trading;
mod writing;

pub use apart::series_stand_apart;
pub use exchanges::Exchange;
pub use flowing::flowing_row;
pub use pairing::exchanges_of;
pub use trading::changes_of;
pub use writing::write_exchanges;
