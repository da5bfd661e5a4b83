//! What holds of writes, recoveries and queries whose events go one by one, in any order.
#![tactic(auto)]

mod laws;

pub use laws::{
    queries_answer_rightly, queries_are_licensed, recoveries_come_out_rightly,
    writes_name_what_they_found,
};
