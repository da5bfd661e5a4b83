//! A lock whose value fits the tag that contracts see of the lock, whenever nobody has taken it.
#![tactic(auto)]

mod locks;
mod ties;

pub use locks::{Key, TiedLock};
pub use ties::Fits;
