//! What a query looks at, is told, and leaves behind.
#![tactic(auto)]

mod answers;
mod areas;
mod asks;
mod fault_texts;
mod flags;
mod laws;
mod loadings;
mod looks;
mod rounds;
mod settings;
mod sights;
mod visits;

pub use answers::{Answer, Cuts, Flags, Resolved, Resolveds, RoundFault, Trace};
pub use areas::Area;
pub use asks::{Ask, Seen, Told};
pub use fault_texts::fault_text;
pub use flags::{flag_at, some_flag};
pub use laws::traces_stay;
pub use loadings::Loading;
pub use looks::{Look, Looks, add_unread, cuts_of, read_of, sent_of};
pub use rounds::Round;
pub use settings::QuerySetting;
pub use visits::Visits;
