//! What the lines of a script came to, and what that says of the histories at the end of the run.
#![tactic(auto)]

mod laws;
mod line_files;
mod traces;

pub use ingest_queue::{FedRows, FileEnd, Poured, RowRefusal, RowRefusals, RowRefused};
pub use laws::{finds_stay, parts_keep_the_lines, runs_go_on, runs_hold, texts_stay};
pub use line_files::LineFiles;
pub use traces::{
    ControlDone, ControlFault, DueEnd, DueTrace, DueTraces, LineFault, LineTrace, LineTraces,
    QuestionFault, RecoveryFault, RetireRefusal, SwitchFault, TrimRefusal,
};
