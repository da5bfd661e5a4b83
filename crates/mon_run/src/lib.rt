//! The run of a command: a script whose lines ask and feed a store that threads share, or a schedule of writes and
//! queries side by side.
#![tactic(auto)]

mod blocks;
mod command;
mod entry;
mod laws;
mod outcome;
mod outside;
mod parts;
mod runs;
mod schedules;
mod scripts;
mod stop;
mod texts;
mod trial;
mod words;

pub use entry::run;
pub use laws::{ends_are_reached, words_are_none};
pub use mon_store::{Gate, HoldGate, OpenGate};
pub use outcome::Outcome;
pub use outside::{
    Asked, CalmFolder, Failed, FileFolder, Folder, FolderFault, MemoryFile, MemoryFiles,
    MemoryFolder, MemorySink, OutSink, Sink,
};
