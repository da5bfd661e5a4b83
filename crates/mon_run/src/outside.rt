// The outside of a run: folders that files are read of, and sinks that text goes to.
mod file_folder;
mod folder;
mod memory_folder;
mod reads;
mod sink;
mod sinks;

pub use file_folder::FileFolder;
pub use folder::{Asked, Folder, FolderFault};
pub use memory_folder::{CalmFolder, MemoryFile, MemoryFiles, MemoryFolder};
pub use sink::{Failed, Sink, write_all};
pub use sinks::{MemorySink, OutSink};
