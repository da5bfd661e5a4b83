// Where files are read.
ghost use Rattle.std.specs.Prelude.{◌≡◌, ◌≤◌, ◌∷◌, ◌++◌, [], length, IfOk, IsErrOf};
ghost use Rattle.mon_run.specs.Steps.{Rose};
ghost use Rattle.mon_run.specs.Outside.{Asks, FolderState, GaveTooMuch, Told, content_of};

use mon_value::{Text, TryCopy};
use std::alloc::{AllocError, Global};

/// Why a file was not read.
#[derive(Clone, Copy, PartialEq, Eq)]
pub enum FolderFault {
    /// The folder could not read it.
    Failed,
    /// It is longer than was asked for.
    TooLong,
    /// Memory ran out.
    OutOfMemory,
}

impl From<AllocError> for FolderFault {
    ghost use Rattle.std.specs.Prelude.{◌≡◌};
    ghost use Rattle.mon_run.specs.declared.outside.folder.FolderFault.TheVariants.{OutOfMemory};

    ghost from_gives = { λ _ fault. fault ≡ OutOfMemory };

    fn from(_error: AllocError) -> FolderFault {
        FolderFault::OutOfMemory
    }
}

/// A folder of files. Contracts see its files, where it tells them beforehand, the reads that it was asked for, what they
/// gave, a count of its faults, which never falls, and the name of the last read that failed.
pub trait Folder {
    ghost state: { Self → FolderState };

    /// The content of a file that has at most `most` bytes. It fails only where the count of faults
    /// rose, and keeps the name then.
    fn read(&mut self, alloc: Global, name: &str, most: u64) -> Result<Vec<u8>, FolderFault>
        ensures files { (state self.new).files ≡ (state self.old).files }
        ensures counts { (state self.old).faults ≤ (state self.new).faults }
        ensures asked { Asks result name.now (state self.old).asked (state self.new).asked }
        ensures failed { IsErrOf result FolderFault.Failed → Rose (state self.old).faults (state self.new).faults
            × ((state self.new).last ≡ name.now) }
        ensures too_long { IsErrOf result FolderFault.TooLong
            → GaveTooMuch most name.now (state self.old) (state self.new) }
        ensures bounded { IfOk result (λ content. length content.items ≤ most) }
        ensures whole { IfOk result (λ content. Told (state self.old)
            (λ files. content.items ≡ content_of files name.now)) }
        ensures gave { IfOk result (λ content. (state self.new).gave
            ≡ (state self.old).gave ++ (name.now, content.items) ∷ []) }
        ensures nothing { IsErrOf result FolderFault.Failed → (state self.new).gave ≡ (state self.old).gave }
        ensures starved { IsErrOf result FolderFault.OutOfMemory → (state self.new).gave ≡ (state self.old).gave };
}

/// A read that a folder was asked for.
#[derive(Drop)]
pub struct Asked {
    /// The name of the file.
    pub name: Text,
    /// Whether the folder could not read it.
    pub failed: bool,
}

impl TryCopy for Asked {
    fn copy(&self, alloc: Global) -> Result<Asked, AllocError> {
        Ok(Asked {
            name: self.name.copy(alloc)?,
            failed: self.failed,
        })
    }
}
