// Folders in memory, which tell their files.
ghost use Rattle.std.specs.Prelude.{◌≡◌, ◌<◌, ◌≤◌, ◌⊎◌, [], Some, length, IfErr, IfOk, IfSome, IsErrOf, option_map};
ghost use Rattle.mon_run.specs.Outside.{calm_folder_state, content_in, content_of, file_of, files_of, folder_state};

use crate::outside::folder::{Asked, Folder, FolderFault};
use crate::outside::reads::Reads;
use mon_value::{ListOf, Text, TryCopy};
use std::alloc::{AllocError, Global};

/// A file in memory.
#[derive(Drop)]
pub struct MemoryFile {
    pub name: Text,
    pub content: Vec<u8>,
}

impl MemoryFile {
    /// A file of the same name and content.
    pub fn copy(&self, alloc: Global) -> Result<MemoryFile, AllocError>
        ensures file { IfOk result (λ copied. file_of copied ≡ file_of self.now) }
    {
        Ok(MemoryFile {
            name: self.name.copy(alloc)?,
            content: self.content.to_vec(alloc)?,
        })
    }
}

/// The files of a folder in memory. Of two with one name the first counts.
pub type MemoryFiles = ListOf<MemoryFile>;

/// The content of the first file with a name.
pub(crate) fn content_named<'a>(files: &'a [MemoryFile], name: &str) -> Option<&'a Vec<u8>>
    ensures first { option_map (λ content. content.now.items) result ≡ content_in (files_of files.now) name.now }
{
    for file in files {
        if name == file.name.as_str() {
            return Some(&file.content);
        }
    }
    None
}

/// A copy of a content that has at most `most` bytes.
pub(crate) fn read_bounded(alloc: Global, content: &[u8], most: u64) -> Result<Vec<u8>, FolderFault>
    ensures too_long { IsErrOf result FolderFault.TooLong → most < length content.now }
    ensures never_failed { IfErr result (λ fault. (fault ≡ FolderFault.TooLong) ⊎ (fault ≡ FolderFault.OutOfMemory)) }
    ensures bounded { IfOk result (λ copied. length copied.items ≤ most) }
    ensures whole { IfOk result (λ copied. copied.items ≡ content.now) }
{
    if content.len() as u64 > most {
        return Err(FolderFault::TooLong);
    }
    let mut copied = Vec::new(alloc);
    copied.extend_from_slice(content)?;
    Ok(copied)
}

/// A folder in memory that tells its files. The reads whose numbers are listed fail, where the first
/// read has the number 1, and so does the read of a name that it doesn't hold.
#[derive(Drop)]
pub struct MemoryFolder {
    files: MemoryFiles,
    failing: Vec<u64>,
    reads: Reads,
}

impl MemoryFolder {
    /// A folder of these files, in which the reads with these numbers will fail.
    pub fn new(alloc: Global, files: MemoryFiles, failing: Vec<u64>) -> MemoryFolder
        ensures told { ⟦<MemoryFolder as Folder>⟧.state result ≡ folder_state (Some (files_of files)) [] [] }
    {
        MemoryFolder {
            files,
            failing,
            reads: Reads::new(alloc),
        }
    }

    /// The reads that it was asked for, in order.
    pub fn asked(&self) -> &[Asked]
        ensures asked { result.now ≡ (⟦<MemoryFolder as Folder>⟧.state self.now).asked }
    {
        self.reads.asked.as_slice()
    }
}

impl Folder for MemoryFolder {
    ghost use Rattle.std.specs.Prelude.{Some};
    ghost use Rattle.mon_run.specs.Outside.{files_of, folder_state, given_by};

    ghost state = { λ folder. folder_state (Some (files_of folder.files)) folder.reads.asked.items
        (given_by folder.reads.gave.items) };

    fn read(&mut self, alloc: Global, name: &str, most: u64) -> Result<Vec<u8>, FolderFault> {
        let kept = Text::from_str(alloc, name)?;
        self.reads.reserve_one()?;
        let number = (self.reads.asked.len() as u64).saturating_add(1);
        let found = content_unless(self.files.as_slice(), self.failing.contains(&number), name);
        match found {
            Some(content) => match read_bounded(alloc, content.as_slice(), most) {
                Err(FolderFault::OutOfMemory) => {
                    self.reads.gave_nothing(kept, false);
                    Err(FolderFault::OutOfMemory)
                }
                read => {
                    self.reads.gave(kept, content);
                    read
                }
            },
            None => {
                self.reads.gave_nothing(kept, true);
                Err(FolderFault::Failed)
            }
        }
    }
}

// The content of the first file with a name, unless its read is to fail.
fn content_unless<'a>(files: &'a [MemoryFile], fails: bool, name: &str) -> Option<&'a Vec<u8>>
    ensures content { IfSome result (λ content. content.now.items ≡ content_of (files_of files.now) name.now) }
{
    if fails {
        return None;
    }
    content_named(files, name)
}

/// A folder in memory that tells its files and never fails: a name that it doesn't hold reads as an
/// empty file.
#[derive(Drop)]
pub struct CalmFolder {
    files: MemoryFiles,
    reads: Reads,
}

impl CalmFolder {
    /// A folder of these files.
    pub fn new(alloc: Global, files: MemoryFiles) -> CalmFolder
        ensures told { ⟦<CalmFolder as Folder>⟧.state result ≡ calm_folder_state (files_of files) [] [] }
    {
        CalmFolder {
            files,
            reads: Reads::new(alloc),
        }
    }
}

impl Folder for CalmFolder {
    ghost use Rattle.mon_run.specs.Outside.{calm_folder_state, files_of, given_by};

    ghost state = { λ folder. calm_folder_state (files_of folder.files) folder.reads.asked.items
        (given_by folder.reads.gave.items) };

    fn read(&mut self, alloc: Global, name: &str, most: u64) -> Result<Vec<u8>, FolderFault> {
        let kept = Text::from_str(alloc, name)?;
        self.reads.reserve_one()?;
        match content_named(self.files.as_slice(), name) {
            Some(content) => match read_bounded(alloc, content.as_slice(), most) {
                Err(FolderFault::OutOfMemory) => {
                    self.reads.gave_nothing(kept, false);
                    Err(FolderFault::OutOfMemory)
                }
                read => {
                    self.reads.gave(kept, content);
                    read
                }
            },
            None => {
                let nothing = Vec::new(alloc);
                self.reads.gave(kept, &nothing);
                Ok(nothing)
            }
        }
    }
}
