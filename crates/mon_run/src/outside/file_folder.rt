// The folder of real files.
ghost use Rattle.std.specs.Prelude.{◌≡◌, ◌<◌, ◌≤◌, [], length, take, IfErr, IfOk, IfSome, None};
ghost use Rattle.mon_run.specs.Outside.{folder_state};

use crate::outside::folder::{Folder, FolderFault};
use crate::outside::reads::Reads;
use mon_value::{OutOfMemory, Text};
use std::alloc::{AllocError, Global};
use std::io::{ErrorKind, Read};
use std::rt::Files;
use std::{fs, io};

/// The files that names lead to, from the folder that the program was started in. It tells nothing beforehand of
/// what they hold, but what each read gave.
#[derive(Drop)]
pub struct FileFolder<'a, R: Files> {
    files: &'a R,
    reads: Reads,
}

impl<'a, R: Files> FileFolder<'a, R> {
    /// The files of a system.
    pub fn new(alloc: Global, files: &'a R) -> FileFolder<'a, R>
        ensures unasked { ⟦<FileFolder<'a, R> as Folder>⟧.state result ≡ folder_state None [] [] }
    {
        FileFolder {
            files,
            reads: Reads::new(alloc),
        }
    }
}

impl<'a, R: Files> Folder for FileFolder<'a, R> {
    ghost use Rattle.std.specs.Prelude.{None};
    ghost use Rattle.mon_run.specs.Outside.{folder_state, given_by};

    ghost state = { λ folder. folder_state None folder.reads.asked.items (given_by folder.reads.gave.items) };

    fn read(&mut self, alloc: Global, name: &str, most: u64) -> Result<Vec<u8>, FolderFault> {
        let kept = Text::from_str(alloc, name)?;
        self.reads.reserve_one()?;
        match content_of(alloc, self.files, name, most) {
            Ok(Some(content)) => {
                self.reads.gave(kept, &content);
                bounded(content, most)
            }
            Ok(None) => {
                self.reads.gave_nothing(kept, true);
                Err(FolderFault::Failed)
            }
            Err(_) => {
                self.reads.gave_nothing(kept, false);
                Err(FolderFault::OutOfMemory)
            }
        }
    }
}

// A content that has at most `most` bytes.
fn bounded(content: Vec<u8>, most: u64) -> Result<Vec<u8>, FolderFault>
    ensures bounded { IfOk result (λ kept. length kept.items ≤ most) }
    ensures whole { IfOk result (λ kept. kept.items ≡ content.items) }
    ensures too_long { IfErr result (λ fault. (fault ≡ FolderFault.TooLong) × (most < length content.items)) }
{
    if content.len() as u64 > most {
        return Err(FolderFault::TooLong);
    }
    Ok(content)
}

// The content of a file, if it could be read: all of it, or so much that it shows where it has more than `most` bytes.
fn content_of<R: Files>(
    alloc: Global,
    files: &R,
    name: &str,
    most: u64,
) -> Result<Option<Vec<u8>>, OutOfMemory> {
    match read_file(alloc, files, name, most.saturating_add(1)) {
        Ok(content) => Ok(Some(content)),
        Err(error) if error.kind() == ErrorKind::OutOfMemory => Err(AllocError),
        Err(_) => Ok(None),
    }
}

fn read_file<R: Files>(alloc: Global, files: &R, name: &str, most: u64) -> io::Result<Vec<u8>> {
    read_front(alloc, fs::open(files, name)?, most)
}

// What a reader gives up to its end, and no more than `most` bytes of it. A reader that gives less than was asked for
// is asked again.
fn read_front<R: Read + Drop>(alloc: Global, reader: R, most: u64) -> io::Result<Vec<u8>>
    ensures front { IfOk result (λ content. IfSome (R.remaining reader) (λ bytes. content.items ≡ take most bytes)) }
{
    let mut content = Vec::new(alloc);
    reader.take(most).read_to_end(&mut content)?;
    Ok(content)
}
