// What the files of a line hold.
ghost use Rattle.std.specs.Prelude.{◌≡◌};
ghost use Rattle.run_traces.specs.RanLines.{no_files, one_file};

use mon_value::ListOf;
use std::alloc::Global;

/// What the files of a line hold: nothing where it names no such file.
#[derive(Drop)]
pub struct LineFiles {
    pub first: ListOf<u8>,
    pub second: ListOf<u8>,
}

impl LineFiles {
    /// No file.
    pub fn none(alloc: Global) -> LineFiles
        ensures none { result ≡ no_files }
    {
        LineFiles {
            first: ListOf::new(alloc),
            second: ListOf::new(alloc),
        }
    }

    /// One file.
    pub fn one(alloc: Global, content: ListOf<u8>) -> LineFiles
        ensures one { result ≡ one_file content }
    {
        LineFiles {
            first: content,
            second: ListOf::new(alloc),
        }
    }
}
