// Who is told when a file is begun and when it has ended.

/// Is told by the reader of a file when it begins and when all of the file's records are on their way. The files are 1
/// and 2. The call may take its time: the other reader and the writer go on meanwhile.
pub trait Starts {
    /// The reader of this file is about to read its first record.
    fn arrive(&self, file: u32);

    /// The last record of this file was handed on.
    fn leave(&self, file: u32);
}
