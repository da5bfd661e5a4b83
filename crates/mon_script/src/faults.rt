// Why a script is refused.

/// Why a line is refused. Of several the first counts in this order.
#[derive(Clone, Copy, PartialEq, Eq)]
pub enum ScriptKind {
    /// The line has no such form, a name or a file's name is not lawful, or a text is not UTF-8.
    BadWord,
    /// A moment or a period is no number, or out of its bounds.
    BadNumber,
    /// There is no leaf of this name.
    UnknownLeaf,
    /// There is no range of this name.
    UnknownRange,
    /// The leaf is not in the range's zone.
    NotInZone,
    /// A block begins in another one.
    Nested,
    /// A block has no end or no line, or an end stands outside of a block.
    NoEnd,
    /// A block has too many lines.
    BlockFull,
    /// A line stands in a block that may stand outside of blocks alone.
    NotInBlock,
    /// The script has too many lines.
    TooManyLines,
}

/// The first line of a script that is refused. Lines are numbered from 1.
#[derive(Clone, Copy, PartialEq, Eq)]
pub struct ScriptFault {
    pub line: u32,
    pub kind: ScriptKind,
}
