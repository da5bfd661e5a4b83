// Why a standing query isn't taken, and why a moment isn't.
use mql_parse::ParseFault;
use typed_trees::TypeFault;

/// Why a standing query is not taken.
#[derive(Clone, Copy, PartialEq, Eq)]
pub enum StandingFault {
    /// A query of that name stands.
    NameTaken,
    /// No tree spells its text.
    Parse(ParseFault),
    /// Its tree has no type over the schemas.
    Typing(TypeFault),
}

/// Why a moment is not taken.
#[derive(Clone, Copy, PartialEq, Eq)]
pub enum DueFault {
    /// More queries than this would be due.
    TooManyDue(u32),
    /// It lies before this moment, which was the last one.
    Backwards(i64),
}
