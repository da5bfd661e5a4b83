// Why a text has no plan.
use mql_parse::ParseFault;
use std::fmt;
use typed_trees::TypeFault;

/// Why a text has no plan.
#[derive(Clone, Copy, PartialEq, Eq)]
pub enum TextFault {
    /// No tree spells it.
    Parse(ParseFault),
    /// Its tree has no type over the schemas.
    Typing(TypeFault),
}

impl fmt::Display for TextFault {
    ghost use Rattle.std.specs.Prelude.{Some};
    ghost use Rattle.query_texts.specs.TextTypes.{text_fault_text};

    ghost output = { λ fault. Some (text_fault_text fault) };

    fn fmt<W: fmt::Write>(&self, f: &mut fmt::Formatter<W>) -> fmt::Result {
        match self {
            TextFault::Parse(fault) => write!(f, "Parse {fault}"),
            TextFault::Typing(fault) => write!(f, "Typing {fault}"),
        }
    }
}
