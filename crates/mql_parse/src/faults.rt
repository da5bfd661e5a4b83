// Where and why a text is no query.
use std::fmt;

/// The place of a fault, and what it is. The place is the length of the longest front of the text that
/// begins some query.
#[derive(Clone, Copy, PartialEq, Eq)]
pub struct ParseFault {
    pub at: u32,
    pub kind: ParseKind,
}

/// What a fault is.
#[derive(Clone, Copy, PartialEq, Eq)]
pub enum ParseKind {
    /// The byte stands outside the alphabet, or can't stand in a text in quotes.
    BadToken,
    /// This might have come here.
    Expected(What),
    /// The number goes past its range with the byte here.
    NumberTooLarge,
    /// The byte begins or continues no pattern.
    BadPattern,
    /// The text goes more than 64 levels deep.
    TooDeep,
    /// The text has more than 65,536 bytes.
    TooLong,
}

/// What might have come, in the order in which one of several is named.
#[derive(Clone, Copy, PartialEq, Eq)]
pub enum What {
    Fetch,
    Name,
    Metric,
    Text,
    Number,
    Unit,
    Truth,
    Comparison,
    Aligner,
    Aggregate,
    Operation,
    How,
    OpenBrace,
    CloseBrace,
    OpenBracket,
    CloseBracket,
    OpenParenthesis,
    CloseParenthesis,
    Colons,
    Colon,
    Comma,
    Semicolon,
    Bar,
    Or,
    And,
    Not,
    Plus,
    Minus,
}

impl fmt::Display for ParseFault {
    ghost use Rattle.std.specs.Prelude.{Some};
    ghost use Rattle.mql_parse.specs.Faults.{parse_fault_text};

    ghost output = { λ fault. Some (parse_fault_text fault) };

    fn fmt<W: fmt::Write>(&self, f: &mut fmt::Formatter<W>) -> fmt::Result {
        write!(f, "{} {}", self.at, self.kind)
    }
}

impl fmt::Display for ParseKind {
    ghost use Rattle.std.specs.Prelude.{Some};
    ghost use Rattle.mql_parse.specs.Faults.{parse_kind_text};

    ghost output = { λ kind. Some (parse_kind_text kind) };

    fn fmt<W: fmt::Write>(&self, f: &mut fmt::Formatter<W>) -> fmt::Result {
        match self {
            ParseKind::BadToken => f.write_str("BadToken"),
            ParseKind::Expected(what) => write!(f, "Expected {what}"),
            ParseKind::NumberTooLarge => f.write_str("NumberTooLarge"),
            ParseKind::BadPattern => f.write_str("BadPattern"),
            ParseKind::TooDeep => f.write_str("TooDeep"),
            ParseKind::TooLong => f.write_str("TooLong"),
        }
    }
}

impl fmt::Display for What {
    ghost use Rattle.std.specs.Prelude.{Some};
    ghost use Rattle.mql_parse.specs.Faults.{what_text};

    ghost output = { λ what. Some (what_text what) };

    fn fmt<W: fmt::Write>(&self, f: &mut fmt::Formatter<W>) -> fmt::Result {
        f.write_str(match self {
            What::Fetch => "fetch",
            What::Name => "name",
            What::Metric => "metric",
            What::Text => "text",
            What::Number => "number",
            What::Unit => "unit",
            What::Truth => "truth",
            What::Comparison => "comparison",
            What::Aligner => "aligner",
            What::Aggregate => "aggregate",
            What::Operation => "operation",
            What::How => "how",
            What::OpenBrace => "{",
            What::CloseBrace => "}",
            What::OpenBracket => "[",
            What::CloseBracket => "]",
            What::OpenParenthesis => "(",
            What::CloseParenthesis => ")",
            What::Colons => "::",
            What::Colon => ":",
            What::Comma => ",",
            What::Semicolon => ";",
            What::Bar => "|",
            What::Or => "||",
            What::And => "&&",
            What::Not => "!",
            What::Plus => "+",
            What::Minus => "-",
        })
    }
}
