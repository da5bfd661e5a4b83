// Words and numbers.
ghost use Rattle.std.specs.Prelude.{◌≡◌, ◌++◌, OnOk, string_bytes};
ghost use Rattle.std.specs.Fmt.{decimal, signed_decimal};
ghost use Rattle.mql_ast.specs.Printed.{comparison_text, fold_text, how_text, value_text, label_text, column_text};
ghost use Rattle.mql_ast.specs.Printed.{duration_text, aligner_text};

use crate::names::Name;
use crate::operations::FoldWord;
use crate::pipes::How;
use crate::predicates::Comparison;
use crate::printing::escapes::push_quoted;
use mon_value::{Aligner, FieldValue};
use std::alloc::AllocError;

impl Comparison {
    /// The sign of the comparison.
    pub fn sign(self) -> &'static str
        ensures text { result.now ≡ comparison_text self }
    {
        match self {
            Comparison::Equal => "==",
            Comparison::NotEqual => "!=",
            Comparison::Less => "<",
            Comparison::AtMost => "<=",
            Comparison::Greater => ">",
            Comparison::AtLeast => ">=",
        }
    }
}

impl FoldWord {
    /// The word of the fold.
    pub fn word(self) -> &'static str
        ensures text { result.now ≡ fold_text self }
    {
        match self {
            FoldWord::Count => "count",
            FoldWord::Sum => "sum",
            FoldWord::Min => "min",
            FoldWord::Max => "max",
            FoldWord::Mean => "mean",
            FoldWord::Merge => "merge",
            FoldWord::Aggregate => "aggregate",
        }
    }
}

impl How {
    /// The word that joins the branches.
    pub fn word(self) -> &'static str
        ensures text { result.now ≡ how_text self }
    {
        match self {
            How::Join => "join",
            How::Union => "union",
        }
    }
}

/// A number in decimal digits.
pub fn push_number(out: &mut String, n: u32) -> Result<(), AllocError>
    ensures { OnOk result (string_bytes out.new ≡ string_bytes out.old ++ decimal n) }
{
    let digits = format!(in *out.allocator(); "{n}")?;
    out.push_str(digits.as_str())
}

/// A number in decimal digits, behind `-` where it is below zero.
pub fn push_signed(out: &mut String, n: i64) -> Result<(), AllocError>
    ensures { OnOk result (string_bytes out.new ≡ string_bytes out.old ++ signed_decimal n) }
{
    let digits = format!(in *out.allocator(); "{n}")?;
    out.push_str(digits.as_str())
}

/// A duration in seconds, with its unit.
pub fn push_duration(out: &mut String, seconds: i64) -> Result<(), AllocError>
    ensures { OnOk result (string_bytes out.new ≡ string_bytes out.old ++ duration_text seconds) }
{
    push_signed(out, seconds)?;
    out.push_str("s")
}

/// An aligner with its duration in parentheses. An increase is the delta of a cumulative metric.
pub fn push_aligner(out: &mut String, by: Aligner) -> Result<(), AllocError>
    ensures { OnOk result (string_bytes out.new ≡ string_bytes out.old ++ aligner_text by) }
{
    let seconds = match by {
        Aligner::Delta(seconds) => {
            out.push_str("delta(")?;
            seconds
        }
        Aligner::Increase(seconds) => {
            out.push_str("delta(")?;
            seconds
        }
        Aligner::NextOlder(seconds) => {
            out.push_str("next_older(")?;
            seconds
        }
    };
    push_duration(out, seconds)?;
    out.push_str(")")
}

/// A literal: a number, a truth value, or a text in quotes.
pub fn push_value(out: &mut String, value: &FieldValue) -> Result<(), AllocError>
    ensures { OnOk result (string_bytes out.new ≡ string_bytes out.old ++ value_text value.now) }
{
    match value {
        FieldValue::Int(n) => push_signed(out, *n),
        FieldValue::Bool(true) => out.push_str("true"),
        FieldValue::Bool(false) => out.push_str("false"),
        FieldValue::Text(text) => push_quoted(out, text.as_str()),
    }
}

/// The name in front of an item, where it has one, with its colon.
pub fn push_label(out: &mut String, name: &Option<Name>) -> Result<(), AllocError>
    ensures { OnOk result (string_bytes out.new ≡ string_bytes out.old ++ label_text name.now) }
{
    let Some(name) = name else {
        return Ok(());
    };
    out.push_str(name.text.as_str())?;
    out.push_str(": ")
}

/// The column that an aggregate is made of, where it names one.
pub fn push_column(out: &mut String, column: &Option<Name>) -> Result<(), AllocError>
    ensures { OnOk result (string_bytes out.new ≡ string_bytes out.old ++ column_text column.now) }
{
    match column {
        Some(column) => out.push_str(column.text.as_str()),
        None => Ok(()),
    }
}
