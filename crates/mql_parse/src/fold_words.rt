// The words of folds.
ghost use Rattle.std.specs.Prelude.{◌≡◌};
ghost use Rattle.mql_parse.specs.Outcomes.{rest_of, Reads, itself};
ghost use Rattle.mql_parse.specs.Folds as folds;

use crate::cursor::{Cursor, Read};
use crate::faults::What;
use mql_ast::FoldWord;

/// The fold of this name.
pub fn fold_named(word: &[u8]) -> Option<FoldWord>
    ensures { result ≡ folds.fold_of word.now }
{
    if word == b"count".as_slice() {
        Some(FoldWord::Count)
    } else if word == b"sum".as_slice() {
        Some(FoldWord::Sum)
    } else if word == b"min".as_slice() {
        Some(FoldWord::Min)
    } else if word == b"max".as_slice() {
        Some(FoldWord::Max)
    } else if word == b"mean".as_slice() {
        Some(FoldWord::Mean)
    } else if word == b"merge".as_slice() {
        Some(FoldWord::Merge)
    } else if word == b"aggregate".as_slice() {
        Some(FoldWord::Aggregate)
    } else {
        None
    }
}

/// The word of a fold, from its first byte on.
#[tactic(auto, unfolding(crate::specs::Folds::fold_here))]
pub fn fold_word<'a>(here: Cursor<'a>) -> Read<'a, FoldWord>
    ensures read { Reads itself result (folds.fold_here (rest_of here.entry)) }
{
    let byte = here.head();
    if byte == b'c' {
        read_as(FoldWord::Count, b"count", here)
    } else if byte == b's' {
        read_as(FoldWord::Sum, b"sum", here)
    } else if byte == b'a' {
        read_as(FoldWord::Aggregate, b"aggregate", here)
    } else if byte == b'm' {
        behind_m(here.behind())
    } else {
        Err(here.unexpected(What::Aggregate))
    }
}

#[tactic(auto, unfolding(crate::specs::Folds::fold_behind_m))]
fn behind_m<'a>(here: Cursor<'a>) -> Read<'a, FoldWord>
    ensures read { Reads itself result (folds.fold_behind_m (rest_of here.entry)) }
{
    let byte = here.head();
    if byte == b'i' {
        read_as(FoldWord::Min, b"n", here.behind())
    } else if byte == b'a' {
        read_as(FoldWord::Max, b"x", here.behind())
    } else if byte == b'e' {
        behind_me(here.behind())
    } else {
        Err(here.unexpected(What::Aggregate))
    }
}

fn behind_me<'a>(here: Cursor<'a>) -> Read<'a, FoldWord>
    ensures read { Reads itself result (folds.fold_behind_me (rest_of here.entry)) }
{
    let byte = here.head();
    if byte == b'a' {
        read_as(FoldWord::Mean, b"n", here.behind())
    } else if byte == b'r' {
        read_as(FoldWord::Merge, b"ge", here.behind())
    } else {
        Err(here.unexpected(What::Aggregate))
    }
}

// The fold whose word ends in these bytes, which stand here.
fn read_as<'a>(fold: FoldWord, end: &[u8], here: Cursor<'a>) -> Read<'a, FoldWord>
    ensures read { Reads itself result (folds.fold_word_from fold end.now (rest_of here.entry)) }
{
    let from = here.exact(end, What::Aggregate)?;
    Ok((fold, from))
}
