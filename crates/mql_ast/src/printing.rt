//! The text that a tree is printed as.
ghost use Rattle.std.specs.Prelude.{◌≡◌, IfOk, List, ℕ};
ghost use Rattle.mql_ast.specs.Trees.{query_tree};
ghost use Rattle.mql_ast.specs.Printed.{pipe_text};
ghost use Rattle.mql_ast.specs.Grammar.{SpellsAtLength};
ghost use Rattle.mql_ast.specs.Parentheses.{HasFewest};
ghost use Rattle.mql_ast.specs.Places.{SpellsButForPlaces};

mod escapes;
mod lists;
mod operations;
mod pipes;
mod predicates;
mod sums;
mod words;

use crate::pipes::Query;
use mon_value::{OutOfMemory, Text};
use pipes::print_pipe;
use std::alloc::Global;

/// The canonical text of a query: single blanks, and no more parentheses than any text of the query
/// has. Where some text is spelled by the query, its canonical text is too, but for places.
pub fn print_query(alloc: Global, query: &Query) -> Result<Text, OutOfMemory>
    ensures text { IfOk result (λ text. text ≡ pipe_text (query_tree query.now)) }
    ensures spelled { IfOk result (λ printed. (text : List ℕ) → SpellsAtLength (query_tree query.now) text
        → SpellsButForPlaces (query_tree query.now) printed) }
    ensures fewest { IfOk result (λ printed. HasFewest (query_tree query.now) printed) }
{
    let mut out = String::new(alloc);
    print_pipe(&mut out, &query.pipe)?;
    Text::from_string(out)
}
