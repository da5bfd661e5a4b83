// Whole query texts.
ghost use Rattle.std.specs.Prelude.{◌≡◌, ◌<◌, ◌≤◌, length, Ok, Err};
ghost use Rattle.mon_value.specs.Answers.{GivesView};
ghost use Rattle.std.specs.Result.{IfErr, IfOk};
ghost use Rattle.mql_ast.specs.Grammar.{Spells, longest_text};
ghost use Rattle.mql_ast.specs.Trees.{PipeTree, pipe_tree, query_tree};
ghost use Rattle.mql_parse.specs.FaultDepths.{DepthKind};
ghost use Rattle.mql_parse.specs.FaultFirsts.{FirstKind};
ghost use Rattle.mql_parse.specs.Faults.{FaultKind, FaultOf, IsAtLongestFront, too_long};
ghost use Rattle.mql_parse.specs.FaultNumbers.{NumberKind};
ghost use Rattle.mql_parse.specs.FaultTokens.{ExpectedKind};
ghost use Rattle.mql_parse.specs.Outcomes.{rest_of};
ghost use Rattle.mql_parse.specs.PipeReading as pipes;

use crate::cursor::Cursor;
use crate::faults::{ParseFault, ParseKind, What};
use crate::pipes::{behind_query, pipe};
use mon_value::Refusal;
use mql_ast::{Pipe, Query};
use std::alloc::Global;

/// The longest text, in bytes.
const LONGEST_QUERY: usize = 65_536;

/// How many levels of braces, parentheses and `!` a text may have.
const LEVELS: u32 = 64;

/// The query that a text is, or the place and kind of its fault. A text that a tree spells is read as that
/// tree, which is the only one. The place is the length of the longest front of the text that begins some
/// query text; a text above 65,536 bytes has the fault `TooLong` at 65,536.
pub fn parse(alloc: Global, text: &[u8]) -> Result<Query, Refusal<ParseFault>>
    ensures exact { GivesView query_tree result (pipes.text_outcome text.now) }
    ensures spelled { IfOk result (λ query. Spells (query_tree query) text.now) }
    ensures complete { (tree : PipeTree) → Spells tree text.now → GivesView query_tree result (Ok tree) }
    ensures place { length text.now ≤ longest_text → IfErr result (FaultOf (IsAtLongestFront text.now)) }
    ensures kind { length text.now ≤ longest_text → IfErr result (FaultOf (FaultKind text.now)) }
    ensures number { length text.now ≤ longest_text → IfErr result (FaultOf (NumberKind text.now)) }
    ensures expected { length text.now ≤ longest_text → IfErr result (FaultOf (ExpectedKind text.now)) }
    ensures first { length text.now ≤ longest_text → IfErr result (FaultOf (FirstKind text.now)) }
    ensures depth { length text.now ≤ longest_text → IfErr result (FaultOf (DepthKind text.now)) }
    ensures too_long { longest_text < length text.now → GivesView query_tree result (Err too_long) }
    ensures unique { (one other : PipeTree) → Spells one text.now → Spells other text.now → one ≡ other }
{
    read(alloc, text)
}

#[tactic(auto, unfolding(crate::specs::PipeReading::text_outcome))]
fn read(alloc: Global, text: &[u8]) -> Result<Query, Refusal<ParseFault>>
    ensures exact { GivesView query_tree result (pipes.text_outcome text.now) }
{
    if text.len() > LONGEST_QUERY {
        return Err(Refusal::Fault(ParseFault {
            at: LONGEST_QUERY as u32,
            kind: ParseKind::TooLong,
        }));
    }
    query(alloc, Cursor { at: 0, bytes: text })
}

// A query from the first byte to the last.
#[tactic(auto, unfolding(crate::specs::PipeReading::query_within))]
fn query(alloc: Global, from: Cursor<'_>) -> Result<Query, Refusal<ParseFault>>
    requires { from.at ≡ 0 }
    ensures exact { GivesView query_tree result (pipes.query from.entry.bytes.now) }
{
    if from.skip().at != 0 {
        return Err(from.fault(ParseKind::Expected(What::Fetch)));
    }
    let (pipe, rest) = pipe(alloc, LEVELS, from)?;
    ended(pipe, rest)
}

fn ended(pipe: Pipe, rest: Cursor<'_>) -> Result<Query, Refusal<ParseFault>>
    ensures exact { GivesView query_tree result (pipes.query_end (pipe_tree pipe, rest_of rest.entry)) }
{
    if rest.is_end() {
        Ok(Query { pipe })
    } else {
        Err(rest.skip().unexpected(behind_query(&pipe)))
    }
}
