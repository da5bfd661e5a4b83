// The tables of a query at moments one after another, over the same rows.
ghost use Rattle.std.specs.Prelude.{◌≡◌, ◌≤◌, ◌≤ℤ◌, ◌^◌, ◌++◌, List, IfErr, IfOk, OnOk, string_bytes};
ghost use Rattle.line_runs.specs.Following.{AreFollowedAs, IsAdded, IsKeptOf, IsNotAdded};
ghost use Rattle.mon_script.specs.Follows.{AreLawfulMoments, all_moments};
ghost use Rattle.mon_table.specs.Tables.{printed_table};
ghost use Rattle.mon_value.specs.LeafHistories.{IsSource};
ghost use Rattle.mon_value.specs.declared.limits.TheConstants.{ROW_BITS};
ghost use Rattle.mon_value.specs.declared.rows.Row.{Row};
ghost use Rattle.run_traces.specs.LineTexts as spec;
ghost use Rattle.typed_trees.specs.Nodes.{typed_tree};
ghost use Rattle.typed_trees.specs.Soundness.{IsTyped};

use mon_script::Moments;
use mon_table::{equal_bags_print_alike, print};
use mon_value::{OutOfMemory, Refusal, RowList, Table, Text};
use standing_incr::{Kept, held_rows_are_enough};
use std::alloc::Global;
use typed_trees::Typed;

/// Why a query that has a table is not followed.
#[derive(Clone, Copy)]
pub(crate) enum NotFollowed {
    /// Its form is none whose result is kept.
    Form,
    /// Its load is above the limit at one of the moments.
    Load,
}

/// What a typed query means over rows at each moment, as it is printed.
pub(crate) fn tables_over(
    alloc: Global,
    typed: Typed,
    rows: &RowList,
    moments: Moments,
    limit: u64,
) -> Result<Text, Refusal<NotFollowed>>
    requires typed { IsTyped (typed_tree typed) rows.now }
    requires source { IsSource rows.now }
    requires moments { AreLawfulMoments moments }
    requires limit { limit ≤ 2 ^ ROW_BITS }
    ensures followed { AreFollowedAs (typed_tree typed) rows.now (all_moments moments) limit result }
{
    match Kept::over(alloc, typed, moments.first, rows) {
        Ok(mut kept) => {
            let text = tables_of(alloc, &mut kept, moments, limit);
            drop(kept);
            text
        }
        Err(Refusal::Fault(_form)) => Err(Refusal::Fault(NotFollowed::Form)),
        Err(Refusal::OutOfMemory) => Err(Refusal::OutOfMemory),
    }
}

// The same of a result that is kept, whatever rows it was made over.
fn tables_of(
    alloc: Global,
    kept: &mut Kept,
    moments: Moments,
    limit: u64,
) -> Result<Text, Refusal<NotFollowed>>
    requires moments { AreLawfulMoments moments }
    requires first { kept.old.moment ≡ moments.first }
    requires limit { limit ≤ 2 ^ ROW_BITS }
    ensures followed { (rows : List Row) → IsKeptOf kept.old rows
        → AreFollowedAs (typed_tree kept.old.typed) rows (all_moments moments) limit result }
{
    let mut text = String::new(alloc);
    push_table(alloc, kept, moments.first, limit, &mut text)?;
    let mut last = moments;
    while let Some(next) = last.later() {
        go_on(alloc, kept, next.first, limit, &mut text)?;
        last = next;
    }
    Ok(Text::from_string(text)?)
}

// Goes on to a later moment, and adds the table then.
fn go_on(
    alloc: Global,
    kept: &mut Kept,
    next: i64,
    limit: u64,
    text: &mut String,
) -> Result<(), Refusal<NotFollowed>>
    requires later { kept.old.moment ≤ℤ next }
    requires limit { limit ≤ 2 ^ ROW_BITS }
    ensures query { kept.new.typed ≡ kept.old.typed }
    ensures moment { OnOk result (kept.new.moment ≡ next) }
    ensures kept { (rows : List Row) → IsKeptOf kept.old rows → OnOk result (IsKeptOf kept.new rows) }
    ensures added { (rows : List Row) → IsKeptOf kept.old rows → OnOk result
        (IsAdded (typed_tree kept.old.typed) rows next limit (string_bytes text.old) (string_bytes text.new)) }
    ensures refused { (rows : List Row) → IsKeptOf kept.old rows
        → IfErr result (IsNotAdded (typed_tree kept.old.typed) rows next limit) }
{
    held_rows_are_enough();
    kept.advance(next)?;
    push_table(alloc, kept, next, limit, text)
}

// Adds the table at the moment at which a result stands.
fn push_table(
    alloc: Global,
    kept: &Kept,
    at: i64,
    limit: u64,
    text: &mut String,
) -> Result<(), Refusal<NotFollowed>>
    requires at { kept.now.moment ≡ at }
    requires limit { limit ≤ 2 ^ ROW_BITS }
    ensures added { (rows : List Row) → IsKeptOf kept.now rows → OnOk result
        (IsAdded (typed_tree kept.now.typed) rows at limit (string_bytes text.old) (string_bytes text.new)) }
    ensures refused { (rows : List Row) → IsKeptOf kept.now rows
        → IfErr result (IsNotAdded (typed_tree kept.now.typed) rows at limit) }
{
    held_rows_are_enough();
    equal_bags_print_alike();
    match kept.result(limit) {
        Ok(table) => Ok(push_text(alloc, at, &table, text)?),
        Err(Refusal::Fault(_over)) => Err(Refusal::Fault(NotFollowed::Load)),
        Err(Refusal::OutOfMemory) => Err(Refusal::OutOfMemory),
    }
}

// Adds what is printed of a table at a moment.
fn push_text(alloc: Global, at: i64, table: &Table, text: &mut String) -> Result<(), OutOfMemory>
    ensures text { OnOk result (string_bytes text.new
        ≡ string_bytes text.old ++ (spec.moment_heading at ++ printed_table table.now)) }
{
    let heading = moment_heading(alloc, at)?;
    let table = print(alloc, table)?;
    text.push_str(heading.as_str())?;
    text.push_str(table.as_str())
}

// The line in front of a table.
fn moment_heading(alloc: Global, at: i64) -> Result<String, OutOfMemory>
    ensures text { IfOk result (λ text. string_bytes text ≡ spec.moment_heading at) }
{
    format!(in alloc; "at {at}:\n")
}
