// What filters fix, and what is still fixed further up.
ghost use Rattle.std.specs.Prelude.{◌≡◌, ◌++◌, ◌&&◌, ◌<◌, ◌+◌, [], IfOk, OnOk, filter, true};
ghost use Rattle.std.specs.List.{list_any};
ghost use Rattle.mql_ast.specs.PredicateParts.{nodes};
ghost use Rattle.mql_ast.specs.Trees.{predicate_tree};
ghost use Rattle.typed_columns.specs.PredicateParts.{remaining_fixed, remaining_nodes};
ghost use Rattle.typed_trees.specs.FixedColumns as spec;
ghost use Rattle.typed_trees.specs.Items.{is_taken, key_columns, with_names};
ghost use Rattle.typed_trees.specs.Nodes.{columns_of, fixed_of, node_tree};

use crate::filters::push_both;
use crate::places::NamedColumns;
use crate::taken::Taken;
use mon_value::{Column, Columns, FieldValue, Shared, Text, TryCopy};
use mql_ast::{Comparison, Predicate};
use std::alloc::{AllocError, Global};
use typed_trees::{Fixed, FixedColumns, Node};

/// Nothing is fixed.
pub fn nothing_fixed(alloc: Global) -> Result<Shared<FixedColumns>, AllocError>
    ensures fixed { IfOk result (λ fixed. fixed ≡ []) }
{
    Shared::new(alloc, FixedColumns::new(alloc))
}

/// What is fixed behind a filter: what was before it, and what else its equalities fix.
pub fn filtered_fixed(
    alloc: Global,
    fixed: &Shared<FixedColumns>,
    by: &Predicate,
) -> Result<Shared<FixedColumns>, AllocError>
    ensures fixed { IfOk result (λ made. made ≡ spec.with_fixed fixed.now (spec.fixed_by (predicate_tree by.now))) }
{
    let more = fixed_by(alloc, by)?;
    with_fixed(alloc, fixed, more.as_slice())
}

// What is fixed, and what else is. The list is shared where that is nothing new.
#[tactic(auto, using(crate::proofs::FixedLemmas::with_nothing))]
fn with_fixed(
    alloc: Global,
    fixed: &Shared<FixedColumns>,
    more: &[Shared<Fixed>],
) -> Result<Shared<FixedColumns>, AllocError>
    ensures fixed { IfOk result (λ made. made ≡ spec.with_fixed fixed.now more.now) }
{
    let new = new_fixed(alloc, fixed.as_slice(), more)?;
    if new.is_empty() {
        return fixed.copy(alloc);
    }
    both_fixed(alloc, fixed.as_slice(), new.as_slice())
}

// What is fixed, and then more.
fn both_fixed(
    alloc: Global,
    fixed: &[Shared<Fixed>],
    more: &[Shared<Fixed>],
) -> Result<Shared<FixedColumns>, AllocError>
    ensures fixed { IfOk result (λ made. made ≡ fixed.now ++ more.now) }
{
    let mut all = FixedColumns::new(alloc);
    push_all(alloc, fixed, &mut all)?;
    push_all(alloc, more, &mut all)?;
    Shared::new(alloc, all)
}

fn push_all(
    alloc: Global,
    fixed: &[Shared<Fixed>],
    all: &mut FixedColumns,
) -> Result<(), AllocError>
    ensures added { OnOk result (all.new ≡ all.old ++ fixed.now) }
{
    for one in fixed {
        all.push(one.copy(alloc)?)?;
    }
    Ok(())
}

// What of a list has a name that isn't fixed before, of each name the first.
fn new_fixed<'a>(
    alloc: Global,
    before: &'a [Shared<Fixed>],
    more: &'a [Shared<Fixed>],
) -> Result<FixedColumns, AllocError>
    ensures new { IfOk result (λ new. new ≡ spec.new_fixed (with_names [] (spec.fixed_names before.now)) more.now) }
{
    let mut taken = fixed_names(alloc, before)?;
    let new = untaken(alloc, &mut taken, more);
    drop(taken);
    new
}

// What has a name that isn't taken, of each name the first.
#[tactic(auto, using(crate::proofs::FixedLemmas::found_first))]
fn untaken<'a>(
    alloc: Global,
    taken: &mut Taken<'a>,
    fixed: &'a [Shared<Fixed>],
) -> Result<FixedColumns, AllocError>
    ensures new { IfOk result (λ new. new ≡ spec.new_fixed taken.old fixed.now) }
{
    let mut new = FixedColumns::new(alloc);
    for one in fixed {
        if !taken.take(one.column.as_str())? {
            new.push(one.copy(alloc)?)?;
        }
    }
    Ok(new)
}

// The names of what is fixed.
fn fixed_names<'a>(alloc: Global, fixed: &'a [Shared<Fixed>]) -> Result<Taken<'a>, AllocError>
    ensures names { IfOk result (λ names. names ≡ with_names [] (spec.fixed_names fixed.now)) }
{
    let mut names = Taken::none(alloc);
    for one in fixed {
        names.take(one.column.as_str())?;
    }
    Ok(names)
}

// What a condition fixes. What is still to be looked at is kept in a list, since a chain may have many thousand
// conditions.
#[tactic(auto, using(crate::proofs::PredicateLemmas::parts_pushed))]
fn fixed_by(alloc: Global, by: &Predicate) -> Result<FixedColumns, AllocError>
    ensures fixed { IfOk result (λ fixed. fixed ≡ spec.fixed_by (predicate_tree by.now)) }
{
    let mut fixed = FixedColumns::new(alloc);
    let mut parts = Vec::new(alloc);
    parts.push(by)?;
    while let Some(part) = parts.pop() {
        fix_part(alloc, &mut parts, part, &mut fixed)?;
    }
    Ok(fixed)
}

// Adds what an equality fixes, or puts both sides of an And among the parts to come, the first of them last.
#[tactic(auto, using(crate::proofs::PredicateLemmas::parts_pushed))]
fn fix_part<'a>(
    alloc: Global,
    parts: &mut Vec<&'a Predicate>,
    part: &'a Predicate,
    fixed: &mut FixedColumns,
) -> Result<(), AllocError>
    ensures fixed { OnOk result (fixed.new ++ remaining_fixed parts.new.items
        ≡ fixed.old ++ (spec.fixed_by (predicate_tree part.now) ++ remaining_fixed parts.old.items)) }
    ensures less { OnOk result (remaining_nodes parts.new.items < nodes part.now + remaining_nodes parts.old.items) }
{
    match part {
        Predicate::Compare(name, how, literal) => {
            fix_compared(alloc, &name.text, *how, &literal.value, fixed)
        }
        Predicate::Like(_, _) => Ok(()),
        Predicate::Not(_) => Ok(()),
        Predicate::And(left, right) => push_both(parts, left, right),
        Predicate::Or(_, _) => Ok(()),
    }
}

// Adds what a comparison fixes: an equality its column.
fn fix_compared(
    alloc: Global,
    column: &Text,
    how: Comparison,
    value: &FieldValue,
    fixed: &mut FixedColumns,
) -> Result<(), AllocError>
    ensures fixed { OnOk result (fixed.new ≡ fixed.old ++ spec.fixed_if (spec.is_equal how) column.now value.now) }
{
    match how {
        Comparison::Equal => push_fixed(alloc, column, value, fixed),
        _ => Ok(()),
    }
}

// Adds a column that is fixed.
fn push_fixed(
    alloc: Global,
    column: &Text,
    value: &FieldValue,
    fixed: &mut FixedColumns,
) -> Result<(), AllocError>
    ensures fixed { OnOk result (fixed.new ≡ fixed.old ++ spec.fixed_if true column.now value.now) }
{
    let one = Fixed {
        column: column.copy(alloc)?,
        value: value.copy(alloc)?,
    };
    fixed.push(Shared::new(alloc, one)?)
}

/// What is fixed of the columns that are there.
pub(crate) fn named_fixed(
    alloc: Global,
    columns: &[Shared<Column>],
    fixed: &Shared<FixedColumns>,
) -> Result<Shared<FixedColumns>, AllocError>
    ensures fixed { IfOk result (λ made. made ≡ spec.named_in columns.now fixed.now) }
{
    let columns = NamedColumns::new(alloc, columns)?;
    let named = fixed_of_names(alloc, &columns, fixed.as_slice());
    drop(columns);
    Shared::new(alloc, named?)
}

fn fixed_of_names(
    alloc: Global,
    columns: &NamedColumns<'_>,
    fixed: &[Shared<Fixed>],
) -> Result<FixedColumns, AllocError>
    ensures fixed { IfOk result (λ made. made ≡ spec.named_in columns.now fixed.now) }
{
    let mut named = FixedColumns::new(alloc);
    for one in fixed {
        if columns.has(&one.column) {
            named.push(one.copy(alloc)?)?;
        }
    }
    Ok(named)
}

/// What is fixed of the keys of a table.
pub fn key_fixed(
    alloc: Global,
    columns: &[Shared<Column>],
    fixed: &Shared<FixedColumns>,
) -> Result<Shared<FixedColumns>, AllocError>
    ensures fixed { IfOk result (λ made. made ≡ spec.named_in (key_columns columns.now) fixed.now) }
{
    if fixed.is_empty() {
        return fixed.copy(alloc);
    }
    let keys = keys_of(alloc, columns)?;
    named_fixed(alloc, keys.as_slice(), fixed)
}

fn keys_of(alloc: Global, columns: &[Shared<Column>]) -> Result<Columns, AllocError>
    ensures keys { IfOk result (λ keys. keys ≡ key_columns columns.now) }
{
    let mut keys = Columns::new(alloc);
    for column in columns {
        if column.key {
            keys.push(column.copy(alloc)?)?;
        }
    }
    Ok(keys)
}

/// What is fixed in a join: what either side fixes of its own columns.
pub fn joined_fixed(
    alloc: Global,
    left: &Node,
    right: &Node,
) -> Result<Shared<FixedColumns>, AllocError>
    ensures fixed { IfOk result (λ made. made ≡ spec.joined_fixed (node_tree left.now) (node_tree right.now)) }
{
    let lefts = side_fixed(alloc, left)?;
    let rights = side_fixed(alloc, right)?;
    with_fixed(alloc, &lefts, rights.as_slice())
}

// What a side of a join fixes of its own columns.
fn side_fixed(alloc: Global, side: &Node) -> Result<Shared<FixedColumns>, AllocError>
    ensures fixed { IfOk result (λ made. made
        ≡ spec.named_in (columns_of (node_tree side.now)) (fixed_of (node_tree side.now))) }
{
    if side.fixed().is_empty() {
        return side.fixed().copy(alloc);
    }
    named_fixed(alloc, side.columns(), side.fixed())
}

/// What is fixed in a union: what both sides fix to the same literal.
pub fn fixed_in_both(
    alloc: Global,
    lefts: &[Shared<Fixed>],
    rights: &[Shared<Fixed>],
) -> Result<Shared<FixedColumns>, AllocError>
    ensures fixed { IfOk result (λ made. made ≡ spec.fixed_in_both lefts.now rights.now) }
{
    let mut both = FixedColumns::new(alloc);
    for left in lefts {
        if is_fixed(left, rights) {
            both.push(left.copy(alloc)?)?;
        }
    }
    Shared::new(alloc, both)
}

// Whether a column is fixed to the same literal.
fn is_fixed(wanted: &Fixed, fixed: &[Shared<Fixed>]) -> bool
    ensures fixed { result ≡ list_any (spec.same_fixed wanted.now) fixed.now }
{
    fixed.iter().any(|one| same_fixed(wanted, one))
}

fn same_fixed(one: &Fixed, other: &Fixed) -> bool
    ensures same { result ≡ spec.same_fixed one.now other.now }
{
    one.column == other.column && one.value == other.value
}

/// Adds the columns of a table that are fixed.
pub(crate) fn push_fixed_columns(
    alloc: Global,
    columns: &[Shared<Column>],
    fixed: &[Shared<Fixed>],
    added: &mut Columns,
) -> Result<(), AllocError>
    ensures added { OnOk result (added.new ≡ added.old ++ spec.fixed_columns columns.now fixed.now) }
{
    let names = fixed_names(alloc, fixed)?;
    let pushed = push_named(alloc, columns, &names, added);
    drop(names);
    pushed
}

// Adds the columns of some names.
fn push_named(
    alloc: Global,
    columns: &[Shared<Column>],
    names: &Taken<'_>,
    added: &mut Columns,
) -> Result<(), AllocError>
    ensures added { OnOk result (added.new
        ≡ added.old ++ filter (λ column. is_taken column.name names.now) columns.now) }
{
    for column in columns {
        if names.has(column.name.as_str()) {
            added.push(column.copy(alloc)?)?;
        }
    }
    Ok(())
}
