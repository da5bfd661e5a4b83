// What `value` gives: the keys, and a column for each item.
ghost use Rattle.std.specs.Prelude.{◌≡◌, ◌++◌, IfOk, OnOk, map};
ghost use Rattle.std.specs.List.{filter_map, flat_map};
ghost use Rattle.std.specs.Option.{option_copied};
ghost use Rattle.mql_ast.specs.Trees.{item_tree, sum_tree};
ghost use Rattle.typed_trees.specs.Faults.{first_with};
ghost use Rattle.mon_value.specs.Tables.{column_names};
ghost use Rattle.typed_trees.specs.Items as spec;

use crate::places::{NamedColumns, push_some};
use crate::sums::sum_operand;
use crate::taken::{Label, Taken};
use mon_value::{Column, Columns, Shared, Text, TryCopy, ValueType};
use mql_ast::{Expr, Item, Name};
use std::alloc::{AllocError, Global};
use typed_trees::{Faults, Width};

/// The columns that `value` gives: the keys, and a column for each item of which the type is known. Tells what is
/// wrong in the items.
pub fn value_columns(
    alloc: Global,
    columns: &[Shared<Column>],
    items: &[Item],
    found: &mut Faults,
) -> Result<Columns, AllocError>
    ensures columns { IfOk result (λ made. made ≡ spec.value_columns columns.now (map item_tree items.now)) }
    ensures faults { OnOk result (found.new.first
        ≡ first_with found.old.first (spec.value_faults columns.now (map item_tree items.now))) }
{
    let columns = NamedColumns::new(alloc, columns)?;
    let made = value_columns_over(alloc, &columns, items, found);
    drop(columns);
    made
}

// The columns that `value` gives of a table, whose columns are found by their names.
#[tactic(auto, using(crate::proofs::FaultLemmas::faults))]
fn value_columns_over(
    alloc: Global,
    columns: &NamedColumns<'_>,
    items: &[Item],
    found: &mut Faults,
) -> Result<Columns, AllocError>
    ensures columns { IfOk result (λ made. made ≡ spec.value_columns columns.now (map item_tree items.now)) }
    ensures faults { OnOk result (found.new.first
        ≡ first_with found.old.first (spec.value_faults columns.now (map item_tree items.now))) }
{
    let keys = named_keys(alloc, columns.columns(), items, found)?;
    item_columns(alloc, columns, items, keys, found)
}

// The keys. Tells the names that columns are given twice.
fn named_keys(
    alloc: Global,
    columns: &[Shared<Column>],
    items: &[Item],
    found: &mut Faults,
) -> Result<Columns, AllocError>
    ensures keys { IfOk result (λ keys. keys ≡ spec.key_columns columns.now) }
    ensures faults { OnOk result (found.new.first ≡ first_with found.old.first (spec.taken_faults
        (spec.with_names spec.reserved_names (column_names (spec.key_columns columns.now)))
        (map spec.item_name (map item_tree items.now)))) }
{
    let mut taken = Taken::new(alloc)?;
    let keys = taken_keys(alloc, columns, items, &mut taken, found);
    drop(taken);
    keys
}

// The keys. Takes the names that columns are given, and tells those that were taken.
fn taken_keys<'a>(
    alloc: Global,
    columns: &'a [Shared<Column>],
    items: &'a [Item],
    taken: &mut Taken<'a>,
    found: &mut Faults,
) -> Result<Columns, AllocError>
    ensures keys { IfOk result (λ keys. keys ≡ spec.key_columns columns.now) }
    ensures faults { OnOk result (found.new.first ≡ first_with found.old.first (spec.taken_faults
        (spec.with_names taken.old (column_names (spec.key_columns columns.now)))
        (map spec.item_name (map item_tree items.now)))) }
{
    let keys = keys(alloc, columns, taken)?;
    match tell_names(items, taken, found) {
        Ok(()) => Ok(keys),
        Err(stop) => {
            drop(keys);
            Err(stop)
        }
    }
}

// The keys, whose names are taken.
fn keys<'a>(
    alloc: Global,
    columns: &'a [Shared<Column>],
    taken: &mut Taken<'a>,
) -> Result<Columns, AllocError>
    ensures keys { IfOk result (λ keys. keys ≡ spec.key_columns columns.now) }
    ensures taken { OnOk result (taken.new
        ≡ spec.with_names taken.old (column_names (spec.key_columns columns.now))) }
{
    let mut keys = Columns::new(alloc);
    for column in columns {
        if column.key {
            taken.take(column.name.as_str())?;
            keys.push(column.copy(alloc)?)?;
        }
    }
    Ok(keys)
}

// Takes the names that items give, and tells those that were taken.
#[tactic(auto, using(crate::proofs::TakenLemmas::taken_names))]
fn tell_names<'a>(
    items: &'a [Item],
    taken: &mut Taken<'a>,
    found: &mut Faults,
) -> Result<(), AllocError>
    ensures faults { OnOk result (found.new.first ≡ first_with found.old.first
        (spec.taken_faults taken.old (map spec.item_name (map item_tree items.now)))) }
{
    for item in items {
        taken.tell(item_label(item), found)?;
    }
    Ok(())
}

// The keys, and a column for each item of which the type is known.
#[tactic(auto, using(crate::proofs::ItemLemmas::item_steps))]
fn item_columns(
    alloc: Global,
    columns: &NamedColumns<'_>,
    items: &[Item],
    keys: Columns,
    found: &mut Faults,
) -> Result<Columns, AllocError>
    ensures columns { IfOk result (λ made. made
        ≡ keys ++ filter_map (spec.item_column columns.now) (map item_tree items.now)) }
    ensures faults { OnOk result (found.new.first ≡ first_with found.old.first
        (flat_map (spec.item_sum_faults columns.now) (map item_tree items.now))) }
{
    let mut made = keys;
    for item in items {
        let column = item_column(alloc, columns, item, found)?;
        push_some(&mut made, column)?;
    }
    Ok(made)
}

// The column that an item gives, if its type is known. Tells what is wrong in it.
fn item_column(
    alloc: Global,
    columns: &NamedColumns<'_>,
    item: &Item,
    found: &mut Faults,
) -> Result<Option<Shared<Column>>, AllocError>
    ensures column { IfOk result (λ column. column ≡ spec.item_column columns.now (item_tree item.now)) }
    ensures faults { OnOk result (found.new.first
        ≡ first_with found.old.first (spec.item_sum_faults columns.now (item_tree item.now))) }
{
    let name = item_label(item).text;
    match column_alone(&item.sum) {
        Some(source) => match columns.known(source, found) {
            Some(column) => {
                let of = column.of.copy(alloc)?;
                Ok(Some(plain_column(alloc, name, of, Width::of(column))?))
            }
            None => Ok(None),
        },
        None => match sum_operand(alloc, columns, &item.sum, found)?.width {
            Some(width) => Ok(Some(plain_column(alloc, name, ValueType::Int, width)?)),
            None => Ok(None),
        },
    }
}

/// A column without an anchor that is no key.
pub(crate) fn plain_column(
    alloc: Global,
    name: &str,
    of: ValueType,
    width: Width,
) -> Result<Shared<Column>, AllocError>
    ensures column { IfOk result (λ column. column ≡ spec.plain_column name.now of width) }
{
    let column = Column {
        name: Text::from_str(alloc, name)?,
        of,
        key: false,
        anchor: None,
        cell_bits: width.cell,
        total_bits: width.total,
    };
    Shared::new(alloc, column)
}

// The column that a sum is alone, if it is one.
fn column_alone(sum: &Expr) -> Option<&Name>
    ensures column { option_copied result ≡ spec.column_alone (sum_tree sum.now) }
{
    match sum {
        Expr::Column(name) => Some(name),
        Expr::Number { .. } | Expr::Plus(..) | Expr::Minus(..) | Expr::Percentile { .. } => None,
    }
}

// The name that an item gives its column, and where it stands.
fn item_label(item: &Item) -> Label<'_>
    ensures text { result.text.now ≡ (spec.item_name (item_tree item.now)).text }
    ensures at { result.at ≡ (spec.item_name (item_tree item.now)).at }
{
    match &item.name {
        Some(name) => Label::of(name),
        None => match column_alone(&item.sum) {
            Some(name) => Label::of(name),
            None => Label { text: "", at: 0 },
        },
    }
}
