// Which filters name keys alone.
ghost use Rattle.std.specs.Prelude.{◌≡◌};
ghost use Rattle.std.specs.Option.{option_copied};
ghost use Rattle.mql_ast.specs.Rows as named;
ghost use Rattle.mql_ast.specs.Trees.{predicate_tree};
ghost use Rattle.typed_trees.specs.Groupings.{place_found};
ghost use Rattle.typed_trees.specs.Meaning as spec;

use mon_value::{Column, Columns, Shared, Text};
use mql_ast::Predicate;

/// Whether a filter names keys alone, so that it takes a series whole or not at all. A loop goes down the left, where a
/// chain may have many thousand conditions.
pub fn names_keys(by: &Predicate, columns: &Columns) -> bool
    ensures keys { result ≡ spec.names_keys columns.now (predicate_tree by.now) }
{
    let mut rest = by;
    loop {
        match rest {
            Predicate::Compare(name, _, _) => return is_key(&name.text, columns),
            Predicate::Like(name, _) => return is_key(&name.text, columns),
            Predicate::Not(inner) => rest = inner,
            Predicate::And(left, right) | Predicate::Or(left, right) => {
                if !names_keys(right, columns) {
                    return false;
                }
                rest = left;
            }
        }
    }
}

// Whether the column of a name is a key.
fn is_key(name: &Text, columns: &Columns) -> bool
    ensures key { result ≡ spec.is_key_name columns.now name.now }
{
    match column_named(columns.as_slice(), name) {
        Some(column) => column.key,
        None => false,
    }
}

// The first column of a name.
fn column_named<'a>(columns: &'a [Shared<Column>], name: &Text) -> Option<&'a Shared<Column>>
    ensures column { option_copied result ≡ named.column_named name.now columns.now }
{
    match place_named(columns, name) {
        Some(place) => columns.get(place),
        None => None,
    }
}

fn place_named(columns: &[Shared<Column>], name: &Text) -> Option<usize>
    ensures place { result ≡ place_found name.now columns.now }
{
    columns.iter().position(|column| *name == column.name)
}
