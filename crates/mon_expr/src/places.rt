// Where the columns of a table stand.
ghost use Rattle.std.specs.Prelude.{◌≡◌};
ghost use Rattle.mql_ast.specs.Rows as spec;

use mon_value::{Columns, Text};

/// Where the first column of a name stands, or behind all of them where none has it.
pub(crate) fn place_of(name: &Text, columns: &Columns) -> usize
    ensures place { result ≡ spec.place_of name.now columns.now }
{
    for (place, column) in columns.as_slice().iter().enumerate() {
        if *name == column.name {
            return place;
        }
    }
    columns.len()
}
