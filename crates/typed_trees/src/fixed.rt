// Columns that are fixed to a literal.
use mon_value::{FieldValue, ListOf, Shared, Text};

/// A column that holds one literal in each row of a table.
#[derive(PartialEq, Eq, Hash, Drop)]
pub struct Fixed {
    pub column: Text,
    pub value: FieldValue,
}

/// The columns of a table that are fixed, each name once. Each is shared by the tables that have it, as those behind a
/// chain of filters.
pub type FixedColumns = ListOf<Shared<Fixed>>;
