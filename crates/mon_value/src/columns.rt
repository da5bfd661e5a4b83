// The columns of a table.
use crate::copying::TryCopy;
use crate::lists::ListOf;
use crate::shared::Shared;
use crate::texts::Text;
use crate::values::ValueType;
use std::alloc::{AllocError, Global};

/// Where the cells of a column come from, through all operations that kept them: one field of the
/// targets of one schema, counted from 0, or the location of targets of several schemas. It says which
/// rows may stand on one leaf or in one zone alone.
#[derive(PartialEq, Eq, Drop)]
pub enum Anchor {
    Field { schema: Text, field: u32 },
    Location,
}

/// A column: a key, by which rows are told apart and joined, or a value.
///
/// The two numbers bound what a column of whole numbers or distributions holds at one time, where a
/// distribution counts by its total: each cell is at most 2 to the power of `cell_bits` in magnitude,
/// and the magnitudes of all rows sum to at most 2 to the power of `total_bits`. For other columns they
/// say nothing.
#[derive(PartialEq, Eq, Drop)]
pub struct Column {
    pub name: Text,
    pub of: ValueType,
    pub key: bool,
    pub anchor: Option<Anchor>,
    pub cell_bits: u32,
    pub total_bits: u32,
}

/// The columns of a table, from the left. A column is shared by the tables that have it, as those of a
/// chain of joins.
pub type Columns = ListOf<Shared<Column>>;

impl TryCopy for Anchor {
    fn copy(&self, alloc: Global) -> Result<Anchor, AllocError> {
        match self {
            Anchor::Field { schema, field } => Ok(Anchor::Field {
                schema: schema.copy(alloc)?,
                field: *field,
            }),
            Anchor::Location => Ok(Anchor::Location),
        }
    }
}

impl TryCopy for Column {
    fn copy(&self, alloc: Global) -> Result<Column, AllocError> {
        Ok(Column {
            name: self.name.copy(alloc)?,
            of: self.of.copy(alloc)?,
            key: self.key,
            anchor: self.anchor.copy(alloc)?,
            cell_bits: self.cell_bits,
            total_bits: self.total_bits,
        })
    }
}
