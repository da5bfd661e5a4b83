// How many bits the numbers of a column may have, and their sum.
ghost use Rattle.std.specs.Prelude.{◌≡◌, IsTrue};
ghost use Rattle.typed_trees.specs.Faults.{first_with};
ghost use Rattle.typed_trees.specs.Branches as spec;

use crate::faults::{Faults, TypeKind};
use mon_value::{Column, INCREASE_BITS, NUMBER_BITS, ROW_BITS, SUM_BITS, Shared, WIDEST_SUM};
use std::cmp::{max, min};

/// Two bounds in bits, of what a column holds at one time: each magnitude is at most 2 to the power of `cell`,
/// and the magnitudes sum to at most 2 to the power of `total`.
#[derive(Clone, Copy)]
pub struct Width {
    pub cell: u32,
    pub total: u32,
}

/// What a point or a query has.
pub const OF_NUMBER: Width = Width {
    cell: NUMBER_BITS,
    total: SUM_BITS,
};

/// What a delta comes to in a window.
pub const OF_DELTA: Width = Width {
    cell: SUM_BITS,
    total: SUM_BITS,
};

/// What the increases of a cumulative metric come to in a window.
pub const OF_INCREASE: Width = Width {
    cell: INCREASE_BITS,
    total: INCREASE_BITS,
};

/// What the number of a group's rows has.
pub const OF_COUNT: Width = Width {
    cell: ROW_BITS,
    total: ROW_BITS,
};

impl Width {
    /// The width of a column.
    pub fn of(column: &Column) -> Width
        ensures width { result ≡ spec.width_of column.now }
    {
        Width {
            cell: column.cell_bits,
            total: column.total_bits,
        }
    }

    /// Whether a column has the width.
    pub fn is_of(self, column: &Column) -> bool
        ensures had { IsTrue result → spec.with_width self column.now ≡ column.now }
    {
        self.cell == column.cell_bits && self.total == column.total_bits
    }

    /// The width of a sum or a difference of two numbers.
    pub fn added(self, other: Width) -> Width
        ensures width { result ≡ spec.added_width self other }
    {
        Width {
            cell: max(self.cell, other.cell).saturating_add(1),
            total: max(self.total, other.total).saturating_add(1),
        }
    }

    /// The width of the sums of groups.
    pub fn summed(self) -> Width
        ensures width { result ≡ spec.summed_width self }
    {
        Width {
            cell: self.total,
            total: self.total,
        }
    }

    /// The width in a join, whose rows are as many as a table has.
    pub fn joined(self) -> Width
        ensures width { result ≡ spec.joined_width self }
    {
        Width {
            cell: self.cell,
            total: self.cell.saturating_add(ROW_BITS),
        }
    }

    /// The width of the rows of both branches of a union.
    pub fn united(self, other: Width) -> Width
        ensures width { result ≡ spec.united_width self other }
    {
        let cell = max(self.cell, other.cell);
        Width {
            cell,
            total: min(
                max(self.total, other.total).saturating_add(1),
                cell.saturating_add(ROW_BITS),
            ),
        }
    }

    /// Tells that the values sum to too many bits, where they do.
    pub fn tell_wide(self, at: u32, found: &mut Faults)
        ensures faults { found.new.first ≡ first_with found.old.first (spec.width_faults at self) }
    {
        found.tell_where(self.total > WIDEST_SUM, at, TypeKind::TooWide(self.total));
    }
}

/// A sum or one of its operands: where it begins, and the width of the numbers that it comes to, if to numbers.
#[derive(Clone, Copy)]
pub struct Operand {
    pub at: u32,
    pub width: Option<Width>,
}
