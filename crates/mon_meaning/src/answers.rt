// The central evaluation of a query.
ghost use Rattle.std.specs.Prelude.{◌≡◌, ◌≤◌, ◌^◌, ◌≤ℤ◌, pos};
ghost use Rattle.mon_series.specs.SlotViews.{all_kept};
ghost use Rattle.mon_value.specs.LeafHistories.{IsSource};
ghost use Rattle.mon_value.specs.declared.limits.TheConstants.{ROW_BITS};
ghost use Rattle.typed_trees.specs.Meaning as meant;
ghost use Rattle.typed_trees.specs.Nodes.{typed_tree};
ghost use Rattle.typed_trees.specs.Soundness.{IsTyped};
ghost use Rattle.mon_meaning.specs.Central.{IsAnswer};

use crate::meter::{Meter, OverLimit};
use crate::operations::table_of;
use crate::parts::part_by_series;
use mon_series::KeptRows;
use mon_value::{Grid, Refusal, RowList, Table};
use std::alloc::Global;
use typed_trees::Typed;

/// The rows that a typed query means, asked at a moment over rows of any series. They are a bag: their order says
/// nothing. It is refused exactly where its load is above the limit.
pub fn central(
    alloc: Global,
    typed: &Typed,
    rows: &RowList,
    moment: i64,
    limit: u64,
) -> Result<Table, Refusal<OverLimit>>
    requires typed { IsTyped (typed_tree typed.now) rows.now }
    requires source { IsSource rows.now }
    requires moment { pos 0 ≤ℤ moment }
    requires limit { limit ≤ 2 ^ ROW_BITS }
    ensures answer { IsAnswer (typed_tree typed.now) rows.now moment limit result }
{
    let kept = KeptRows::of_rows(alloc, rows.as_slice())?;
    central_by_series(alloc, typed, &kept, moment, limit)
}

/// The same over rows that are kept by series, none of which is copied as a whole, and of which none is hidden.
pub fn central_by_series(
    alloc: Global,
    typed: &Typed,
    kept: &KeptRows,
    moment: i64,
    limit: u64,
) -> Result<Table, Refusal<OverLimit>>
    requires typed { IsTyped (typed_tree typed.now) kept.now.rows }
    requires whole { kept.now ≡ all_kept kept.now.rows }
    requires moment { pos 0 ≤ℤ moment }
    requires limit { limit ≤ 2 ^ ROW_BITS }
    ensures answer { IsAnswer (typed_tree typed.now) kept.now.rows moment limit result }
{
    let grid = grid_of(typed, moment);
    let mut meter = Meter::new(limit);
    let rows = part_by_series(alloc, &typed.tree, &[kept], grid, &mut meter)?;
    Ok(table_of(alloc, &typed.tree.info().columns, rows)?)
}

/// The times of a query that is asked at a moment, in seconds from the epoch.
pub fn grid_of(typed: &Typed, moment: i64) -> Grid
    ensures grid { result ≡ meant.grid_of (typed_tree typed.now) moment }
{
    Grid {
        moment,
        every: typed.every,
        within: typed.within,
    }
}
