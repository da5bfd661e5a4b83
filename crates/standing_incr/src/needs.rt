// Which rows matter at a moment or at a later one.
ghost use Rattle.std.specs.Prelude.{◌≡◌, ◌≤ℤ◌, ◌&&◌, ◌||◌, ◌++◌, ◌∷◌, [], cond, int_lt, not, pos, reverse, is_some, true, IfOk};
ghost use Rattle.std.specs.Prelude.{OnOk};
ghost use Rattle.mon_value.specs.Same.{same_series};
ghost use Rattle.mon_value.specs.LeafHistories.{IsSource};
ghost use Rattle.mon_value.specs.declared.rows.SeriesKey.{SeriesKey as Key};
ghost use Rattle.std.specs.Map.{lookup};
ghost use Rattle.mon_value.specs.Grids.{IsDuration, IsLawfulGrid, seconds_of};
ghost use Rattle.typed_trees.specs.Nodes.{node_tree, typed_tree};
ghost use Rattle.typed_trees.specs.Soundness.{IsTyped};
ghost use Rattle.typed_trees.specs.Meaning.{grid_of};
ghost use Rattle.mon_meaning.specs.Incremental.{is_one_path};
ghost use Rattle.mon_meaning.specs.within.FetchViews.{is_fetch_met, keeps};
ghost use Rattle.standing_incr.specs.HeldRows as spec;
ghost use Rattle.standing_incr.specs.NeededRows.{is_earlier, needed_rows};
ghost use Rattle.standing_incr.specs.Needs.{LooksBack, NeedsAt, NeedsFound, is_before_by, is_met_by};

use crate::source_rows::SourceRows;
use crate::ways::{Stop, way_down};
use insertion_map::InsertionMap;
use mon_meaning::{Fetch, grid_of, reach_start, series_cells};
use mon_value::{Aligner, Grid, OutOfMemory, Row, SeriesKey, Shared, TryCopy};
use std::alloc::Global;
use typed_trees::{Node, Typed};

/// What tells which rows matter: the fetch that they meet, the alignment, and the start of its reach.
#[derive(Drop)]
pub struct Needs<'a> {
    pub fetch: Fetch<'a>,
    pub by: Aligner,
    pub start: i64,
}

/// The series that have a newer row that may stand before the reach.
type SeriesBehind = InsertionMap<Shared<SeriesKey>, bool>;

impl<'a> Needs<'a> {
    /// Whether a row is of a series that meets the fetch.
    pub fn is_met(&self, alloc: Global, row: &Row) -> Result<bool, OutOfMemory>
        ensures met { IfOk result (λ met. met ≡ is_met_by self.now row.now) }
    {
        self.fetch.is_met(alloc, &row.key)
    }

    /// Whether a row may be the one before the reach.
    pub fn is_before(&self, alloc: Global, row: &Row) -> Result<bool, OutOfMemory>
        ensures before { IfOk result (λ before. before ≡ is_before_by self.now row.now) }
    {
        match self.by {
            Aligner::Increase(_) => self.flows(alloc, row),
            Aligner::Delta(_) => Ok(false),
            Aligner::NextOlder(_) => Ok(false),
        }
    }

    // Whether a row flows into the alignment.
    fn flows(&self, alloc: Global, row: &Row) -> Result<bool, OutOfMemory>
        ensures flows { IfOk result (λ flows. flows ≡ (is_fetch_met self.now.fetch row.now.key
            && keeps self.now.fetch row.now.key row.now.point.value)) }
    {
        if !self.fetch.is_met(alloc, &row.key)? {
            return Ok(false);
        }
        let cells = series_cells(alloc, &row.key)?;
        let (keeps, _cells) = self
            .fetch
            .keeps(alloc, cells, row.point.value.copy(alloc)?)?;
        Ok(keeps)
    }

    // Whether a row matters in front of those that were looked at, of which these series have one that may stand before
    // the reach. The row is then looked at too.
    fn is_needed(
        &self,
        alloc: Global,
        row: &Row,
        behind: &mut SeriesBehind,
    ) -> Result<bool, OutOfMemory>
        ensures needed { IfOk result (λ needed. needed ≡ (is_met_by self.now row.now
            && (int_lt self.now.start row.now.point.end
            || (is_before_by self.now row.now && not (is_some (lookup (same_series row.now.key) behind.old.entries)))))) }
        ensures behind { (key : Key) → OnOk result (is_some (lookup (same_series key) behind.new.entries)
            ≡ (is_earlier (is_met_by self.now) (is_before_by self.now) self.now.start key row.now
            || is_some (lookup (same_series key) behind.old.entries))) }
    {
        if row.point.end > self.start {
            return self.is_met(alloc, row);
        }
        if !self.is_before(alloc, row)? {
            return Ok(false);
        }
        is_first(alloc, &row.key, behind)
    }
}

// Whether a series is none of these. It is then one of them.
fn is_first(
    alloc: Global,
    key: &Shared<SeriesKey>,
    behind: &mut SeriesBehind,
) -> Result<bool, OutOfMemory>
    ensures first { IfOk result (λ first. first ≡ not (is_some (lookup (same_series key.now) behind.old.entries))) }
    ensures put { (other : Key) → OnOk result (is_some (lookup (same_series other) behind.new.entries)
        ≡ (same_series other key.now || is_some (lookup (same_series other) behind.old.entries))) }
{
    if behind.contains_key(key) {
        return Ok(false);
    }
    behind.insert(key.copy(alloc)?, true)?;
    Ok(true)
}

// Those of some rows that matter, the last one first.
fn needed_backwards(
    alloc: Global,
    needs: &Needs<'_>,
    rows: &SourceRows,
) -> Result<Vec<Row>, OutOfMemory>
    ensures needed { IfOk result (λ needed. reverse needed.items
        ≡ needed_rows (is_met_by needs.now) (is_before_by needs.now) needs.now.start rows.now) }
{
    let mut behind = SeriesBehind::new(alloc);
    let mut needed = Vec::new(alloc);
    let mut number = rows.len();
    while number > 0 {
        number -= 1;
        let row = rows.row(alloc, number)?;
        look_at(alloc, needs, row, &mut behind, &mut needed)?;
    }
    Ok(needed)
}

// Adds a row to those that matter, if it does in front of the others. It is then looked at too.
fn look_at(
    alloc: Global,
    needs: &Needs<'_>,
    row: Row,
    behind: &mut SeriesBehind,
    needed: &mut Vec<Row>,
) -> Result<(), OutOfMemory>
    ensures needed { OnOk result (needed.new.items ≡ needed.old.items ++ cond (is_met_by needs.now row
        && (int_lt needs.now.start row.point.end
        || (is_before_by needs.now row && not (is_some (lookup (same_series row.key) behind.old.entries)))))
        (row ∷ []) []) }
    ensures behind { (key : Key) → OnOk result (is_some (lookup (same_series key) behind.new.entries)
        ≡ (is_earlier (is_met_by needs.now) (is_before_by needs.now) needs.now.start key row
        || is_some (lookup (same_series key) behind.old.entries))) }
{
    if needs.is_needed(alloc, &row, behind)? {
        needed.push(row)?;
    }
    Ok(())
}

// Rows that are given the last one first.
fn rows_of_backwards(alloc: Global, backwards: Vec<Row>) -> Result<SourceRows, OutOfMemory>
    requires source { IsSource (reverse backwards.items) }
    ensures rows { IfOk result (λ rows. rows ≡ reverse backwards.items) }
{
    let mut rest = backwards;
    let mut rows = SourceRows::new(alloc);
    while let Some(row) = rest.pop() {
        rows.push(row)?;
    }
    Ok(rows)
}

/// Those of some rows that matter.
fn needed_rows_of(
    alloc: Global,
    needs: &Needs<'_>,
    rows: &SourceRows,
) -> Result<SourceRows, OutOfMemory>
    requires source { IsSource rows.now }
    ensures needed { IfOk result (λ needed. needed
        ≡ needed_rows (is_met_by needs.now) (is_before_by needs.now) needs.now.start rows.now) }
{
    let backwards = needed_backwards(alloc, needs, rows)?;
    rows_of_backwards(alloc, backwards)
}

/// What a result of a query holds of some rows at a moment.
pub(crate) fn held_of(
    alloc: Global,
    typed: &Typed,
    moment: i64,
    rows: &SourceRows,
) -> Result<SourceRows, OutOfMemory>
    requires typed { IsTyped (typed_tree typed.now) rows.now }
    requires path { is_one_path (node_tree typed.now.tree) ≡ true }
    requires source { IsSource rows.now }
    requires moment { pos 0 ≤ℤ moment }
    ensures held { IfOk result (λ held. held ≡ spec.held_of (typed_tree typed.now) moment rows.now) }
{
    match needs_of(alloc, typed, moment)? {
        Some(needs) => needed_rows_of(alloc, &needs, rows),
        None => Ok(SourceRows::new(alloc)),
    }
}

/// What tells which rows matter to a query at a moment; none where none does.
pub(crate) fn needs_of<'a>(
    alloc: Global,
    typed: &'a Typed,
    moment: i64,
) -> Result<Option<Needs<'a>>, OutOfMemory>
    requires grid { IsLawfulGrid (grid_of (typed_tree typed.now) moment) }
    requires looks_back { LooksBack (node_tree typed.now.tree) }
    ensures needs { IfOk result (NeedsFound (typed_tree typed.now) moment) }
{
    let way = way_down(alloc, &typed.tree, Stop::Alignment)?;
    match way.end {
        Node::Align { info: _, by, input } => needs_at(alloc, *by, input, &grid_of(typed, moment)),
        _ => Ok(None),
    }
}

// What tells which rows matter to an alignment.
fn needs_at<'a>(
    alloc: Global,
    by: Aligner,
    input: &'a Node,
    grid: &Grid,
) -> Result<Option<Needs<'a>>, OutOfMemory>
    requires lawful { IsLawfulGrid grid.now }
    requires looks_back { IsDuration (seconds_of by) }
    ensures needs { IfOk result (NeedsAt grid.now by (node_tree input.now)) }
{
    match Fetch::new(alloc, input)? {
        Some(fetch) => Ok(Some(Needs {
            fetch,
            by,
            start: reach_start(by, grid),
        })),
        None => Ok(None),
    }
}
