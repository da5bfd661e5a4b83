// A result that stands.
ghost use Rattle.std.specs.Prelude.{◌≡◌, ◌≤◌, ◌<ℤ◌, ◌≤ℤ◌, ◌++◌, ◌∷◌, ◌^◌, [], pos, true, IfErr, IfOk, IfSome};
ghost use Rattle.std.specs.Prelude.{OnErr, OnOk};
ghost use Rattle.std.specs.Option.{option_copied};
ghost use Rattle.mon_value.specs.LeafHistories.{IsSource, last_end, points_of};
ghost use Rattle.mon_value.specs.declared.limits.TheConstants.{ROW_BITS};
ghost use Rattle.typed_trees.specs.Meaning.{grid_of, load, rows_meant};
ghost use Rattle.typed_trees.specs.Nodes.{columns_of, node_tree, typed_tree};
ghost use Rattle.typed_trees.specs.Soundness.{IsTyped};
ghost use Rattle.mon_meaning.specs.Central.{IsAnswer};
ghost use Rattle.mon_meaning.specs.Incremental.{is_incremental, is_one_path};
ghost use Rattle.mon_meaning.specs.Standing.{IsTableOf};
ghost use Rattle.standing_incr.specs.Comings.{ComesTo};
ghost use Rattle.standing_incr.specs.HeldRows.{held_of};
ghost use Rattle.standing_incr.specs.KeptTables.{AreGroupsAt, CannotBeKept, StandsFor, aligned_part, grouped_part};
ghost use Rattle.standing_incr.specs.declared.comings.Coming.TheVariants as coming;

use crate::comings::{Coming, coming_of};
use crate::faults::NotIncremental;
use crate::filling::standing_of;
use crate::in_place::put_row;
use crate::needs;
use crate::results::result_of;
use crate::source_rows::SourceRows;
use crate::tables::Standing;
use crate::ways::is_incremental;
use mon_fold::Parts;
use mon_meaning::OverLimit;
use mon_value::{OutOfMemory, Refusal, Row, RowList, Table, TryCopy};
use std::alloc::Global;
use std::marker::Model;
use std::mem;
use typed_trees::Typed;

/// A query's result over the rows that it holds: those that were added and can matter at its moment or at a later one.
/// The tables that it comes from are kept as rows come, so that to look at them takes no memory.
#[derive(Drop)]
pub struct Kept {
    alloc: Global,
    typed: Typed,
    moment: i64,
    holding: Holding,
}

/// The rows that are held, and what they come to.
#[derive(Drop)]
struct Holding {
    rows: SourceRows,
    standing: Standing,
}

impl Model for Kept {
    ghost use Rattle.std.specs.Coded.{codes};
    ghost use Rattle.typed_trees.specs.Nodes.{typed_tree};
    ghost use Rattle.typed_trees.specs.contracts.nodes.Node as node;
    ghost use Rattle.standing_incr.specs.Keeping.{IsStanding, StandingResult};

    ghost coded = { Prim.hlevel (codes, node.the_row.coded) };

    ghost Value = { StandingResult };

    ghost view = { λ kept. record {
      typed = kept.typed;
      moment = kept.moment;
      held = kept.holding.rows;
    } };

    ghost invariant = { λ kept. IsStanding (typed_tree kept.typed) kept.moment kept.holding.rows
        kept.holding.standing };
}

impl Kept {
    /// A result of a query over no rows, at a moment in seconds from the epoch.
    pub fn new(alloc: Global, typed: Typed, moment: i64) -> Result<Kept, Refusal<NotIncremental>>
        requires typed { IsTyped (typed_tree typed) [] }
        requires moment { pos 0 ≤ℤ moment }
        ensures kept { IfOk result (λ kept. kept ≡ record { typed = typed; moment = moment; held = [] }) }
        ensures incremental { OnOk result (is_incremental (typed_tree typed).tree ≡ true) }
        ensures refused { IfErr result (CannotBeKept (typed_tree typed).tree) }
    {
        Kept::made(alloc, typed, moment, SourceRows::new(alloc))
    }

    /// A result of a query over rows: as `new`, and then `add` for each row, but made at once.
    pub fn over(
        alloc: Global,
        typed: Typed,
        moment: i64,
        rows: &RowList,
    ) -> Result<Kept, Refusal<NotIncremental>>
        requires typed { IsTyped (typed_tree typed) rows.now }
        requires source { IsSource rows.now }
        requires moment { pos 0 ≤ℤ moment }
        ensures kept { IfOk result (λ kept. kept ≡ record {
          typed = typed;
          moment = moment;
          held = held_of (typed_tree typed) moment rows.now;
        }) }
        ensures incremental { OnOk result (is_incremental (typed_tree typed).tree ≡ true) }
        ensures refused { IfErr result (CannotBeKept (typed_tree typed).tree) }
    {
        let rows = SourceRows::of_rows(alloc, rows.as_slice())?;
        Kept::made(alloc, typed, moment, rows)
    }

    /// Adds a row, which ends later than all held rows of its series. After a refusal nothing has changed.
    pub fn add(&mut self, row: &Row) -> Result<(), OutOfMemory>
        requires typed { IsTyped (typed_tree self.old.typed) (self.old.held ++ row.now ∷ []) }
        requires later { IfSome (last_end (points_of row.now.key self.old.held)) (λ last. last <ℤ row.now.point.end) }
        ensures query { self.new.typed ≡ self.old.typed }
        ensures moment { self.new.moment ≡ self.old.moment }
        ensures held { OnOk result
            (self.new.held ≡ held_of (typed_tree self.old.typed) self.old.moment (self.old.held ++ row.now ∷ [])) }
        ensures kept { OnErr result (self.new.held ≡ self.old.held) }
    {
        match coming_of(self.alloc, &self.typed, self.moment, row)? {
            Coming::Unheld => Ok(()),
            Coming::Ahead => push_copy(self.alloc, &mut self.holding.rows, row),
            Coming::InReach => self.put(row),
            Coming::AtOnce => self.fill_with(row),
        }
    }

    /// Goes on to a moment, which is not before the one so far. Rows that matter no more are no longer held. After a
    /// refusal nothing has changed.
    pub fn advance(&mut self, moment: i64) -> Result<(), OutOfMemory>
        requires later { self.old.moment ≤ℤ moment }
        ensures query { self.new.typed ≡ self.old.typed }
        ensures moment { OnOk result (self.new.moment ≡ moment) }
        ensures held { OnOk result (self.new.held ≡ held_of (typed_tree self.old.typed) moment self.old.held) }
        ensures kept { OnErr result (self.new ≡ self.old) }
    {
        let next = holding_of(self.alloc, &self.typed, moment, &self.holding.rows)?;
        drop(mem::replace(&mut self.holding, next));
        self.moment = moment;
        Ok(())
    }

    /// The table of the alignment over the held rows. No memory is taken.
    pub fn aligned(&self) -> &Table
        requires within { load (typed_tree self.now.typed) self.now.held self.now.moment ≤ 2 ^ ROW_BITS }
        ensures table { IsTableOf (columns_of (aligned_part (node_tree self.now.typed.tree)))
            (rows_meant (grid_of (typed_tree self.now.typed) self.now.moment) (aligned_part (node_tree self.now.typed.tree)) self.now.held)
            result.now }
    {
        match &self.holding.standing {
            Standing::Whole(tables) => &tables.table,
            Standing::Above(_) => unreachable!(),
        }
    }

    /// The partial groups of what flows into the grouping over the held rows, and none where the query doesn't group. No
    /// memory is taken.
    pub fn parts(&self) -> Option<&Parts>
        requires within { load (typed_tree self.now.typed) self.now.held self.now.moment ≤ 2 ^ ROW_BITS }
        ensures groups { AreGroupsAt (grid_of (typed_tree self.now.typed) self.now.moment) self.now.held
            (grouped_part (node_tree self.now.typed.tree)) (option_copied result) }
    {
        match &self.holding.standing {
            Standing::Whole(tables) => tables.parts.as_ref(),
            Standing::Above(_) => unreachable!(),
        }
    }

    /// What the query means over the held rows. It is refused exactly where its load is above the limit.
    pub fn result(&self, limit: u64) -> Result<Table, Refusal<OverLimit>>
        requires limit { limit ≤ 2 ^ ROW_BITS }
        ensures answer { IsAnswer (typed_tree self.now.typed) self.now.held self.now.moment limit result }
    {
        match &self.holding.standing {
            Standing::Whole(tables) => result_of(self.alloc, &self.typed.tree, tables, limit),
            Standing::Above(over) => Err(Refusal::Fault(OverLimit { load: over.load })),
        }
    }

    // Adds a row in reach: the tables are changed where they stand, or else made anew.
    fn put(&mut self, row: &Row) -> Result<(), OutOfMemory>
        requires typed { IsTyped (typed_tree self.old.typed) (self.old.held ++ row.now ∷ []) }
        requires later { IfSome (last_end (points_of row.now.key self.old.held)) (λ last. last <ℤ row.now.point.end) }
        requires comes { ComesTo (typed_tree self.old.typed) self.old.moment row.now coming.InReach }
        ensures query { self.new.typed ≡ self.old.typed }
        ensures moment { self.new.moment ≡ self.old.moment }
        ensures held { OnOk result
            (self.new.held ≡ held_of (typed_tree self.old.typed) self.old.moment (self.old.held ++ row.now ∷ [])) }
        ensures kept { OnErr result (self.new.held ≡ self.old.held) }
    {
        let put = put_row(
            self.alloc,
            &self.typed,
            self.moment,
            &mut self.holding.rows,
            &mut self.holding.standing,
            row,
        )?;
        if put { Ok(()) } else { self.fill_with(row) }
    }

    // Adds a row that may matter at once: the tables are made anew.
    fn fill_with(&mut self, row: &Row) -> Result<(), OutOfMemory>
        requires typed { IsTyped (typed_tree self.old.typed) (self.old.held ++ row.now ∷ []) }
        requires later { IfSome (last_end (points_of row.now.key self.old.held)) (λ last. last <ℤ row.now.point.end) }
        ensures query { self.new.typed ≡ self.old.typed }
        ensures moment { self.new.moment ≡ self.old.moment }
        ensures held { OnOk result
            (self.new.held ≡ held_of (typed_tree self.old.typed) self.old.moment (self.old.held ++ row.now ∷ [])) }
        ensures kept { OnErr result (self.new.held ≡ self.old.held) }
    {
        let rows = with_row(self.alloc, &self.holding.rows, row)?;
        let next = holding_of(self.alloc, &self.typed, self.moment, &rows)?;
        drop(mem::replace(&mut self.holding, next));
        Ok(())
    }

    // A result of a query over those of some rows that matter.
    fn made(
        alloc: Global,
        typed: Typed,
        moment: i64,
        rows: SourceRows,
    ) -> Result<Kept, Refusal<NotIncremental>>
        requires typed { IsTyped (typed_tree typed) rows }
        requires source { IsSource rows }
        requires moment { pos 0 ≤ℤ moment }
        ensures kept { IfOk result (λ kept. kept ≡ record {
          typed = typed;
          moment = moment;
          held = held_of (typed_tree typed) moment rows;
        }) }
        ensures incremental { OnOk result (is_incremental (typed_tree typed).tree ≡ true) }
        ensures refused { IfErr result (CannotBeKept (typed_tree typed).tree) }
    {
        if !is_incremental(&typed.tree) {
            drop(typed);
            drop(rows);
            return Err(Refusal::Fault(NotIncremental));
        }
        let holding = holding_of(alloc, &typed, moment, &rows);
        drop(rows);
        match holding {
            Ok(holding) => Ok(Kept {
                alloc,
                typed,
                moment,
                holding,
            }),
            Err(_fault) => {
                drop(typed);
                Err(Refusal::OutOfMemory)
            }
        }
    }
}

// Rows and one more.
fn with_row(alloc: Global, rows: &SourceRows, row: &Row) -> Result<SourceRows, OutOfMemory>
    requires later { IfSome (last_end (points_of row.now.key rows.now)) (λ last. last <ℤ row.now.point.end) }
    ensures more { IfOk result (λ more. more ≡ rows.now ++ row.now ∷ []) }
{
    let mut more = rows.copy(alloc)?;
    match push_copy(alloc, &mut more, row) {
        Ok(()) => Ok(more),
        Err(fault) => {
            drop(more);
            Err(fault)
        }
    }
}

// Adds a copy of a row. After a refusal nothing has changed.
fn push_copy(alloc: Global, rows: &mut SourceRows, row: &Row) -> Result<(), OutOfMemory>
    requires later { IfSome (last_end (points_of row.now.key rows.old)) (λ last. last <ℤ row.now.point.end) }
    ensures more { OnOk result (rows.new ≡ rows.old ++ row.now ∷ []) }
    ensures kept { OnErr result (rows.new ≡ rows.old) }
{
    rows.push(row.copy(alloc)?)
}

// What is held of some rows at a moment, with its tables.
fn holding_of(
    alloc: Global,
    typed: &Typed,
    moment: i64,
    rows: &SourceRows,
) -> Result<Holding, OutOfMemory>
    requires typed { IsTyped (typed_tree typed.now) rows.now }
    requires source { IsSource rows.now }
    requires path { is_one_path (node_tree typed.now.tree) ≡ true }
    requires moment { pos 0 ≤ℤ moment }
    ensures held { IfOk result (λ holding. holding.rows ≡ held_of (typed_tree typed.now) moment rows.now) }
    ensures stands { IfOk result (λ holding. StandsFor (typed_tree typed.now) moment holding.rows holding.standing) }
{
    let rows = needs::held_of(alloc, typed, moment, rows)?;
    match standing_of(alloc, typed, moment, &rows) {
        Ok(standing) => Ok(Holding { rows, standing }),
        Err(fault) => {
            drop(rows);
            Err(fault)
        }
    }
}
