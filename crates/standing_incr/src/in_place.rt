// A row in reach that is put into the tables in place.
ghost use Rattle.std.specs.Prelude.{◌≡◌, ◌<ℤ◌, ◌≤ℤ◌, ◌++◌, ◌∷◌, [], ℕ, List, false, pos, true, IfSome, IsTrue, OnErr, OnOk};
ghost use Rattle.std.specs.List.{AllByRecursion};
ghost use Rattle.mon_value.specs.LeafHistories.{IsSource, last_end, points_of};
ghost use Rattle.mon_value.specs.declared.columns.Column.{Column};
ghost use Rattle.mon_value.specs.declared.tables.TimedRow.{TimedRow};
ghost use Rattle.typed_trees.specs.Nodes.{node_tree, typed_tree};
ghost use Rattle.typed_trees.specs.Soundness.{IsTyped};
ghost use Rattle.mon_meaning.specs.within.Paths.{trees_of};
ghost use Rattle.kept_laws.specs.Flowing.{WorksByRow};
ghost use Rattle.kept_groups.specs.Changes as changed;
ghost use Rattle.kept_groups.specs.Changes.{CanChange};
ghost use Rattle.kept_groups.specs.Trades.{AreGroupsOver};
ghost use Rattle.kept_exchanges.specs.Exchanges.{IsExchanged};
ghost use Rattle.standing_incr.specs.Keeping.{IsStanding};
ghost use Rattle.standing_incr.specs.KeptTables.{AreTablesOf, StandsFor, grouped_part};
ghost use Rattle.standing_incr.specs.Putting.{AreRegrouped, AreRegroupedBy, CanRegroup, CanRegroupBy, HasPut, PartsPut, is_put};
ghost use Rattle.standing_incr.specs.declared.tables.Standing.TheVariants as standing;

use crate::sides::sides_of;
use crate::source_rows::SourceRows;
use crate::tables::{Sides, Standing, Tables};
use crate::ways::{Stop, way_down};
use insertion_map::InsertionMap;
use kept_exchanges::{Exchange, changes_of, write_exchanges};
use kept_groups::{Change, change_groups};
use mon_fold::{AggregateParts, Parts};
use mon_value::{Aggregates, OutOfMemory, Positions, Row, Table, TimedRow, TimedRows, TryCopy};
use std::alloc::Global;
use std::mem::replace;
use typed_trees::{Node, Typed};

/// Puts a row in reach, which is held whatever others there are, into the tables where they stand. Whether that was done:
/// else, as after a refusal, nothing has changed, and the tables are to be made anew.
pub(crate) fn put_row(
    alloc: Global,
    typed: &Typed,
    moment: i64,
    held: &mut SourceRows,
    standing: &mut Standing,
    row: &Row,
) -> Result<bool, OutOfMemory>
    requires stands { IsStanding (typed_tree typed.now) moment held.old standing.old }
    requires typed { IsTyped (typed_tree typed.now) (held.old ++ row.now ∷ []) }
    requires later { IfSome (last_end (points_of row.now.key held.old)) (λ last. last <ℤ row.now.point.end) }
    ensures held { is_put result ≡ true → held.new ≡ held.old ++ row.now ∷ [] }
    ensures stands { is_put result ≡ true → StandsFor (typed_tree typed.now) moment held.new standing.new }
    ensures kept { is_put result ≡ false → held.new ≡ held.old }
    ensures stays { is_put result ≡ false → standing.new ≡ standing.old }
{
    match standing {
        Standing::Whole(tables) => put_in_tables(alloc, typed, moment, held, tables, row),
        Standing::Above(_) => Ok(false),
    }
}

// Puts it into tables that are there.
fn put_in_tables(
    alloc: Global,
    typed: &Typed,
    moment: i64,
    held: &mut SourceRows,
    tables: &mut Tables,
    row: &Row,
) -> Result<bool, OutOfMemory>
    requires stands { IsStanding (typed_tree typed.now) moment held.old (standing.Whole tables.old) }
    requires typed { IsTyped (typed_tree typed.now) (held.old ++ row.now ∷ []) }
    requires later { IfSome (last_end (points_of row.now.key held.old)) (λ last. last <ℤ row.now.point.end) }
    ensures held { is_put result ≡ true → held.new ≡ held.old ++ row.now ∷ [] }
    ensures stands { is_put result ≡ true → AreTablesOf (typed_tree typed.now) moment held.new tables.new }
    ensures kept { is_put result ≡ false → held.new ≡ held.old }
    ensures stays { is_put result ≡ false → tables.new ≡ tables.old }
{
    let sides = match sides_of(alloc, typed, moment, held, row, tables.load)? {
        Some(sides) => sides,
        None => return Ok(false),
    };
    put_sides(alloc, &typed.tree, held, tables, row, sides)
}

// Puts it where what it exchanges is known.
fn put_sides(
    alloc: Global,
    tree: &Node,
    held: &mut SourceRows,
    tables: &mut Tables,
    row: &Row,
    sides: Sides,
) -> Result<bool, OutOfMemory>
    requires later { IfSome (last_end (points_of row.now.key held.old)) (λ last. last <ℤ row.now.point.end) }
    requires can { (others : List TimedRow) × IfSome tables.old.parts
        (λ groups. CanRegroup others (grouped_part (node_tree tree.now)) sides.exchanges.items groups.groups) }
    ensures put { is_put result ≡ true
        → HasPut sides.exchanges.items row.now held.old tables.old.table held.new tables.new.table }
    ensures load { is_put result ≡ true → tables.new.load ≡ sides.load }
    ensures parts { (others : List TimedRow) → IfSome tables.old.parts
        (λ groups. CanRegroup others (grouped_part (node_tree tree.now)) sides.exchanges.items groups.groups)
        → is_put result ≡ true
        → PartsPut others (grouped_part (node_tree tree.now)) sides.exchanges.items tables.old.parts tables.new.parts }
    ensures kept { is_put result ≡ false → held.new ≡ held.old }
    ensures stays { is_put result ≡ false → tables.new ≡ tables.old }
{
    let Sides { exchanges, load } = sides;
    let put = put_exchanges(
        alloc,
        tree,
        held,
        &mut tables.table,
        &mut tables.parts,
        row,
        exchanges,
    )?;
    if !put {
        return Ok(false);
    }
    tables.load = load;
    Ok(true)
}

// Puts it into a table, and into the groups if there are some.
fn put_exchanges(
    alloc: Global,
    tree: &Node,
    held: &mut SourceRows,
    table: &mut Table,
    parts: &mut Option<Parts>,
    row: &Row,
    exchanges: Vec<Exchange>,
) -> Result<bool, OutOfMemory>
    requires later { IfSome (last_end (points_of row.now.key held.old)) (λ last. last <ℤ row.now.point.end) }
    requires can { (others : List TimedRow) × IfSome parts.old
        (λ groups. CanRegroup others (grouped_part (node_tree tree.now)) exchanges.items groups.groups) }
    ensures put { is_put result ≡ true → HasPut exchanges.items row.now held.old table.old held.new table.new }
    ensures parts { (others : List TimedRow) → IfSome parts.old
        (λ groups. CanRegroup others (grouped_part (node_tree tree.now)) exchanges.items groups.groups)
        → is_put result ≡ true
        → PartsPut others (grouped_part (node_tree tree.now)) exchanges.items parts.old parts.new }
    ensures kept { is_put result ≡ false → held.new ≡ held.old }
    ensures table { is_put result ≡ false → table.new ≡ table.old }
    ensures stays { is_put result ≡ false → parts.new ≡ parts.old }
{
    match parts.take() {
        None => {
            put_in_table(alloc, held, table, row, exchanges)?;
            Ok(true)
        }
        Some(groups) => {
            let mut open = groups.open();
            let put = put_grouped(alloc, tree, held, table, &mut open.groups, row, exchanges);
            *parts = Some(open.close());
            put
        }
    }
}

// Puts it into a table and its groups.
fn put_grouped(
    alloc: Global,
    tree: &Node,
    held: &mut SourceRows,
    table: &mut Table,
    groups: &mut InsertionMap<TimedRow, AggregateParts>,
    row: &Row,
    exchanges: Vec<Exchange>,
) -> Result<bool, OutOfMemory>
    requires later { IfSome (last_end (points_of row.now.key held.old)) (λ last. last <ℤ row.now.point.end) }
    requires can { (others : List TimedRow)
        × CanRegroup others (grouped_part (node_tree tree.now)) exchanges.items groups.old.entries }
    ensures put { is_put result ≡ true → HasPut exchanges.items row.now held.old table.old held.new table.new }
    ensures groups { (others : List TimedRow)
        → CanRegroup others (grouped_part (node_tree tree.now)) exchanges.items groups.old.entries
        → is_put result ≡ true
        → AreRegrouped others (grouped_part (node_tree tree.now)) exchanges.items groups.new.entries }
    ensures kept { is_put result ≡ false → held.new ≡ held.old }
    ensures table { is_put result ≡ false → table.new ≡ table.old }
    ensures stays { is_put result ≡ false → groups.new.entries ≡ groups.old.entries }
{
    let way = way_down(alloc, tree, Stop::Grouping)?;
    match way.end {
        Node::GroupBy {
            info: _,
            by,
            with,
            input,
        } => put_flowing(alloc, by, with, input, held, table, groups, row, exchanges),
        _ => Ok(false),
    }
}

// The same by what is grouped.
fn put_flowing(
    alloc: Global,
    by: &Positions,
    with: &Aggregates,
    input: &Node,
    held: &mut SourceRows,
    table: &mut Table,
    groups: &mut InsertionMap<TimedRow, AggregateParts>,
    row: &Row,
    exchanges: Vec<Exchange>,
) -> Result<bool, OutOfMemory>
    requires later { IfSome (last_end (points_of row.now.key held.old)) (λ last. last <ℤ row.now.point.end) }
    requires can { (others : List TimedRow)
        × CanRegroupBy others by.now with.now (node_tree input.now) exchanges.items groups.old.entries }
    ensures put { is_put result ≡ true → HasPut exchanges.items row.now held.old table.old held.new table.new }
    ensures groups { (others : List TimedRow)
        → CanRegroupBy others by.now with.now (node_tree input.now) exchanges.items groups.old.entries
        → is_put result ≡ true
        → AreRegroupedBy others by.now with.now (node_tree input.now) exchanges.items groups.new.entries }
    ensures kept { is_put result ≡ false → held.new ≡ held.old }
    ensures table { is_put result ≡ false → table.new ≡ table.old }
    ensures stays { is_put result ≡ false → groups.new.entries ≡ groups.old.entries }
{
    let way = way_down(alloc, input, Stop::Alignment)?;
    if !work_by_row(way.above.as_slice()) {
        return Ok(false);
    }
    let found = changes_of(
        alloc,
        way.above.as_slice(),
        by.as_slice(),
        with.as_slice(),
        groups,
        exchanges.as_slice(),
    )?;
    match found {
        Some(changes) => {
            put_changes(alloc, with, held, table, groups, row, exchanges, changes)?;
            Ok(true)
        }
        None => Ok(false),
    }
}

// Puts it into a table, and changes the groups. After a refusal nothing has changed.
fn put_changes(
    alloc: Global,
    with: &Aggregates,
    held: &mut SourceRows,
    table: &mut Table,
    groups: &mut InsertionMap<TimedRow, AggregateParts>,
    row: &Row,
    exchanges: Vec<Exchange>,
    changes: Vec<Change>,
) -> Result<(), OutOfMemory>
    requires later { IfSome (last_end (points_of row.now.key held.old)) (λ last. last <ℤ row.now.point.end) }
    requires can { (columns : List Column) × (by : List ℕ) × (rest : List TimedRow)
        × CanChange columns by with.now rest changes.items groups.old.entries }
    ensures put { OnOk result (HasPut exchanges.items row.now held.old table.old held.new table.new) }
    ensures changed { (columns : List Column) (by : List ℕ) (rest : List TimedRow)
        → CanChange columns by with.now rest changes.items groups.old.entries
        → OnOk result (AreGroupsOver by with.now (changed.comes changes.items ++ rest) groups.new.entries) }
    ensures kept { OnErr result (held.new ≡ held.old) }
    ensures table { OnErr result (table.new ≡ table.old) }
    ensures stays { OnErr result (groups.new.entries ≡ groups.old.entries) }
{
    groups.reserve(changes.len())?;
    put_in_table(alloc, held, table, row, exchanges)?;
    change_groups(groups, with.as_slice(), changes);
    Ok(())
}

// Puts it into a table, and holds it. After a refusal nothing has changed.
fn put_in_table(
    alloc: Global,
    held: &mut SourceRows,
    table: &mut Table,
    row: &Row,
    exchanges: Vec<Exchange>,
) -> Result<(), OutOfMemory>
    requires later { IfSome (last_end (points_of row.now.key held.old)) (λ last. last <ℤ row.now.point.end) }
    ensures put { OnOk result (HasPut exchanges.items row.now held.old table.old held.new table.new) }
    ensures kept { OnErr result (held.new ≡ held.old) }
    ensures table { OnErr result (table.new ≡ table.old) }
{
    let mut open = replace(&mut table.rows, TimedRows::new(alloc)).into_vec();
    let put = put_open(alloc, held, &mut open, row, exchanges);
    drop(replace(&mut table.rows, TimedRows::from_vec(open)));
    put
}

// The same of a table's rows. First all memory is taken, then the row is held, and then nothing can fail.
fn put_open(
    alloc: Global,
    held: &mut SourceRows,
    open: &mut Vec<TimedRow>,
    row: &Row,
    exchanges: Vec<Exchange>,
) -> Result<(), OutOfMemory>
    requires later { IfSome (last_end (points_of row.now.key held.old)) (λ last. last <ℤ row.now.point.end) }
    ensures held { OnOk result (held.new ≡ held.old ++ row.now ∷ []) }
    ensures exchanged { OnOk result (IsExchanged exchanges.items open.old.items open.new.items) }
    ensures kept { OnErr result (held.new ≡ held.old) }
    ensures rows { OnErr result (open.new.items ≡ open.old.items) }
{
    open.reserve(exchanges.len())?;
    held.push(row.copy(alloc)?)?;
    write_exchanges(open, exchanges);
    Ok(())
}

// Whether all operations of a way work row by row.
fn work_by_row(above: &[&Node]) -> bool
    ensures { IsTrue result → AllByRecursion WorksByRow (trees_of above.now) }
{
    for node in above {
        if !works_by_row(node) {
            return false;
        }
    }
    true
}

// Whether an operation works row by row.
fn works_by_row(node: &Node) -> bool
    ensures { IsTrue result → WorksByRow (node_tree node.now) }
{
    match node {
        Node::Filter { .. } => true,
        Node::Value { .. } => true,
        Node::Fetch { .. } => false,
        Node::Align { .. } => false,
        Node::GroupBy { .. } => false,
        Node::Top { .. } => false,
        Node::Join { .. } => false,
        Node::Union { .. } => false,
    }
}
