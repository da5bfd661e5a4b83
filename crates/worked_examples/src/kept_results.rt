// Results that are kept as rows come, each call made once.
ghost use Rattle.std.specs.Prelude.{◌≡◌, ◌≤◌, ◌^◌, ◌∷◌, [], pos, true, IfOk};
ghost use Rattle.mon_schema.specs.Fits.{fits};
ghost use Rattle.mon_value.specs.LeafHistories.{IsSource};
ghost use Rattle.mon_value.specs.declared.limits.TheConstants.{ROW_BITS};
ghost use Rattle.standing_incr.specs.Turns.{MomentsRise, added};
ghost use Rattle.standing_incr.specs.declared.replaying.Turn.TheVariants as turn;
ghost use Rattle.typed_trees.specs.Meaning.{load};
ghost use Rattle.typed_trees.specs.Nodes.{typed_tree};
ghost use Rattle.typed_trees.specs.Soundness.{IsTyped};

use crate::calls::{fields, key, metric};
use mon_schema::Schemas;
use mon_value::{
    OutOfMemory, Point, Refusal, Row, SeriesKey, Shared, Target, TargetSchema, Text, TryCopy, Value,
};
use query_texts::plan_of;
use standing_incr::{Kept, Turn, Turns, replay};
use std::alloc::{AllocError, Global};
use typed_trees::Typed;

const QUERY: &[u8] = b"fetch T::/m | group_by [u], sum(v)";

const BUCKETS: u32 = 1_024;

const MOMENT: i64 = 60;

const LATER: i64 = 61;

const LIMIT: u64 = 16;

/// What is asked of a result.
#[derive(Clone, Copy)]
pub(crate) enum Way {
    /// A row is added, and what is kept is looked at.
    Added,
    /// A row and a later moment are replayed.
    Replayed,
}

/// Whether a row comes to an aligned row, a group and an answer.
pub(crate) fn has_row(alloc: Global, way: Way) -> Result<bool, OutOfMemory> {
    let schemas = schemas(alloc)?;
    let row = row(alloc)?;
    if schemas.fits(&row) {
        has_fitting(alloc, &schemas, &row, way)
    } else {
        Ok(false)
    }
}

// The same of a row that fits.
fn has_fitting(alloc: Global, schemas: &Schemas, row: &Row, way: Way) -> Result<bool, OutOfMemory>
    requires fits { fits schemas.now row.now ≡ true }
{
    match plan_of(alloc, schemas, BUCKETS, QUERY) {
        Ok(plan) => match way {
            Way::Added => keeps(alloc, plan.typed, row),
            Way::Replayed => replays(alloc, plan.typed, row),
        },
        Err(Refusal::Fault(_fault)) => Ok(false),
        Err(Refusal::OutOfMemory) => Err(AllocError),
    }
}

// A result without rows, to which a row is added.
fn keeps(alloc: Global, typed: Typed, row: &Row) -> Result<bool, OutOfMemory>
    requires typed { IsTyped (typed_tree typed) (row.now ∷ []) }
{
    match Kept::new(alloc, typed, MOMENT) {
        Ok(mut kept) => {
            let held = adds(&mut kept, row);
            drop(kept);
            held
        }
        Err(Refusal::Fault(_form)) => Ok(false),
        Err(Refusal::OutOfMemory) => Err(AllocError),
    }
}

fn adds(kept: &mut Kept, row: &Row) -> Result<bool, OutOfMemory>
    requires typed { IsTyped (typed_tree kept.old.typed) (row.now ∷ []) }
    requires empty { kept.old.held ≡ [] }
{
    kept.add(row)?;
    shows(kept)
}

// Whether a result's table, groups and answer have a row each.
fn shows(kept: &Kept) -> Result<bool, OutOfMemory> {
    match kept.result(LIMIT) {
        Ok(table) => {
            let answered = table.rows.len() == 1;
            drop(table);
            Ok(answered & holds(kept))
        }
        Err(Refusal::Fault(_over)) => Ok(false),
        Err(Refusal::OutOfMemory) => Err(AllocError),
    }
}

fn holds(kept: &Kept) -> bool
    requires within { load (typed_tree kept.now.typed) kept.now.held kept.now.moment ≤ 2 ^ ROW_BITS }
{
    let grouped = match kept.parts() {
        Some(parts) => parts.len() == 1,
        None => false,
    };
    grouped & (kept.aligned().rows.len() == 1)
}

// A row and a later moment, which are replayed.
fn replays(alloc: Global, typed: Typed, row: &Row) -> Result<bool, OutOfMemory>
    requires typed { IsTyped (typed_tree typed) (row.now ∷ []) }
{
    match turns(alloc, row) {
        Ok(turns) => {
            let held = comes_to_one(alloc, typed, &turns);
            drop(turns);
            held
        }
        Err(fault) => {
            drop(typed);
            Err(fault)
        }
    }
}

fn turns(alloc: Global, row: &Row) -> Result<Turns, OutOfMemory>
    ensures turns { IfOk result (λ turns. turns ≡ turn.Add row.now ∷ turn.Advance (pos 61) ∷ []) }
{
    let mut turns = Turns::new(alloc);
    turns.push(Turn::Add(row.copy(alloc)?))?;
    turns.push(Turn::Advance(LATER))?;
    Ok(turns)
}

fn comes_to_one(alloc: Global, typed: Typed, turns: &Turns) -> Result<bool, OutOfMemory>
    requires typed { IsTyped (typed_tree typed) (added turns.now) }
    requires source { IsSource (added turns.now) }
    requires rise { MomentsRise (pos 60) turns.now }
{
    match replay(alloc, typed, MOMENT, turns, LIMIT) {
        Ok(table) => Ok(table.rows.len() == 1),
        Err(Refusal::Fault(_fault)) => Ok(false),
        Err(Refusal::OutOfMemory) => Err(AllocError),
    }
}

fn schemas(alloc: Global) -> Result<Schemas, OutOfMemory> {
    let mut schemas = Schemas::new(alloc);
    let target = TargetSchema {
        name: Text::from_str(alloc, "T")?,
        fields: fields(alloc)?,
    };
    if schemas.add_target(target).is_ok() & schemas.add_metric(metric(alloc)?).is_ok() {
        Ok(schemas)
    } else {
        Err(AllocError)
    }
}

fn row(alloc: Global) -> Result<Row, OutOfMemory> {
    Ok(Row {
        key: Shared::new(alloc, key(alloc)?)?,
        point: Point {
            start: MOMENT,
            end: MOMENT,
            value: Value::Int(7),
        },
    })
}
