// Blocks of queries in the order of adding, each with the next moment at which one of its queries is due.
ghost use Rattle.std.specs.Prelude.{◌≡◌, ◌<◌, ◌≤◌, ◌++◌, ◌∷◌, [], Some, length, take, drop, set, min, get_or};
ghost use Rattle.std.specs.Prelude.{◌*◌};
ghost use Rattle.std.specs.Vec.{vec_len, vec_capacity};
ghost use Rattle.std.specs.List.{AllByRecursion};
ghost use Rattle.standing.specs.DueLists.{HasPeriod};
ghost use Rattle.standing.specs.QuietMoments.{AreQuiet, IsOnward};

use crate::queries::StandingQuery;
use crate::quiet::{next_behind, next_of};

/// How many queries make a block.
pub(crate) const BLOCK: usize = 64;

/// The first block of queries, and those behind it.
pub(crate) fn split_block(queries: &[StandingQuery]) -> (&[StandingQuery], &[StandingQuery])
    ensures block { result.0.now ≡ take BLOCK queries.now }
    ensures behind { result.1.now ≡ drop BLOCK queries.now }
{
    queries.split_at(queries.len().min(BLOCK))
}

/// Puts the next moments behind this one in place of those behind the last one.
pub(crate) fn settle(nexts: &mut [u64], last: Option<i64>, moment: i64, queries: &[StandingQuery])
    requires lawful { AllByRecursion HasPeriod queries.now }
    requires quiet { AreQuiet last nexts.old queries.now }
    requires onward { IsOnward last moment }
    ensures quiet { AreQuiet (Some moment) nexts.new queries.now }
{
    let mut rest = queries;
    for i in 0..nexts.len() {
        let (block, behind) = split_block(rest);
        let next = next_behind(last, nexts[i], moment, block);
        put_next(nexts, i, next);
        rest = behind;
    }
}

/// Notes a query behind these ones in its block, which is opened if none has room for it.
pub(crate) fn note(
    nexts: &mut Vec<u64>,
    last: Option<i64>,
    queries: &[StandingQuery],
    query: &StandingQuery,
)
    requires room { vec_len nexts.old < vec_capacity nexts.old }
    requires lawful { HasPeriod query.now }
    requires quiet { AreQuiet last nexts.old.items queries.now }
    ensures quiet { AreQuiet last nexts.new.items (queries.now ++ query.now ∷ []) }
{
    open_block(nexts, last, queries);
    lower(
        nexts.as_mut_slice(),
        queries.len() / BLOCK,
        next_of(last, query),
    );
}

// Opens a block behind those that are full.
fn open_block(nexts: &mut Vec<u64>, last: Option<i64>, queries: &[StandingQuery])
    requires room { vec_len nexts.old < vec_capacity nexts.old }
    requires quiet { AreQuiet last nexts.old.items queries.now }
    ensures quiet { AreQuiet last nexts.new.items queries.now }
    ensures room { length queries.now < BLOCK * length nexts.new.items }
{
    if nexts.len() <= queries.len() / BLOCK {
        nexts.push_reserved(u64::MAX);
    }
}

// Makes the next moment of a block no later than this one.
fn lower(nexts: &mut [u64], block: usize, next: u64)
    requires there { block < length nexts.old }
    ensures lowered { nexts.new ≡ set nexts.old block (min (get_or nexts.old block 0) next) }
{
    let own = nexts[block];
    put_next(nexts, block, own.min(next));
}

// Puts the next moment of a block in its place.
fn put_next(nexts: &mut [u64], block: usize, next: u64)
    requires there { block < length nexts.old }
    ensures put { nexts.new ≡ set nexts.old block next }
{
    nexts[block] = next;
}
