// The buckets that a leaf's series have.
ghost use Rattle.std.specs.Prelude.{◌≡◌, ◌<◌, ◌≤◌, ◌||◌, ◌∷◌, ℕ, [], false, IfSome, IfNone, IsTrue};
ghost use Rattle.mon_hints.specs.BucketSets.{HasNone, IsNext, is_set};
ghost use Rattle.mon_hints.specs.Formulas.{is_among};
ghost use Rattle.mon_hints.specs.Hints.{rows_buckets};
ghost use Rattle.leaf_store.specs.LeafStates.{key_buckets};
ghost use Rattle.leaf_store.specs.within.Raises.{AddsBuckets, AddsEntry, HoldsBuckets, IsKnown, is_left};

use crate::guess::Guess;
use crate::replicas::{Replica, Replicas, find_series};
use mon_hints::{BucketSet, series_set};
use mon_schema::Schemas;
use mon_series::KeptSeries;
use mon_value::{Entry, MOST_BUCKETS, Row, SeriesKey};

/// Adds the buckets of the series that an entry brings as `raise` does, unless the series' number is known: then it has
/// none to add.
pub(crate) fn raise_unknown(
    raised: &mut BucketSet,
    replicas: &Replicas,
    schemas: &Schemas,
    buckets: u32,
    entry: &Entry,
    series: Option<u32>,
    guess: &mut Guess,
)
    requires some { 0 < buckets }
    requires most { buckets ≤ MOST_BUCKETS }
    requires held { HoldsBuckets replicas.now.entries (key_buckets buckets schemas.now) (is_set raised.old.words) }
    ensures added { IfNone series
        (AddsEntry buckets schemas.now entry.now (is_set raised.old.words) (is_set raised.new.words)) }
    ensures kept { IfSome series (λ number. is_set raised.new.words ≡ is_set raised.old.words) }
{
    if series.is_none() {
        raise(raised, replicas, schemas, buckets, entry, guess);
    }
}

// Adds the buckets of the series that an entry brings, unless its replica has that series; then it is found by the
// number that was guessed, and its own number is the next guess.
fn raise(
    raised: &mut BucketSet,
    replicas: &Replicas,
    schemas: &Schemas,
    buckets: u32,
    entry: &Entry,
    guess: &mut Guess,
)
    requires some { 0 < buckets }
    requires most { buckets ≤ MOST_BUCKETS }
    requires held { HoldsBuckets replicas.now.entries (key_buckets buckets schemas.now) (is_set raised.old.words) }
    ensures added { AddsEntry buckets schemas.now entry.now (is_set raised.old.words) (is_set raised.new.words) }
{
    match known_series(replicas, entry, guess) {
        Some(found) => guess.series = found.number,
        None => add_entry(raised, schemas, buckets, entry),
    }
}

// The series of an entry's row, if its replica has that series.
fn known_series(replicas: &Replicas, entry: &Entry, guess: &mut Guess) -> Option<KeptSeries>
    ensures known { IfSome result (λ found. IsKnown replicas.now.entries entry.now) }
{
    match entry {
        Entry::Put {
            range,
            slot,
            row,
            ..
        } => find_series(
            replicas,
            Replica {
                range: *range,
                slot: *slot,
            },
            &row.key,
            guess.series,
            &mut guess.place,
        ),
        _ => None,
    }
}

// Adds the buckets of the series that an entry brings.
fn add_entry(raised: &mut BucketSet, schemas: &Schemas, buckets: u32, entry: &Entry)
    requires some { 0 < buckets }
    requires most { buckets ≤ MOST_BUCKETS }
    ensures added { AddsEntry buckets schemas.now entry.now (is_set raised.old.words) (is_set raised.new.words) }
{
    match entry {
        Entry::Opened { rows, .. } => add_rows(raised, schemas, buckets, rows.as_slice()),
        Entry::Put { row, .. } => add_key(raised, schemas, buckets, &row.key),
        Entry::Trim { .. } | Entry::Down { .. } | Entry::Up { .. } => {}
    }
}

// Adds the buckets of the series of rows.
fn add_rows(raised: &mut BucketSet, schemas: &Schemas, buckets: u32, rows: &[Row])
    requires some { 0 < buckets }
    requires most { buckets ≤ MOST_BUCKETS }
    ensures added { AddsBuckets (is_set raised.old.words) (is_set raised.new.words)
        (rows_buckets (key_buckets buckets schemas.now) rows.now) }
{
    for row in rows {
        add_key(raised, schemas, buckets, &row.key);
    }
}

// Adds the buckets of a series.
fn add_key(raised: &mut BucketSet, schemas: &Schemas, buckets: u32, key: &SeriesKey)
    requires some { 0 < buckets }
    requires most { buckets ≤ MOST_BUCKETS }
    ensures added { AddsBuckets (is_set raised.old.words) (is_set raised.new.words)
        (key_buckets buckets schemas.now key.now) }
{
    let own = key_set(schemas, buckets, key);
    add_set(raised, &own);
}

// Adds the buckets of a set.
fn add_set(raised: &mut BucketSet, own: &BucketSet)
    ensures added { (bucket : ℕ) → is_set raised.new.words bucket
        ≡ (is_set raised.old.words bucket || is_set own.now.words bucket) }
{
    let mut from = 0;
    while let Some(bucket) = own.next(from) {
        raised.insert(bucket);
        from = bucket + 1;
    }
}

/// The set of a series' buckets: that of none where its schemas aren't held.
pub(crate) fn key_set(schemas: &Schemas, buckets: u32, key: &SeriesKey) -> BucketSet
    requires some { 0 < buckets }
    requires most { buckets ≤ MOST_BUCKETS }
    ensures set { (bucket : ℕ) → is_set result.words bucket
        ≡ is_among bucket (key_buckets buckets schemas.now key.now) }
{
    let Some(target) = schemas.target(key.target.schema.as_bytes()) else {
        return BucketSet::new();
    };
    let Some(metric) = schemas.metric(key.metric.as_bytes()) else {
        return BucketSet::new();
    };
    series_set(key, target, metric, buckets)
}

/// The buckets of a set that are not raised.
pub(crate) fn left_of(raised: &BucketSet, own: &BucketSet) -> BucketSet
    ensures left { (bucket : ℕ) → is_set result.words bucket
        ≡ is_left (is_set raised.now.words) (is_set own.now.words) bucket }
{
    let mut left = BucketSet::new();
    let mut from = 0;
    while let Some(bucket) = next_left(raised, own, from) {
        left.insert(bucket);
        from = bucket + 1;
    }
    left
}

// The least bucket of a set, at or above a number, that is not raised.
fn next_left(raised: &BucketSet, own: &BucketSet, from: u32) -> Option<u32>
    ensures below { IfSome result (λ bucket. bucket < MOST_BUCKETS) }
    ensures least { IfSome result (λ next. IsNext (is_left (is_set raised.now.words) (is_set own.now.words)) from next) }
    ensures none { IfNone result (HasNone (is_left (is_set raised.now.words) (is_set own.now.words)) from) }
{
    let mut place = from;
    while let Some(bucket) = own.next(place) {
        if !raised.has(bucket) {
            return Some(bucket);
        }
        place = bucket + 1;
    }
    None
}
