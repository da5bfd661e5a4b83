// The buckets of a series.
ghost use Rattle.std.specs.Prelude.{◌≡◌, ◌<◌, ◌≤◌, IfOk, IfSome, IfNone};
ghost use Rattle.std.specs.List.{zip};
ghost use Rattle.mon_hints.specs.BucketSets.{HasNone, IsNext, is_set, no_bucket, with_bucket, with_buckets};
ghost use Rattle.mon_hints.specs.Hints.{text_excerpts, value_excerpts, series_buckets};
ghost use Rattle.mon_hints.specs.Labels.{bucket_behind, buckets_behind, buckets_of_pairs};
ghost use Rattle.mon_hints.specs.Formulas.{IsListing, is_among};

use crate::bucket_sets::BucketSet;
use crate::excerpts::{BACK_MARK, FRONT_MARK, truth_bytes};
use crate::fingerprints::{Buckets, Fingerprint};
use itoa::Buffer;
use mon_value::{
    Field, FieldValue, MOST_BUCKETS, MetricSchema, OutOfMemory, SeriesKey, TargetSchema,
};
use std::alloc::Global;

/// The buckets of a series, among so many: rising, each once.
pub fn hints_of(
    alloc: Global,
    key: &SeriesKey,
    target: &TargetSchema,
    metric: &MetricSchema,
    buckets: u32,
) -> Result<Buckets, OutOfMemory>
    requires some { 0 < buckets }
    requires most { buckets ≤ MOST_BUCKETS }
    ensures listing { IfOk result (λ listed. IsListing (series_buckets buckets target.now metric.now key.now) listed) }
{
    let set = series_set(key, target, metric, buckets);
    let mut listed = Buckets::new(alloc);
    let mut from = 0;
    while let Some(bucket) = set.next(from) {
        listed.push(bucket)?;
        from = bucket + 1;
    }
    Ok(listed)
}

/// The least bucket of a series, among so many, that is at or above a number. No memory is taken.
pub fn next_bucket(
    key: &SeriesKey,
    target: &TargetSchema,
    metric: &MetricSchema,
    buckets: u32,
    from: u32,
) -> Option<u32>
    requires some { 0 < buckets }
    requires most { buckets ≤ MOST_BUCKETS }
    ensures least { IfSome result (λ next. IsNext (λ bucket. is_among bucket
        (series_buckets buckets target.now metric.now key.now)) from next) }
    ensures none { IfNone result (HasNone (λ bucket. is_among bucket
        (series_buckets buckets target.now metric.now key.now)) from) }
{
    series_set(key, target, metric, buckets).next(from)
}

/// The set of a series' buckets, among so many, by one pass over its excerpts. No memory is taken.
pub fn series_set(
    key: &SeriesKey,
    target: &TargetSchema,
    metric: &MetricSchema,
    buckets: u32,
) -> BucketSet
    requires some { 0 < buckets }
    requires most { buckets ≤ MOST_BUCKETS }
    ensures set { is_set result.words ≡ with_buckets no_bucket (series_buckets buckets target.now metric.now key.now) }
{
    let mut set = BucketSet::new();
    let schema = Fingerprint::of_schema(key.target.schema.as_bytes());
    let name = key.metric.as_bytes();
    let (targets, metrics) = (key.target.fields.as_slice(), key.fields.as_slice());
    insert_excerpt(&mut set, schema.of_field(&[]), name, buckets);
    insert_fields(&mut set, schema, target.fields.as_slice(), targets, buckets);
    insert_fields(&mut set, schema, metric.fields.as_slice(), metrics, buckets);
    set
}

// Adds the buckets of the values of fields.
fn insert_fields(
    set: &mut BucketSet,
    schema: Fingerprint,
    fields: &[Field],
    values: &[FieldValue],
    buckets: u32,
)
    requires some { 0 < buckets }
    requires most { buckets ≤ MOST_BUCKETS }
    ensures added { is_set set.new.words
        ≡ with_buckets (is_set set.old.words) (buckets_of_pairs buckets schema.state (zip fields.now values.now)) }
{
    for (field, value) in fields.iter().zip(values) {
        insert_value(set, schema.of_field(field.name.as_bytes()), value, buckets);
    }
}

// Adds the buckets of a value, whose field's fingerprint is given.
fn insert_value(set: &mut BucketSet, field: Fingerprint, value: &FieldValue, buckets: u32)
    requires some { 0 < buckets }
    requires most { buckets ≤ MOST_BUCKETS }
    ensures added { is_set set.new.words
        ≡ with_buckets (is_set set.old.words) (buckets_behind buckets field.state (value_excerpts value.now)) }
{
    match value {
        FieldValue::Int(number) => {
            let mut buffer = Buffer::new();
            insert_excerpt(set, field, buffer.format(*number).as_bytes(), buckets);
        }
        FieldValue::Bool(truth) => insert_excerpt(set, field, truth_bytes(*truth), buckets),
        FieldValue::Text(text) => insert_text(set, field, text.as_bytes(), buckets),
    }
}

// Adds the buckets of a text: those of its windows of three bytes, between its marks.
fn insert_text(set: &mut BucketSet, field: Fingerprint, text: &[u8], buckets: u32)
    requires some { 0 < buckets }
    requires most { buckets ≤ MOST_BUCKETS }
    ensures added { is_set set.new.words
        ≡ with_buckets (is_set set.old.words) (buckets_behind buckets field.state (text_excerpts text.now)) }
{
    let (mut first, mut second) = (FRONT_MARK, FRONT_MARK);
    for byte in text {
        insert_excerpt(set, field, &[first, second, *byte], buckets);
        (first, second) = (second, *byte);
    }
    insert_excerpt(set, field, &[first, second, BACK_MARK], buckets);
    insert_excerpt(set, field, &[second, BACK_MARK, BACK_MARK], buckets);
}

// Adds the bucket of an excerpt.
fn insert_excerpt(set: &mut BucketSet, field: Fingerprint, excerpt: &[u8], buckets: u32)
    requires some { 0 < buckets }
    requires most { buckets ≤ MOST_BUCKETS }
    ensures added { is_set set.new.words
        ≡ with_bucket (is_set set.old.words) (bucket_behind buckets field.state excerpt.now) }
{
    set.insert(field.with_bytes(excerpt).bucket(buckets));
}
