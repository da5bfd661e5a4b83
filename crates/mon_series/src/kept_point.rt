// A point as its series keeps it.
ghost use Rattle.std.specs.Prelude.{◌≡◌, IfErr, IfNone, IfOk, IfSome, Some};
ghost use Rattle.std.specs.Option.{option_copied};
ghost use Rattle.mon_value.specs.Groups.{counts_in, number_in};
ghost use Rattle.mon_series.specs.LongNumbers.{IsLong};
ghost use Rattle.mon_series.specs.within.KeptPoints.{StartFits, point_of};

use mon_value::{Counts, OutOfMemory, Point, TryCopy, Value};
use std::alloc::{AllocError, AllocFailed, Global};
use std::marker::Model;
use std::mem::size_of;

/// A point of a series, in 24 bytes. Contracts see the point. A number of 64 bits and a truth value stand in these
/// bytes, where the point speaks of less than 2^32 seconds; any other point has memory of its own.
#[derive(Drop)]
pub struct KeptPoint {
    form: Form,
}

const _: () = prove!(size_of::<KeptPoint>() == 24);

/// How a point is kept. `seconds` is the time from its start to its end.
#[derive(Drop)]
pub(crate) enum Form {
    Number { seconds: u32, end: i64, number: i64 },
    Truth { seconds: u32, end: i64, truth: bool },
    Boxed(Box<Point>),
}

impl Model for KeptPoint {
    ghost use Rattle.mon_value.specs.declared.rows.Point.{Point};

    ghost Value = { Point };

    ghost use Rattle.mon_series.specs.within.KeptPoints.{StartFits, point_of};

    ghost view = { λ kept. point_of kept.form };

    ghost invariant = { λ kept. StartFits kept.form };
}

impl KeptPoint {
    /// A point as it is kept. Where memory runs out the point is given back.
    pub fn new(alloc: Global, point: Point) -> Result<KeptPoint, AllocFailed<Point>>
        ensures point { IfOk result (λ kept. kept ≡ point) }
        ensures value_returned { IfErr result (λ failed. failed.value ≡ point) }
    {
        match short_form(&point) {
            Some(form) => Ok(KeptPoint { form }),
            None => Ok(KeptPoint {
                form: Form::Boxed(Box::new(alloc, point)?),
            }),
        }
    }

    /// A copy of the point.
    pub fn point(&self, alloc: Global) -> Result<Point, OutOfMemory>
        ensures point { IfOk result (λ point. point ≡ self.now) }
    {
        Ok(Point {
            start: self.start(),
            end: self.end(),
            value: self.value(alloc)?,
        })
    }

    /// The start of the point.
    pub fn start(&self) -> i64
        ensures start { result ≡ self.now.start }
    {
        match &self.form {
            Form::Number { seconds, end, .. } => *end - i64::from(*seconds),
            Form::Truth { seconds, end, .. } => *end - i64::from(*seconds),
            Form::Boxed(point) => point.start,
        }
    }

    /// The end of the point.
    pub fn end(&self) -> i64
        ensures end { result ≡ self.now.end }
    {
        match &self.form {
            Form::Number { end, .. } | Form::Truth { end, .. } => *end,
            Form::Boxed(point) => point.end,
        }
    }

    /// A copy of the point's value.
    pub fn value(&self, alloc: Global) -> Result<Value, OutOfMemory>
        ensures value { IfOk result (λ value. value ≡ self.now.value) }
    {
        match &self.form {
            Form::Number { number, .. } => Ok(Value::Int(i128::from(*number))),
            Form::Truth { truth, .. } => Ok(Value::Bool(*truth)),
            Form::Boxed(point) => point.value.copy(alloc),
        }
    }

    /// The number that the point's value is, if it is one.
    pub fn number(&self) -> Option<i128>
        ensures number { result ≡ number_in self.now.value }
    {
        match &self.form {
            Form::Number { number, .. } => Some(i128::from(*number)),
            Form::Truth { .. } => None,
            Form::Boxed(point) => whole_of(&point.value),
        }
    }

    /// The number that the point's value is, if it is one of 64 bits.
    pub fn short_number(&self) -> Option<i64>
        ensures number { IfSome result (λ number. number_in self.now.value ≡ Some number) }
        ensures none { IfNone result (IfSome (number_in self.now.value) IsLong) }
    {
        match &self.form {
            Form::Number { number, .. } => Some(*number),
            Form::Truth { .. } => None,
            Form::Boxed(point) => short_number_of(&point.value),
        }
    }

    /// The distribution that the point's value is, if it is one.
    pub fn counts(&self) -> Option<&Counts>
        ensures counts { option_copied result ≡ counts_in self.now.value }
    {
        match &self.form {
            Form::Number { .. } | Form::Truth { .. } => None,
            Form::Boxed(point) => counts_of(&point.value),
        }
    }
}

impl TryCopy for KeptPoint {
    fn copy(&self, alloc: Global) -> Result<KeptPoint, AllocError> {
        Ok(KeptPoint::new(alloc, self.point(alloc)?)?)
    }
}

// A point in the bytes of its form, if it fits there.
fn short_form(point: &Point) -> Option<Form>
    ensures form { IfSome result (λ form. point_of form ≡ point.now) }
    ensures fits { IfSome result StartFits }
{
    let seconds = u32::try_from(point.end.checked_sub(point.start)?).ok()?;
    match &point.value {
        Value::Int(number) => Some(Form::Number {
            seconds,
            end: point.end,
            number: i64::try_from(*number).ok()?,
        }),
        Value::Bool(truth) => Some(Form::Truth {
            seconds,
            end: point.end,
            truth: *truth,
        }),
        Value::Text(_) | Value::Dist(_) => None,
    }
}

// The number that a value is, if it is one.
fn whole_of(value: &Value) -> Option<i128>
    ensures number { result ≡ number_in value.now }
{
    match value {
        Value::Int(number) => Some(*number),
        Value::Bool(_) | Value::Text(_) | Value::Dist(_) => None,
    }
}

// The number that a value is, if it is one of 64 bits.
fn short_number_of(value: &Value) -> Option<i64>
    ensures number { IfSome result (λ number. number_in value.now ≡ Some number) }
    ensures none { IfNone result (IfSome (number_in value.now) IsLong) }
{
    match whole_of(value) {
        Some(number) => i64::try_from(number).ok(),
        None => None,
    }
}

// The distribution that a value is, if it is one.
fn counts_of(value: &Value) -> Option<&Counts>
    ensures counts { option_copied result ≡ counts_in value.now }
{
    match value {
        Value::Dist(counts) => Some(counts),
        Value::Int(_) | Value::Bool(_) | Value::Text(_) => None,
    }
}
