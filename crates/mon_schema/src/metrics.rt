// What a metric's kind and type are tested for.
ghost use Rattle.std.specs.Prelude.{◌≡◌, true};
ghost use Rattle.mon_value.specs.Groups as distribution;
ghost use Rattle.mon_schema.specs.Faults as spec;
ghost use Rattle.mon_schema.specs.Fits.{AreNumbers, HasNumbers};

use crate::limits::MOST_BOUNDS;
use mon_value::{Bounds, Kind, ValueType};

/// Whether a distribution has 1 to 64 bounds, each above the one before it.
pub(crate) fn is_bounded(of: &ValueType) -> bool
    ensures bounded { result ≡ spec.is_bounded of.now }
    ensures numbers { result ≡ true → HasNumbers of.now }
{
    match of {
        ValueType::Dist(bounds) => are_bounds(bounds),
        _ => true,
    }
}

/// Whether points that speak of a time can be added up, and totals are numbers.
pub(crate) fn is_kind_met(kind: Kind, of: &ValueType) -> bool
    ensures met { result ≡ spec.is_kind_met kind of.now }
{
    match kind {
        Kind::Gauge => true,
        Kind::Delta => matches!(of, ValueType::Int | ValueType::Dist(_)),
        Kind::Cumulative => matches!(of, ValueType::Int),
    }
}

// Whether there are as many bounds as a distribution has, and each is above the one before it.
fn are_bounds(bounds: &Bounds) -> bool
    ensures bounds { result ≡ spec.are_bounds bounds.now }
    ensures numbers { result ≡ true → AreNumbers bounds.now }
{
    !bounds.is_empty() && bounds.len() <= MOST_BOUNDS && bounds_rise(bounds.as_slice())
}

// Whether each bound is above the one before it.
fn bounds_rise(bounds: &[i64]) -> bool
    ensures rising { result ≡ distribution.bounds_rise bounds.now }
    ensures numbers { result ≡ true → AreNumbers bounds.now }
{
    let Some((first, rest)) = bounds.split_first() else {
        return true;
    };
    let mut last = *first;
    for bound in rest {
        if *bound <= last {
            return false;
        }
        last = *bound;
    }
    true
}
