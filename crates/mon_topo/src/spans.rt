// Where the leaves and the ranges of each zone begin.
ghost use Rattle.std.specs.Prelude.{◌≡◌, None, IfOk};
ghost use Rattle.mon_topo.specs.Faults.{too_many};
ghost use Rattle.mon_topo.specs.Indexed.{spans_from};

use crate::zones::ZoneSpec;
use mon_value::OutOfMemory;
use std::alloc::Global;

/// The numbers of a zone's leaves and ranges: the first, and how many there are.
#[derive(Clone, Copy)]
pub struct ZoneSpan {
    pub first_leaf: u32,
    pub leaves: u32,
    pub first_range: u32,
    pub ranges: u32,
}

/// The spans of all zones.
pub(crate) fn spans_of(alloc: Global, zones: &[ZoneSpec]) -> Result<Vec<ZoneSpan>, OutOfMemory>
    requires few { too_many zones.now ≡ None }
    ensures spans { IfOk result (λ spans. spans.items ≡ spans_from 0 0 zones.now) }
{
    let mut spans = Vec::with_capacity(alloc, zones.len())?;
    let mut first_leaf = 0;
    let mut first_range = 0;
    for zone in zones {
        let leaves = zone.leaves.len() as u32;
        let ranges = zone.ranges.len() as u32;
        spans.push(ZoneSpan {
            first_leaf,
            leaves,
            first_range,
            ranges,
        })?;
        first_leaf += leaves;
        first_range += ranges;
    }
    Ok(spans)
}
