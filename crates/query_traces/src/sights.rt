// What a query is told with a word of how far its caller has seen.
ghost use Rattle.std.specs.Prelude.{◌≡◌, ◌<◌, ◌++◌, ◌^◌, [], length, IfOk, OnOk};
ghost use Rattle.query_traces.specs.SeenSights.{firsts_from, seen_of, with_first_replica};

use crate::answers::{Resolved, Resolveds};
use crate::asks::Seen;
use mon_topo::{RangeSight, Sight};
use mon_value::{ListOf, OutOfMemory, Range, SlotLeaf};
use std::alloc::Global;

impl Seen {
    /// What whoever has seen so far is told: of each leaf the length of its history, and of each range its first
    /// replica.
    pub fn of(alloc: Global, sight: &Sight) -> Result<Seen, OutOfMemory>
        requires few { length sight.now.ranges < 2 ^ 32 }
        ensures seen { IfOk result (λ seen. seen ≡ seen_of sight.now) }
    {
        let firsts = firsts_of(alloc, sight.ranges.as_slice())?;
        let cuts = ListOf::from_vec(sight.leaves.as_slice().to_vec(alloc)?);
        Ok(Seen { cuts, firsts })
    }
}

// The first replica of each range, as it was seen.
fn firsts_of(alloc: Global, ranges: &[RangeSight]) -> Result<Resolveds, OutOfMemory>
    requires few { length ranges.now < 2 ^ 32 }
    ensures firsts { IfOk result (λ firsts. firsts ≡ firsts_from 0 ranges.now) }
{
    let mut firsts = Resolveds::new(alloc);
    for (number, range) in ranges.iter().enumerate() {
        push_first(&mut firsts, Range(number as u32), range.first)?;
    }
    Ok(firsts)
}

// Adds the first replica of a range, where one was seen to serve.
fn push_first(
    firsts: &mut Resolveds,
    range: Range,
    first: Option<SlotLeaf>,
) -> Result<(), OutOfMemory>
    ensures pushed { OnOk result (firsts.new ≡ firsts.old ++ with_first_replica range.0 first []) }
{
    match first {
        Some(replica) => {
            firsts.push(Resolved {
                range,
                slot: replica.slot,
                leaf: replica.leaf,
            })?;
            Ok(())
        }
        None => Ok(()),
    }
}
