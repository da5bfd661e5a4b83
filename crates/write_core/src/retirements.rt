// What becomes of a retirement.
ghost use Rattle.std.specs.Prelude.{◌≡◌, Some};
ghost use Rattle.write_core.specs.Retirements.{retired_by};

use mon_value::{Slot, SlotLeaf};

/// What becomes of a retirement of a range's replica on a leaf.
#[derive(Clone, Copy)]
pub enum Retirement {
    /// The replica in this slot serves no longer.
    WasRetired(Slot),
    /// None serves there.
    NotServing,
    /// The replica in this slot is the only one that serves, and goes on.
    LastServing(Slot),
}

impl Retirement {
    /// What becomes of a replica that serves, beside so many that serve with it.
    pub(crate) fn among(replica: SlotLeaf, serve: usize) -> Retirement
        ensures told { result ≡ retired_by (Some replica) serve }
    {
        if serve > 1 {
            Retirement::WasRetired(replica.slot)
        } else {
            Retirement::LastServing(replica.slot)
        }
    }
}
