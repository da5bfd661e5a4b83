// How much work was done so far.
ghost use Rattle.std.specs.Prelude.{◌≡◌, ◌+◌, ◌<◌, ◌≤◌, ◌^◌, IfErr, OnOk};
ghost use Rattle.mon_value.specs.declared.limits.TheConstants.{ROW_BITS};
ghost use Rattle.mon_meaning.specs.Counts.{TellsOver};

use mon_value::{Refusal, TryCopy};
use std::alloc::{AllocError, Global};

/// The load of a query is above the limit.
#[derive(PartialEq, Eq, Drop)]
pub struct OverLimit {
    /// What was counted when the limit was passed: above the limit, and at most the load.
    pub load: u64,
}

impl TryCopy for OverLimit {
    fn copy(&self, _alloc: Global) -> Result<OverLimit, AllocError> {
        Ok(OverLimit { load: self.load })
    }
}

/// The load so far, which is within its limit.
#[derive(Drop)]
pub struct Meter {
    limit: u64,
    load: u64,
    ghost within: { load ≤ limit },
    ghost few: { limit ≤ 2 ^ ROW_BITS },
}

impl Meter {
    /// Nothing so far.
    pub fn new(limit: u64) -> Meter
        requires few { limit ≤ 2 ^ ROW_BITS }
        ensures limit { result.limit ≡ limit }
        ensures none { result.load ≡ 0 }
    {
        Meter { limit, load: 0 }
    }

    /// Counts more points or rows, unless they are above the limit.
    pub fn add(&mut self, more: usize) -> Result<(), Refusal<OverLimit>>
        ensures limit { self.new.limit ≡ self.old.limit }
        ensures counted { OnOk result (self.new.load ≡ self.old.load + more) }
        ensures over { IfErr result (TellsOver self.old.limit (self.old.load + more)) }
    {
        let load = self.load.saturating_add(more as u64);
        if load > self.limit {
            return Err(Refusal::Fault(OverLimit { load }));
        }
        self.load = load;
        Ok(())
    }

    /// How much was counted so far.
    pub(crate) fn counted(&self) -> u64
        ensures load { result ≡ self.now.load }
    {
        self.load
    }

    /// How much more is within the limit.
    pub fn room(&self) -> u64
        ensures room { self.now.load + result ≡ self.now.limit }
    {
        self.limit - self.load
    }

    /// The refusal of more than there is room for, where it isn't known how much more.
    pub fn over(&self) -> OverLimit
        ensures over { result.load ≡ self.now.limit + 1 }
    {
        OverLimit {
            load: self.limit + 1,
        }
    }
}
