// Numbers in their order, each with how often it comes.
ghost use Rattle.std.specs.Prelude.{◌≡◌, ◌<◌, ◌≤◌, ◌+◌, ◌-◌, ◌^◌, ℤ, List, [], ◌∷◌, length, OnErr, OnOk, Some};
ghost use Rattle.std.specs.BTreeMap.{Updates};
ghost use Rattle.std.specs.Ordering.{int_cmp};
ghost use Rattle.mon_value.specs.Groups.{greatest_of, least_of};
ghost use Rattle.kept_numbers.specs.HowOften.{AreNumbersOf, how_often};

use mon_value::OutOfMemory;
use std::alloc::Global;
use std::collections::BTreeMap;

/// Numbers of which one comes or goes at a time. Each call takes a time that grows with the logarithm of how many there
/// are.
#[derive(Drop)]
pub struct Numbers {
    pub counts: BTreeMap<i128, u64>,
}

impl Numbers {
    /// No numbers.
    pub fn new(alloc: Global) -> Numbers
        ensures { AreNumbersOf [] result.counts.entries }
    {
        Numbers {
            counts: BTreeMap::new(alloc),
        }
    }

    /// How often a number comes.
    pub fn often(&self, number: i128) -> u64
        ensures { result ≡ how_often number self.now.counts.entries }
    {
        match self.counts.get(&number) {
            Some(often) => *often,
            None => 0,
        }
    }

    /// A number more. Only one that isn't there takes memory. After a refusal nothing has changed.
    pub fn add(&mut self, number: i128) -> Result<(), OutOfMemory>
        requires few { (numbers : List ℤ) × AreNumbersOf numbers self.old.counts.entries × (length numbers + 1 < 2 ^ 64) }
        ensures added { OnOk result ((numbers : List ℤ) → AreNumbersOf numbers self.old.counts.entries
            → AreNumbersOf (number ∷ numbers) self.new.counts.entries) }
        ensures kept { OnErr result (self.new.counts.entries ≡ self.old.counts.entries) }
    {
        let often = self.often(number);
        self.counts.insert(number, often + 1)?;
        Ok(())
    }

    /// A number less, which is there. No memory is taken.
    pub fn take(&mut self, number: i128)
        ensures { (numbers : List ℤ) → AreNumbersOf (number ∷ numbers) self.old.counts.entries
            → AreNumbersOf numbers self.new.counts.entries }
    {
        let often = self.often(number);
        if often > 1 {
            lessen(&mut self.counts, number, often - 1);
        } else {
            self.counts.remove(&number);
        }
    }

    /// The least of the numbers, if there is one.
    pub fn least(&self) -> Option<i128>
        ensures { (numbers : List ℤ) → AreNumbersOf numbers self.now.counts.entries → result ≡ least_of numbers }
    {
        match self.counts.first_key_value() {
            Some((number, _)) => Some(copied(number)),
            None => None,
        }
    }

    /// The greatest of the numbers, if there is one.
    pub fn greatest(&self) -> Option<i128>
        ensures { (numbers : List ℤ) → AreNumbersOf numbers self.now.counts.entries → result ≡ greatest_of numbers }
    {
        match self.counts.last_key_value() {
            Some((number, _)) => Some(copied(number)),
            None => None,
        }
    }
}

// The number.
fn copied(number: &i128) -> i128
    ensures { result ≡ number.now }
{
    *number
}

// Says how often a number comes that is there.
fn lessen(counts: &mut BTreeMap<i128, u64>, number: i128, often: u64)
    requires { 0 < how_often number counts.old.entries }
    ensures { Updates int_cmp counts.old counts.new number (Some often) }
{
    let _ = counts.insert(number, often);
}
