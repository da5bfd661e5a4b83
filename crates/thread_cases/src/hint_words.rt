// Bits of hint words that two threads raise: each stands, and who meets another knows its bits.
ghost use Rattle.std.specs.Prelude.{◌≡◌, ◌<◌, length};
ghost use Rattle.raise_table.specs.Seats.{Knows};
ghost use Rattle.mon_hints.specs.declared.places.Place.TheVariants.{Root};

use mon_hints::Place;
use mon_value::{LeafCounts, OutOfMemory};
use raise_table::{HintSeat, OwnerSeat, OwnerSeats, RaiseBlank, RaiseName, RaiseTable};
use std::alloc::Global;
use std::marker::Brand;
use std::thread::{Threads, join};

// Both threads raise the buckets from the first of these on, up to the other, which is not among them.
const SHARED_FROM: u32 = 512;

const SHARED_TO: u32 = 812;

/// Two threads raise bits of the same words at once, each those of its leaf. Who met both knows what either raised, and
/// each word has both bits.
pub fn two_threads_raise_and_load<R: Threads + Sync>(
    rt: &R,
    alloc: Global,
) -> Result<bool, OutOfMemory> {
    let zones = LeafCounts::from_vec(vec![in alloc; 1; 2]?);
    let blank = RaiseBlank::new(alloc, &zones, 1_024)?;
    in_two_threads::<Brand, _>(rt, alloc, blank)
}

fn in_two_threads<N: RaiseName + Send + Sync, R: Threads + Sync>(
    rt: &R,
    alloc: Global,
    blank: RaiseBlank,
) -> Result<bool, OutOfMemory>
    requires named { blank ≡ N.raise }
    requires shape { (length N.raise.zones ≡ 2) × (N.raise.buckets ≡ 1024) }
{
    let (table, seat, owners) = RaiseTable::<N>::open(alloc, blank)?;
    let Some((one, two)) = both_owners(owners) else {
        return Ok(false);
    };
    Ok(words_after_both(rt, &table, seat, one, two) == [1, 2, 300])
}

// The owners of two leaves.
fn both_owners<N: RaiseName>(owners: OwnerSeats<N>) -> Option<(OwnerSeat<N>, OwnerSeat<N>)> {
    let mut owners = owners.into_vec();
    let two = owners.pop()?;
    let one = owners.pop()?;
    Some((one, two))
}

// The words of two buckets that one leaf each raised, and how many words of those that both raised have both bits.
fn words_after_both<N: RaiseName + Send + Sync, R: Threads + Sync>(
    rt: &R,
    table: &RaiseTable<N>,
    seat: HintSeat<N>,
    one: OwnerSeat<N>,
    two: OwnerSeat<N>,
) -> [u64; 3]
    requires shape { (length N.raise.zones ≡ 2) × (N.raise.buckets ≡ 1024) }
{
    let mut seat = seat;
    let (one, two) = join(
        rt,
        || -> HintSeat<N>
            requires bucket { 192 < N.raise.buckets }
            requires shape { N.raise.buckets ≡ 1024 }
            ensures { Knows result Root 192 one.leaf.zone.0 }
        { raised(table, one, 192) },
        || -> HintSeat<N>
            requires bucket { 41 < N.raise.buckets }
            requires shape { N.raise.buckets ≡ 1024 }
            ensures { Knows result Root 41 two.leaf.zone.0 }
        { raised(table, two, 41) },
    );
    table.meet(&mut seat, one);
    table.meet(&mut seat, two);
    let first = table.load(&mut seat, Place::Root, 192);
    let second = table.load(&mut seat, Place::Root, 41);
    [first, second, words_of_both(table, &mut seat)]
}

// A seat that knows what an owner raised and loaded again. The owner raises the shared buckets too.
fn raised<N: RaiseName>(table: &RaiseTable<N>, owner: OwnerSeat<N>, bucket: u32) -> HintSeat<N>
    requires bucket { bucket < N.raise.buckets }
    requires shape { N.raise.buckets ≡ 1024 }
    ensures known { Knows result Root bucket owner.leaf.zone.0 }
{
    let mut owner = owner;
    table.raise(&mut owner, Place::Root, bucket);
    let mut seat = table.split_owner(&mut owner);
    table.load(&mut seat, Place::Root, bucket);
    raise_shared(table, owner);
    seat
}

// Raises the shared buckets one after another.
fn raise_shared<N: RaiseName>(table: &RaiseTable<N>, owner: OwnerSeat<N>)
    requires shape { N.raise.buckets ≡ 1024 }
{
    let mut owner = owner;
    for bucket in SHARED_FROM..SHARED_TO {
        table.raise(&mut owner, Place::Root, bucket);
    }
}

// How many words of the shared buckets have the bits of both leaves.
fn words_of_both<N: RaiseName>(table: &RaiseTable<N>, seat: &mut HintSeat<N>) -> u64
    requires shape { N.raise.buckets ≡ 1024 }
{
    let mut words: u64 = 0;
    for bucket in SHARED_FROM..SHARED_TO {
        let word = table.load(seat, Place::Root, bucket);
        words = words.wrapping_add(u64::from(word == 3));
    }
    words
}
