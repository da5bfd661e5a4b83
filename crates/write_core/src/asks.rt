// What a write does next, what it is told of that, and how it ends.
use mon_hints::Buckets;
use mon_value::{Ack, Founds, Leaf, Slot, SlotLeaves, TryCopy};
use std::alloc::{AllocError, Global};

/// The next event of a write.
#[derive(PartialEq, Eq, Drop)]
pub enum WriteAsk {
    /// Take the range's lock.
    Lock,
    /// Make room for the row, or for the trim, on a replica's leaf.
    Reserve(Slot, Leaf),
    /// Take the lock of a replica's leaf.
    Enter(Slot, Leaf),
    /// Set the zone's bit in the root's word of a bucket.
    RaiseRoot(u32),
    /// Set the leaf's bit in the word of a bucket of the zone of the leaf that was entered.
    RaiseZone(u32),
    /// Append the row, or the trim, to the leaf's history, and let go of the leaf's lock.
    Put(Slot, Leaf),
    /// Append the acknowledgement to the range's history where some replica took the row, or the trim, and let go of the
    /// range's lock.
    Ack,
    /// Nothing is left to do.
    Finished,
}

/// What a write is told of its last event.
#[derive(PartialEq, Eq, Drop)]
pub enum WriteTold {
    /// The range can take the row, as it can any trim: the replicas that serve, in slot order.
    Slots(SlotLeaves),
    /// The series has an acknowledged row that ends there, which is not before the row's end.
    OldPoint(i64),
    /// The range holds so many rows, and no more go in.
    RangeFull(u64),
    /// The leaf is up. Of one that was entered, the buckets of the row that it has not raised, rising; a trim has none.
    Up(Buckets),
    /// The leaf is down, with so many entries in its history.
    Down(u64),
    /// It is done.
    Done,
}

/// How a write ends.
#[derive(PartialEq, Eq, Drop)]
pub enum WriteEnd {
    /// Some replica took the row, or the trim, and it is acknowledged.
    Written(Ack),
    /// As the range's lock told.
    OldPoint(i64),
    /// As the range's lock told.
    RangeFull(u64),
    /// Every replica was found down, these in slot order.
    Unavailable(Founds),
}

impl TryCopy for WriteAsk {
    fn copy(&self, _alloc: Global) -> Result<WriteAsk, AllocError> {
        match self {
            WriteAsk::Lock => Ok(WriteAsk::Lock),
            WriteAsk::Reserve(slot, leaf) => Ok(WriteAsk::Reserve(*slot, *leaf)),
            WriteAsk::Enter(slot, leaf) => Ok(WriteAsk::Enter(*slot, *leaf)),
            WriteAsk::RaiseRoot(bucket) => Ok(WriteAsk::RaiseRoot(*bucket)),
            WriteAsk::RaiseZone(bucket) => Ok(WriteAsk::RaiseZone(*bucket)),
            WriteAsk::Put(slot, leaf) => Ok(WriteAsk::Put(*slot, *leaf)),
            WriteAsk::Ack => Ok(WriteAsk::Ack),
            WriteAsk::Finished => Ok(WriteAsk::Finished),
        }
    }
}

impl TryCopy for WriteTold {
    fn copy(&self, alloc: Global) -> Result<WriteTold, AllocError> {
        match self {
            WriteTold::Slots(replicas) => Ok(WriteTold::Slots(replicas.copy(alloc)?)),
            WriteTold::OldPoint(last) => Ok(WriteTold::OldPoint(*last)),
            WriteTold::RangeFull(count) => Ok(WriteTold::RangeFull(*count)),
            WriteTold::Up(buckets) => Ok(WriteTold::Up(buckets.copy(alloc)?)),
            WriteTold::Down(cut) => Ok(WriteTold::Down(*cut)),
            WriteTold::Done => Ok(WriteTold::Done),
        }
    }
}

impl TryCopy for WriteEnd {
    fn copy(&self, alloc: Global) -> Result<WriteEnd, AllocError> {
        match self {
            WriteEnd::Written(ack) => Ok(WriteEnd::Written(ack.copy(alloc)?)),
            WriteEnd::OldPoint(last) => Ok(WriteEnd::OldPoint(*last)),
            WriteEnd::RangeFull(count) => Ok(WriteEnd::RangeFull(*count)),
            WriteEnd::Unavailable(founds) => Ok(WriteEnd::Unavailable(founds.copy(alloc)?)),
        }
    }
}
