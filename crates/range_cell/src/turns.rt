// What a machine is told of a turn at one leaf.
ghost use Rattle.std.specs.Prelude.{◌≡◌};
ghost use Rattle.range_cell.specs.Turns.{told_of};

use know::Found;
use mon_hints::Buckets;
use std::alloc::Global;
use write_core::WriteTold;

/// What the machine is told of a leaf that was asked for room.
pub(crate) fn told_of(alloc: Global, found: Found) -> WriteTold
    ensures told { result ≡ told_of found }
{
    match found {
        Found::Up => WriteTold::Up(Buckets::new(alloc)),
        Found::Down(cut) => WriteTold::Down(cut),
    }
}
