// A growing history that two threads append to: who met both has seen what either had.
ghost use Rattle.std.specs.Prelude.{◌≡◌, ◌<◌, ◌+◌, ◌^◌, [], length, map, Some, None, IfSome};
ghost use Rattle.mon_value.specs.declared.histories.Entry.TheVariants as entry;
ghost use Rattle.history_book.specs.declared.views.BookEntry.TheVariants as one;
ghost use Rattle.history_book.specs.Histories.{IsOfLeaf, entries, histories_in};
ghost use Rattle.history_book.specs.Seats.{after_append, guest_purse, hand_of, new_owner};

use history_book::{
    Book, BookBlank, BookName, BookOwner, BookOwners, BookSeat, NewEntry, RoomMove,
};
use mon_value::OutOfMemory;
use std::alloc::Global;
use std::marker::Brand;
use std::sync::{Mutex, Wait};
use std::thread::{Threads, join};

/// So many entries each of two threads appends.
const TURNS: u32 = 300;

// Appends that a leaf went down.
fn append_down<N: BookName, E: NewEntry>(book: &Book<N>, owner: &mut BookOwner<N>, pass: u64)
    requires named { E.entry ≡ one.Leaf (entry.Down pass) }
    requires leaf { IsOfLeaf owner.old.history }
    requires room { length (entries owner.old.seen owner.old.history) < 2 ^ 62 }
    requires number { (hand_of (guest_purse owner.old.guest)).own ≡ Some pass }
    ensures appended { owner.new ≡ after_append E.entry owner.old }
{
    book.append::<E>(owner);
}

// The last owner of a new book without ranges.
fn last_owner<N: BookName>(owners: BookOwners<N>) -> Option<BookOwner<N>>
    requires new { owners ≡ map (new_owner N.book.leaves N.book.ranges) (histories_in N.book.leaves N.book.ranges) }
    requires no_range { N.book.ranges ≡ 0 }
    ensures new { IfSome result (λ owner.
        (owner.guest ≡ None) × (entries owner.seen owner.history ≡ []) × IsOfLeaf owner.history) }
{
    owners.into_vec().pop()
}

// A seat comes as a guest, an entry is appended under its number, and it goes.
fn append_as_guest<N: BookName, E: NewEntry>(
    book: &Book<N>,
    owner: &mut BookOwner<N>,
    seat: BookSeat<N>,
    pass: u64,
) -> BookSeat<N>
    requires named { E.entry ≡ one.Leaf (entry.Down pass) }
    requires free { owner.old.guest ≡ None }
    requires leaf { IsOfLeaf owner.old.history }
    requires room { length (entries owner.old.seen owner.old.history) < 2 ^ 62 }
    requires number { (hand_of seat.purse).own ≡ Some pass }
    ensures free { owner.new.guest ≡ None }
    ensures leaf { IsOfLeaf owner.new.history }
    ensures grown { length (entries owner.new.seen owner.new.history)
        ≡ length (entries owner.old.seen owner.old.history) + 1 }
{
    book.meet_owner(owner, seat);
    append_down::<N, E>(book, owner, pass);
    book.split_owner(owner, RoomMove::Keep, false)
}

// What lies under a lock: the owner of a leaf's history, and how many entries that has.
#[derive(Drop)]
struct Desk<N: BookName> {
    owner: BookOwner<N>,
    count: u64,
    ghost counted: { count ≡ length (entries owner.seen owner.history) },
    ghost leaf: { IsOfLeaf owner.history },
    ghost free: { owner.guest ≡ None },
}

impl<N: BookName> Desk<N> {
    // Appends an entry under the seat's number, if there is room.
    fn put<E: NewEntry>(&mut self, book: &Book<N>, seat: BookSeat<N>, pass: u64) -> BookSeat<N>
        requires named { E.entry ≡ one.Leaf (entry.Down pass) }
        requires number { (hand_of seat.purse).own ≡ Some pass }
    {
        if self.count >= 1 << 61 {
            return seat;
        }
        let seat = append_as_guest::<N, E>(book, &mut self.owner, seat, pass);
        self.count += 1;
        seat
    }
}

// Appends an entry in any thread.
fn put<N: BookName>(
    rt: &impl Wait,
    book: &Book<N>,
    desk: &Mutex<Desk<N>>,
    seat: BookSeat<N>,
) -> BookSeat<N> {
    let Some(pass) = seat.number() else {
        return seat;
    };
    desk.lock(rt).put::<Brand>(book, seat, pass)
}

// Appends an entry in each turn.
fn put_in_turns<N: BookName>(
    rt: &impl Wait,
    book: &Book<N>,
    desk: &Mutex<Desk<N>>,
    seat: BookSeat<N>,
) -> BookSeat<N> {
    let mut seat = seat;
    for _turn in 0..TURNS {
        seat = put(rt, book, desk, seat);
    }
    seat
}

/// Two threads append to one history, whose owner lies under a lock with a count of its entries. Both the count and the
/// word have all entries at the end.
pub fn two_threads_append<R: Threads + Wait + Sync>(
    rt: &R,
    alloc: Global,
) -> Result<bool, OutOfMemory> {
    let blank = BookBlank::new(alloc, 1, 0)?;
    in_two_threads::<Brand, _>(rt, alloc, blank)
}

fn in_two_threads<N: BookName + Send + Sync, R: Threads + Wait + Sync>(
    rt: &R,
    alloc: Global,
    blank: BookBlank,
) -> Result<bool, OutOfMemory>
    requires named { blank ≡ N.book }
    requires shape { (N.book.leaves ≡ 1) × (N.book.ranges ≡ 0) }
{
    let (book, seat, owners) = Book::<N>::open(alloc, blank)?;
    let Some(owner) = last_owner(owners) else {
        return Ok(false);
    };
    let desk = Mutex::new(Desk { owner, count: 0 });
    let found = length_after_both(rt, &book, &desk, seat);
    Ok([found, desk.into_inner().count] == [600, 600])
}

// Two seats with numbers of their own append, each in a thread. The length that who met both finds, and 0 where one
// gets no number.
fn length_after_both<N: BookName + Send + Sync, R: Threads + Wait + Sync>(
    rt: &R,
    book: &Book<N>,
    desk: &Mutex<Desk<N>>,
    seat: BookSeat<N>,
) -> u64
    requires shape { (N.book.leaves ≡ 1) × (N.book.ranges ≡ 0) }
{
    let mut seat = seat;
    let Some((one, two)) = two_numbered(book, &mut seat) else {
        return 0;
    };
    let (one, two) = join(
        rt,
        || put_in_turns(rt, book, desk, one),
        || put_in_turns(rt, book, desk, two),
    );
    book.meet(&mut seat, one);
    book.meet(&mut seat, two);
    book.confirm(&mut seat);
    book.learn(&mut seat, 0)
}

// Two seats with numbers of their own.
fn two_numbered<N: BookName>(
    book: &Book<N>,
    seat: &mut BookSeat<N>,
) -> Option<(BookSeat<N>, BookSeat<N>)> {
    let one = book.split_numbered(seat)?;
    let two = book.split_numbered(seat)?;
    Some((one, two))
}
