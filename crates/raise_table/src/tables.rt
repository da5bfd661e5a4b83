// The table of the words.
ghost use Rattle.std.specs.Prelude.{◌≡◌, ◌≤◌, ◌<◌, [], ◌∷◌, drop, map, IfOk};
ghost use Rattle.std.specs.List.{Contains};
ghost use Rattle.raise_table.specs.Places.{bit_of, leaves_in, word_count};
ghost use Rattle.raise_table.specs.Seats.{HasKnown, Knows, KnowsAll, KnowsAsMuch, MayRaise, after_load, after_meet};
ghost use Rattle.raise_table.specs.Seats.{after_raise, met, new_owner, no_hints, without_notes};
ghost use Rattle.raise_table.specs.Steps.{first_seat};
ghost use Rattle.raise_table.specs.Tables.{AreFew, HasWord, IsShaped};

use crate::names::RaiseName;
use crate::places::{ZoneLeaf, leaves_of_all, word_number};
use crate::seats::{HintSeat, OwnerSeat, OwnerSeats};
use crate::steps::{Deal, Load, Meet, Raise, RaiseRule, SplitOff};
use crate::views::SeatView;
use atomic_table::{Seat, Table};
use mon_hints::Place;
use mon_value::{LeafCounts, ListOf, MOST_BUCKETS, OutOfMemory};
use std::alloc::Global;
use std::marker::{Model, PhantomData};

// The words, their rule and their memory.
type Words = Table<(), SeatView, LeafCounts, RaiseRule, Global>;

/// A table without a name. Contracts see which one it is, the leaves of each zone and the buckets.
#[derive(Drop)]
pub struct RaiseBlank {
    table: Words,
    first: Seat<(), SeatView>,
    leaves: ListOf<ZoneLeaf>,
    buckets: u32,
}

impl Model for RaiseBlank {
    ghost use Rattle.std.specs.Prelude.{◌≡◌, []};
    ghost use Rattle.raise_table.specs.Places.{leaves_in};
    ghost use Rattle.raise_table.specs.Steps.{first_seat};
    ghost use Rattle.raise_table.specs.Tables.{IsShaped, RaiseIdentity};

    ghost Value = { RaiseIdentity };

    ghost view = { λ b. record { id = b.table.shared.table_id; zones = b.table.shared.key; buckets = b.buckets } };

    ghost invariant = { λ b. (b.first.table_id ≡ b.table.shared.table_id)
        × (b.first.me ≡ (first_seat b.table.shared.key, [])) × (b.leaves ≡ leaves_in b.table.shared.key)
        × IsShaped (record { id = b.table.shared.table_id; zones = b.table.shared.key; buckets = b.buckets }) };
}

impl RaiseBlank {
    /// A table for zones that have so many leaves each, and for so many buckets. All its words are 0.
    pub fn new(alloc: Global, zones: &LeafCounts, buckets: u32) -> Result<RaiseBlank, OutOfMemory>
        requires few { AreFew zones.now }
        requires buckets { buckets ≤ 4096 }
        ensures shape { IfOk result (λ blank. (blank.zones ≡ zones.now) × (blank.buckets ≡ buckets)) }
    {
        let leaves = leaves_of_all(alloc, zones)?;
        match words_of(alloc, zones) {
            Ok((table, first)) => Ok(RaiseBlank {
                table,
                first,
                leaves,
                buckets,
            }),
            Err(fault) => {
                drop(leaves);
                Err(fault)
            }
        }
    }
}

// The words of zones that have so many leaves each, all 0, with the seat that has the owners' parts.
fn words_of(alloc: Global, zones: &LeafCounts) -> Result<(Words, Seat<(), SeatView>), OutOfMemory>
    requires few { AreFew zones.now }
    ensures words { IfOk result (λ made. made.0.shared.table_id.words ≡ word_count zones.now) }
    ensures key { IfOk result (λ made. made.0.shared.key ≡ zones.now) }
    ensures first { IfOk result (λ made.
        (made.1.table_id ≡ made.0.shared.table_id) × (made.1.me ≡ (first_seat zones.now, []))) }
{
    let words = vec![in alloc; 0; (zones.len() + 1) * MOST_BUCKETS as usize]?;
    let made = Table::of_words(alloc, words.as_slice(), zones);
    drop(words);
    made
}

/// The words that threads share. A step on them takes no lock.
#[derive(Drop)]
pub struct RaiseTable<N: RaiseName> {
    table: Words,
    name: PhantomData<N>,
    ghost named: { (table.shared.table_id ≡ N.raise.id) × (table.shared.key ≡ N.raise.zones) },
    ghost shaped: { IsShaped N.raise },
}

impl<N: RaiseName> RaiseTable<N> {
    /// Opens a table under a name that means it: with a seat that knows nothing, and the seats of the leaves' owners,
    /// leaves in order. Where memory runs out the table is gone.
    pub fn open(
        alloc: Global,
        blank: RaiseBlank,
    ) -> Result<(RaiseTable<N>, HintSeat<N>, OwnerSeats<N>), OutOfMemory>
        requires named { blank ≡ N.raise }
        ensures seat { IfOk result (λ opened. opened.1 ≡ no_hints) }
        ensures owners { IfOk result (λ opened. opened.2 ≡ map new_owner (leaves_in N.raise.zones)) }
    {
        let RaiseBlank {
            table,
            mut first,
            leaves,
            buckets: _,
        } = blank;
        let table = RaiseTable {
            table,
            name: PhantomData,
        };
        let mut owners = ListOf::new(alloc);
        for leaf in leaves.as_slice() {
            owners.push(table.deal(&mut first, *leaf))?;
        }
        let seat = HintSeat {
            seat: first,
            name: PhantomData,
        };
        Ok((table, seat, owners))
    }

    // Splits the owner's seat of the next leaf off the first seat.
    fn deal(&self, first: &mut Seat<(), SeatView>, leaf: ZoneLeaf) -> OwnerSeat<N>
        requires table { (first.old.table_id ≡ N.raise.id) × (first.old.me.1 ≡ []) }
        requires fresh { (first.old.me.0.hints ≡ no_hints) × (first.old.me.0.raised ≡ []) }
        requires next { first.old.me.0.leaves ≡ leaf ∷ drop 1 first.old.me.0.leaves }
        requires exists { Contains (leaves_in N.raise.zones) leaf }
        ensures owner { result ≡ new_owner leaf }
        ensures table { (first.new.table_id ≡ N.raise.id) × (first.new.me.1 ≡ []) }
        ensures fresh { (first.new.me.0.hints ≡ no_hints) × (first.new.me.0.raised ≡ []) }
        ensures next { first.new.me.0.leaves ≡ drop 1 first.old.me.0.leaves }
    {
        OwnerSeat {
            leaf,
            seat: self.table.shared.split_seat::<Deal>(first),
            name: PhantomData,
        }
    }

    /// Sets the bit of the owner's leaf, in one step: at the root that of its zone, in its zone its own. In the zone
    /// it is set for a bucket that the owner raised at the root. No memory is taken.
    pub fn raise(&self, seat: &mut OwnerSeat<N>, place: Place, bucket: u32)
        requires exists { bucket < N.raise.buckets }
        requires allowed { MayRaise seat.old.leaf seat.old.raised place bucket }
        ensures raised { seat.new ≡ after_raise place bucket seat.old }
        ensures learned { Knows seat.new.hints place bucket (bit_of seat.old.leaf place) }
        ensures kept { KnowsAsMuch seat.old.hints seat.new.hints }
    {
        let bits = 1 << seat.leaf.bit_of(place);
        let word = word_number(place, bucket);
        self.table
            .shared
            .fetch_or::<Raise>(&mut seat.seat, word, bits);
    }

    /// The word of a place and a bucket, in one step. It has every bit that the seat knew. No memory is taken.
    pub fn load(&self, seat: &mut HintSeat<N>, place: Place, bucket: u32) -> u64
        requires exists { HasWord N.raise place bucket }
        ensures known { HasKnown seat.old place bucket result }
        ensures noted { seat.new ≡ after_load place bucket result seat.old }
        ensures learned { KnowsAll seat.new place bucket result }
        ensures kept { KnowsAsMuch seat.old seat.new }
    {
        let at = word_number(place, bucket);
        self.table.shared.load::<Load>(&mut seat.seat, at)
    }

    /// A seat that knows what this one knows, and has no notes, in one step. No memory is taken.
    pub fn split(&self, seat: &mut HintSeat<N>) -> HintSeat<N>
        ensures kept { seat.new ≡ seat.old }
        ensures split { result ≡ without_notes seat.old }
        ensures knows { KnowsAsMuch seat.old result }
    {
        HintSeat {
            seat: self.table.shared.split_seat::<SplitOff>(&mut seat.seat),
            name: PhantomData,
        }
    }

    /// A seat that knows what an owner knows, and has no notes, in one step. No memory is taken.
    pub fn split_owner(&self, seat: &mut OwnerSeat<N>) -> HintSeat<N>
        ensures kept { seat.new ≡ seat.old }
        ensures split { result ≡ without_notes seat.old.hints }
        ensures knows { KnowsAsMuch seat.old.hints result }
    {
        HintSeat {
            seat: self.table.shared.split_seat::<SplitOff>(&mut seat.seat),
            name: PhantomData,
        }
    }

    /// The seat learns what another knew and has its notes too, in one step. No memory is taken.
    pub fn meet(&self, seat: &mut HintSeat<N>, other: HintSeat<N>)
        ensures met { seat.new ≡ met seat.old other }
        ensures knows { KnowsAsMuch seat.old seat.new × KnowsAsMuch other seat.new }
    {
        let met = other.seat;
        self.table.shared.join_seat::<Meet>(&mut seat.seat, met);
    }

    /// An owner learns what a seat knew and has its notes too, in one step. Its leaf and what it raised stay. No
    /// memory is taken.
    pub fn meet_owner(&self, seat: &mut OwnerSeat<N>, other: HintSeat<N>)
        ensures met { seat.new ≡ after_meet other seat.old }
        ensures knows { KnowsAsMuch seat.old.hints seat.new.hints × KnowsAsMuch other seat.new.hints }
    {
        self.table
            .shared
            .join_seat::<Meet>(&mut seat.seat, other.seat);
    }
}
