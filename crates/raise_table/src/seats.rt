// What threads step with.
ghost use Rattle.std.specs.Prelude.{◌≡◌};

use crate::names::RaiseName;
use crate::places::ZoneLeaf;
use crate::views::SeatView;
use atomic_table::Seat;
use mon_value::{ListOf, Zone};
use std::marker::{Model, PhantomData};

/// A seat that loads words. Contracts see what it knows and what it noted.
#[derive(Drop)]
pub struct HintSeat<N: RaiseName> {
    pub(crate) seat: Seat<(), SeatView>,
    pub(crate) name: PhantomData<N>,
}

impl<N: RaiseName> Model for HintSeat<N> {
    ghost use Rattle.std.specs.Prelude.{◌≡◌, []};
    ghost use Rattle.raise_table.specs.declared.views.Hints.{Hints};

    ghost Value = { Hints };

    ghost view = { λ s. s.seat.me.0.hints };

    ghost invariant = { λ s. (s.seat.table_id ≡ N.raise.id) × (s.seat.me.1 ≡ [])
        × (s.seat.me.0.leaves ≡ []) × (s.seat.me.0.raised ≡ []) };
}

/// The seat of a leaf's owner, which alone raises the leaf's bits. Contracts see its leaf, what it knows and what it
/// raised.
#[derive(Drop)]
pub struct OwnerSeat<N: RaiseName> {
    pub(crate) leaf: ZoneLeaf,
    pub(crate) seat: Seat<(), SeatView>,
    pub(crate) name: PhantomData<N>,
}

impl<N: RaiseName> Model for OwnerSeat<N> {
    ghost use Rattle.std.specs.Prelude.{◌≡◌, [], ◌∷◌};
    ghost use Rattle.std.specs.List.{Contains};
    ghost use Rattle.raise_table.specs.Places.{leaves_in};
    ghost use Rattle.raise_table.specs.Seats.{Owner};

    ghost Value = { Owner };

    ghost view = { λ s. record { leaf = s.leaf; hints = s.seat.me.0.hints; raised = s.seat.me.0.raised } };

    ghost invariant = { λ s. (s.seat.table_id ≡ N.raise.id) × (s.seat.me.1 ≡ [])
        × (s.seat.me.0.leaves ≡ s.leaf ∷ []) × Contains (leaves_in N.raise.zones) s.leaf };
}

/// The seats of the leaves' owners, leaves in order.
pub type OwnerSeats<N> = ListOf<OwnerSeat<N>>;

impl<N: RaiseName> OwnerSeat<N> {
    /// The zone of its leaf. No memory is taken.
    pub fn zone(&self) -> Zone
        ensures zone { result ≡ self.now.leaf.zone }
    {
        self.leaf.zone
    }
}
