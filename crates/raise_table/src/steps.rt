// The rule of the words, and the kinds of step that keep it.
use crate::views::SeatView;
use atomic_table::{Join, Play, Split, TableRule};
use mon_value::LeafCounts;

/// The raise rule, of a table whose zones have so many leaves each.
pub struct RaiseRule;

impl TableRule<(), SeatView, LeafCounts> for RaiseRule {
    ghost use Rattle.raise_table.specs.RaiseRule.{KeepsRaiseRule};
    ghost use Rattle.raise_table.specs.Steps.{first_seat};

    ghost holds = { λ zones state. KeepsRaiseRule zones state.words state.views };

    ghost first = { first_seat };
}

/// A load of one word.
pub(crate) struct Load;

impl Play<(), SeatView> for Load {
    ghost use Rattle.raise_table.specs.Steps.{Loads};

    ghost then = { Loads };
}

/// An owner sets its bit in one word.
pub(crate) struct Raise;

impl Play<(), SeatView> for Raise {
    ghost use Rattle.raise_table.specs.Steps.{RaisesBucket};

    ghost then = { RaisesBucket };
}

/// A seat is split off that knows as much.
pub(crate) struct SplitOff;

impl Split<SeatView> for SplitOff {
    ghost use Rattle.raise_table.specs.Steps.{split_off};

    ghost left = { λ seat. seat };

    ghost right = { split_off };
}

/// The owner's seat of one leaf is split off the first seat.
pub(crate) struct Deal;

impl Split<SeatView> for Deal {
    ghost use Rattle.raise_table.specs.Steps.{after_deal, dealt};

    ghost left = { after_deal };

    ghost right = { dealt };
}

/// A seat learns what another knew, which is spent.
pub(crate) struct Meet;

impl Join<SeatView> for Meet {
    ghost use Rattle.raise_table.specs.Steps.{meeting, spent_view};

    ghost both = { meeting };

    ghost spent = { spent_view };
}
