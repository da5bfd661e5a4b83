// The columns whose numbers sum to too many bits.
ghost use Rattle.std.specs.Prelude.{◌≡◌};
ghost use Rattle.typed_trees.specs.Faults.{first_with};
ghost use Rattle.typed_trees.specs.Branches as spec;

use mon_value::{Column, Shared};
use typed_trees::{Faults, Width};

/// Tells each column whose values sum to too many bits.
#[tactic(auto, using(crate::proofs::FaultLemmas::faults))]
pub fn tell_wide_columns(columns: &[Shared<Column>], at: u32, found: &mut Faults)
    ensures faults { found.new.first ≡ first_with found.old.first (spec.wide_faults at columns.now) }
{
    for column in columns {
        Width::of(column).tell_wide(at, found);
    }
}
