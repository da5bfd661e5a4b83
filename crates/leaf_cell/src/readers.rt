// What reads a leaf that is up.
ghost use Rattle.std.specs.Prelude.{IfOk};
ghost use Rattle.leaf_cell.specs.Visits.{IsAsBefore};
ghost use Rattle.leaf_store.specs.LeafStates.{key_buckets};

use leaf_store::LeafState;
use mon_value::OutOfMemory;

/// Reads the state of a leaf that is up, and says how many rows it has for the caller. Contracts see what it asks of
/// the buckets of each series and of the leaf's history, and what it tells of them then.
pub(crate) trait LeafReader {
    ghost use Rattle.std.specs.Prelude.{ℕ, List};
    ghost use Rattle.mon_value.specs.declared.histories.Entry.{Entry};
    ghost use Rattle.mon_value.specs.declared.rows.SeriesKey.{SeriesKey};

    ghost asks: { Self → (SeriesKey → List ℕ) → List Entry → Type 0 };

    ghost tells: { Self → Self → (SeriesKey → List ℕ) → List Entry → ℕ → Type 0 };

    /// Reads it. It may settle the state, and changes nothing else.
    fn read(&mut self, state: &mut LeafState) -> Result<u64, OutOfMemory>
        requires asked { asks self.old (key_buckets state.old.buckets state.old.schemas) state.old.history }
        ensures told { IfOk result (tells self.old self.new (key_buckets state.old.buckets state.old.schemas)
            state.old.history) }
        ensures kept { IsAsBefore state.old state.new };
}
