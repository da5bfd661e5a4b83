// What holds of ranges whatever was called.
ghost use Rattle.std.specs.Prelude.{◌≡◌, ℕ, []};
ghost use Rattle.history_book.specs.declared.views.History.TheVariants as of;
ghost use Rattle.history_book.specs.Seats as book;
ghost use Rattle.mon_value.specs.declared.positions.Range as the;
ghost use Rattle.owners.specs.Owners.{range_owner};
ghost use Rattle.raise_table.specs.declared.views.Hints as known;
ghost use Rattle.range_cell.specs.Rest.{IsRangeAtRest};
ghost use Rattle.write_core.specs.Replays as replays;

/// A law: a range to which nothing happened is at rest with its owner's seat of a new book.
pub fn new_ranges_are_at_rest()
    ensures rest { (range : the.Range) (hints : known.Hints) (replay : replays.Replay) (leaves ranges : ℕ)
        → replay.history ≡ [] → IsRangeAtRest range.0 replay
        (range_owner range hints (book.new_owner leaves ranges (of.Range range))) }
{}
