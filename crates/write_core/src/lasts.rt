// The end of the last row of each series of a range.
ghost use Rattle.std.specs.Prelude.{◌≡◌, ◌<◌, ◌++◌, ◌∷◌, [], List};
ghost use Rattle.std.specs.Map.{lookup};
ghost use Rattle.indexmap.specs.IndexMap.{spare};
ghost use Rattle.mon_value.specs.Same.{same_series};
ghost use Rattle.mon_value.specs.declared.rows.Row as a_row;
ghost use Rattle.write_core.specs.Replays.{TellsLasts};

use insertion_map::InsertionMap;
use mon_value::{SeriesKey, Shared};

/// From each series to the end of its last row, in the order of their first rows.
pub(crate) type Lasts = InsertionMap<Shared<SeriesKey>, i64>;

/// The end of the last row of a series, whose place is guessed.
pub(crate) fn last_of(lasts: &Lasts, guess: usize, key: &Shared<SeriesKey>) -> Option<i64>
    ensures last { result ≡ lookup (same_series key.now) lasts.now.entries }
{
    let place = lasts.get_near(guess, key)?;
    let (_, end) = lasts.get_index(place)?;
    Some(*end)
}

/// The last row of a series ends there, in the room that was made. Gives the place of the series, which is guessed.
pub(crate) fn note_last(lasts: &mut Lasts, guess: usize, key: Shared<SeriesKey>, end: i64) -> usize
    requires room { 0 < spare lasts.old }
    ensures told { (rows : List a_row.Row) (row : a_row.Row) → row.key ≡ key → row.point.end ≡ end
        → TellsLasts lasts.old.entries rows → TellsLasts lasts.new.entries (rows ++ row ∷ []) }
{
    let (place, _before) = lasts.insert_near(guess, key, end).unwrap();
    place
}
