// How the entries of a history reach replicas, and what they made of the rows of one.
ghost use Rattle.std.specs.Prelude.{◌≡◌, ◌≤◌, ◌++◌, ◌∷◌, ◌-◌, [], length, drop, take, is_some, IfErr, IfOk};
ghost use Rattle.std.specs.Prelude.{IfSome, OnErr, OnOk, true};
ghost use Rattle.mon_value.specs.LeafHistories.{IsWellFormed, kept_rows};
ghost use Rattle.mon_value.specs.Turns.{Hides, after_turn, after_turns, ends_before};
ghost use Rattle.leaf_store.specs.within.FreshEntries.{AreNumbered, HasKeptNumber, entries_in};
ghost use Rattle.leaf_store.specs.within.FromBehind.{behind_turns, but_last, entry_steps, replica_steps};
ghost use Rattle.leaf_store.specs.within.KeptEntries.{run_entries};
ghost use Rattle.leaf_store.specs.within.Replicas.{AllHaveRows, IsInTwoParts, SameHistory, entry_of, kept_if_held};
ghost use Rattle.leaf_store.specs.within.Replicas.{rows_held, shown_entries};

use crate::fresh::FreshEntry;
use crate::gathered::Gathered;
use crate::guess::Guess;
use crate::kept::{Kept, KeptEntries};
use crate::replicas::{Replica, Replicas, is_same, own_rows, put_entry, rows_of, settle_entry};
use crate::runs::Run;
use mon_value::{Entry, OutOfMemory, Row, RowList, TryCopy};
use std::alloc::Global;
use std::mem;

/// Brings the entries from `moved` on to their replicas, and counts on. Where memory runs out, those that
/// were brought stay there. The number of a row's series is guessed where it isn't known.
pub(crate) fn settle_entries(
    alloc: Global,
    replicas: &mut Replicas,
    kept: &mut KeptEntries,
    fresh: &[FreshEntry],
    moved: &mut usize,
    guess: Guess,
) -> Result<(), OutOfMemory>
    requires within { moved.old ≤ length fresh.now }
    requires holds { IsInTwoParts replicas.old.entries kept.old.items (entries_in (drop moved.old fresh.now)) }
    requires numbered { AreNumbered (shown_entries replicas.old.entries kept.old.items) (drop moved.old fresh.now) }
    ensures within { moved.new ≤ length fresh.now }
    ensures onward { moved.old ≤ moved.new }
    ensures holds { IsInTwoParts replicas.new.entries kept.new.items (entries_in (drop moved.new fresh.now)) }
    ensures numbered { AreNumbered (shown_entries replicas.new.entries kept.new.items) (drop moved.new fresh.now) }
    ensures history { SameHistory replicas.old.entries kept.old.items (entries_in (drop moved.old fresh.now))
        replicas.new.entries kept.new.items (entries_in (drop moved.new fresh.now)) }
    ensures done { OnOk result (moved.new ≡ length fresh.now) }
{
    while *moved < fresh.len() {
        kept.reserve_one()?;
        let next = &fresh[*moved];
        let own = settle_entry(alloc, replicas, &next.entry, next.series, guess)?;
        kept.push(own);
        *moved += 1;
    }
    Ok(())
}

/// Brings an entry that puts a row or hides rows to its replica, behind all that is kept. The number of the row's series
/// is guessed where it isn't known. Another entry is given back, as all are where memory runs out, and nothing changes
/// then.
pub(crate) fn put_behind(
    replicas: &mut Replicas,
    kept: &mut KeptEntries,
    entry: Entry,
    series: Option<u32>,
    guess: Guess,
) -> Result<(), Entry>
    requires holds { IsInTwoParts replicas.old.entries kept.old.items (entry ∷ []) }
    requires numbered { IfSome series (HasKeptNumber replicas.old.entries entry) }
    ensures holds { OnOk result (IsInTwoParts replicas.new.entries kept.new.items []) }
    ensures history { OnOk result (shown_entries replicas.new.entries kept.new.items
        ≡ shown_entries replicas.old.entries kept.old.items ++ entry ∷ []) }
    ensures stayed { OnErr result (replicas.new.entries ≡ replicas.old.entries) }
    ensures kept { OnErr result (kept.new.items ≡ kept.old.items) }
    ensures back { IfErr result (λ own. own ≡ entry) }
{
    if kept.reserve_one().is_err() {
        return Err(entry);
    }
    let own = put_entry(replicas, entry, series, guess)?;
    kept.push(own);
    Ok(())
}

/// Copies of the rows of a replica that are kept after the first so many kept entries. They are gathered from the last
/// entry back, so that whatever trims there are, each entry and each row is met once.
pub(crate) fn rows_kept(
    alloc: Global,
    replicas: &Replicas,
    replica: Replica,
    kept: &KeptEntries,
    cut: usize,
) -> Result<RowList, OutOfMemory>
    requires there { AllHaveRows replicas.now.entries kept.now.items }
    requires formed { IsWellFormed (shown_entries replicas.now.entries kept.now.items) }
    requires within { cut ≤ length kept.now.items }
    ensures rows { IfOk result (λ rows.
        rows ≡ kept_rows replica.range replica.slot (shown_entries replicas.now.entries (take cut kept.now.items))) }
{
    let (runs, last) = kept.runs();
    let mut found = Gathered::new(alloc);
    let mut behind = gather_run(&mut found, replicas, replica, last, kept.len() - cut)?;
    let mut place = runs.len();
    while place > 0 {
        place -= 1;
        behind = gather_run(&mut found, replicas, replica, runs[place], behind)?;
    }
    Ok(found.into_rows())
}

// Goes back over the entries of a run, but for the last so many, and tells how many more are to be left out in front of
// the run.
fn gather_run(
    found: &mut Gathered,
    replicas: &Replicas,
    replica: Replica,
    run: Run,
    behind: usize,
) -> Result<usize, OutOfMemory>
    requires there { AllHaveRows replicas.now.entries (run_entries run) }
    ensures gathered { OnOk result (found.new ≡ behind_turns (replica_steps replica.range replica.slot
        (shown_entries replicas.now.entries (but_last behind (run_entries run)))) found.old) }
    ensures left { IfOk result (λ left. left ≡ behind - length (run_entries run)) }
{
    let count = run.len();
    let mut number = count.saturating_sub(behind);
    while number > 0 {
        number -= 1;
        gather_kept(found, replicas, replica, run.entry(number))?;
    }
    Ok(behind.saturating_sub(count))
}

// Goes back over a kept entry.
fn gather_kept(
    found: &mut Gathered,
    replicas: &Replicas,
    replica: Replica,
    kept: Kept,
) -> Result<(), OutOfMemory>
    requires there { is_some (entry_of replicas.now.entries kept) ≡ true }
    ensures gathered { OnOk result (IfSome (entry_of replicas.now.entries kept)
        (λ entry. found.new ≡ behind_turns (entry_steps replica.range replica.slot entry) found.old)) }
{
    match kept {
        Kept::Opened {
            replica: number,
            count,
            ..
        } => match own_rows(replicas, number as usize, replica) {
            Some(slot) => found.add_front(slot, count as usize),
            None => Ok(()),
        },
        Kept::Put {
            replica: number,
            row,
            ..
        } => match own_rows(replicas, number as usize, replica) {
            Some(slot) => found.add(slot, row as usize),
            None => Ok(()),
        },
        Kept::Trim {
            replica: number,
            before,
            ..
        } => match own_rows(replicas, number as usize, replica) {
            Some(_) => {
                found.hide(before);
                Ok(())
            }
            None => Ok(()),
        },
        Kept::Down { .. } | Kept::Up { .. } => Ok(()),
    }
}

/// Adds copies of the rows of a replica that are kept.
pub(crate) fn push_held(
    alloc: Global,
    rows: &mut RowList,
    replicas: &Replicas,
    replica: Replica,
) -> Result<(), OutOfMemory>
    ensures added { OnOk result (rows.new ≡ rows.old
        ++ kept_if_held (rows_held replicas.now.entries replica.range replica.slot)) }
{
    match rows_of(replicas, replica) {
        Some(slot) => slot.push_kept(alloc, rows),
        None => Ok(()),
    }
}

/// Does to copies of a replica's rows what entries do to the replica, one by one. It is for the few that wait: each trim
/// among them goes over the rows.
pub(crate) fn turn_all(
    alloc: Global,
    rows: &mut RowList,
    replica: Replica,
    entries: &[FreshEntry],
) -> Result<(), OutOfMemory>
    ensures turned { OnOk result (rows.new
        ≡ after_turns rows.old (replica_steps replica.range replica.slot (entries_in entries.now))) }
{
    for fresh in entries {
        turn_by(alloc, rows, replica, &fresh.entry)?;
    }
    Ok(())
}

// Does to copies of a replica's rows what an entry does to the replica.
fn turn_by(
    alloc: Global,
    rows: &mut RowList,
    replica: Replica,
    entry: &Entry,
) -> Result<(), OutOfMemory>
    ensures turned { OnOk result
        (rows.new ≡ after_turns rows.old (entry_steps replica.range replica.slot entry.now)) }
{
    match entry {
        Entry::Opened {
            range,
            slot,
            rows: taken,
            ..
        } if is_same(
            replica,
            Replica {
                range: *range,
                slot: *slot,
            },
        ) => { push_copies(alloc, rows, taken.as_slice()) }
        Entry::Put {
            range,
            slot,
            row,
            ..
        } if is_same(
            replica,
            Replica {
                range: *range,
                slot: *slot,
            },
        ) => { rows.push(row.copy(alloc)?) }
        Entry::Trim {
            range,
            slot,
            before,
            ..
        } if is_same(
            replica,
            Replica {
                range: *range,
                slot: *slot,
            },
        ) => {
            hide_rows(alloc, rows, *before);
            Ok(())
        }
        _ => Ok(()),
    }
}

// Takes out the rows that end before a bound.
fn hide_rows(alloc: Global, rows: &mut RowList, before: i64)
    ensures hidden { rows.new ≡ after_turn rows.old (Hides before) }
{
    let own = mem::replace(rows, RowList::new(alloc));
    *rows = standing_rows(own, before);
}

// The rows that don't end before a bound.
fn standing_rows(rows: RowList, before: i64) -> RowList
    ensures standing { result ≡ after_turn rows (Hides before) }
{
    let mut standing = rows.into_vec();
    standing.retain(|row| !is_hidden(row, before));
    RowList::from_vec(standing)
}

// Whether a row ends before a bound.
fn is_hidden(row: &Row, before: i64) -> bool
    ensures hidden { result ≡ ends_before before row.now }
{
    row.point.end < before
}

// Adds copies of rows.
fn push_copies(alloc: Global, rows: &mut RowList, taken: &[Row]) -> Result<(), OutOfMemory>
    ensures added { OnOk result (rows.new ≡ rows.old ++ taken.now) }
{
    for row in taken {
        rows.push(row.copy(alloc)?)?;
    }
    Ok(())
}
