// How a write ends.
ghost use Rattle.std.specs.Prelude.{◌≡◌, ◌+◌, ◌≤◌, ◌++◌, [], length, vec_len, vec_capacity};
ghost use Rattle.std.specs.List.{flat_map};
ghost use Rattle.write_core.specs.Marks as spec;
ghost use Rattle.write_core.specs.Marks.{found_in_mark, missed_slot, taken_slot};

use crate::marks::{Fate, Mark};
use mon_value::{FoundDown, Founds, Miss, Misses, Slot, Slots};

/// The slots that took the row, in room that was made before.
pub(crate) fn taken_slots(mut room: Vec<Slot>, marks: &[Mark]) -> Slots
    requires empty { room.items ≡ [] }
    requires room { vec_len room + length marks.now ≤ vec_capacity room }
    ensures slots { result ≡ flat_map taken_slot marks.now }
{
    for mark in marks {
        push_taken(&mut room, mark);
    }
    Slots::from_vec(room)
}

fn push_taken(slots: &mut Vec<Slot>, mark: &Mark)
    requires { vec_len slots.old + 1 ≤ vec_capacity slots.old }
    ensures added { slots.new.items ≡ slots.old.items ++ taken_slot mark.now }
    ensures count { vec_len slots.new ≤ vec_len slots.old + 1 }
    ensures room { vec_capacity slots.new ≡ vec_capacity slots.old }
{
    match mark.fate {
        Fate::Took => slots.push_reserved(mark.slot),
        Fate::Waiting | Fate::Ready | Fate::Missed(_) => {}
    }
}

/// The replicas that missed the row, in room that was made before.
pub(crate) fn misses(mut room: Vec<Miss>, marks: &[Mark]) -> Misses
    requires empty { room.items ≡ [] }
    requires room { vec_len room + length marks.now ≤ vec_capacity room }
    ensures misses { result ≡ flat_map missed_slot marks.now }
{
    for mark in marks {
        push_miss(&mut room, mark);
    }
    Misses::from_vec(room)
}

fn push_miss(misses: &mut Vec<Miss>, mark: &Mark)
    requires { vec_len misses.old + 1 ≤ vec_capacity misses.old }
    ensures added { misses.new.items ≡ misses.old.items ++ missed_slot mark.now }
    ensures count { vec_len misses.new ≤ vec_len misses.old + 1 }
    ensures room { vec_capacity misses.new ≡ vec_capacity misses.old }
{
    match mark.fate {
        Fate::Missed(cut) => misses.push_reserved(mark.miss(cut)),
        Fate::Waiting | Fate::Ready | Fate::Took => {}
    }
}

/// The leaves that were found down, in room that was made before.
pub(crate) fn founds(mut room: Vec<FoundDown>, marks: &[Mark]) -> Founds
    requires empty { room.items ≡ [] }
    requires room { vec_len room + length marks.now ≤ vec_capacity room }
    ensures founds { result ≡ flat_map found_in_mark marks.now }
{
    for mark in marks {
        push_found(&mut room, mark);
    }
    Founds::from_vec(room)
}

fn push_found(founds: &mut Vec<FoundDown>, mark: &Mark)
    requires { vec_len founds.old + 1 ≤ vec_capacity founds.old }
    ensures added { founds.new.items ≡ founds.old.items ++ found_in_mark mark.now }
    ensures count { vec_len founds.new ≤ vec_len founds.old + 1 }
    ensures room { vec_capacity founds.new ≡ vec_capacity founds.old }
{
    match mark.fate {
        Fate::Missed(cut) => founds.push_reserved(mark.found(cut)),
        Fate::Waiting | Fate::Ready | Fate::Took => {}
    }
}

/// Whether some replica took the row.
pub(crate) fn some_took(marks: &[Mark]) -> bool
    ensures some { result ≡ spec.some_took marks.now }
{
    marks.iter().any(|mark| is_taken(mark))
}

fn is_taken(mark: &Mark) -> bool
    ensures taken { result ≡ spec.has_taken mark.now.fate }
{
    match mark.fate {
        Fate::Took => true,
        Fate::Waiting | Fate::Ready | Fate::Missed(_) => false,
    }
}
