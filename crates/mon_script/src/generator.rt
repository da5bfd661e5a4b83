// The points of a made input: files of records whose values are made from a number.
ghost use Rattle.std.specs.Prelude.{◌≡◌, ◌<◌, ◌+◌, ◌++◌, ℕ, IfOk, OnOk, string_bytes};
ghost use Rattle.std.specs.List.{flat_map, range_with_len};
ghost use Rattle.mon_script.specs.Made as spec;

use mon_value::{OutOfMemory, Text};
use std::alloc::Global;

/// How many files of points an input has.
pub(crate) const FILES: u32 = 4;

/// How many rounds a file has, in each of which each task has a point.
pub(crate) const ROUNDS: u32 = 100;

/// How many tasks a file has.
const TASKS: u32 = 500;

/// How many points a file has.
const POINTS: u32 = ROUNDS * TASKS;

/// The text of a file of points, among four, of a number's input.
pub fn made_points(alloc: Global, number: u64, file: u32) -> Result<Text, OutOfMemory>
    requires among { file < 4 }
    ensures points { IfOk result (λ text. text ≡ spec.made_points number file) }
{
    let mut before = number_behind(number, file * POINTS);
    let mut text = String::new(alloc);
    for round in 0..ROUNDS {
        push_round(alloc, &mut text, &mut before, file, round)?;
    }
    Text::from_string(text)
}

/// The records of a file's round, behind the number before it, which goes on to the one before the next round.
pub(crate) fn made_round(
    alloc: Global,
    before: &mut u64,
    file: u32,
    round: u32,
) -> Result<Text, OutOfMemory>
    requires below { round < 100 }
    ensures records { IfOk result (λ text. text
        ≡ flat_map (spec.made_record before.old file round) (range_with_len 0 spec.tasks)) }
    ensures went_on { OnOk result (before.new ≡ spec.number_behind spec.tasks before.old) }
{
    let mut text = String::new(alloc);
    push_round(alloc, &mut text, before, file, round)?;
    Text::from_string(text)
}

// Adds the records of a round.
fn push_round(
    alloc: Global,
    text: &mut String,
    before: &mut u64,
    file: u32,
    round: u32,
) -> Result<(), OutOfMemory>
    requires below { round < 100 }
    ensures records { OnOk result (string_bytes text.new ≡ string_bytes text.old
        ++ flat_map (spec.made_record before.old file round) (range_with_len 0 spec.tasks)) }
    ensures went_on { OnOk result (before.new ≡ spec.number_behind spec.tasks before.old) }
{
    let mut number = *before;
    for task in 0..TASKS {
        number = next_number(number);
        push_record(alloc, text, value_of(number), file, round, task)?;
    }
    *before = number;
    Ok(())
}

// Adds the record of a task's point.
fn push_record(
    alloc: Global,
    text: &mut String,
    value: u64,
    file: u32,
    round: u32,
    task: u32,
) -> Result<(), OutOfMemory>
    requires below { round < 100 }
    ensures line { OnOk result
        (string_bytes text.new ≡ string_bytes text.old ++ spec.point_record value file round task) }
{
    let front = record_front(alloc, value, round)?;
    let fields = record_fields(alloc, file, task)?;
    text.push_str(front.as_str())?;
    text.push_str(fields.as_str())?;
    Ok(())
}

// The front of a point's record.
fn record_front(alloc: Global, value: u64, round: u32) -> Result<String, OutOfMemory>
    requires below { round < 100 }
    ensures front { IfOk result (λ text. string_bytes text ≡ spec.record_front value round) }
{
    let start = 10 * round;
    let end = start + 10;
    format!(in alloc; "Task,/work,{start},{end},{value}")
}

// The fields of a task's series in a file.
fn record_fields(alloc: Global, file: u32, task: u32) -> Result<String, OutOfMemory>
    ensures fields { IfOk result (λ text. string_bytes text ≡ spec.record_fields file task) }
{
    let job = task % 10;
    let cluster = task % 4;
    format!(in alloc; ",u{file},job{job},c{cluster},{task}\n")
}

// The number behind a number.
fn next_number(number: u64) -> u64
    ensures next { result ≡ spec.next_number number }
{
    number
        .wrapping_mul(6_364_136_223_846_793_005)
        .wrapping_add(1_442_695_040_888_963_407)
}

// The number so many steps behind one.
fn number_behind(number: u64, steps: u32) -> u64
    ensures behind { result ≡ spec.number_behind steps number }
{
    let mut behind = number;
    for _step in 0..steps {
        behind = next_number(behind);
    }
    behind
}

// The value that a number gives.
fn value_of(number: u64) -> u64
    ensures value { result ≡ spec.value_of number }
{
    (number >> 33) % 1000
}
