// Schedules: which actor does its next event, line by line.
ghost use Rattle.std.specs.Prelude.{◌≡◌, ◌++◌, ◌≤◌, [], true, false, Some, OnOk, string_bytes};
ghost use Rattle.mon_config.specs.Numbers.{AreLawful};
ghost use Rattle.mon_config.specs.declared.config.Config.{Config as ConfigOf};
ghost use Rattle.weave_core.specs.ActorAgreements.{Agrees};
ghost use Rattle.schedule_lines.specs.LawfulLines.{IsActorNumber, IsLawfulCall, IsLawfulForm};
ghost use Rattle.weave_core.specs.ScheduleTurns.{FormSo, GoesSo, LineSo, LinesSo, NumberedSo};
ghost use Rattle.weave_core.specs.Schedules as spec;
ghost use Rattle.weave_core.specs.States.{State};
ghost use Rattle.core_store.specs.Agreements.{store_of};
ghost use Rattle.weave_core.specs.WeaveCalls.{IsWeaveKept};

use crate::stepped::Stepped;
use crate::weave::Weave;
use mon_config::Config;
use mon_script::{is_remark, next_line};
use mon_value::{OutOfMemory, Refusal};
use schedule_lines::{
    Call, Event, LAST_ACTOR, LineForm, MOST_EVENTS, MOST_LINES, ScheduleFault, WeaveFault, form_of,
};
use std::alloc::Global;

/// Runs the lines of a schedule over the store of a configuration, and adds what they print. The first line that is
/// refused ends the run; what the lines before it printed stays.
pub fn run_schedule(
    alloc: Global,
    config: Config,
    text: &[u8],
    out: &mut String,
) -> Result<(), Refusal<ScheduleFault>>
    requires lawful { AreLawful config.buckets config.limit config.range_points }
    ensures printed { spec.Prints config text.now result (string_bytes out.old) (string_bytes out.new) }
{
    let mut weave = Weave::new(alloc, config)?;
    let ran = run_lines(alloc, &mut weave, text, out);
    drop(weave);
    ran
}

// Runs the lines of a schedule, and names who has not ended then.
fn run_lines(
    alloc: Global,
    weave: &mut Weave,
    text: &[u8],
    out: &mut String,
) -> Result<(), Refusal<ScheduleFault>>
    requires kept { IsWeaveKept weave.old }
    ensures ran { (config : ConfigOf) (state : State (store_of config)) → Agrees config weave.old state
        → LinesSo config state text.now result (string_bytes out.old) (string_bytes out.new) }
{
    let mut number = 0;
    let mut rest = text;
    while let Some((line, left)) = next_line(rest) {
        number += 1;
        rest = left;
        run_numbered(alloc, weave, number, line, out)?;
    }
    Ok(tell_unfinished(alloc, weave, out)?)
}

// Runs the line of a number, unless there may be none of it.
fn run_numbered(
    alloc: Global,
    weave: &mut Weave,
    number: u32,
    line: &[u8],
    out: &mut String,
) -> Result<(), Refusal<ScheduleFault>>
    requires kept { IsWeaveKept weave.old }
    ensures kept { OnOk result (IsWeaveKept weave.new) }
    ensures few { OnOk result (number ≤ MOST_LINES) }
    ensures ran { (config : ConfigOf) (state : State (store_of config)) → Agrees config weave.old state
        → NumberedSo config state number line.now result weave.new (string_bytes out.old) (string_bytes out.new) }
{
    if number > MOST_LINES {
        return Err(at_line(number, WeaveFault::BadLine));
    }
    if is_remark(line) {
        return Ok(());
    }
    match run_line(alloc, weave, line, out) {
        Ok(()) => Ok(()),
        Err(Refusal::Fault(fault)) => Err(at_line(number, fault)),
        Err(Refusal::OutOfMemory) => Err(Refusal::OutOfMemory),
    }
}

// A line is refused.
fn at_line(line: u32, fault: WeaveFault) -> Refusal<ScheduleFault>
    ensures fault { result ≡ Refusal.Fault (record { line = line; fault = fault }) }
{
    Refusal::Fault(ScheduleFault { line, fault })
}

// Reads a line and does it.
fn run_line(
    alloc: Global,
    weave: &mut Weave,
    line: &[u8],
    out: &mut String,
) -> Result<(), Refusal<WeaveFault>>
    requires kept { IsWeaveKept weave.old }
    ensures kept { OnOk result (IsWeaveKept weave.new) }
    ensures ran { (config : ConfigOf) (state : State (store_of config)) → Agrees config weave.old state
        → LineSo config state line.now result weave.new (string_bytes out.old) (string_bytes out.new) }
{
    let config = weave.config();
    match form_of(alloc, &config.schemas, &config.topology, line)? {
        Some(form) => run_form(alloc, weave, form, out),
        None => Err(Refusal::Fault(WeaveFault::BadLine)),
    }
}

// Does what a line says.
fn run_form(
    alloc: Global,
    weave: &mut Weave,
    form: LineForm,
    out: &mut String,
) -> Result<(), Refusal<WeaveFault>>
    requires kept { IsWeaveKept weave.old }
    requires lawful { (config : ConfigOf) (state : State (store_of config)) → Agrees config weave.old state
        → IsLawfulForm config.schemas config.topology form }
    ensures kept { OnOk result (IsWeaveKept weave.new) }
    ensures ran { (config : ConfigOf) (state : State (store_of config)) → Agrees config weave.old state
        → FormSo config state form result weave.new (string_bytes out.old) (string_bytes out.new) }
{
    match form {
        LineForm::Declare(actor, call) => declare(weave, actor, call),
        LineForm::Meet(actor, other) => meet(weave, actor, other),
        LineForm::Step(actor) => step(alloc, weave, actor, out),
        LineForm::Until(actor, event) => until(alloc, weave, actor, event, out),
        LineForm::Finish(actor) => finish(alloc, weave, actor, out),
    }
}

// An actor is declared once.
fn declare(weave: &mut Weave, actor: u32, call: Call) -> Result<(), Refusal<WeaveFault>>
    requires kept { IsWeaveKept weave.old }
    requires actor { IsActorNumber actor }
    requires lawful { (config : ConfigOf) (state : State (store_of config)) → Agrees config weave.old state
        → IsLawfulCall config.schemas config.topology call }
    ensures kept { OnOk result (IsWeaveKept weave.new) }
    ensures ran { (config : ConfigOf) (state : State (store_of config)) → Agrees config weave.old state
        → FormSo config state (LineForm.Declare actor call) result weave.new [] [] }
{
    if weave.is_declared(actor) {
        return Err(Refusal::Fault(WeaveFault::BadLine));
    }
    Ok(weave.declare(actor, call)?)
}

// An actor that has not begun sees what one that has ended has seen.
fn meet(weave: &mut Weave, actor: u32, other: u32) -> Result<(), Refusal<WeaveFault>>
    requires kept { IsWeaveKept weave.old }
    ensures kept { OnOk result (IsWeaveKept weave.new) }
    ensures ran { (config : ConfigOf) (state : State (store_of config)) → Agrees config weave.old state
        → FormSo config state (LineForm.Meet actor other) result weave.new [] [] }
{
    match meet_fault(weave, actor, other) {
        Some(fault) => Err(Refusal::Fault(fault)),
        None => {
            weave.meet(actor, other);
            Ok(())
        }
    }
}

// Why two actors can't meet.
fn meet_fault(weave: &Weave, actor: u32, other: u32) -> Option<WeaveFault>
    ensures fault { (config : ConfigOf) (state : State (store_of config)) → Agrees config weave.now state
        → result ≡ spec.meet_fault (store_of config) state actor other }
{
    if !weave.is_declared(actor) || !weave.is_declared(other) {
        Some(WeaveFault::NoActor)
    } else if weave.has_begun(actor) || !weave.has_ended(other) {
        Some(WeaveFault::BadLine)
    } else {
        None
    }
}

// An actor does one event.
fn step(
    alloc: Global,
    weave: &mut Weave,
    actor: u32,
    out: &mut String,
) -> Result<(), Refusal<WeaveFault>>
    requires kept { IsWeaveKept weave.old }
    ensures kept { OnOk result (IsWeaveKept weave.new) }
    ensures ran { (config : ConfigOf) (state : State (store_of config)) → Agrees config weave.old state
        → FormSo config state (LineForm.Step actor) result weave.new (string_bytes out.old) (string_bytes out.new) }
{
    let stepped = weave.step(actor)?;
    Ok(tell(alloc, actor, &stepped, out)?)
}

// An actor goes on until its next event is this one.
fn until(
    alloc: Global,
    weave: &mut Weave,
    actor: u32,
    event: Event,
    out: &mut String,
) -> Result<(), Refusal<WeaveFault>>
    requires kept { IsWeaveKept weave.old }
    ensures kept { OnOk result (IsWeaveKept weave.new) }
    ensures ran { (config : ConfigOf) (state : State (store_of config)) → Agrees config weave.old state
        → FormSo config state (LineForm.Until actor event) result weave.new (string_bytes out.old)
        (string_bytes out.new) }
{
    let stepped = go_on(weave, actor, Some(event))?;
    Ok(tell(alloc, actor, &stepped, out)?)
}

// An actor goes on until it ends.
fn finish(
    alloc: Global,
    weave: &mut Weave,
    actor: u32,
    out: &mut String,
) -> Result<(), Refusal<WeaveFault>>
    requires kept { IsWeaveKept weave.old }
    ensures kept { OnOk result (IsWeaveKept weave.new) }
    ensures ran { (config : ConfigOf) (state : State (store_of config)) → Agrees config weave.old state
        → FormSo config state (LineForm.Finish actor) result weave.new (string_bytes out.old) (string_bytes out.new) }
{
    let stepped = go_on(weave, actor, None)?;
    Ok(tell(alloc, actor, &stepped, out)?)
}

// Steps an actor until its next event is the one given, or it ends or waits.
fn go_on(weave: &mut Weave, actor: u32, goal: Option<Event>) -> Result<Stepped, Refusal<WeaveFault>>
    requires kept { IsWeaveKept weave.old }
    ensures kept { OnOk result (IsWeaveKept weave.new) }
    ensures goes { (config : ConfigOf) (state : State (store_of config)) → Agrees config weave.old state
        → GoesSo config state actor goal result weave.new }
{
    for _event in 0..MOST_EVENTS {
        if is_next(weave, actor, goal) {
            return Ok(Stepped::Went);
        }
        let stepped = weave.step(actor)?;
        if !has_gone(&stepped) {
            return Ok(stepped);
        }
    }
    Ok(Stepped::Went)
}

// Whether an actor did an event and has more of them.
fn has_gone(stepped: &Stepped) -> bool
    ensures gone { result ≡ true → stepped.now ≡ Stepped.Went }
    ensures other { result ≡ false → stepped.now ≡ Stepped.Went → ⊥ }
{
    matches!(stepped, Stepped::Went)
}

// Whether the next event of an actor is the one given.
fn is_next(weave: &Weave, actor: u32, goal: Option<Event>) -> bool
    ensures next { (config : ConfigOf) (state : State (store_of config)) → Agrees config weave.now state
        → result ≡ true → spec.IsNextEvent (store_of config) state actor goal }
    ensures other { (config : ConfigOf) (state : State (store_of config)) → Agrees config weave.now state
        → result ≡ false → spec.IsNextEvent (store_of config) state actor goal → ⊥ }
{
    match goal {
        Some(event) => is_event(weave.next_event(actor), event),
        None => false,
    }
}

// Whether an event is this one.
fn is_event(next: Option<Event>, event: Event) -> bool
    ensures same { result ≡ true → next ≡ Some event }
    ensures other { result ≡ false → next ≡ Some event → ⊥ }
{
    match next {
        Some(next) => next == event,
        None => false,
    }
}

// What a line that steps an actor prints.
fn tell(alloc: Global, actor: u32, stepped: &Stepped, out: &mut String) -> Result<(), OutOfMemory>
    ensures told { OnOk result (string_bytes out.new ≡ string_bytes out.old ++ spec.stepped_text actor stepped.now) }
{
    match stepped {
        Stepped::Went => Ok(()),
        Stepped::Waits => out.push_str(format!(in alloc; "{actor} waits\n")?.as_str()),
        Stepped::Ended(text) => {
            let text = text.as_str();
            out.push_str(format!(in alloc; "actor {actor}\n{text}")?.as_str())
        }
    }
}

// Names the actors that are declared and have not ended.
fn tell_unfinished(alloc: Global, weave: &Weave, out: &mut String) -> Result<(), OutOfMemory>
    ensures told { (config : ConfigOf) (state : State (store_of config)) → Agrees config weave.now state
        → OnOk result (string_bytes out.new ≡ string_bytes out.old ++ spec.unfinished_text (store_of config) state) }
{
    for number in 0..LAST_ACTOR {
        tell_if_unfinished(alloc, weave, number + 1, out)?;
    }
    Ok(())
}

// Names an actor if it is declared and has not ended.
fn tell_if_unfinished(
    alloc: Global,
    weave: &Weave,
    actor: u32,
    out: &mut String,
) -> Result<(), OutOfMemory>
    ensures told { (config : ConfigOf) (state : State (store_of config)) → Agrees config weave.now state
        → OnOk result (string_bytes out.new
        ≡ string_bytes out.old ++ spec.unfinished_line (store_of config) state actor) }
{
    if weave.is_declared(actor) && !weave.has_ended(actor) {
        out.push_str(format!(in alloc; "{actor} unfinished\n")?.as_str())
    } else {
        Ok(())
    }
}
