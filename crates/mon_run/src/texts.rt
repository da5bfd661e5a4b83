// The text of its own that a run ends with.
ghost use Rattle.std.specs.Prelude.{◌≡◌, ◌++◌, IfOk, string_bytes};
ghost use Rattle.mon_run.specs.Steps as spec;
ghost use Rattle.mon_run.specs.within.Stops as stops;
ghost use Rattle.mon_table.specs.Tables.{newline};

use crate::stop::Stop;
use mon_script::ScriptKind;
use mon_value::OutOfMemory;
use std::alloc::Global;

/// The text of its own that a run ends with, where it stops.
pub(crate) fn own_text(alloc: Global, stop: &Stop) -> Result<String, OutOfMemory>
    ensures text { IfOk result (λ text. string_bytes text ≡ stops.own_text stop.now) }
{
    match stop {
        Stop::Usage => {
            format!(in alloc;
                "usage: mon run CONFIG SCRIPT | weave CONFIG SCHEDULE | gen N | trial N\n"
            )
        }
        Stop::Config(fault) => format!(in alloc; "config: {fault}\n"),
        Stop::Script(fault) => script_text(alloc, fault.line, fault.kind),
        Stop::Schedule(fault) => format!(in alloc; "{fault}\n"),
        Stop::CannotRead(name) => named(alloc, "cannot read ", name.as_str()),
        Stop::TooLong(name) => named(alloc, "too long: ", name.as_str()),
        Stop::WriteFailed | Stop::OutOfMemory => Ok(String::new(alloc)),
    }
}

// What a run says of a line of a script.
fn script_text(alloc: Global, line: u32, kind: ScriptKind) -> Result<String, OutOfMemory>
    ensures text { IfOk result (λ text. string_bytes text ≡ spec.script_text (record { line = line; kind = kind })) }
{
    let word = kind_text(kind);
    format!(in alloc; "script line {line}: {word}\n")
}

// Why a line of a script is refused.
fn kind_text(kind: ScriptKind) -> &'static str
    ensures text { result.now ≡ spec.kind_text kind }
{
    match kind {
        ScriptKind::BadWord => "BadWord",
        ScriptKind::BadNumber => "BadNumber",
        ScriptKind::UnknownLeaf => "UnknownLeaf",
        ScriptKind::UnknownRange => "UnknownRange",
        ScriptKind::NotInZone => "NotInZone",
        ScriptKind::Nested => "Nested",
        ScriptKind::NoEnd => "NoEnd",
        ScriptKind::BlockFull => "BlockFull",
        ScriptKind::TooManyLines => "TooManyLines",
        ScriptKind::NotInBlock => "NotInBlock",
    }
}

// What a run says of a file.
fn named(alloc: Global, front: &str, name: &str) -> Result<String, OutOfMemory>
    ensures text { IfOk result (λ text. string_bytes text ≡ front.now ++ (name.now ++ newline)) }
{
    format!(in alloc; "{front}{name}\n")
}
