// Paths to what is at fault.
ghost use Rattle.std.specs.Prelude.{◌≡◌, ◌++◌, [], codes, Err, IfOk};
ghost use Rattle.mon_value.specs.Answers.{Gives};
ghost use Rattle.mon_config.specs.Objects.{through_key, through_index};

use mon_value::{OutOfMemory, Refusal, Text};
use std::alloc::Global;

/// What a JSON value spells, or the path from it to its first fault of shape.
pub(crate) type Shaped<T> = Result<T, Refusal<Text>>;

/// The path that goes through a key first.
pub(crate) fn path_through_key(alloc: Global, key: &str, path: &str) -> Result<Text, OutOfMemory>
    ensures path { IfOk result (λ longer. longer ≡ through_key key.now path.now) }
{
    Text::from_string(format!(in alloc; ".{key}{path}")?)
}

/// The path that goes through an element first.
pub(crate) fn path_through_index(
    alloc: Global,
    index: usize,
    path: &str,
) -> Result<Text, OutOfMemory>
    ensures path { IfOk result (λ longer. longer ≡ through_index index path.now) }
{
    Text::from_string(format!(in alloc; "[{index}]{path}")?)
}

/// The path of a value from the top.
pub(crate) fn path_from_top(alloc: Global, path: &str) -> Result<Text, OutOfMemory>
    ensures path { IfOk result (λ whole. whole ≡ codes "$" ++ path.now) }
{
    Text::from_string(format!(in alloc; "${path}")?)
}

/// The value itself is at fault.
pub(crate) fn wrong_form<T>(alloc: Global) -> Shaped<T>
    ensures refused { Gives result (Err []) }
{
    Err(Refusal::Fault(Text::from_str(alloc, "")?))
}
