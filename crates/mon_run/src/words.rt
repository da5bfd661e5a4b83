// The commands that words say.
ghost use Rattle.std.specs.Prelude.{◌≡◌, map, option_map, string_bytes};
ghost use Rattle.std.specs.Str.{all_ascii_digits};
ghost use Rattle.mon_run.specs.Plans as plan;
ghost use Rattle.mon_run.specs.Trials as trial;

/// What a command does with its second file.
#[derive(Clone, Copy)]
pub(crate) enum Verb {
    /// It runs a script.
    Run,
    /// It weaves a schedule.
    Weave,
}

/// The command that the words say, if they say one: what it does, and the names of its configuration and of its other
/// file.
pub(crate) fn command_in(words: &[String]) -> Option<(Verb, &str, &str)>
    ensures command { option_map (λ parts. plan.command parts.0 parts.1.now parts.2.now) result
        ≡ plan.command_of (map string_bytes words.now) }
{
    match words {
        [verb, config, script] if verb.as_str() == "run" => {
            Some((Verb::Run, config.as_str(), script.as_str()))
        }
        [verb, config, schedule] if verb.as_str() == "weave" => {
            Some((Verb::Weave, config.as_str(), schedule.as_str()))
        }
        _ => None,
    }
}

/// The number whose input the words ask for, if they ask for one.
pub(crate) fn made_number(words: &[String]) -> Option<u64>
    ensures number { result ≡ plan.made_number (map string_bytes words.now) }
{
    match words {
        [verb, number] if verb.as_str() == "gen" => number_in(number.as_str()),
        _ => None,
    }
}

/// The number whose input the words try, if they do.
pub(crate) fn trial_number(words: &[String]) -> Option<u64>
    ensures number { result ≡ trial.trial_number (map string_bytes words.now) }
{
    match words {
        [verb, number] if verb.as_str() == "trial" => number_in(number.as_str()),
        _ => None,
    }
}

// The number that a word of one or more digits spells, where it has 64 bits.
fn number_in(word: &str) -> Option<u64>
    ensures number { result ≡ plan.number_in word.now }
{
    if !is_all_digits(word.as_bytes()) {
        return None;
    }
    word.parse::<u64>().ok()
}

// Whether each byte of a word is a digit.
fn is_all_digits(word: &[u8]) -> bool
    ensures digits { result ≡ all_ascii_digits word.now }
{
    for byte in word {
        if !byte.is_ascii_digit() {
            return false;
        }
    }
    true
}
