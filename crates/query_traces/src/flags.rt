// Flags of several things.
ghost use Rattle.std.specs.Prelude.{◌≡◌};
ghost use Rattle.std.specs.List.{list_any};
ghost use Rattle.plan_split.specs.Meeting as spec;

/// The flag at a place, and none behind the last.
pub fn flag_at(flags: &[bool], place: usize) -> bool
    ensures flag { result ≡ spec.flag_at flags.now place }
{
    match flags.get(place) {
        Some(flag) => *flag,
        None => false,
    }
}

/// Whether some flag is set.
pub fn some_flag(flags: &[bool]) -> bool
    ensures some { result ≡ list_any (λ flag. flag) flags.now }
{
    flags.iter().any(|flag| *flag)
}
