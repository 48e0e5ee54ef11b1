//! Rows of flags.

ghost use Rattle.std.specs.Prelude.{◌≡◌, false, length, replicate};
ghost use Rattle.std.specs.List.{list_any};
ghost use Rattle.panel_desk.specs.StandingOrders.{flag_set};

/// Sets a flag; nothing where there is none at this place.
pub(crate) fn set_flag(flags: &mut [bool], place: usize, value: bool)
    ensures { flags.new ≡ flag_set place value flags.old }
{
    if place < flags.len() {
        flags[place] = value;
    }
}

/// Takes all flags away.
pub(crate) fn clear_flags(flags: &mut [bool])
    ensures { flags.new ≡ replicate (length flags.old) false }
{
    for place in 0..flags.len() {
        flags[place] = false;
    }
}

/// Whether some flag is set.
pub(crate) fn is_any_set(flags: &[bool]) -> bool
    ensures { result ≡ list_any (λ flag. flag) flags.now }
{
    flags.iter().any(|flag| *flag)
}
