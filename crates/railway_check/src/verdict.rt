//! What a check says.

ghost use Rattle.std.specs.Prelude.{◌≡◌};
ghost use Rattle.railway_check.specs.Verdicts.{is_sound, status_of};

use std::marker::Model;

/// What a check says of a text.
#[derive(Drop)]
pub struct Verdict {
    /// The status with which it ends: 0 where nothing is wrong.
    pub status: u8,
    /// What it writes to standard output.
    pub out: Vec<u8>,
    /// What it tells to be wrong.
    pub err: Vec<u8>,
}

impl Model for Verdict {
    ghost use Rattle.railway_check.specs.Verdicts.{VerdictState};

    ghost Value = { VerdictState };

    ghost view = { λ v. record { status = v.status; out = v.out.items; err = v.err.items } };
}

/// Whether nothing is wrong.
pub(crate) fn is_sound(verdict: &Verdict) -> bool
    ensures { result ≡ is_sound verdict.now }
{
    verdict.status == 0
}

/// The status of a check.
pub(crate) fn status_of(sound: bool) -> u8
    ensures { result ≡ status_of sound }
{
    if sound { 0 } else { 1 }
}
