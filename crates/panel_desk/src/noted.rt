//! A line, and the number at which it was told.

ghost use Rattle.std.specs.Prelude.{◌≡◌, ◌<◌, IfOk, OnErr, OnOk, length, slice_get};
ghost use Rattle.panel_desk.specs.Lines.{told_at};

use std::alloc::{AllocError, Global};
use std::marker::Model;

/// A line, and the number at which it was told.
#[derive(Drop)]
pub struct Noted {
    text: String,
    since: u64,
}

impl Model for Noted {
    ghost use Rattle.std.specs.Prelude.{string_bytes};
    ghost use Rattle.panel_desk.specs.Lines.{NotedView};

    ghost Value = { NotedView };

    ghost view = { λ n. record { text = string_bytes n.text; since = n.since } };
}

impl Noted {
    /// A line that was told at a number.
    pub(crate) fn at(alloc: Global, since: u64, text: &str) -> Result<Noted, AllocError>
        ensures { IfOk result (λ noted. noted ≡ record { text = text.now; since = since }) }
    {
        let text = String::from_str(alloc, text)?;
        Ok(Noted { text, since })
    }

    /// The line.
    pub fn text(&self) -> &str
        ensures { result.now ≡ self.now.text }
    {
        self.text.as_str()
    }

    /// The number at which it was told.
    pub fn since(&self) -> u64
        ensures { result ≡ self.now.since }
    {
        self.since
    }
}

/// Shows a line at a place, told at a number. It keeps its number where it stood there already.
#[tactic(auto, using(crate::proofs::Told::told_same, crate::proofs::Told::told_anew))]
pub(crate) fn show_at(
    alloc: Global,
    number: u64,
    shown: &mut [Noted],
    place: usize,
    line: &str,
) -> Result<(), AllocError>
    requires { place < length shown.old }
    ensures done { OnOk result (shown.new ≡ told_at number place line.now (slice_get shown.old place) shown.old) }
    ensures failed { OnErr result (shown.new ≡ shown.old) }
{
    if shown[place].text() == line {
        return Ok(());
    }
    let noted = Noted::at(alloc, number, line)?;
    shown[place] = noted;
    Ok(())
}
