//! The lines of a whole text.

ghost use Rattle.std.specs.Prelude.{◌≡◌, MatchResult, Ok, Err};
ghost use Rattle.simulator_pair_text.specs.Text.{run_of};

use crate::line::read_line;
use replay_words::{Fault, Lines, is_passed_over};
use std::error::Error;
use std::fmt;

/// Where a text is faulty, and how.
#[derive(Clone, Copy, Debug)]
pub struct LineFault {
    /// The number of the first faulty line, from 1.
    pub line: u64,
    /// The lowest fault of that line.
    pub fault: Fault,
}

impl fmt::Display for LineFault {
    ghost use Rattle.std.specs.Prelude.{Some};
    ghost use Rattle.simulator_pair_text.specs.Told.{fault_text};

    ghost output = { λ fault. Some (fault_text fault) };

    fn fmt<W: fmt::Write>(&self, f: &mut fmt::Formatter<W>) -> fmt::Result {
        let number = self.fault.number();
        let line = self.line;
        write!(f, "session fault {number} at line {line}")
    }
}

impl Error for LineFault {}

/// Whether every line of a text that isn't passed over says something; otherwise where the first faulty
/// one is. Nothing is applied, and no memory is taken.
pub fn judge(text: &str) -> Result<(), LineFault>
    ensures { MatchResult (run_of text.now) (λ said. result ≡ Ok tt) (λ fault. result ≡ Err fault) }
{
    for (number, line) in Lines::of(text) {
        if is_passed_over(line) {
            continue;
        }
        if let Err(fault) = read_line(line) {
            return Err(LineFault {
                line: number,
                fault,
            });
        }
    }
    Ok(())
}
