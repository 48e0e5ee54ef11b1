//! The lines of a whole text.

ghost use Rattle.std.specs.Prelude.{◌≡◌, [], ◌∷◌, ◌++◌, OnOk, IfErr, Ok};
ghost use Rattle.replay_lines.specs.Given.{Fails, Gives};
ghost use Rattle.replay_lines.specs.Text.{Tells, line_behind, lines_said};

use crate::line::{SimLine, read_line};
use crate::outset::may_stand;
use ixl_spec::{Checked, Layout};
use replay_words::{Fault, Lines, is_passed_over};
use std::alloc::Global;
use std::error::Error;
use std::fmt;

/// Where a text is faulty, and how.
#[derive(Clone, Copy, Debug, PartialEq, Eq)]
pub struct SessionFault {
    /// The number of the first faulty line, from 1.
    pub line: u64,
    /// The number of the lowest fault of that line, 1 to 7.
    pub number: u8,
}

impl fmt::Display for SessionFault {
    ghost use Rattle.std.specs.Prelude.{Some};
    ghost use Rattle.replay_lines.specs.Text.{fault_text};

    ghost output = { λ fault. Some (fault_text fault) };

    fn fmt<W: fmt::Write>(&self, f: &mut fmt::Formatter<W>) -> fmt::Result {
        let number = self.number;
        let line = self.line;
        write!(f, "session fault {number} at line {line}")
    }
}

impl Error for SessionFault {}

/// What the lines of a text say that aren't passed over, or where the first faulty one is. Lines that say how points and
/// sections begin stand before all others, each for another one. Fault 7 comes only where memory was refused, at the line
/// that was being read.
pub fn read_lines(alloc: Global, table: &Checked, text: &str) -> Result<Vec<SimLine>, SessionFault>
    ensures { Tells (λ lines. lines.items) (lines_said table.now text.now) result }
{
    let mut said = Vec::new(alloc);
    for (number, line) in Lines::of(text) {
        if is_passed_over(line) {
            continue;
        }
        let kept = keep_line(alloc, table, line, &mut said);
        if let Err(fault) = kept {
            return Err(SessionFault {
                line: number,
                number: fault.number(),
            });
        }
    }
    Ok(said)
}

// Keeps what one line says after those before it.
fn keep_line(
    alloc: Global,
    table: &Checked,
    text: &str,
    said: &mut Vec<SimLine>,
) -> Result<(), Fault>
    ensures ok { OnOk result ((this : SimLine) × (line_behind table.now said.old.items text.now ≡ Ok this) × (said.new.items ≡ said.old.items ++ this ∷ [])) }
    ensures err { IfErr result (λ fault. Fails fault (line_behind table.now said.old.items text.now)) }
{
    let this = line_behind(alloc, table.layout(), said.as_slice(), text)?;
    said.push(this)?;
    Ok(())
}

// What a line says after earlier ones.
fn line_behind(
    alloc: Global,
    layout: &Layout,
    earlier: &[SimLine],
    text: &str,
) -> Result<SimLine, Fault>
    ensures { Gives (λ this. this) (line_behind layout.now earlier.now text.now) result }
{
    let this = read_line(alloc, layout, text)?;
    may_stand(earlier, &this)?;
    Ok(this)
}
