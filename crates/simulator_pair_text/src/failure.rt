//! Why a text isn't run to its end, and how that is told.

ghost use Rattle.std.specs.Prelude.{IfOk, Some, ◌≡◌};
ghost use Rattle.simulator_pair_text.specs.Told.{Tells, told_line};

use crate::text::LineFault;
use arrayvec::ArrayString;
use replay_words::write_as_taken;
use std::alloc::AllocError;
use std::io::Write;
use std::{fmt, io};

/// More bytes than any line of a failure has: the longest one has 45.
const LINE_LENGTH: usize = 64;

/// Why a text wasn't run to its end.
#[derive(Debug, Drop)]
pub enum Failure {
    /// A line is faulty.
    Faulty(LineFault),
    /// A new pair takes memory.
    OutOfMemory,
    /// An answer couldn't be written.
    NotWritten,
}

impl From<AllocError> for Failure {
    ghost use Rattle.simulator_pair_text.specs.declared.failure.Failure.TheVariants.{OutOfMemory};

    ghost from_gives = { λ _ failure. failure ≡ OutOfMemory };

    fn from(_error: AllocError) -> Failure {
        Failure::OutOfMemory
    }
}

impl From<LineFault> for Failure {
    ghost use Rattle.simulator_pair_text.specs.declared.failure.Failure.TheVariants.{Faulty};

    ghost from_gives = { λ fault failure. failure ≡ Faulty fault };

    fn from(fault: LineFault) -> Failure {
        Failure::Faulty(fault)
    }
}

impl From<io::Error> for Failure {
    ghost use Rattle.simulator_pair_text.specs.declared.failure.Failure.TheVariants.{NotWritten};

    ghost from_gives = { λ _ failure. failure ≡ NotWritten };

    fn from(_error: io::Error) -> Failure {
        Failure::NotWritten
    }
}

impl fmt::Display for Failure {
    ghost output = { λ failure. Some (told_line failure) };

    fn fmt<W: fmt::Write>(&self, f: &mut fmt::Formatter<W>) -> fmt::Result {
        match self {
            Failure::Faulty(fault) => write!(f, "{fault}\n"),
            Failure::OutOfMemory => write!(f, "out of memory\n"),
            Failure::NotWritten => Ok(()),
        }
    }
}

/// The line that tells a failure, in a place of its own: it takes no memory, which may be what is lacking.
fn line(failure: &Failure) -> Result<ArrayString<LINE_LENGTH>, fmt::Error>
    ensures { IfOk result (λ line. line.bytes ≡ told_line failure.now) }
{
    use std::fmt::Write;
    let mut line = ArrayString::new();
    write!(line, "{failure}")?;
    Ok(line)
}

/// Writes the line of a failure, or as much of it as the writer takes.
pub fn tell<E: Write>(failure: &Failure, err: &mut E)
    ensures { Tells failure.now (E.contents err.old) (E.contents err.new) }
{
    if let Ok(line) = line(failure) {
        write_as_taken(line.as_str().as_bytes(), err);
    }
}
