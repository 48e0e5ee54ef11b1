//! Why a command of a station fails, how that is told, and with which status the command ends.

ghost use Rattle.std.specs.Prelude.{IfOk, Some, ◌≡◌};
ghost use Rattle.station_check.specs.Failures.{Tells, status_of, told_line};

use arrayvec::ArrayString;
use capture_file::{CaptureFault, fault_line};
use control_table::layout::LayoutFault;
use control_table::{Name, TableFault};
use node_addresses::{AddressesFault, SessionFault};
use replay_words::write_as_taken;
use std::alloc::AllocError;
use std::io::Write;
use std::{fmt, io};

/// More bytes than any line of a failure has: the longest one tells the name of a route, and has 61.
const LINE_LENGTH: usize = 80;

/// Why a command fails. Which of these a command knows, its contract says.
#[derive(Debug, Drop)]
pub enum Failure {
    /// A text is no layout.
    Layout(LayoutFault),
    /// The table of a layout isn't sound.
    Table(TableFault),
    /// A line of a text is faulty.
    Line(SessionFault),
    /// A line of a picture is faulty.
    Picture(SessionFault),
    /// An addresses file is faulty.
    Addresses(AddressesFault),
    /// A word doesn't spell up to 512 bytes in hexadecimal digits.
    Hex,
    /// No route has the name that is asked for.
    Route,
    /// The address of this node is none of IPv4, and a capture has no others.
    NoIpv4(Name),
    /// A datagram is too long for a capture, or there is no new file.
    Capture(CaptureFault),
    /// The event of this line, counted from 1, is the first that answers otherwise than it was recorded.
    Differs(u64),
    /// A socket can't be opened, or a record can't be written.
    CannotRun,
    /// Memory is lacking elsewhere than in a fault above.
    OutOfMemory,
    /// The output couldn't be written.
    NotWritten,
}

impl From<LayoutFault> for Failure {
    ghost use Rattle.station_check.specs.declared.failure.Failure.TheVariants.{Layout};

    ghost from_gives = { λ fault failure. failure ≡ Layout fault };

    fn from(fault: LayoutFault) -> Failure {
        Failure::Layout(fault)
    }
}

impl From<TableFault> for Failure {
    ghost use Rattle.station_check.specs.declared.failure.Failure.TheVariants.{Table};

    ghost from_gives = { λ fault failure. failure ≡ Table fault };

    fn from(fault: TableFault) -> Failure {
        Failure::Table(fault)
    }
}

impl From<SessionFault> for Failure {
    ghost use Rattle.station_check.specs.declared.failure.Failure.TheVariants.{Line};

    ghost from_gives = { λ fault failure. failure ≡ Line fault };

    fn from(fault: SessionFault) -> Failure {
        Failure::Line(fault)
    }
}

impl From<AddressesFault> for Failure {
    ghost use Rattle.station_check.specs.declared.failure.Failure.TheVariants.{Addresses};

    ghost from_gives = { λ fault failure. failure ≡ Addresses fault };

    fn from(fault: AddressesFault) -> Failure {
        Failure::Addresses(fault)
    }
}

impl From<CaptureFault> for Failure {
    ghost use Rattle.station_check.specs.declared.failure.Failure.TheVariants.{Capture};

    ghost from_gives = { λ fault failure. failure ≡ Capture fault };

    fn from(fault: CaptureFault) -> Failure {
        Failure::Capture(fault)
    }
}

impl From<AllocError> for Failure {
    ghost use Rattle.station_check.specs.declared.failure.Failure.TheVariants.{OutOfMemory};

    ghost from_gives = { λ _ failure. failure ≡ OutOfMemory };

    fn from(_error: AllocError) -> Failure {
        Failure::OutOfMemory
    }
}

impl From<io::Error> for Failure {
    ghost use Rattle.station_check.specs.declared.failure.Failure.TheVariants.{NotWritten};

    ghost from_gives = { λ _ failure. failure ≡ NotWritten };

    fn from(_error: io::Error) -> Failure {
        Failure::NotWritten
    }
}

impl fmt::Display for Failure {
    ghost output = { λ failure. Some (told_line failure) };

    fn fmt<W: fmt::Write>(&self, f: &mut fmt::Formatter<W>) -> fmt::Result {
        match self {
            Failure::Layout(fault) => write!(f, "layout fault {fault}\n"),
            Failure::Table(fault) => write!(f, "table fault {fault}\n"),
            Failure::Line(fault) => write!(f, "{fault}\n"),
            Failure::Picture(fault) => {
                let number = fault.number;
                let line = fault.line;
                write!(f, "picture fault {number} at line {line}\n")
            }
            Failure::Addresses(fault) => write!(f, "{fault}\n"),
            Failure::Hex => write!(f, "hex fault 4 Hexadecimal\n"),
            Failure::Route => write!(f, "route fault 2 Name\n"),
            Failure::NoIpv4(name) => {
                let name = name.as_str();
                write!(f, "capture fault 3 NoIpv4 at {name}\n")
            }
            Failure::Capture(fault) => f.write_str(fault_line(*fault)),
            Failure::Differs(line) => write!(f, "differs at line {line}\n"),
            Failure::CannotRun => write!(f, "cannot run\n"),
            Failure::OutOfMemory => write!(f, "out of memory\n"),
            Failure::NotWritten => Ok(()),
        }
    }
}

impl Failure {
    /// The line that tells it, in a place of its own: it takes no memory, which may be what is lacking.
    fn line(&self) -> Result<ArrayString<LINE_LENGTH>, fmt::Error>
        ensures { IfOk result (λ line. line.bytes ≡ told_line self.now) }
    {
        use std::fmt::Write;
        let mut line = ArrayString::new();
        write!(line, "{self}")?;
        Ok(line)
    }

    /// The status with which the command ends: 3 where a session answers otherwise than it was recorded.
    fn status(&self) -> u8
        ensures { result ≡ status_of self.now }
    {
        match self {
            Failure::Differs(_) => 3,
            _ => 1,
        }
    }
}

/// Writes the line of a failure, or as much of it as the writer takes, and answers the status with which the command ends.
pub fn tell<E: Write>(failure: &Failure, err: &mut E) -> u8
    ensures status { result ≡ status_of failure.now }
    ensures told { Tells failure.now (E.contents err.old) (E.contents err.new) }
{
    if let Ok(line) = failure.line() {
        write_as_taken(line.as_str().as_bytes(), err);
    }
    failure.status()
}
