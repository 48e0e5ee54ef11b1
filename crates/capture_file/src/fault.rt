//! What is told where there is no capture in a file of its own.

ghost use Rattle.std.specs.Prelude.{◌≡◌};
ghost use Rattle.capture_file.specs.Faults.{fault_line};

/// Why there is no capture in a file of its own.
#[derive(Clone, Copy, Debug)]
pub enum CaptureFault {
    /// A datagram has more bytes than a capture takes.
    TooLong,
    /// There is a file of that name, which isn't to be written over.
    Exists,
    /// The system doesn't open or write the file.
    CannotWrite,
}

/// The line that tells why, by the number and the name of the fault where it has these.
pub fn fault_line(fault: CaptureFault) -> &'static str
    ensures { result.now ≡ fault_line fault }
{
    match fault {
        CaptureFault::TooLong => "capture fault 1 TooLong\n",
        CaptureFault::Exists => "capture fault 2 Exists\n",
        CaptureFault::CannotWrite => "cannot write\n",
    }
}
