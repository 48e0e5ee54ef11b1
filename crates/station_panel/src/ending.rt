//! When a panel ends, and why.

ghost use Rattle.std.specs.Prelude.{◌≡◌, ◌≤◌, Some};
ghost use Rattle.station_panel.specs.declared.ending.Ending.TheVariants as ends;

use station_drive::DriveFault;
use std::alloc::AllocError;
use std::io;

/// Up to when a panel is attended.
#[derive(Clone, Copy, PartialEq, Eq)]
pub struct Limits {
    /// For how many milliseconds of the clock.
    pub for_ms: u64,
    /// Up to how many bytes of the datagrams that were sent.
    pub memory: u64,
}

/// Why a panel ended that wasn't broken off.
#[derive(Clone, Copy, PartialEq, Eq)]
pub enum Ending {
    /// Its time is over.
    TimeIsOver,
    /// The datagrams that were sent take almost as much memory as they may.
    MemoryIsFull,
    /// Its clock told that it is to end.
    Stopped,
}

/// Why a panel didn't begin, or was broken off.
#[derive(Clone, Copy, PartialEq, Eq)]
pub enum PanelFault {
    OutOfMemory,
    /// The record or the address of the page can't be written, or no token can be drawn for the page.
    CannotRun,
}

impl From<AllocError> for PanelFault {
    ghost use Rattle.station_panel.specs.declared.ending.PanelFault.TheVariants.{OutOfMemory};

    ghost from_gives = { λ _ fault. fault ≡ OutOfMemory };

    fn from(_error: AllocError) -> PanelFault {
        PanelFault::OutOfMemory
    }
}

impl From<DriveFault> for PanelFault {
    ghost use Rattle.station_panel.specs.Endings.{of_drive};

    ghost from_gives = { λ drive fault. fault ≡ of_drive drive };

    fn from(fault: DriveFault) -> PanelFault {
        match fault {
            DriveFault::OutOfMemory => PanelFault::OutOfMemory,
            DriveFault::WriteFailed => PanelFault::CannotRun,
        }
    }
}

impl From<io::Error> for PanelFault {
    ghost use Rattle.std.specs.IoError.{error_kind};
    ghost use Rattle.station_panel.specs.Endings.{IsOfSystem};

    ghost from_gives = { λ error fault. IsOfSystem (error_kind error) fault };

    fn from(error: io::Error) -> PanelFault {
        if error.kind() == io::ErrorKind::OutOfMemory {
            PanelFault::OutOfMemory
        } else {
            PanelFault::CannotRun
        }
    }
}

/// So much memory is left at least where a panel ends: more than the datagrams of a round take.
const MARGIN: u64 = 1 << 20;

impl Limits {
    /// Whether a panel ends that has run for so many milliseconds, and whose datagrams take so many bytes.
    pub(crate) fn ending(self, millis: u64, bytes: u64) -> Option<Ending>
        ensures { result ≡ Some ends.TimeIsOver → self.for_ms ≤ millis }
    {
        if bytes.saturating_add(MARGIN) > self.memory {
            Some(Ending::MemoryIsFull)
        } else if millis >= self.for_ms {
            Some(Ending::TimeIsOver)
        } else {
            None
        }
    }
}
