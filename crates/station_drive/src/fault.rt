//! Why a drive ended before its time.

ghost use Rattle.std.specs.Prelude.{◌≡◌};

use std::alloc::AllocError;
use thiserror::Error;

/// Why a drive ended before its time. The station is as the events applied so far left it, and the record has a beginning of
/// their lines.
#[derive(Clone, Copy, Debug, PartialEq, Eq, Error)]
pub enum DriveFault {
    #[error("out of memory")]
    OutOfMemory = 1,
    #[error("the record can't be written")]
    WriteFailed = 2,
}

impl From<AllocError> for DriveFault {
    ghost use Rattle.station_drive.specs.declared.fault.DriveFault.TheVariants.{OutOfMemory};

    ghost from_gives = { λ _ fault. fault ≡ OutOfMemory };

    fn from(_error: AllocError) -> DriveFault {
        DriveFault::OutOfMemory
    }
}
