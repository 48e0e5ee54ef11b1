//! Why a node's process ended before its time.

ghost use Rattle.std.specs.Prelude.{◌≡◌};

use crate::outside::BrokenOff;
use std::alloc::{AllocError, AllocFailed};
use thiserror::Error;

/// Why a node's process ended before its time.
#[derive(Clone, Copy, Debug, PartialEq, Eq, Error)]
pub enum NodeFault {
    #[error("out of memory")]
    OutOfMemory = 1,
    #[error("a line can't be written")]
    WriteFailed = 2,
    /// What a contact would have told isn't known any more.
    #[error("the lines of the field equipment have ended")]
    LinesEnded = 3,
    /// 2^64 lines or rounds have no number.
    #[error("no number is left")]
    OutOfNumbers = 4,
}

impl From<AllocError> for NodeFault {
    ghost use Rattle.node_drive.specs.declared.fault.NodeFault.TheVariants.{OutOfMemory};

    ghost from_gives = { λ _ fault. fault ≡ OutOfMemory };

    fn from(_error: AllocError) -> NodeFault {
        NodeFault::OutOfMemory
    }
}

impl<T: Drop> From<AllocFailed<T>> for NodeFault {
    ghost use Rattle.node_drive.specs.declared.fault.NodeFault.TheVariants.{OutOfMemory};

    ghost from_gives = { λ _ fault. fault ≡ OutOfMemory };

    fn from(_error: AllocFailed<T>) -> NodeFault {
        NodeFault::OutOfMemory
    }
}

impl From<BrokenOff> for NodeFault {
    ghost use Rattle.node_drive.specs.declared.fault.NodeFault.TheVariants.{WriteFailed};

    ghost from_gives = { λ _ fault. fault ≡ WriteFailed };

    fn from(_error: BrokenOff) -> NodeFault {
        NodeFault::WriteFailed
    }
}
