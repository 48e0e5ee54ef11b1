//! Why a node's process can't begin.

ghost use Rattle.std.specs.Prelude.{◌≡◌};

use std::alloc::{AllocError, AllocFailed};
use thiserror::Error;

/// Why what a node's process has outside can't be opened.
#[derive(Clone, Copy, Debug, PartialEq, Eq, Error)]
pub enum OpenFault {
    #[error("out of memory")]
    OutOfMemory = 1,
    #[error("the node has no address")]
    NoAddress = 2,
    /// It isn't one of this machine, or another process has it.
    #[error("the node's address can't be used")]
    NoSocket = 3,
    #[error("the operator's address can't be used")]
    NoListener = 4,
    #[error("the clock can't be read")]
    NoClock = 5,
}

impl From<AllocError> for OpenFault {
    ghost use Rattle.node_network.specs.declared.fault.OpenFault.TheVariants.{OutOfMemory};

    ghost from_gives = { λ _ fault. fault ≡ OutOfMemory };

    fn from(_error: AllocError) -> OpenFault {
        OpenFault::OutOfMemory
    }
}
