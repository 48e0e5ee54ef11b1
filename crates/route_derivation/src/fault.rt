//! Why no table is derived.

ghost use Rattle.std.specs.Prelude.{◌≡◌, ◌≢◌};
ghost use Rattle.route_derivation.specs.declared.fault.Underived.TheVariants.{TooMany, OutOfMemory};

use std::alloc::{AllocError, AllocFailed};
use std::error::Error;
use std::fmt;

/// Why no table is derived.
#[derive(Clone, Copy, Debug)]
pub enum Underived {
    /// There are more routes than a table has at most, 64.
    TooMany,
    /// No name was found for a route.
    NoName,
    /// Memory ran out.
    OutOfMemory,
}

impl fmt::Display for Underived {
    ghost use Rattle.std.specs.Prelude.{Some};
    ghost use Rattle.route_derivation.specs.Messages.{message};

    ghost output = { λ fault. Some (message fault) };

    fn fmt<W: fmt::Write>(&self, f: &mut fmt::Formatter<W>) -> fmt::Result {
        match self {
            Underived::TooMany => write!(f, "more than 64 routes"),
            Underived::NoName => write!(f, "no name for a route"),
            Underived::OutOfMemory => write!(f, "out of memory"),
        }
    }
}

impl Error for Underived {}

impl From<AllocError> for Underived {
    ghost from_gives = { λ _ e. e ≡ OutOfMemory };

    fn from(_e: AllocError) -> Underived {
        Underived::OutOfMemory
    }
}

impl<T: Drop> From<AllocFailed<T>> for Underived {
    ghost from_gives = { λ _ e. e ≡ OutOfMemory };

    fn from(_e: AllocFailed<T>) -> Underived {
        Underived::OutOfMemory
    }
}

/// Why a route gets no name.
#[derive(Clone, Copy)]
pub(crate) enum NameFault {
    /// No name was found.
    NoName,
    /// Memory ran out.
    OutOfMemory,
}

impl From<AllocError> for NameFault {
    ghost from_gives = { λ _ _. Unit {0} };

    fn from(_e: AllocError) -> NameFault {
        NameFault::OutOfMemory
    }
}

impl<T: Drop> From<AllocFailed<T>> for NameFault {
    ghost from_gives = { λ _ _. Unit {0} };

    fn from(_e: AllocFailed<T>) -> NameFault {
        NameFault::OutOfMemory
    }
}

impl From<NameFault> for Underived {
    ghost from_gives = { λ _ e. e ≢ TooMany };

    fn from(fault: NameFault) -> Underived {
        match fault {
            NameFault::NoName => Underived::NoName,
            NameFault::OutOfMemory => Underived::OutOfMemory,
        }
    }
}
