//! What is wrong with a table of routes.

ghost use Rattle.std.specs.Prelude.{◌≡◌, Some};
ghost use Rattle.control_table.specs.declared.fault.TableFault.TheVariants.{OutOfMemory};

use layout::RouteId;
use sci_telegram::Name;
use std::alloc::{AllocError, AllocFailed};
use std::error::Error;
use std::fmt;

/// The route at which a fault is told.
#[derive(Clone, Copy, Debug, PartialEq, Eq)]
pub struct FaultyRoute {
    /// Its place in the table, counted from 0.
    pub id: RouteId,
    /// Its name.
    pub name: Name,
}

impl fmt::Display for FaultyRoute {
    ghost use Rattle.control_table.specs.Messages.{route_text};

    ghost output = { λ route. Some (route_text route) };

    fn fmt<W: fmt::Write>(&self, f: &mut fmt::Formatter<W>) -> fmt::Result {
        let name = self.name.as_str();
        write!(f, "route {name}")
    }
}

/// Why a table isn't sound: the lowest fault of its first faulty route.
#[derive(Clone, Copy, Debug, PartialEq, Eq)]
pub enum TableFault {
    /// A joint is missing or leads elsewhere, an element is left where it was entered or from leg to
    /// leg, or the path is empty.
    PathBroken(FaultyRoute),
    /// An element comes twice, or a section comes again after it was left.
    PathRepeats(FaultyRoute),
    /// A point of the path isn't written under `points`.
    PointMissing(FaultyRoute),
    /// A point or a flank point is written at a side at which it isn't required, or a point stands
    /// under the wrong one of `points` and `flank`.
    PointWrong(FaultyRoute),
    /// A required flank point isn't written.
    FlankMissing(FaultyRoute),
    /// An unused leg joins something that is neither a leg of another point nor guarded by a signal
    /// toward the path.
    FlankOpen(FaultyRoute),
    /// One point would be required at both sides.
    FlankContradicts(FaultyRoute),
    /// The exit isn't at the end of the path or is the entry, or a signal of the path's direction
    /// stands between.
    SignalPlace(FaultyRoute),
    /// An extra conflict is listed one way only, or with the route itself.
    NotSymmetric(FaultyRoute),
    /// Memory ran out.
    OutOfMemory,
}

impl fmt::Display for TableFault {
    ghost use Rattle.control_table.specs.Messages.{fault_text};

    ghost output = { λ fault. Some (fault_text fault) };

    fn fmt<W: fmt::Write>(&self, f: &mut fmt::Formatter<W>) -> fmt::Result {
        match self {
            TableFault::PathBroken(route) => write!(f, "1 PathBroken at {route}"),
            TableFault::PathRepeats(route) => write!(f, "2 PathRepeats at {route}"),
            TableFault::PointMissing(route) => write!(f, "3 PointMissing at {route}"),
            TableFault::PointWrong(route) => write!(f, "4 PointWrong at {route}"),
            TableFault::FlankMissing(route) => write!(f, "5 FlankMissing at {route}"),
            TableFault::FlankOpen(route) => write!(f, "6 FlankOpen at {route}"),
            TableFault::FlankContradicts(route) => write!(f, "7 FlankContradicts at {route}"),
            TableFault::SignalPlace(route) => write!(f, "8 SignalPlace at {route}"),
            TableFault::NotSymmetric(route) => write!(f, "9 NotSymmetric at {route}"),
            TableFault::OutOfMemory => write!(f, "10 OutOfMemory"),
        }
    }
}

impl Error for TableFault {}

impl From<AllocError> for TableFault {
    ghost from_gives = { λ _ e. e ≡ OutOfMemory };

    fn from(_e: AllocError) -> TableFault {
        TableFault::OutOfMemory
    }
}

impl<T: Drop> From<AllocFailed<T>> for TableFault {
    ghost from_gives = { λ _ e. e ≡ OutOfMemory };

    fn from(_e: AllocFailed<T>) -> TableFault {
        TableFault::OutOfMemory
    }
}
