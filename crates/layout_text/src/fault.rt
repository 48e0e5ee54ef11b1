//! What is wrong with the text of a layout.

ghost use Rattle.std.specs.Prelude.{◌≡◌, Some};
ghost use Rattle.layout_text.specs.declared.fault.LayoutFault.TheVariants.{OutOfMemory};

use std::alloc::{AllocError, AllocFailed};
use std::error::Error;
use std::fmt;

/// The keys of a layout's text, in the order in which they are read.
#[derive(Clone, Copy, Debug, PartialEq, Eq)]
pub enum TableName {
    /// The station itself.
    Station,
    /// The detection sections.
    Section,
    /// The tracks.
    Track,
    /// The points.
    Point,
    /// The borders to the lines outside.
    Border,
    /// The joints of two ports each.
    Joint,
    /// The signals.
    Signal,
    /// The detection controllers.
    Detector,
    /// The routes.
    Route,
}

impl fmt::Display for TableName {
    ghost use Rattle.layout_text.specs.Messages.{table_text};

    ghost output = { λ table. Some (table_text table) };

    fn fmt<W: fmt::Write>(&self, f: &mut fmt::Formatter<W>) -> fmt::Result {
        let word = match self {
            TableName::Station => "station",
            TableName::Section => "section",
            TableName::Track => "track",
            TableName::Point => "point",
            TableName::Border => "border",
            TableName::Joint => "joint",
            TableName::Signal => "signal",
            TableName::Detector => "detector",
            TableName::Route => "route",
        };
        f.write_str(word)
    }
}

/// An entry of a layout's text.
#[derive(Clone, Copy, Debug, PartialEq, Eq)]
pub struct Place {
    /// The key under which it stands.
    pub table: TableName,
    /// Its place there, counted from 1. It is 0 for the key itself.
    pub entry: usize,
}

impl fmt::Display for Place {
    ghost use Rattle.layout_text.specs.Messages.{place_text};

    ghost output = { λ place. Some (place_text place) };

    fn fmt<W: fmt::Write>(&self, f: &mut fmt::Formatter<W>) -> fmt::Result {
        let table = self.table;
        let entry = self.entry;
        write!(f, "{table} {entry}")
    }
}

/// Why a text is no layout. The tests are made in the order 1, then 2 and 3 as the text is read,
/// then 7, 5, 4 and 6.
#[derive(Clone, Copy, Debug, PartialEq, Eq)]
pub enum LayoutFault {
    /// The text is no TOML.
    Toml,
    /// A key isn't there.
    MissingKey(Place),
    /// A value has the wrong kind or form.
    WrongKind(Place),
    /// A name or a port isn't there, or isn't of the kind that is wanted; or a section has no detector.
    UnknownName(Place),
    /// A name or an id is used twice, or a section stands in two detectors or twice in one.
    DoubleName(Place),
    /// A port is joined twice, or two signals stand at one port.
    DoubleJoint(Place),
    /// There are more entries than a station may have.
    Limit(Place),
    /// Memory ran out.
    OutOfMemory,
}

impl fmt::Display for LayoutFault {
    ghost use Rattle.layout_text.specs.Messages.{fault_text};

    ghost output = { λ fault. Some (fault_text fault) };

    fn fmt<W: fmt::Write>(&self, f: &mut fmt::Formatter<W>) -> fmt::Result {
        match self {
            LayoutFault::Toml => write!(f, "1 Toml"),
            LayoutFault::MissingKey(place) => write!(f, "2 MissingKey at {place}"),
            LayoutFault::WrongKind(place) => write!(f, "3 WrongKind at {place}"),
            LayoutFault::UnknownName(place) => write!(f, "4 UnknownName at {place}"),
            LayoutFault::DoubleName(place) => write!(f, "5 DoubleName at {place}"),
            LayoutFault::DoubleJoint(place) => write!(f, "6 DoubleJoint at {place}"),
            LayoutFault::Limit(place) => write!(f, "7 Limit at {place}"),
            LayoutFault::OutOfMemory => write!(f, "8 OutOfMemory"),
        }
    }
}

impl Error for LayoutFault {}

impl From<AllocError> for LayoutFault {
    ghost from_gives = { λ _ e. e ≡ OutOfMemory };

    fn from(_e: AllocError) -> LayoutFault {
        LayoutFault::OutOfMemory
    }
}

impl<T: Drop> From<AllocFailed<T>> for LayoutFault {
    ghost from_gives = { λ _ e. e ≡ OutOfMemory };

    fn from(_e: AllocFailed<T>) -> LayoutFault {
        LayoutFault::OutOfMemory
    }
}
