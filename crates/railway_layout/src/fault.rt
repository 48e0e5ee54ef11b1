//! What is wrong with a railway.

ghost use Rattle.std.specs.Prelude.{◌≡◌, ◌++◌, OnOk, Some};
ghost use Rattle.railway_layout.specs.Advice.{advice, text_advice};
ghost use Rattle.railway_layout.specs.Faults.{told};
ghost use Rattle.railway_layout.specs.declared.fault.TextFault.TheVariants.{OutOfMemory};

use control_table::layout::LayoutFault;
use control_table::{Name, TableFault};
use std::alloc::{AllocError, AllocFailed};
use std::error::Error;
use std::fmt;

/// An entry of a railway's text.
#[derive(Clone, Copy, Debug)]
pub enum Place {
    /// A station, counted from 1. It is 0 for the key itself.
    Station(usize),
    /// A line, counted from 1. It is 0 for the key itself.
    Line(usize),
    /// The first end of a line.
    First(usize),
    /// The second end of a line.
    Second(usize),
}

impl fmt::Display for Place {
    ghost use Rattle.railway_layout.specs.Messages.{place_text};

    ghost output = { λ place. Some (place_text place) };

    fn fmt<W: fmt::Write>(&self, f: &mut fmt::Formatter<W>) -> fmt::Result {
        match self {
            Place::Station(entry) => write!(f, "station {entry}"),
            Place::Line(entry) => write!(f, "line {entry}"),
            Place::First(entry) => write!(f, "line {entry} first"),
            Place::Second(entry) => write!(f, "line {entry} second"),
        }
    }
}

/// Why a text is no railway's: the first fault as it is read.
#[derive(Clone, Copy, Debug)]
pub enum TextFault {
    /// The text is no TOML.
    Toml,
    /// A key isn't there.
    MissingKey(Place),
    /// A value has the wrong kind or form.
    WrongKind(Place),
    /// Memory ran out.
    OutOfMemory,
}

impl fmt::Display for TextFault {
    ghost use Rattle.railway_layout.specs.Messages.{text_fault_text};

    ghost output = { λ fault. Some (text_fault_text fault) };

    fn fmt<W: fmt::Write>(&self, f: &mut fmt::Formatter<W>) -> fmt::Result {
        match self {
            TextFault::Toml => write!(f, "1 Toml"),
            TextFault::MissingKey(place) => write!(f, "2 MissingKey at {place}"),
            TextFault::WrongKind(place) => write!(f, "3 WrongKind at {place}"),
            TextFault::OutOfMemory => write!(f, "out of memory"),
        }
    }
}

impl Error for TextFault {}

impl TextFault {
    /// What it means, and what to do, in words.
    pub fn advice(&self) -> &'static str
        ensures { result.now ≡ text_advice self.now }
    {
        match self {
            TextFault::Toml => "the text is no TOML",
            TextFault::MissingKey(..) => "a key is missing there",
            TextFault::WrongKind(..) => "a value there is of another kind or form",
            TextFault::OutOfMemory => "memory is lacking",
        }
    }
}

impl From<AllocError> for TextFault {
    ghost from_gives = { λ _ e. e ≡ OutOfMemory };

    fn from(_e: AllocError) -> TextFault {
        TextFault::OutOfMemory
    }
}

impl<T: Drop> From<AllocFailed<T>> for TextFault {
    ghost from_gives = { λ _ e. e ≡ OutOfMemory };

    fn from(_e: AllocFailed<T>) -> TextFault {
        TextFault::OutOfMemory
    }
}

/// What is wrong with a railway whose text is read. All that is wrong is told: of each station in the order of the text,
/// and then of each line.
#[derive(Clone, Copy, Debug)]
pub enum RailwayFault {
    /// A station or a line is called like one before it, or a part has a section twice.
    DoubleName(Place, Name),
    /// The text of a station is no layout.
    Layout(Place, LayoutFault),
    /// The table of a station isn't sound.
    Table(Place, TableFault),
    /// No station has this name; or this station has no such border, point or section.
    UnknownName(Place, Name),
    /// The station of an end is itself faulty, so nothing more is told of this end.
    Unseen(Place),
    /// Both ends of a line are at one station.
    SameStation(Place),
    /// Both ends of a line have one identity.
    DoubleId(Place),
    /// A line before has this border.
    DoubleBorder(Place),
    /// The border isn't joined, track after track, to the lock's right leg.
    NotJoined(Place),
    /// This route ends at the border, or leaves the lock by its left leg, and doesn't require the lock at the right.
    LockNotRight(Place, Name),
    /// This route comes in over the lock, and doesn't require it at the left.
    LockNotLeft(Place, Name),
    /// No route comes in over the lock's left leg.
    NoRouteIn(Place),
    /// The section that the end tells doesn't lie between lock and border, or lies elsewhere too.
    ClearElsewhere(Place),
    /// No detector reports the section that the end tells, and no other.
    ClearNotAlone(Place),
    /// The part has a section that an end of a line tells.
    PartHasClear(Place),
    /// The part lacks the section behind the lock's left leg.
    PartLacksTrack(Place),
}

impl fmt::Display for RailwayFault {
    ghost use Rattle.railway_layout.specs.Messages.{fault_text};

    ghost output = { λ fault. Some (fault_text fault) };

    fn fmt<W: fmt::Write>(&self, f: &mut fmt::Formatter<W>) -> fmt::Result {
        match self {
            RailwayFault::DoubleName(place, name) => {
                let name = name.as_str();
                write!(f, "4 DoubleName at {place}: {name}")
            }
            RailwayFault::Layout(place, fault) => write!(f, "5 Layout at {place}: {fault}"),
            RailwayFault::Table(place, fault) => write!(f, "6 Table at {place}: {fault}"),
            RailwayFault::UnknownName(place, name) => {
                let name = name.as_str();
                write!(f, "7 UnknownName at {place}: {name}")
            }
            RailwayFault::Unseen(place) => write!(f, "8 Unseen at {place}"),
            RailwayFault::SameStation(place) => write!(f, "9 SameStation at {place}"),
            RailwayFault::DoubleId(place) => write!(f, "10 DoubleId at {place}"),
            RailwayFault::DoubleBorder(place) => write!(f, "11 DoubleBorder at {place}"),
            RailwayFault::NotJoined(place) => write!(f, "12 NotJoined at {place}"),
            RailwayFault::LockNotRight(place, route) => {
                let route = route.as_str();
                write!(f, "13 LockNotRight at {place}: route {route}")
            }
            RailwayFault::LockNotLeft(place, route) => {
                let route = route.as_str();
                write!(f, "14 LockNotLeft at {place}: route {route}")
            }
            RailwayFault::NoRouteIn(place) => write!(f, "15 NoRouteIn at {place}"),
            RailwayFault::ClearElsewhere(place) => write!(f, "16 ClearElsewhere at {place}"),
            RailwayFault::ClearNotAlone(place) => write!(f, "17 ClearNotAlone at {place}"),
            RailwayFault::PartHasClear(place) => write!(f, "18 PartHasClear at {place}"),
            RailwayFault::PartLacksTrack(place) => write!(f, "19 PartLacksTrack at {place}"),
        }
    }
}

impl Error for RailwayFault {}

impl RailwayFault {
    /// What it means, and what to do, in words.
    pub fn advice(&self) -> &'static str
        ensures { result.now ≡ advice self.now }
    {
        match self {
            RailwayFault::DoubleName(..) =>
                "stations and lines have names of their own, and a part has each section once",
            RailwayFault::Layout(..) =>
                "the file of this station is no layout: station check tells more of it",
            RailwayFault::Table(..) =>
                "the routes of this station aren't sound: station check tells more of them",
            RailwayFault::UnknownName(..) =>
                "no station, or no border, point or section of this station, is called so",
            RailwayFault::Unseen(..) =>
                "the station of this end has a fault, which is to be mended first",
            RailwayFault::SameStation(..) => "a line joins two stations",
            RailwayFault::DoubleId(..) => "the two ends of a line need two identities",
            RailwayFault::DoubleBorder(..) => "a border belongs to one line",
            RailwayFault::NotJoined(..) =>
                "from the right leg of the lock only tracks may lead, one after the other, to the border",
            RailwayFault::LockNotRight(..) =>
                "a route onto the line has to leave the lock by its right leg",
            RailwayFault::LockNotLeft(..) =>
                "a route that leaves the lock by its tip has to enter by its left leg",
            RailwayFault::NoRouteIn(..) =>
                "some route has to come in over the left leg of the lock",
            RailwayFault::ClearElsewhere(..) =>
                "the section that the end tells is of tracks between lock and border, and of nothing else",
            RailwayFault::ClearNotAlone(..) =>
                "the section that the end tells needs a detector that reports nothing else",
            RailwayFault::PartHasClear(..) =>
                "the part is of sections with contacts, and the end of a line tells one of these itself",
            RailwayFault::PartLacksTrack(..) =>
                "the part needs the section at the left leg of the lock, where trains come in",
        }
    }
}

/// Tells a fault where something is wrong.
pub(crate) fn tell(
    faults: &mut Vec<RailwayFault>,
    wrong: bool,
    fault: RailwayFault,
) -> Result<(), AllocError>
    ensures { OnOk result (faults.new.items ≡ faults.old.items ++ told wrong fault) }
{
    if !wrong {
        return Ok(());
    }
    // The fault of a table is named here, since the prover knows what lies in it only where it sees one.
    match fault {
        RailwayFault::Table(place, why) => faults.push(RailwayFault::Table(place, why))?,
        other => faults.push(other)?,
    }
    Ok(())
}
