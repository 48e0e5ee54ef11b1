//! A railway as its text writes it.

use control_table::Name;
use std::marker::Model;

/// A station, and where its layout is written.
#[derive(Drop)]
pub struct WrittenStation {
    /// Its name among the stations and lines of the railway.
    pub name: Name,
    /// What the text says under `layout`: the file of its layout.
    pub layout: String,
}

impl Model for WrittenStation {
    ghost use Rattle.std.specs.Prelude.{string_bytes};
    ghost use Rattle.railway_layout.specs.Written.{StationText};

    ghost Value = { StationText };

    ghost view = { λ s. record { name = s.name; layout = string_bytes s.layout } };
}

/// One end of a line, which calls what it names by its name.
#[derive(Drop)]
pub struct WrittenEnd {
    /// The station at which it is.
    pub station: Name,
    /// The border of the station at which the line begins.
    pub border: Name,
    /// The lock: a point of the station.
    pub lock: Name,
    /// The section by which the end tells whether the line is clear.
    pub clear: Name,
    /// The sections whose contacts the end looks at.
    pub part: Vec<Name>,
    /// Its identity on the line's link, 1 to 4294967295.
    pub id: u32,
}

impl Model for WrittenEnd {
    ghost use Rattle.railway_layout.specs.Written.{EndText};

    ghost Value = { EndText };

    ghost view = { λ e. record { station = e.station; border = e.border; lock = e.lock; clear = e.clear; part = e.part.items; id = e.id } };
}

/// A line between two stations.
#[derive(Drop)]
pub struct WrittenLine {
    /// Its name.
    pub name: Name,
    /// The end that is the client of the line's link, and begins with the token.
    pub first: WrittenEnd,
    /// The end that is its server.
    pub second: WrittenEnd,
}

impl Model for WrittenLine {
    ghost use Rattle.railway_layout.specs.Written.{LineText};

    ghost Value = { LineText };

    ghost view = { λ l. record { name = l.name; first = l.first; second = l.second } };
}

/// All that the text of a railway writes, in its order.
#[derive(Drop)]
pub struct WrittenRailway {
    /// The stations.
    pub stations: Vec<WrittenStation>,
    /// The lines.
    pub lines: Vec<WrittenLine>,
}

impl Model for WrittenRailway {
    ghost use Rattle.railway_layout.specs.Written.{RailwayText};

    ghost Value = { RailwayText };

    ghost view = { λ r. record { stations = r.stations.items; lines = r.lines.items } };
}
