//! Lines, whose names for what they name are places.

ghost use Rattle.std.specs.Prelude.{◌≡◌};

use crate::ids::StationId;
use control_table::{BorderId, Name, PointId, SectionId};
use std::marker::Model;

/// One end of a line.
#[derive(Drop)]
pub struct LineEnd {
    pub(crate) station: StationId,
    pub(crate) border: BorderId,
    pub(crate) lock: PointId,
    pub(crate) clear: SectionId,
    pub(crate) part: Vec<SectionId>,
    pub(crate) id: u32,
}

impl Model for LineEnd {
    ghost use Rattle.railway_layout.specs.States.{EndState};

    ghost Value = { EndState };

    ghost view = { λ e. record { station = e.station; border = e.border; lock = e.lock; clear = e.clear; part = e.part.items; id = e.id } };
}

impl LineEnd {
    /// The station at which it is.
    pub fn station(&self) -> StationId
        ensures { result ≡ self.now.station }
    {
        self.station
    }

    /// The border of the station at which the line begins.
    pub fn border(&self) -> BorderId
        ensures { result ≡ self.now.border }
    {
        self.border
    }

    /// The lock. It is required at the right by each route onto the line, and at the left by each route in.
    pub fn lock(&self) -> PointId
        ensures { result ≡ self.now.lock }
    {
        self.lock
    }

    /// The section by which the end tells whether the line is clear.
    pub fn clear(&self) -> SectionId
        ensures { result ≡ self.now.clear }
    {
        self.clear
    }

    /// The sections whose contacts the end looks at.
    pub fn part(&self) -> &[SectionId]
        ensures { result.now ≡ self.now.part }
    {
        &self.part
    }

    /// Its identity on the line's link, 1 to 4294967295.
    pub fn id(&self) -> u32
        ensures { result ≡ self.now.id }
    {
        self.id
    }
}

/// A line between two stations.
#[derive(Drop)]
pub struct Line {
    pub(crate) name: Name,
    pub(crate) first: LineEnd,
    pub(crate) second: LineEnd,
}

impl Model for Line {
    ghost use Rattle.railway_layout.specs.States.{LineState};

    ghost Value = { LineState };

    ghost view = { λ l. record { name = l.name; first = l.first; second = l.second } };
}

impl Line {
    /// Its name.
    pub fn name(&self) -> &Name
        ensures { result.now ≡ self.now.name }
    {
        &self.name
    }

    /// The end that is the client of the line's link, and begins with the token.
    pub fn first(&self) -> &LineEnd
        ensures { result.now ≡ self.now.first }
    {
        &self.first
    }

    /// The end that is its server.
    pub fn second(&self) -> &LineEnd
        ensures { result.now ≡ self.now.second }
    {
        &self.second
    }
}
