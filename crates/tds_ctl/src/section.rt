//! A section as its detector knows it.

ghost use Rattle.std.specs.Prelude.{◌≡◌};

use object_host::Report;
use sci_telegram::{DetectionMessage, Message, Name, Occupancy};

/// A section, and whether a change of it is still to be reported.
#[derive(Clone, Copy, Debug, PartialEq, Eq)]
pub(crate) struct Section {
    name: Name,
    occupancy: Occupancy,
    owes: bool,
}

impl Section {
    ghost use Rattle.std.specs.Prelude.{true, false};
    ghost use Rattle.tds_ctl.specs.Sections.{made, changed, status_of, settled};

    /// A section as it is when its detector is made: it owes nothing.
    pub(crate) fn new(name: Name, occupancy: Occupancy) -> Section
        ensures { result ≡ made (name, occupancy) }
    {
        Section {
            name,
            occupancy,
            owes: false,
        }
    }

    pub(crate) fn owes(&self) -> bool
        ensures { result ≡ self.now.owes }
    {
        self.owes
    }

    /// What the section tells of itself: its present state, under its own name.
    pub(crate) fn status(&self) -> Report
        ensures { result ≡ status_of self.now }
    {
        let status = DetectionMessage::OccupancyStatus(self.occupancy);
        Report {
            section: Some(self.name),
            message: Message::Detection(status),
        }
    }

    /// Its contact tells this; a change is to be reported.
    pub(crate) fn change(&mut self, occupancy: Occupancy)
        ensures { self.new ≡ changed occupancy self.old }
    {
        if self.occupancy != occupancy {
            self.occupancy = occupancy;
            self.owes = true;
        }
    }

    /// It owes nothing any more.
    pub(crate) fn settle(&mut self)
        ensures { self.new ≡ settled self.old }
    {
        self.owes = false;
    }
}

impl Default for Section {
    ghost use Rattle.std.specs.Prelude.{false};

    ghost is_default = { λ section. section.owes ≡ false };

    /// For places that hold no section yet.
    fn default() -> Section {
        match Name::of(b"-") {
            Some(name) => Section::new(name, Occupancy::Clear),
            None => unreachable!(),
        }
    }
}
