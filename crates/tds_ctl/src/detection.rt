//! The controller of a detector.

ghost use Rattle.std.specs.Prelude.{◌≡◌, ◌≤◌, map, length};
ghost use Rattle.tds_ctl.specs.Sections.{made};
ghost use Rattle.tds_ctl.specs.Controlled.{detection_behaviour};

use crate::section::Section;
use crate::sections;
use arrayvec::ArrayVec;
use object_host::{Controller, Report, Sense};
use rasta_core::Millis;
use sci_telegram::{Name, Occupancy, Protocol, Telegram};
use std::marker::Model;

/// How many sections a detector has at most.
pub(crate) const MOST_SECTIONS: usize = 16;

/// A detector of 1 to 16 sections. Contracts see it as the list of its sections, in the order of the layout.
///
/// Each change of a section owes its status: the state at the moment of sending, under the section's name.
#[derive(Drop)]
pub struct Detection {
    sections: ArrayVec<Section, MOST_SECTIONS>,
}

impl Model for Detection {
    ghost use Rattle.std.specs.Prelude.{List};
    ghost use Rattle.tds_ctl.specs.declared.section.Section.{Section};

    ghost Value = { List Section };

    ghost view = { λ d. d.sections.items };
}

impl Detection {
    /// A detector of these sections, at most 16, with their present states. It owes nothing.
    pub fn new(sections: &[(Name, Occupancy)]) -> Detection
        requires { length sections.now ≤ 16 }
        ensures { result ≡ map made sections.now }
    {
        let mut made = ArrayVec::new();
        for (name, occupancy) in sections {
            made.push(Section::new(*name, *occupancy));
        }
        Detection { sections: made }
    }
}

impl Controller for Detection {
    ghost behaviour = { detection_behaviour };

    fn protocol(&self) -> Protocol {
        Protocol::TrainDetection
    }

    fn take(&mut self, _now: Millis, _telegram: &Telegram) -> bool {
        false
    }

    fn tick(&mut self, _now: Millis) {}

    fn sense(&mut self, _now: Millis, sense: Sense) {
        if let Sense::Section(place, occupancy) = sense {
            sections::change(&mut self.sections, place, occupancy);
        }
    }

    fn keep(&mut self, _until: Millis) {}

    fn owed(&self) -> Option<Report> {
        let section = self.sections.iter().find(|section| section.owes())?;
        Some(section.status())
    }

    fn paid(&mut self) {
        sections::settle_first(&mut self.sections);
    }

    fn status(&self, place: usize) -> Option<Report> {
        let section = self.sections.get(place)?;
        Some(section.status())
    }

    fn lost(&mut self) {
        sections::settle_all(&mut self.sections);
    }

    fn restrictive(&self, _now: Millis) -> bool {
        true
    }

    ghost use Rattle.tds_ctl.specs.inside.Law.{detection_is_lawful};

    ghost lawful = { detection_is_lawful };
}
