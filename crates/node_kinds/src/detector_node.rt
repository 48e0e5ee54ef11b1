//! The controller of a detector.

ghost use Rattle.std.specs.Prelude.{◌≡◌, ◌<◌, length, slice_get, IfOk, Some};
ghost use Rattle.simulator_spec.specs.layout.Entries.{DetectorEntry};
ghost use Rattle.node_kinds.specs.Controllers.{stands_so, told_of_section};
ghost use Rattle.node_kinds.specs.inside.ControllerSteps.{sense_left, unanswered};
ghost use Rattle.node_kinds.specs.Made.{detector_sensing, made_at, told_so};
ghost use Rattle.node_kinds.specs.inside.ControllerNodes.{detector_now};

use crate::contacts::Contacts;
use crate::controller_node::ControllerNode;
use crate::controller_steps::SteppedHost;
use crate::own_sections::{named, own_place, replace_at};
use node_drive::node_lines::FieldReport;
use node_drive::{Fault, LineMeaning, Order};
use simulator_spec::object_host::Sense;
use simulator_spec::tds_ctl::Detection;
use simulator_spec::{Checked, DetectorId, Millis, Occupancy, SectionId, Start};
use std::alloc::{AllocError, Global};

/// The own sections of a detector, and how each was told last.
#[derive(Drop)]
pub struct DetectorContacts<'a> {
    own: &'a [SectionId],
    last: Vec<Occupancy>,
}

/// The controller of a detector, in a station of this layout.
pub type DetectorNode<'a> = ControllerNode<'a, DetectorContacts<'a>>;

impl<'a> DetectorNode<'a> {
    /// The controller of a detector, which senses its own sections so, in its own order. It is made at this reading
    /// of its clock, and numbers its PDUs from `first_sequence_number` on.
    pub fn new(
        alloc: Global,
        table: &'a Checked,
        detector: DetectorId,
        sensed: &[Occupancy],
        reading: Millis,
        first_sequence_number: u32,
    ) -> Result<DetectorNode<'a>, AllocError>
        requires { detector.0 < length table.now.detectors }
        ensures reached { IfOk result (λ node. (detector_now node).reached ≡ reading) }
        ensures made { IfOk result (λ node. (entry : DetectorEntry) → slice_get table.now.detectors detector.0 ≡ Some entry
            → detector_now node ≡ made_at reading (record { site = table.now; host = detector_sensing table.now (record { clock = reading; first = first_sequence_number }) sensed.now entry; contacts = told_so entry sensed.now })) }
    {
        let layout = table.layout();
        let entry = &layout.detectors()[detector.0];
        let own = entry.sections();
        let named = named(alloc, layout, own, sensed)?;
        let last = sensed.to_vec(alloc)?;
        let stepped = SteppedHost::new(
            alloc,
            table,
            *entry.name(),
            entry.id(),
            Detection::new(&named),
            Start {
                first_sequence_number,
                now: reading,
            },
        )?;
        Ok(ControllerNode {
            layout,
            stepped,
            contacts: DetectorContacts { own, last },
            left: None,
        })
    }
}

impl<'a> Contacts for DetectorContacts<'a> {
    ghost use Rattle.std.specs.Prelude.{None, refl};
    ghost use Rattle.node_kinds.specs.Controllers.{OwnSections, sections_after, told_to_detector};
    ghost use Rattle.node_kinds.specs.inside.ControllerNodes.{sections_now};

    type Object = Detection;

    ghost Kept = { OwnSections };

    ghost kept = { sections_now };

    ghost order = { λ sections. None };

    ghost meaning = { λ sections report. told_to_detector sections.own sections.last report };

    ghost after = { sections_after };

    fn order_of(&self, _detection: &Detection) -> Option<Order> {
        None
    }

    fn told(&self, report: Result<FieldReport, Fault>) -> (LineMeaning, Option<Sense>) {
        match report {
            Ok(FieldReport::Done { number }) => (LineMeaning::InForce(number), None),
            Ok(FieldReport::Section { section, occupancy }) => {
                told_of_section(&self.last, occupancy, own_place(self.own, section))
            }
            Ok(FieldReport::Point(_)) => (LineMeaning::Faulty(Fault::Words), None),
            Err(fault) => (LineMeaning::Faulty(fault), None),
        }
    }

    fn note(&mut self, sense: Sense) {
        if let Sense::Section(place, occupancy) = sense {
            replace_at(&mut self.last, place, occupancy);
        }
    }

    ghost ticked = { λ kept. refl };

    ghost heard = { λ bytes kept. refl };
}

/// What a line tells of the section at a place, or of one that isn't its own.
fn told_of_section(
    last: &[Occupancy],
    occupancy: Occupancy,
    place: Option<usize>,
) -> (LineMeaning, Option<Sense>)
    ensures { unanswered result.0 (sense_left result.1) ≡ told_of_section last.now occupancy place }
{
    let Some(place) = place else {
        return (LineMeaning::Faulty(Fault::Name), None);
    };
    if stands_so(occupancy, last.get(place).copied()) {
        (LineMeaning::Comes, None)
    } else {
        (LineMeaning::Comes, Some(Sense::Section(place, occupancy)))
    }
}

/// Whether a section was told last to be so.
fn stands_so(occupancy: Occupancy, last: Option<Occupancy>) -> bool
    ensures { result ≡ stands_so occupancy last }
{
    matches!(
        (last, occupancy),
        (Some(Occupancy::Clear), Occupancy::Clear)
            | (Some(Occupancy::Occupied), Occupancy::Occupied)
    )
}
