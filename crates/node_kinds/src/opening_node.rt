//! A controller that isn't made yet: its process waits until the equipment rests, and until each contact has told how it is.

ghost use Rattle.std.specs.Prelude.{◌≡◌, map, is_some, IfOk, None};
ghost use Rattle.std.specs.List.{list_all};
ghost use Rattle.std.specs.Option.{option_map};
ghost use Rattle.simulator_spec.specs.layout.declared.ids.SectionId.{SectionId as Id};
ghost use Rattle.node_kinds.specs.Openings.{told_at_first, told_of_point, told_of_section, untold};
ghost use Rattle.node_kinds.specs.inside.ControllerSteps.{contact_left, noted, unanswered};
ghost use Rattle.node_kinds.specs.Made.{all_told, equipment_of, made_at};
ghost use Rattle.node_kinds.specs.inside.ControllerNodes.{opening_now};

use crate::equipment::{Equipment, own_sections, rest_order};
use crate::own_sections::{own_place, replace_at};
use node_drive::node_lines::{FieldReport, read_report};
use node_drive::{Fault, LineMeaning, NodeMachine, Order, Outgoing, ToKeep};
use simulator_spec::{Checked, Layout, Millis, NodeId, Occupancy, Position, SectionId};
use std::alloc::{AllocError, Global};

/// What a contact told that has to come.
#[derive(Clone, Copy)]
pub(crate) enum Contact {
    /// Where the point lies.
    Lies(Position),
    /// Whether the section at this place of the detector's own is occupied.
    Stands(usize, Occupancy),
}

/// A controller that isn't made yet, in a station of this layout.
pub struct OpeningNode<'a> {
    layout: &'a Layout,
    equipment: Equipment<'a>,
    /// Where the point lies, once it was told.
    position: Option<Position>,
    /// How each of the detector's own sections is, once it was told.
    sections: Vec<Option<Occupancy>>,
    reached: Millis,
    /// What a contact told that has to come.
    left: Option<Contact>,
}

// Written by hand, so that it is proved and compiled here alone.
impl Drop for OpeningNode<'_> {
    fn drop(self) {
        let Self {
            layout: _,
            equipment: _,
            position: _,
            sections: _,
            reached: _,
            left: _,
        } = self;
    }
}

impl<'a> OpeningNode<'a> {
    /// A process that begins: nothing was told yet, and its clock wasn't read.
    pub fn new(
        alloc: Global,
        table: &'a Checked,
        equipment: Equipment<'a>,
    ) -> Result<OpeningNode<'a>, AllocError>
        ensures { IfOk result (λ node. opening_now node ≡ made_at 0 (untold table.now (equipment_of equipment.entry))) }
    {
        let sections = untold(alloc, own_sections(equipment))?;
        Ok(OpeningNode {
            layout: table.layout(),
            equipment,
            position: None,
            sections,
            reached: 0,
            left: None,
        })
    }

    /// Where the point lies, once it was told.
    pub fn position(&self) -> Option<Position>
        ensures { result ≡ (opening_now self.now).state.position }
    {
        self.position
    }

    /// How the detector's own sections are, in its own order, once each was told.
    pub fn occupancies(&self, alloc: Global) -> Result<Option<Vec<Occupancy>>, AllocError>
        ensures { IfOk result (λ told. option_map (λ v. v.items) told ≡ all_told (opening_now self.now).state.sections) }
    {
        let mut told = Vec::new(alloc);
        for section in self.sections.as_slice() {
            let Some(occupancy) = *section else {
                return Ok(None);
            };
            told.push(occupancy)?;
        }
        Ok(Some(told))
    }
}

impl<'a> NodeMachine for OpeningNode<'a> {
    ghost use Rattle.node_kinds.specs.Openings.{Opening, Opens, opening_kind};
    ghost use Rattle.node_kinds.specs.inside.ControllerNodes.{opening_now};

    ghost State = { Opening };

    ghost Input = { Opens };

    ghost does = { opening_kind };

    ghost node = { opening_now };

    fn is_partner(&self, _other: NodeId) -> bool {
        false
    }

    fn hear(&mut self, _alloc: Global, reading: u64, _bytes: &[u8]) -> Result<(), AllocError> {
        self.reached = reading;
        Ok(())
    }

    fn tick(&mut self, _alloc: Global, reading: u64) -> Result<(), AllocError> {
        self.reached = reading;
        Ok(())
    }

    #[tactic(auto, using(crate::proofs::ReportLines::unanswered_is))]
    fn take_line(
        &mut self,
        _alloc: Global,
        _reading: u64,
        text: &str,
    ) -> Result<LineMeaning, AllocError> {
        let (meaning, left) = told(self.equipment, read_report(self.layout, text));
        self.left = left;
        Ok(meaning)
    }

    fn step_on(&mut self, _alloc: Global, reading: u64) -> Result<bool, AllocError> {
        let Some(contact) = self.left else {
            return Ok(false);
        };
        self.left = None;
        self.reached = reading;
        note(contact, &mut self.position, &mut self.sections);
        Ok(true)
    }

    fn order(&self) -> Option<Order> {
        rest_order(self.equipment)
    }

    fn is_done(&self) -> bool {
        match self.equipment {
            Equipment::Lamp => true,
            Equipment::Motor => self.position.is_some(),
            Equipment::Sections(_) => is_each_told(&self.sections),
        }
    }

    fn to_keep(&self) -> Option<ToKeep> {
        None
    }

    fn note_kept(&mut self, _kept: bool) -> Result<(), AllocError> {
        Ok(())
    }

    fn take_datagram(&mut self) -> Option<Outgoing> {
        None
    }

    fn take_saying(&mut self) -> Option<String> {
        None
    }

    fn tell_all(&mut self, _alloc: Global, _reading: u64) -> Result<(), AllocError> {
        Ok(())
    }
}

/// Whether each section was told.
fn is_each_told(sections: &[Option<Occupancy>]) -> bool
    ensures { result ≡ list_all is_some sections.now }
{
    sections.iter().all(|section| section.is_some())
}

/// Nothing was told of any section.
fn untold(alloc: Global, own: &[SectionId]) -> Result<Vec<Option<Occupancy>>, AllocError>
    ensures { IfOk result (λ sections. sections.items ≡ map (λ (section : Id). None) own.now) }
{
    let mut sections = Vec::new(alloc);
    for _section in own {
        sections.push(None)?;
    }
    Ok(sections)
}

/// What a contact told is kept.
fn note(contact: Contact, position: &mut Option<Position>, sections: &mut [Option<Occupancy>])
    ensures { (position.new, sections.new) ≡ noted contact (position.old, sections.old) }
{
    match contact {
        Contact::Lies(lies) => *position = Some(lies),
        Contact::Stands(place, occupancy) => replace_at(sections, place, Some(occupancy)),
    }
}

/// What a line tells before the controller is made, and what of it has to come.
fn told(
    equipment: Equipment<'_>,
    report: Result<FieldReport, Fault>,
) -> (LineMeaning, Option<Contact>)
    ensures { unanswered result.0 (contact_left result.1) ≡ told_at_first (equipment_of equipment.entry) report }
{
    match report {
        Ok(FieldReport::Done { number }) => (LineMeaning::InForce(number), None),
        Ok(FieldReport::Section { section, occupancy }) => {
            told_of_section(equipment, section, occupancy)
        }
        Ok(FieldReport::Point(position)) => told_of_point(equipment, position),
        Err(fault) => (LineMeaning::Faulty(fault), None),
    }
}

/// A section that isn't the detector's own is no name.
fn told_of_section(
    equipment: Equipment<'_>,
    section: SectionId,
    occupancy: Occupancy,
) -> (LineMeaning, Option<Contact>)
    ensures { unanswered result.0 (contact_left result.1) ≡ told_of_section (equipment_of equipment.entry) section occupancy }
{
    match own_place(own_sections(equipment), section) {
        Some(place) => (LineMeaning::Comes, Some(Contact::Stands(place, occupancy))),
        None => (LineMeaning::Faulty(Fault::Name), None),
    }
}

/// Only a point tells where it lies.
fn told_of_point(equipment: Equipment<'_>, position: Position) -> (LineMeaning, Option<Contact>)
    ensures { unanswered result.0 (contact_left result.1) ≡ told_of_point (equipment_of equipment.entry) position }
{
    match equipment {
        Equipment::Motor => (LineMeaning::Comes, Some(Contact::Lies(position))),
        Equipment::Lamp | Equipment::Sections(_) => (LineMeaning::Faulty(Fault::Words), None),
    }
}
