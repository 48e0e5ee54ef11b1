//! The sections of a detector, in order.

ghost use Rattle.std.specs.Prelude.{◌≡◌, map};
ghost use Rattle.tds_ctl.specs.Sections.{with_section, changed, settled, paying};

use crate::section::Section;
use sci_telegram::Occupancy;

/// The contact of the section at this place, if there is one, tells this.
#[tactic(auto, using(crate::proofs::Places::section_beyond))]
pub(crate) fn change(sections: &mut [Section], place: usize, occupancy: Occupancy)
    ensures { sections.new ≡ with_section place (changed occupancy) sections.old }
{
    if place < sections.len() {
        sections[place].change(occupancy);
    }
}

/// The first section that owes its status owes it no more.
pub(crate) fn settle_first(sections: &mut [Section])
    ensures { sections.new ≡ paying sections.old }
{
    for section in sections.iter_mut() {
        if section.owes() {
            section.settle();
            return;
        }
    }
}

/// No section owes its status any more.
pub(crate) fn settle_all(sections: &mut [Section])
    ensures { sections.new ≡ map settled sections.old }
{
    for section in sections.iter_mut() {
        section.settle();
    }
}
