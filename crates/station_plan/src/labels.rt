//! What is written into a plan, and how much room it takes.

use crate::sketch::Sketch;
use crate::subjects::{element_name, section_of};
use crate::units::{Units, count};
use control_table::layout::{Element, Track};
use control_table::{Layout, Name, SectionId};

/// How wide a letter is.
pub(crate) const LETTER: Units = Units(6);
/// How far a line of text lies below the one before.
pub(crate) const LINE: Units = Units(11);
/// How many letters of a name stand on one line.
pub(crate) const WRAP: usize = 10;

/// What is written at an element: names by their letters, of which there are 0 where none is written.
#[derive(Clone, Copy)]
pub(crate) struct Label {
    /// How many letters its name has.
    pub(crate) name_letters: usize,
    /// The section in which it lies, if it lies in one.
    section: Option<SectionId>,
    /// How many letters the section's name has, if an element of this kind may tell it.
    section_letters: usize,
}

/// What is written where nothing is.
pub(crate) const UNWRITTEN: Label = Label {
    name_letters: 0,
    section: None,
    section_letters: 0,
};

/// How wide a name is.
pub(crate) fn width(letters: usize) -> Units {
    LETTER.times(count(letters.min(WRAP)))
}

/// On how many lines a name stands.
pub(crate) fn lines(letters: usize) -> usize {
    match letters {
        0 => 0,
        1..=WRAP => 1,
        _ => 2,
    }
}

/// How many letters a name has, if there is one.
pub(crate) fn letters(name: Option<Name>) -> usize {
    match name {
        Some(name) => name.bytes().len(),
        None => 0,
    }
}

/// What is written at an element of a layout.
fn label_of(layout: &Layout, element: Element) -> Label {
    let section = section_of(layout, element);
    Label {
        name_letters: letters(element_name(layout, element)),
        section,
        section_letters: section_letters(layout, element, section),
    }
}

/// How many letters the name of a section has that an element may tell: a point where the section has no track, too.
fn section_letters(layout: &Layout, element: Element, section: Option<SectionId>) -> usize {
    let Some(section) = section else {
        return 0;
    };
    if matches!(element, Element::Point(_)) && has_track(layout.tracks(), section) {
        return 0;
    }
    letters(layout.sections().get(section.0).copied())
}

fn has_track(tracks: &[Track], section: SectionId) -> bool {
    for track in tracks {
        if track.section == section {
            return true;
        }
    }
    false
}

impl Sketch {
    /// Takes up what is written at the elements of a layout.
    pub(crate) fn read_labels(&mut self, layout: &Layout) {
        for element in 0..self.elements.len() {
            let mut facts = self.facts(element);
            facts.label = label_of(layout, self.numbers.element(element));
            self.keep(element, facts);
        }
    }

    /// How many letters of its section's name are written at an element. A section is named once on each row on which it lies
    /// without a break: at its tracks, or at its points where it has no track.
    pub(crate) fn section_letters(&self, element: usize) -> usize {
        if self.is_named_before(element) {
            return 0;
        }
        self.facts(element).label.section_letters
    }

    /// Whether what lies at the left of an element on its row is of the same kind and section.
    fn is_named_before(&self, element: usize) -> bool {
        let Some(mate) = self.beside(element, false) else {
            return false;
        };
        let before = self.numbers.element(mate.element);
        let is_same_kind = matches!(
            (before, self.numbers.element(element)),
            (Element::Track(_), Element::Track(_)) | (Element::Point(_), Element::Point(_))
        );
        is_same_kind && self.facts(mate.element).label.section == self.facts(element).label.section
    }
}
