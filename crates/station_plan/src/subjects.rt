//! The words of what things stand for.

ghost use Rattle.std.specs.Prelude.{◌≡◌, ◌++◌};
ghost use Rattle.control_table.specs.Topology.{section_of};
ghost use Rattle.station_plan.specs.Subjects.{kind_text, name_text, own_name, same_section, element_name};

use crate::thing::Subject;
use control_table::layout::{Element, End};
use control_table::{Layout, Name, SectionId};

/// The word of a subject's kind, and the name that it goes by.
pub(crate) fn words_of(subject: &Subject) -> (&'static str, &Name)
    ensures kind { result.0.now ≡ kind_text subject.now }
    ensures name { result.1.now ≡ own_name subject.now }
{
    match subject {
        Subject::Section(name) => ("section", name),
        Subject::Track(name) => ("track", name),
        Subject::Point(name) => ("point", name),
        Subject::Tip(name) => ("tip", name),
        Subject::Left(name) => ("left", name),
        Subject::Right(name) => ("right", name),
        Subject::Border(name) => ("border", name),
        Subject::Joint(name, _) => ("joint", name),
        Subject::Signal(name) => ("signal", name),
        Subject::Detector(name) => ("detector", name),
    }
}

/// The word of a joint's port, after a dot.
pub(crate) fn end_word(subject: &Subject) -> &'static str
    ensures { own_name subject.now ++ result.now ≡ name_text subject.now }
{
    let Subject::Joint(_, end) = subject else {
        return "";
    };
    match end {
        End::A => ".a",
        End::B => ".b",
        End::Tip => ".tip",
        End::Left => ".left",
        End::Right => ".right",
        End::End => ".end",
    }
}

/// Whether two elements lie in one section, or both in none.
pub(crate) fn same_section(one: Option<SectionId>, other: Option<SectionId>) -> bool
    ensures { result ≡ same_section one other }
{
    match (one, other) {
        (Some(one), Some(other)) => one.0 == other.0,
        (None, None) => true,
        _ => false,
    }
}

/// The name of an element.
pub(crate) fn element_name(layout: &Layout, element: Element) -> Option<Name>
    ensures { result ≡ element_name layout.now element }
{
    match element {
        Element::Track(track) => match layout.tracks().get(track.0) {
            Some(entry) => Some(entry.name),
            None => None,
        },
        Element::Point(point) => match layout.points().get(point.0) {
            Some(entry) => Some(entry.name),
            None => None,
        },
        Element::Border(border) => match layout.borders().get(border.0) {
            Some(name) => Some(*name),
            None => None,
        },
    }
}

/// The section in which an element lies. A border lies in none.
pub(crate) fn section_of(layout: &Layout, element: Element) -> Option<SectionId>
    ensures { result ≡ section_of layout.now element }
{
    match element {
        Element::Track(track) => match layout.tracks().get(track.0) {
            Some(entry) => Some(entry.section),
            None => None,
        },
        Element::Point(point) => match layout.points().get(point.0) {
            Some(entry) => Some(entry.section),
            None => None,
        },
        Element::Border(_) => None,
    }
}
