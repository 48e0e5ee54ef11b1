//! What a plan shows beside the layout: a route, and what is seen of a station.

use crate::placed::Placed;
use crate::section_marks::{detector_of, tint};
use crate::thing::Subject;
use control_table::layout::{Detector, Element, Exit, Route};
use control_table::{
    Aspect, BorderId, Layout, Occupancy, PointId, Position, RouteId, SectionId, Side, SignalId,
    TrackId,
};
use std::alloc::{AllocError, Global};

/// What is seen of a station. What a list lacks isn't known.
#[derive(Drop)]
pub struct Seen {
    /// What each signal shows.
    pub aspects: Vec<Option<Aspect>>,
    /// Where each point lies.
    pub positions: Vec<Option<Position>>,
    /// Whether each section is occupied.
    pub occupancies: Vec<Option<Occupancy>>,
    /// Whether each route is set.
    pub set: Vec<bool>,
}

/// What a plan shows beside the layout.
#[derive(Drop)]
pub struct Shown {
    /// The route that is drawn thick, with its flank points and approach sections marked.
    pub route: Option<RouteId>,
    /// What is seen of the station.
    pub seen: Option<Seen>,
}

impl Shown {
    /// The route that is drawn thick.
    pub(crate) fn route<'a>(&self, layout: &'a Layout) -> Option<&'a Route> {
        match self.route {
            Some(route) => layout.routes().get(route.0),
            None => None,
        }
    }
}

/// Whether a route passes over an element.
fn passes(route: &Route, element: Element) -> bool {
    for port in route.path() {
        if port.element == element {
            return true;
        }
    }
    false
}

/// Whether a route passes over what is placed: a track, or the tip or a leg of a point.
fn takes(route: &Route, placed: &Placed) -> bool {
    let point = PointId(placed.number);
    match placed.subject {
        Subject::Track(_) => passes(route, Element::Track(TrackId(placed.number))),
        Subject::Tip(_) => passes(route, Element::Point(point)),
        Subject::Left(_) => route.points().contains(&(point, Side::Left)),
        Subject::Right(_) => route.points().contains(&(point, Side::Right)),
        _ => false,
    }
}

/// Whether a set route passes over what is placed.
fn is_set_over(routes: &[Route], set: &[bool], placed: &Placed) -> bool {
    for (number, route) in routes.iter().enumerate() {
        let is_set = number < set.len() && set[number];
        if is_set && takes(route, placed) {
            return true;
        }
    }
    false
}

/// Whether a point, or this leg of it, protects the flank of a route.
fn protects(route: &Route, placed: &Placed) -> bool {
    let point = PointId(placed.number);
    let left = route.flank().contains(&(point, Side::Left));
    let right = route.flank().contains(&(point, Side::Right));
    match placed.subject {
        Subject::Point(_) => left || right,
        Subject::Left(_) => left,
        Subject::Right(_) => right,
        _ => false,
    }
}

/// Whether a route ends at what is placed.
fn ends_at(route: &Route, placed: &Placed) -> bool {
    match placed.subject {
        Subject::Signal(_) => route.exit() == Exit::Signal(SignalId(placed.number)),
        Subject::Border(_) => route.exit() == Exit::Border(BorderId(placed.number)),
        _ => false,
    }
}

/// What a class may say of a thing: of the route that is shown, and of those that are set.
#[derive(Clone, Copy)]
pub(crate) enum Marking {
    /// The route passes over it.
    Path,
    /// It protects the flank of the route.
    Flank,
    /// A set route passes over it.
    Set,
    /// It is a section of the route's approach.
    Approach,
    /// The route begins at it.
    Entry,
    /// The route ends at it.
    Exit,
}

/// The words for this, as they stand in a class.
const MARKINGS: &[(Marking, &str)] = &[
    (Marking::Path, " path"),
    (Marking::Flank, " flank"),
    (Marking::Set, " set"),
    (Marking::Approach, " approach"),
    (Marking::Entry, " entry"),
    (Marking::Exit, " exit"),
];

/// Whether what is placed is marked so by a route that is shown.
fn is_of_route(route: &Route, placed: &Placed, marking: Marking) -> bool {
    let number = placed.number;
    match (marking, placed.subject) {
        (Marking::Path, _) => takes(route, placed),
        (Marking::Flank, _) => protects(route, placed),
        (Marking::Approach, Subject::Section(_)) => route.approach().contains(&SectionId(number)),
        (Marking::Entry, Subject::Signal(_)) => route.entry() == SignalId(number),
        (Marking::Exit, _) => ends_at(route, placed),
        _ => false,
    }
}

/// Whether what is placed is marked so.
pub(crate) fn is_marked(layout: &Layout, shown: &Shown, placed: &Placed, marking: Marking) -> bool {
    if let (Marking::Set, Some(seen)) = (marking, &shown.seen) {
        return is_set_over(layout.routes(), &seen.set, placed);
    }
    match shown.route(layout) {
        Some(route) => is_of_route(route, placed, marking),
        None => false,
    }
}

/// The word for the detection controller of what is placed, by which its bands have a tint.
fn tint_of(detectors: &[Detector], placed: &Placed) -> &'static str {
    match placed.subject {
        Subject::Section(_) => tint(detector_of(detectors, SectionId(placed.number))),
        Subject::Detector(_) => tint(placed.number),
        _ => "",
    }
}

/// Marks what is placed.
pub(crate) fn mark(
    class: &mut String,
    layout: &Layout,
    shown: &Shown,
    placed: &Placed,
) -> Result<(), AllocError> {
    class.push_str(tint_of(layout.detectors(), placed))?;
    for (marking, word) in MARKINGS {
        if is_marked(layout, shown, placed, *marking) {
            class.push_str(word)?;
        }
    }
    Ok(())
}

/// What is said of a route.
pub(crate) fn route_words(
    alloc: Global,
    layout: &Layout,
    route: &Route,
) -> Result<String, AllocError> {
    let name = route.name().as_str();
    let entry = exit_word(layout, Exit::Signal(route.entry()));
    let exit = exit_word(layout, route.exit());
    let aspect = route.aspect().word();
    format!(in alloc; "route {name} from {entry} to {exit}, {aspect}")
}

/// The name of the signal or the border at which a route may end.
fn exit_word(layout: &Layout, exit: Exit) -> &str {
    let signals = layout.signals();
    let borders = layout.borders();
    match exit {
        Exit::Signal(signal) if signal.0 < signals.len() => signals[signal.0].name.as_str(),
        Exit::Border(border) if border.0 < borders.len() => borders[border.0].as_str(),
        _ => "",
    }
}
