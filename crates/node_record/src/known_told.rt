//! What the lines of an interlocking to its operator tell of signals, points, sections, routes and links.

ghost use Rattle.std.specs.Prelude.{◌≡◌};
ghost use Rattle.std.specs.Option.{option_map, option_to_list};
ghost use Rattle.replay_words.specs.Cut.{words};
ghost use Rattle.node_record.specs.KnownTold.{aspect_seen, authority_seen, known_said, or_unknown, position_seen, section_seen};
ghost use Rattle.node_record.specs.inside.ThingsTold.{lane_of, node_lane, thing_told};

use crate::told::Told;
use crate::word_table::told_by;
use control_table::{Aspect, Layout, Node, Occupancy, Position, Side};
use lane_chart::{Kind, Lane, Progress, Readiness, Seen};
use replay_lines::{node_named, point_named, route_named, section_named};
use replay_words::Words;

// ---- lanes

/// What a line tells of.
#[derive(Clone, Copy)]
enum Thing {
    Link,
    Section,
    Point,
    /// The authority at a signal.
    Authority,
    /// The aspect that a signal indicates.
    Aspect,
    Route,
}

/// By its first word.
const THINGS: &[(&str, Thing)] = &[
    ("link", Thing::Link),
    ("section", Thing::Section),
    ("point", Thing::Point),
    ("signal", Thing::Authority),
    ("indicates", Thing::Aspect),
    ("route", Thing::Route),
];

/// The lane of this thing at the node of a name.
fn node_lane(layout: &Layout, thing: Thing, name: &str) -> Option<Lane>
    ensures { result ≡ node_lane layout.now thing name.now }
{
    let Ok(node) = node_named(layout, name) else {
        return None;
    };
    let (kind, place) = match (thing, layout.node(node)) {
        (Thing::Link, Some(Node::Signal(signal))) => (Kind::SignalLink, signal.0),
        (Thing::Link, Some(Node::Point(point))) => (Kind::PointLink, point.0),
        (Thing::Link, Some(Node::Detector(detector))) => (Kind::DetectorLink, detector.0),
        (Thing::Authority, Some(Node::Signal(signal))) => (Kind::Authority, signal.0),
        (Thing::Aspect, Some(Node::Signal(signal))) => (Kind::Aspect, signal.0),
        _ => return None,
    };
    Some(Lane { kind, place })
}

/// The lane of what a line names.
fn lane_of(layout: &Layout, thing: Thing, name: &str) -> Option<Lane>
    ensures { result ≡ lane_of layout.now thing name.now }
{
    let (kind, place) = match thing {
        Thing::Section => match section_named(layout, name) {
            Ok(section) => (Kind::Section, section.0),
            Err(_) => return None,
        },
        Thing::Point => match point_named(layout, name) {
            Ok(point) => (Kind::Position, point.0),
            Err(_) => return None,
        },
        Thing::Route => (Kind::Route, route_named(layout, name).0),
        _ => return node_lane(layout, thing, name),
    };
    Some(Lane { kind, place })
}

// ---- what they show

/// The words for what is told of a link and of a route.
const LINK: &[(&str, Seen)] = &[
    ("ready", Seen::Link(Readiness::Ready)),
    ("lost", Seen::Link(Readiness::Down)),
];

const ROUTE: &[(&str, Seen)] = &[
    ("set", Seen::Route(Some(Progress::Waiting))),
    ("free", Seen::Route(Some(Progress::Free))),
];

/// What a word says, if anything is known of it; `unknown` says that nothing is.
fn or_unknown<T: Copy>(word: &str, said: Option<T>) -> Option<Option<T>>
    ensures { result ≡ or_unknown word.now said }
{
    match said {
        Some(_) => Some(said),
        None if word == "unknown" => Some(None),
        None => None,
    }
}

fn section_seen(word: &str) -> Option<Seen>
    ensures { result ≡ section_seen word.now }
{
    let occupancy = or_unknown(word, Occupancy::of_word(word))?;
    Some(Seen::Section(occupancy))
}

/// A point is known where it lies at a side.
fn position_seen(word: &str) -> Option<Seen>
    ensures { result ≡ position_seen word.now }
{
    let position = match or_unknown(word, Side::of_word(word))? {
        Some(Side::Right) => Some(Position::Right),
        Some(Side::Left) => Some(Position::Left),
        None => None,
    };
    Some(Seen::Position(position))
}

fn aspect_seen(word: &str) -> Option<Seen>
    ensures { result ≡ aspect_seen word.now }
{
    let aspect = Aspect::of_word(word)?;
    Some(Seen::Aspect(Some(aspect)))
}

/// Without authority the aspect is stop, and a route into which one leads has another one.
fn authority_seen(layout: &Layout, aspect: &str, route: Option<&str>) -> Option<Seen>
    ensures { result ≡ authority_seen layout.now aspect.now (option_to_list (option_map (λ word. word.now) route.entry)) }
{
    if aspect == "stop" {
        return Some(Seen::Authority(None));
    }
    match route {
        Some(route) => Some(Seen::Authority(Some(route_named(layout, route)))),
        None => None,
    }
}

// ---- a line

/// What the words after the first one tell; there may be a third.
fn thing_told(
    layout: &Layout,
    thing: Thing,
    name: &str,
    word: &str,
    route: Option<&str>,
) -> Option<Told>
    ensures { result ≡ thing_told layout.now thing name.now word.now (option_to_list (option_map (λ word. word.now) route.entry)) }
{
    let seen = match thing {
        Thing::Link => told_by(LINK, word),
        Thing::Section => section_seen(word),
        Thing::Point => position_seen(word),
        Thing::Authority => authority_seen(layout, word, route),
        Thing::Aspect => aspect_seen(word),
        Thing::Route => told_by(ROUTE, word),
    };
    match (lane_of(layout, thing, name), seen) {
        (Some(lane), Some(seen)) => Some(Told { lane, seen }),
        _ => None,
    }
}

/// What a line to the operator tells of a lane.
pub(crate) fn known_said(layout: &Layout, line: &str) -> Option<Told>
    ensures { result ≡ known_said layout.now (words line.now) }
{
    let mut words = Words::of(line);
    let (Some(thing), Some(name), Some(word)) = (words.next(), words.next(), words.next()) else {
        return None;
    };
    match told_by(THINGS, thing) {
        Some(thing) => thing_told(layout, thing, name, word, words.next()),
        None => None,
    }
}
