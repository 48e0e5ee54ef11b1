//! Things of a station by their names.

ghost use Rattle.std.specs.Prelude.{◌≡◌, ◌<◌, [], slice_index_or};
ghost use Rattle.std.specs.List.{position};
ghost use Rattle.std.specs.Str.{bytes_eq};
ghost use Rattle.ixl_state.specs.layout.Entries.{RouteEntry};
ghost use Rattle.ixl_state.specs.layout.Nodes.{node_names, nodes};
ghost use Rattle.ixl_state.specs.layout.declared.entries.Point.{Point as PointEntry};
ghost use Rattle.ixl_state.specs.layout.declared.entries.Signal.{Signal as SignalEntry};
ghost use Rattle.embedded_ixl.specs.Places.{count_of, name_in, place_in};

use ixl_state::{Layout, Name, NodeId};

/// A kind of thing. The first of each kind in the layout's text has place 0. The node at place 0 is the interlocking itself, and those
/// of the controllers follow: signals, points, detectors.
#[derive(Clone, Copy)]
pub enum Kind {
    Signal,
    Point,
    Section,
    Route,
    Node,
}

/// How many things of a kind there are.
pub(crate) fn count_of(layout: &Layout, kind: Kind) -> usize
    ensures { result ≡ count_of layout.now kind }
{
    match kind {
        Kind::Signal => layout.signals().len(),
        Kind::Point => layout.points().len(),
        Kind::Section => layout.sections().len(),
        Kind::Route => layout.routes().len(),
        Kind::Node => layout.nodes(),
    }
}

/// The signal of a name.
fn signal(layout: &Layout, name: &[u8]) -> Option<usize>
    ensures { result ≡ position (λ (signal : SignalEntry). bytes_eq signal.name name.now) layout.now.signals }
{
    layout
        .signals()
        .iter()
        .position(|signal| signal.name.bytes() == name)
}

/// The point of a name.
fn point(layout: &Layout, name: &[u8]) -> Option<usize>
    ensures { result ≡ position (λ (point : PointEntry). bytes_eq point.name name.now) layout.now.points }
{
    layout
        .points()
        .iter()
        .position(|point| point.name.bytes() == name)
}

/// The section of a name.
fn section(layout: &Layout, name: &[u8]) -> Option<usize>
    ensures { result ≡ position (λ section. bytes_eq section name.now) layout.now.sections }
{
    layout
        .sections()
        .iter()
        .position(|section| section.bytes() == name)
}

/// The route of a name.
fn route(layout: &Layout, name: &[u8]) -> Option<usize>
    ensures { result ≡ position (λ (route : RouteEntry). bytes_eq route.name name.now) layout.now.routes }
{
    layout
        .routes()
        .iter()
        .position(|route| route.name().bytes() == name)
}

/// The place of the thing of a kind that has this name, if one has it.
pub(crate) fn place_in(layout: &Layout, kind: Kind, name: &[u8]) -> Option<usize>
    ensures { result ≡ place_in layout.now kind name.now }
{
    match kind {
        Kind::Signal => signal(layout, name),
        Kind::Point => point(layout, name),
        Kind::Section => section(layout, name),
        Kind::Route => route(layout, name),
        Kind::Node => node(layout, name),
    }
}

/// Whether the node of a number has this name.
fn is_called(layout: &Layout, number: usize, name: &[u8]) -> bool
    requires { number < nodes layout.now }
    ensures { result ≡ bytes_eq (slice_index_or (node_names layout.now) number []) name.now }
{
    match layout.node_name(NodeId(number)) {
        Some(other) => other.bytes() == name,
        None => false,
    }
}

/// The node of a name.
fn node(layout: &Layout, name: &[u8]) -> Option<usize>
    ensures { result ≡ position (λ other. bytes_eq other name.now) (node_names layout.now) }
{
    for number in 0..layout.nodes() {
        if is_called(layout, number, name) {
            return Some(number);
        }
    }
    None
}

/// The name of the thing of a kind at a place, if one is there.
pub(crate) fn name_in(layout: &Layout, kind: Kind, place: usize) -> Option<Name>
    ensures { result ≡ name_in layout.now kind place }
{
    match kind {
        Kind::Signal => Some(layout.signals().get(place)?.name),
        Kind::Point => Some(layout.points().get(place)?.name),
        Kind::Section => Some(*layout.sections().get(place)?),
        Kind::Route => Some(*layout.routes().get(place)?.name()),
        Kind::Node => layout.node_name(NodeId(place)),
    }
}
