//! What a panel shows of a world.

ghost use Rattle.std.specs.Prelude.{◌≡◌, ◌<◌, ◌+◌, ◌++◌, ◌/◌, IfOk, OnOk, length, slice_get};
ghost use Rattle.std.specs.List.{flat_map};
ghost use Rattle.station_record.specs.replay.ixl_spec.View.{is_point_ready, is_signal_ready};
ghost use Rattle.station_run.specs.Panel.{all_of, authority_of, closing_line, closing_of, count, is_detector_ready, line_at, link_line, lock_of, locking, mode_seen, pictured, released_at, route_held};
ghost use Rattle.station_run.specs.declared.thing.Thing.TheVariants.{Aspect, DetectorLink, Lies, PointLink, Release, Route as RouteSet, SignalLink, Stands};
ghost use Rattle.station_record.specs.replay.simulator_spec.Interlocking.{held_of};
ghost use Rattle.station_record.specs.replay.World.{played};
ghost use Rattle.station_record.specs.replay.layout.Nodes.{HasNode, meant_node, number_of};

use crate::thing::Thing;
use control_table::{Checked, Side};
use station_panel::{Authority, Closable, Known, LinkState, Mode, PanelLine, Pictured};
use station_record::{
    DetectorId, Event, Held, MICROS, Node, Outgoing, PointId, Refused, Reply, Route, RouteId,
    SectionId, SignalId, Station, World,
};
use std::alloc::{AllocError, Global};

/// The kinds of things, in the order in which they are shown.
const THINGS: [Thing; 15] = [
    Thing::Aspect,
    Thing::Lies,
    Thing::Stands,
    Thing::Locked,
    Thing::SignalLink,
    Thing::PointLink,
    Thing::DetectorLink,
    Thing::HeldRoute,
    Thing::Route,
    Thing::Release,
    Thing::SectionClosing,
    Thing::LeftClosing,
    Thing::RightClosing,
    Thing::SignalClosing,
    Thing::RouteClosing,
];

/// A world as a panel shows it.
#[derive(Drop)]
pub(crate) struct PicturedWorld(pub(crate) World);

impl Station for PicturedWorld {
    ghost use Rattle.station_record.specs.replay.World.{Played, played, worlds};

    ghost State = { Played };

    ghost state = { λ s. played s.0 };

    ghost does = { worlds };

    ghost site = { λ s. s.0.sited.site };

    fn apply(&mut self, event: &Event) -> Result<Reply, Refused> {
        Station::apply(&mut self.0, event)
    }

    fn table(&self) -> &Checked {
        self.0.table()
    }

    fn sent_count(&self) -> usize {
        self.0.sent_count()
    }

    fn sent_at(&self, place: usize) -> Option<Outgoing<'_>> {
        self.0.sent_at(place)
    }

    fn arrival(&self, place: usize) -> Option<Outgoing<'_>> {
        self.0.arrival(place)
    }

    fn driven(&self, point: PointId) -> Option<Side> {
        self.0.driven(point)
    }
}

impl Pictured for PicturedWorld {
    ghost use Rattle.station_record.specs.replay.World.{played};
    ghost use Rattle.station_run.specs.Panel.{pictured};

    ghost lines = { λ s. pictured (played s.0) };

    fn picture(&self, alloc: Global) -> Result<Vec<PanelLine>, AllocError> {
        all_lines(alloc, &self.0)
    }
}

/// All lines, in their order.
fn all_lines(alloc: Global, world: &World) -> Result<Vec<PanelLine>, AllocError>
    ensures { IfOk result (λ lines. lines.items ≡ pictured (played world.now)) }
{
    let mut lines = Vec::new(alloc);
    let millis = world.time() / MICROS;
    lines.push(PanelLine::Time { millis })?;
    lines.push(PanelLine::Interlocking(mode(world)))?;
    add_all(&mut lines, world, &THINGS)?;
    Ok(lines)
}

/// Adds a line of each thing of these kinds.
fn add_all(lines: &mut Vec<PanelLine>, world: &World, things: &[Thing]) -> Result<(), AllocError>
    ensures { OnOk result (lines.new.items ≡ lines.old.items ++ flat_map (all_of (played world.now)) things.now) }
{
    for thing in things {
        add_each(lines, world, *thing)?;
    }
    Ok(())
}

/// Adds a line of each thing of a kind.
fn add_each(lines: &mut Vec<PanelLine>, world: &World, thing: Thing) -> Result<(), AllocError>
    ensures { OnOk result (lines.new.items ≡ lines.old.items ++ all_of (played world.now) thing) }
{
    for place in 0..count(world, thing) {
        lines.push(line_at(world, thing, place))?;
    }
    Ok(())
}

/// How many things of a kind there are.
fn count(world: &World, thing: Thing) -> usize
    ensures { result ≡ count world.now.sited.site thing }
{
    let layout = world.table().layout();
    match thing {
        Thing::Aspect | Thing::SignalLink | Thing::HeldRoute => layout.signals().len(),
        Thing::Lies | Thing::PointLink => layout.points().len(),
        Thing::Stands | Thing::Locked => layout.sections().len(),
        Thing::DetectorLink => layout.detectors().len(),
        Thing::Route | Thing::Release => layout.routes().len(),
        Thing::SectionClosing => layout.sections().len(),
        Thing::LeftClosing | Thing::RightClosing => layout.points().len(),
        Thing::SignalClosing => layout.signals().len(),
        Thing::RouteClosing => layout.routes().len(),
    }
}

/// What is shown of the thing of a kind at a place.
fn line_at(world: &World, thing: Thing, place: usize) -> PanelLine
    requires { place < count world.now.sited.site thing }
    ensures { result ≡ line_at (played world.now) thing place }
{
    match thing {
        Thing::Aspect => aspect_line(world, place),
        Thing::Lies => lies_line(world, place),
        Thing::Stands => stands_line(world, place),
        Thing::Locked => PanelLine::Locked {
            section: SectionId(place),
            route: locking(world, place),
        },
        Thing::SignalLink => signal_link(world, place),
        Thing::PointLink => point_link(world, place),
        Thing::DetectorLink => detector_link(world, place),
        Thing::HeldRoute => PanelLine::Known(Known::Signal {
            signal: SignalId(place),
            authority: authority_of(world.table().layout().routes(), held_at(world, place)),
        }),
        Thing::Route => route_line(world, place),
        Thing::Release => release_line(world, place),
        closing => closing_line(world, closing_of(closing, place)),
    }
}

/// What the interlocking takes.
fn mode(world: &World) -> Mode
    ensures { result ≡ mode_seen (played world.now) }
{
    if world.is_holding() {
        Mode::Holding
    } else if world.interlocking().is_resumed() {
        Mode::Ready
    } else {
        Mode::WaitingForResume
    }
}

/// What a signal shows.
#[tactic(auto, using(crate::proofs::Seen::mapped))]
fn aspect_line(world: &World, place: usize) -> PanelLine
    requires { place < length world.now.sited.site.signals }
    ensures { result ≡ line_at (played world.now) Aspect place }
{
    let signal = SignalId(place);
    PanelLine::Shows {
        signal,
        aspect: world.shown(signal),
    }
}

/// Where a point lies, and to which side it is driven.
#[tactic(auto, using(crate::proofs::Seen::there))]
fn lies_line(world: &World, place: usize) -> PanelLine
    requires { place < length world.now.sited.site.points }
    ensures { result ≡ line_at (played world.now) Lies place }
{
    let point = PointId(place);
    PanelLine::Lies {
        point,
        position: world.position(point),
        driven: world.driven(point),
    }
}

/// Whether a section is occupied.
#[tactic(auto, using(crate::proofs::Seen::there))]
fn stands_line(world: &World, place: usize) -> PanelLine
    requires { place < length world.now.sited.site.sections }
    ensures { result ≡ line_at (played world.now) Stands place }
{
    let section = SectionId(place);
    PanelLine::Stands {
        section,
        occupancy: world.occupancy(section),
    }
}

/// Whether a route is set.
#[tactic(auto, using(crate::proofs::Seen::mapped))]
fn route_line(world: &World, place: usize) -> PanelLine
    requires { place < length world.now.sited.site.routes }
    ensures { result ≡ line_at (played world.now) RouteSet place }
{
    let route = RouteId(place);
    PanelLine::Known(Known::Route {
        route,
        is_set: world.is_set(route),
    })
}

/// Whether a route was released in its present setting.
fn release_line(world: &World, place: usize) -> PanelLine
    ensures { result ≡ line_at (played world.now) Release place }
{
    PanelLine::Released {
        route: RouteId(place),
        is_released: is_released(world, place),
    }
}

/// Whether a route is set, and was released in this setting.
#[tactic(auto, using(crate::proofs::Seen::released_there, crate::proofs::Seen::released_past))]
fn is_released(world: &World, place: usize) -> bool
    ensures { result ≡ released_at world.now.run.interlocking.ixl.routes place }
{
    let state = world.interlocking();
    if place >= state.table().rows().len() {
        return false;
    }
    state.keeps_route(place);
    let kept = state.route(place);
    kept.is_set() && kept.released().is_some()
}

/// The thing of which a kind of closing tells, at a place.
fn closing_of(kind: Thing, place: usize) -> Closable
    ensures { result ≡ closing_of kind place }
{
    match kind {
        Thing::SectionClosing => Closable::Section(SectionId(place)),
        Thing::LeftClosing => Closable::Point(PointId(place), Side::Left),
        Thing::RightClosing => Closable::Point(PointId(place), Side::Right),
        Thing::SignalClosing => Closable::Signal(SignalId(place)),
        _ => Closable::Route(RouteId(place)),
    }
}

/// Whether a thing is closed.
fn closing_line(world: &World, thing: Closable) -> PanelLine
    ensures { result ≡ closing_line (played world.now) thing }
{
    PanelLine::Closed {
        thing,
        is_closed: world.interlocking().closed().is_closed(thing),
    }
}

/// The link to a controller.
fn link_line(world: &World, node: Node, ready: bool) -> PanelLine
    requires { HasNode world.now.sited.site (meant_node node) }
    ensures { result ≡ link_line (number_of world.now.sited.site (meant_node node)) ready }
{
    let state = if ready {
        LinkState::Ready
    } else {
        LinkState::Lost
    };
    PanelLine::Known(Known::Link {
        node: world.table().layout().node_id(node),
        state,
    })
}

/// Whether the initialisation of a signal was completed in its present connection.
fn is_signal_ready(world: &World, place: usize) -> bool
    ensures { result ≡ is_signal_ready world.now.run.interlocking.ixl place }
{
    world.interlocking().field().is_signal_ready(place)
}

/// The link to the controller of a signal.
fn signal_link(world: &World, place: usize) -> PanelLine
    requires { place < length world.now.sited.site.signals }
    ensures { result ≡ line_at (played world.now) SignalLink place }
{
    let node = Node::Signal(SignalId(place));
    link_line(world, node, is_signal_ready(world, place))
}

/// Whether the initialisation of a point was completed in its present connection.
fn is_point_ready(world: &World, place: usize) -> bool
    ensures { result ≡ is_point_ready world.now.run.interlocking.ixl place }
{
    world.interlocking().field().is_point_ready(place)
}

/// The link to the controller of a point.
fn point_link(world: &World, place: usize) -> PanelLine
    requires { place < length world.now.sited.site.points }
    ensures { result ≡ line_at (played world.now) PointLink place }
{
    let node = Node::Point(PointId(place));
    link_line(world, node, is_point_ready(world, place))
}

/// The link to a detector.
fn detector_link(world: &World, place: usize) -> PanelLine
    requires { place < length world.now.sited.site.detectors }
    ensures { result ≡ line_at (played world.now) DetectorLink place }
{
    let node = Node::Detector(DetectorId(place));
    link_line(world, node, is_detector_ready(world, place))
}

/// Whether the initialisation of a detector was completed in its present connection.
#[tactic(auto, using(crate::proofs::Seen::at_read, crate::proofs::Seen::at_past))]
fn is_detector_ready(world: &World, place: usize) -> bool
    ensures { result ≡ is_detector_ready world.now.run.interlocking.ixl place }
{
    let field = world.interlocking().field();
    if place < field.detectors() {
        field.is_detector_ready(place)
    } else {
        false
    }
}

/// The route that is held for a signal, if one is.
fn held_at(world: &World, place: usize) -> Option<RouteId>
    ensures { result ≡ route_held place (held_of world.now.sited.table world.now.run.interlocking world.now.run.frozen) }
{
    let held = world.held();
    first_held(&held, place)
}

/// The first route that is held for a signal.
fn first_held(held: &[Held], signal: usize) -> Option<RouteId>
    ensures { result ≡ route_held signal held.now }
{
    for place in 0..held.len() {
        let one = held[place];
        if one.signal.0 == signal {
            return Some(one.route);
        }
    }
    None
}

/// A route with its aspect.
fn authority_of(routes: &[Route], route: Option<RouteId>) -> Option<Authority>
    ensures { result ≡ authority_of routes.now route }
{
    let route = route?;
    let entry = routes.get(route.0)?;
    Some(Authority {
        aspect: entry.aspect(),
        route,
    })
}

/// The first route that locks a section.
fn locking(world: &World, section: usize) -> Option<RouteId>
    ensures { result ≡ locking world.now.sited.table.rows world.now.run.interlocking.ixl.routes section 0 (length world.now.sited.table.rows) }
{
    for number in 0..world.interlocking().table().rows().len() {
        if locks(world, number, section) {
            return Some(RouteId(number));
        }
    }
    None
}

/// Whether a route locks a section.
fn locks(world: &World, number: usize, section: usize) -> bool
    requires { number < length world.now.sited.table.rows }
    ensures { result ≡ lock_of (slice_get world.now.sited.table.rows number) (slice_get world.now.run.interlocking.ixl.routes number) section }
{
    world.interlocking().keeps_route(number);
    world.locked(RouteId(number)).contains(section)
}
