//! Which entry each name is.

ghost use Rattle.std.specs.Prelude.{◌≡◌, Ok};
ghost use Rattle.layout_text.specs.FirstFault.{Gives, each_of, all_of};
ghost use Rattle.layout_text.specs.declared.fault.TableName.TheVariants as named;
ghost use Rattle.layout.specs.NamesResolved.{number_named, element_of, exit_of, element_named, exit_named, port_named, section_named, signal_named, side_named, route_named, track_named, point_named, joint_named, signal_entry, detector_entry, route_entry, has_port, site_of};

use crate::detector::Detector;
use crate::entries::{Exit, Joint, Point, Route, Signal, Track};
use crate::ids::{BorderId, PointId, RouteId, SectionId, SignalId, TrackId};
use crate::port::{Element, Port};
use crate::site::Draft;
use indexmap::IndexMap;
use layout_text::{
    End, LayoutFault, Place, PortName, Step, TableName, WrittenDetector, WrittenJoint,
    WrittenLayout, WrittenPoint, WrittenRoute, WrittenSignal, WrittenTrack, all, each,
};
use sci_telegram::{Name, Side};
use std::alloc::Global;

/// The number of the entry of a table that has this name, counted from 0.
fn number(
    directory: &IndexMap<Name, Place>,
    table: TableName,
    name: Name,
    place: Place,
) -> Result<usize, LayoutFault>
    ensures { Gives (λ n. n) result (number_named directory.now.entries place table name) }
{
    match directory.get(&name) {
        Some(found) if found.table == table => Ok(found.entry.saturating_sub(1)),
        _ => Err(LayoutFault::UnknownName(place)),
    }
}

#[tactic(auto, unfolding(crate::specs::NamesResolved::section_named))]
fn section(
    directory: &IndexMap<Name, Place>,
    name: Name,
    place: Place,
) -> Result<SectionId, LayoutFault>
    ensures { Gives (λ s. s) result (section_named directory.now.entries place name) }
{
    Ok(SectionId(number(directory, TableName::Section, name, place)?))
}

#[tactic(auto, unfolding(crate::specs::NamesResolved::signal_named))]
fn signal(
    directory: &IndexMap<Name, Place>,
    name: Name,
    place: Place,
) -> Result<SignalId, LayoutFault>
    ensures { Gives (λ s. s) result (signal_named directory.now.entries place name) }
{
    Ok(SignalId(number(directory, TableName::Signal, name, place)?))
}

/// The element that an entry of the text is.
fn element_of(table: TableName, number: usize) -> Option<Element>
    ensures { result ≡ element_of table number }
{
    match table {
        TableName::Track => Some(Element::Track(TrackId(number))),
        TableName::Point => Some(Element::Point(PointId(number))),
        TableName::Border => Some(Element::Border(BorderId(number))),
        _ => None,
    }
}

/// The exit of a route that an entry of the text is.
fn exit_of(table: TableName, number: usize) -> Option<Exit>
    ensures { result ≡ exit_of table number }
{
    match table {
        TableName::Signal => Some(Exit::Signal(SignalId(number))),
        TableName::Border => Some(Exit::Border(BorderId(number))),
        _ => None,
    }
}

#[tactic(auto, unfolding(crate::specs::NamesResolved::element_named))]
fn element(
    directory: &IndexMap<Name, Place>,
    name: Name,
    place: Place,
) -> Result<Element, LayoutFault>
    ensures { Gives (λ e. e) result (element_named directory.now.entries place name) }
{
    match directory.get(&name) {
        Some(found) => match element_of(found.table, found.entry.saturating_sub(1)) {
            Some(element) => Ok(element),
            None => Err(LayoutFault::UnknownName(place)),
        },
        None => Err(LayoutFault::UnknownName(place)),
    }
}

#[tactic(auto, unfolding(crate::specs::NamesResolved::exit_named))]
fn exit(directory: &IndexMap<Name, Place>, name: Name, place: Place) -> Result<Exit, LayoutFault>
    ensures { Gives (λ e. e) result (exit_named directory.now.entries place name) }
{
    match directory.get(&name) {
        Some(found) => match exit_of(found.table, found.entry.saturating_sub(1)) {
            Some(exit) => Ok(exit),
            None => Err(LayoutFault::UnknownName(place)),
        },
        None => Err(LayoutFault::UnknownName(place)),
    }
}

/// Whether an element has this port.
fn has_port(element: Element, end: End) -> bool
    ensures { result ≡ has_port element end }
{
    match (element, end) {
        (Element::Track(_), End::A | End::B) => true,
        (Element::Point(_), End::Tip | End::Left | End::Right) => true,
        (Element::Border(_), End::End) => true,
        _ => false,
    }
}

#[tactic(auto, unfolding(crate::specs::NamesResolved::port_named))]
fn port(
    directory: &IndexMap<Name, Place>,
    written: PortName,
    place: Place,
) -> Result<Port, LayoutFault>
    ensures { Gives (λ p. p) result (port_named directory.now.entries place written) }
{
    let element = element(directory, written.element, place)?;
    let end = written.end;
    if has_port(element, end) {
        return Ok(Port { element, end });
    }
    Err(LayoutFault::UnknownName(place))
}

/// Sections by name.
#[derive(Clone, Copy)]
struct SectionByName<'a>(&'a IndexMap<Name, Place>);

impl<'a> Step for SectionByName<'a> {
    ghost use Rattle.layout.specs.NamesResolved.{section_named};

    type From = Name;

    type To = SectionId;

    ghost gives = { λ resolve place from. section_named resolve.0.now.entries place from };

    #[tactic(auto, unfolding(crate::specs::NamesResolved::section_named))]
    fn step(&self, _alloc: Global, place: Place, from: &Name) -> Result<SectionId, LayoutFault> {
        section(self.0, *from, place)
    }
}

/// Ports by the names of their elements.
#[derive(Clone, Copy)]
struct PortByName<'a>(&'a IndexMap<Name, Place>);

impl<'a> Step for PortByName<'a> {
    ghost use Rattle.layout.specs.NamesResolved.{port_named};

    type From = PortName;

    type To = Port;

    ghost gives = { λ resolve place from. port_named resolve.0.now.entries place from };

    #[tactic(auto, unfolding(crate::specs::NamesResolved::port_named))]
    fn step(&self, _alloc: Global, place: Place, from: &PortName) -> Result<Port, LayoutFault> {
        port(self.0, *from, place)
    }
}

/// Points by name, with a side each.
#[derive(Clone, Copy)]
struct SideByName<'a>(&'a IndexMap<Name, Place>);

impl<'a> Step for SideByName<'a> {
    ghost use Rattle.layout.specs.NamesResolved.{side_named};

    type From = (Name, Side);

    type To = (PointId, Side);

    ghost gives = { λ resolve place from. side_named resolve.0.now.entries place from };

    #[tactic(auto, unfolding(crate::specs::NamesResolved::side_named))]
    fn step(
        &self,
        _alloc: Global,
        place: Place,
        from: &(Name, Side),
    ) -> Result<(PointId, Side), LayoutFault> {
        let point = number(self.0, TableName::Point, from.0, place)?;
        Ok((PointId(point), from.1))
    }
}

/// Routes by name.
#[derive(Clone, Copy)]
struct RouteByName<'a>(&'a IndexMap<Name, Place>);

impl<'a> Step for RouteByName<'a> {
    ghost use Rattle.layout.specs.NamesResolved.{route_named};

    type From = Name;

    type To = RouteId;

    ghost gives = { λ resolve place from. route_named resolve.0.now.entries place from };

    #[tactic(auto, unfolding(crate::specs::NamesResolved::route_named))]
    fn step(&self, _alloc: Global, place: Place, from: &Name) -> Result<RouteId, LayoutFault> {
        Ok(RouteId(number(self.0, TableName::Route, *from, place)?))
    }
}

/// The sections of a list.
fn sections(
    alloc: Global,
    directory: &IndexMap<Name, Place>,
    written: &[Name],
    place: Place,
) -> Result<Vec<SectionId>, LayoutFault>
    ensures { Gives (λ v. v.items) result (all_of (section_named directory.now.entries place) written.now) }
{
    all(alloc, &SectionByName(directory), place, written)
}

/// The ports of a list.
fn ports(
    alloc: Global,
    directory: &IndexMap<Name, Place>,
    written: &[PortName],
    place: Place,
) -> Result<Vec<Port>, LayoutFault>
    ensures { Gives (λ v. v.items) result (all_of (port_named directory.now.entries place) written.now) }
{
    all(alloc, &PortByName(directory), place, written)
}

/// The points of a list, with their sides.
fn sides(
    alloc: Global,
    directory: &IndexMap<Name, Place>,
    written: &[(Name, Side)],
    place: Place,
) -> Result<Vec<(PointId, Side)>, LayoutFault>
    ensures { Gives (λ v. v.items) result (all_of (side_named directory.now.entries place) written.now) }
{
    all(alloc, &SideByName(directory), place, written)
}

/// The routes of a list.
fn route_list(
    alloc: Global,
    directory: &IndexMap<Name, Place>,
    written: &[Name],
    place: Place,
) -> Result<Vec<RouteId>, LayoutFault>
    ensures { Gives (λ v. v.items) result (all_of (route_named directory.now.entries place) written.now) }
{
    all(alloc, &RouteByName(directory), place, written)
}

/// Tracks.
#[derive(Clone, Copy)]
struct TrackEntry<'a>(&'a IndexMap<Name, Place>);

impl<'a> Step for TrackEntry<'a> {
    ghost use Rattle.layout.specs.NamesResolved.{track_named};

    type From = WrittenTrack;

    type To = Track;

    ghost gives = { λ resolve place from. track_named resolve.0.now.entries place from };

    #[tactic(auto, unfolding(crate::specs::NamesResolved::track_named))]
    fn step(
        &self,
        _alloc: Global,
        place: Place,
        from: &WrittenTrack,
    ) -> Result<Track, LayoutFault> {
        let section = section(self.0, from.section, place)?;
        Ok(Track {
            name: from.name,
            section,
        })
    }
}

/// Points.
#[derive(Clone, Copy)]
struct PointEntry<'a>(&'a IndexMap<Name, Place>);

impl<'a> Step for PointEntry<'a> {
    ghost use Rattle.layout.specs.NamesResolved.{point_named};

    type From = WrittenPoint;

    type To = Point;

    ghost gives = { λ resolve place from. point_named resolve.0.now.entries place from };

    #[tactic(auto, unfolding(crate::specs::NamesResolved::point_named))]
    fn step(
        &self,
        _alloc: Global,
        place: Place,
        from: &WrittenPoint,
    ) -> Result<Point, LayoutFault> {
        let section = section(self.0, from.section, place)?;
        Ok(Point {
            name: from.name,
            id: from.id,
            section,
        })
    }
}

/// Joints.
#[derive(Clone, Copy)]
struct JointEntry<'a>(&'a IndexMap<Name, Place>);

impl<'a> Step for JointEntry<'a> {
    ghost use Rattle.layout.specs.NamesResolved.{joint_named};

    type From = WrittenJoint;

    type To = Joint;

    ghost gives = { λ resolve place from. joint_named resolve.0.now.entries place from };

    #[tactic(auto, unfolding(crate::specs::NamesResolved::joint_named))]
    fn step(
        &self,
        _alloc: Global,
        place: Place,
        from: &WrittenJoint,
    ) -> Result<Joint, LayoutFault> {
        let first = port(self.0, from.first, place)?;
        let second = port(self.0, from.second, place)?;
        Ok(Joint { first, second })
    }
}

/// Signals.
#[derive(Clone, Copy)]
struct SignalEntry<'a>(&'a IndexMap<Name, Place>);

impl<'a> Step for SignalEntry<'a> {
    ghost use Rattle.layout.specs.NamesResolved.{signal_entry};

    type From = WrittenSignal;

    type To = Signal;

    ghost gives = { λ resolve place from. signal_entry resolve.0.now.entries place from };

    #[tactic(auto, unfolding(crate::specs::NamesResolved::signal_entry))]
    fn step(
        &self,
        _alloc: Global,
        place: Place,
        from: &WrittenSignal,
    ) -> Result<Signal, LayoutFault> {
        let at = port(self.0, from.at, place)?;
        Ok(Signal {
            name: from.name,
            id: from.id,
            at,
        })
    }
}

/// Detection controllers.
#[derive(Clone, Copy)]
struct DetectorEntries<'a>(&'a IndexMap<Name, Place>);

impl<'a> Step for DetectorEntries<'a> {
    ghost use Rattle.layout.specs.NamesResolved.{detector_entry};

    type From = WrittenDetector;

    type To = Detector;

    ghost gives = { λ resolve place from. detector_entry resolve.0.now.entries place from };

    #[tactic(auto, unfolding(crate::specs::NamesResolved::detector_entry))]
    fn step(
        &self,
        alloc: Global,
        place: Place,
        from: &WrittenDetector,
    ) -> Result<Detector, LayoutFault> {
        let sections = sections(alloc, self.0, &from.sections, place)?;
        Ok(Detector {
            name: from.name,
            id: from.id,
            sections,
        })
    }
}

/// Routes.
#[derive(Clone, Copy)]
struct RouteEntries<'a>(&'a IndexMap<Name, Place>);

impl<'a> Step for RouteEntries<'a> {
    ghost use Rattle.layout.specs.NamesResolved.{route_entry};

    type From = WrittenRoute;

    type To = Route;

    ghost gives = { λ resolve place from. route_entry resolve.0.now.entries place from };

    #[tactic(auto, unfolding(crate::specs::NamesResolved::route_entry))]
    fn step(&self, alloc: Global, place: Place, from: &WrittenRoute) -> Result<Route, LayoutFault> {
        let entry = signal(self.0, from.entry, place)?;
        let exit = exit(self.0, from.exit, place)?;
        let path = ports(alloc, self.0, &from.path, place)?;
        let points = sides(alloc, self.0, &from.points, place)?;
        let flank = sides(alloc, self.0, &from.flank, place)?;
        let approach = sections(alloc, self.0, &from.approach, place)?;
        let extra = route_list(alloc, self.0, &from.extra, place)?;
        Ok(Route {
            name: from.name,
            entry,
            exit,
            path,
            points,
            flank,
            approach,
            extra,
            aspect: from.aspect,
        })
    }
}

/// All tracks.
fn tracks(
    alloc: Global,
    directory: &IndexMap<Name, Place>,
    written: &[WrittenTrack],
) -> Result<Vec<Track>, LayoutFault>
    ensures { Gives (λ v. v.items) result (each_of (track_named directory.now.entries) named.Track 1 written.now) }
{
    each(alloc, &TrackEntry(directory), TableName::Track, written)
}

/// All points.
fn points(
    alloc: Global,
    directory: &IndexMap<Name, Place>,
    written: &[WrittenPoint],
) -> Result<Vec<Point>, LayoutFault>
    ensures { Gives (λ v. v.items) result (each_of (point_named directory.now.entries) named.Point 1 written.now) }
{
    each(alloc, &PointEntry(directory), TableName::Point, written)
}

/// All joints.
fn joints(
    alloc: Global,
    directory: &IndexMap<Name, Place>,
    written: &[WrittenJoint],
) -> Result<Vec<Joint>, LayoutFault>
    ensures { Gives (λ v. v.items) result (each_of (joint_named directory.now.entries) named.Joint 1 written.now) }
{
    each(alloc, &JointEntry(directory), TableName::Joint, written)
}

/// All signals.
fn signals(
    alloc: Global,
    directory: &IndexMap<Name, Place>,
    written: &[WrittenSignal],
) -> Result<Vec<Signal>, LayoutFault>
    ensures { Gives (λ v. v.items) result (each_of (signal_entry directory.now.entries) named.Signal 1 written.now) }
{
    each(alloc, &SignalEntry(directory), TableName::Signal, written)
}

/// All detection controllers.
fn detectors(
    alloc: Global,
    directory: &IndexMap<Name, Place>,
    written: &[WrittenDetector],
) -> Result<Vec<Detector>, LayoutFault>
    ensures { Gives (λ v. v.items) result (each_of (detector_entry directory.now.entries) named.Detector 1 written.now) }
{
    each(
        alloc,
        &DetectorEntries(directory),
        TableName::Detector,
        written,
    )
}

/// All routes.
fn routes(
    alloc: Global,
    directory: &IndexMap<Name, Place>,
    written: &[WrittenRoute],
) -> Result<Vec<Route>, LayoutFault>
    ensures { Gives (λ v. v.items) result (each_of (route_entry directory.now.entries) named.Route 1 written.now) }
{
    each(alloc, &RouteEntries(directory), TableName::Route, written)
}

/// The same names again.
fn copied(alloc: Global, names: &[Name]) -> Result<Vec<Name>, LayoutFault>
    ensures { Gives (λ v. v.items) result (Ok names.now) }
{
    let names = Vec::from_slice(alloc, names)?;
    Ok(names)
}

/// The entries, with their names resolved in reading order.
#[tactic(auto, unfolding(crate::specs::NamesResolved::site_of))]
pub(crate) fn site(
    alloc: Global,
    directory: &IndexMap<Name, Place>,
    written: &WrittenLayout,
) -> Result<Draft, LayoutFault>
    ensures { Gives (λ d. d) result (site_of directory.now.entries written.now) }
{
    let tracks = tracks(alloc, directory, &written.tracks)?;
    let points = points(alloc, directory, &written.points)?;
    let joints = joints(alloc, directory, &written.joints)?;
    let signals = signals(alloc, directory, &written.signals)?;
    let detectors = detectors(alloc, directory, &written.detectors)?;
    let routes = routes(alloc, directory, &written.routes)?;
    let sections = copied(alloc, &written.sections)?;
    let borders = copied(alloc, &written.borders)?;
    Ok(Draft {
        station: written.station,
        sections,
        tracks,
        points,
        borders,
        joints,
        signals,
        detectors,
        routes,
    })
}
