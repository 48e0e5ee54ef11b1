//! What stands in a layout once: names, identities, sections of detectors, and ports.

ghost use Rattle.std.specs.Prelude.{[], Ok, map};
ghost use Rattle.layout_text.specs.FirstFault.{Gives};
ghost use Rattle.layout.specs.Known.{note_key, note_each, same_name, same_port};
ghost use Rattle.layout.specs.Doubles.{same_id, ground_of, directory_of, ids_of, reported_of, joined_of, signalled_of};
ghost use Rattle.layout_text.specs.declared.fault.TableName.TheVariants as named;
ghost use Rattle.layout.specs.declared.known.Double.TheVariants as double;

use crate::entries::{Joint, Signal};
use crate::known::{Double, note_all, note_each, note_key};
use crate::port::Port;
use indexmap::IndexMap;
use layout_text::{
    LayoutFault, Place, Step, TableName, WrittenDetector, WrittenLayout, WrittenPoint,
    WrittenRoute, WrittenSignal, WrittenTrack, each,
};
use sci_telegram::Name;
use std::alloc::Global;

/// The place of the station.
const STATION: Place = Place {
    table: TableName::Station,
    entry: 1,
};

/// The name of a track.
struct TrackName;

impl Step for TrackName {
    ghost use Rattle.std.specs.Prelude.{Ok};

    type From = WrittenTrack;

    type To = Name;

    ghost gives = { λ _ _ from. Ok from.name };

    fn step(
        &self,
        _alloc: Global,
        _place: Place,
        from: &WrittenTrack,
    ) -> Result<Name, LayoutFault> {
        Ok(from.name)
    }
}

fn track_names(alloc: Global, tracks: &[WrittenTrack]) -> Result<Vec<Name>, LayoutFault>
    ensures { Gives (λ v. v.items) result (Ok (map (λ x. x.name) tracks.now)) }
{
    each(alloc, &TrackName, TableName::Track, tracks)
}

/// The name of a point.
struct PointName;

impl Step for PointName {
    ghost use Rattle.std.specs.Prelude.{Ok};

    type From = WrittenPoint;

    type To = Name;

    ghost gives = { λ _ _ from. Ok from.name };

    fn step(
        &self,
        _alloc: Global,
        _place: Place,
        from: &WrittenPoint,
    ) -> Result<Name, LayoutFault> {
        Ok(from.name)
    }
}

fn point_names(alloc: Global, points: &[WrittenPoint]) -> Result<Vec<Name>, LayoutFault>
    ensures { Gives (λ v. v.items) result (Ok (map (λ x. x.name) points.now)) }
{
    each(alloc, &PointName, TableName::Point, points)
}

/// The name of a signal.
struct SignalName;

impl Step for SignalName {
    ghost use Rattle.std.specs.Prelude.{Ok};

    type From = WrittenSignal;

    type To = Name;

    ghost gives = { λ _ _ from. Ok from.name };

    fn step(
        &self,
        _alloc: Global,
        _place: Place,
        from: &WrittenSignal,
    ) -> Result<Name, LayoutFault> {
        Ok(from.name)
    }
}

fn signal_names(alloc: Global, signals: &[WrittenSignal]) -> Result<Vec<Name>, LayoutFault>
    ensures { Gives (λ v. v.items) result (Ok (map (λ x. x.name) signals.now)) }
{
    each(alloc, &SignalName, TableName::Signal, signals)
}

/// The name of a detection controller.
struct DetectorName;

impl Step for DetectorName {
    ghost use Rattle.std.specs.Prelude.{Ok};

    type From = WrittenDetector;

    type To = Name;

    ghost gives = { λ _ _ from. Ok from.name };

    fn step(
        &self,
        _alloc: Global,
        _place: Place,
        from: &WrittenDetector,
    ) -> Result<Name, LayoutFault> {
        Ok(from.name)
    }
}

fn detector_names(alloc: Global, detectors: &[WrittenDetector]) -> Result<Vec<Name>, LayoutFault>
    ensures { Gives (λ v. v.items) result (Ok (map (λ x. x.name) detectors.now)) }
{
    each(alloc, &DetectorName, TableName::Detector, detectors)
}

/// The name of a route.
struct RouteName;

impl Step for RouteName {
    ghost use Rattle.std.specs.Prelude.{Ok};

    type From = WrittenRoute;

    type To = Name;

    ghost gives = { λ _ _ from. Ok from.name };

    fn step(
        &self,
        _alloc: Global,
        _place: Place,
        from: &WrittenRoute,
    ) -> Result<Name, LayoutFault> {
        Ok(from.name)
    }
}

fn route_names(alloc: Global, routes: &[WrittenRoute]) -> Result<Vec<Name>, LayoutFault>
    ensures { Gives (λ v. v.items) result (Ok (map (λ x. x.name) routes.now)) }
{
    each(alloc, &RouteName, TableName::Route, routes)
}

fn point_ids(alloc: Global, points: &[WrittenPoint]) -> Result<Vec<u32>, LayoutFault>
    ensures { Gives (λ v. v.items) result (Ok (map (λ x. x.id) points.now)) }
{
    let keys: Vec<u32> = points.iter().map(|x| x.id).collect(alloc)?;
    Ok(keys)
}

fn signal_ids(alloc: Global, signals: &[WrittenSignal]) -> Result<Vec<u32>, LayoutFault>
    ensures { Gives (λ v. v.items) result (Ok (map (λ x. x.id) signals.now)) }
{
    let keys: Vec<u32> = signals.iter().map(|x| x.id).collect(alloc)?;
    Ok(keys)
}

fn detector_ids(alloc: Global, detectors: &[WrittenDetector]) -> Result<Vec<u32>, LayoutFault>
    ensures { Gives (λ v. v.items) result (Ok (map (λ x. x.id) detectors.now)) }
{
    let keys: Vec<u32> = detectors.iter().map(|x| x.id).collect(alloc)?;
    Ok(keys)
}

/// The port of a signal.
struct SignalPort;

impl Step for SignalPort {
    ghost use Rattle.std.specs.Prelude.{Ok};

    type From = Signal;

    type To = Port;

    ghost gives = { λ _ _ from. Ok from.at };

    fn step(&self, _alloc: Global, _place: Place, from: &Signal) -> Result<Port, LayoutFault> {
        Ok(from.at)
    }
}

fn signal_ports(alloc: Global, signals: &[Signal]) -> Result<Vec<Port>, LayoutFault>
    ensures { Gives (λ v. v.items) result (Ok (map (λ x. x.at) signals.now)) }
{
    each(alloc, &SignalPort, TableName::Signal, signals)
}

/// The name of the station, at its place.
fn with_station(alloc: Global, name: Name) -> Result<IndexMap<Name, Place>, LayoutFault>
    ensures { Gives (λ m. m.entries) result (note_key same_name double.Name [] name (record { table = named.Station; entry = 1 })) }
{
    let mut known = IndexMap::new(alloc);
    note_key(&mut known, Double::Name, name, STATION)?;
    Ok(known)
}

/// The names that are known, with those of a table.
fn with_names(
    mut known: IndexMap<Name, Place>,
    table: TableName,
    names: &[Name],
) -> Result<IndexMap<Name, Place>, LayoutFault>
    ensures { Gives (λ m. m.entries) result (note_each same_name double.Name table 1 names.now known.entries) }
{
    note_each(&mut known, Double::Name, table, names)?;
    Ok(known)
}

/// The names of the station and of what lies on the ground, each with its place.
#[tactic(auto, unfolding(crate::specs::Doubles::ground_of))]
fn ground(alloc: Global, written: &WrittenLayout) -> Result<IndexMap<Name, Place>, LayoutFault>
    ensures { Gives (λ m. m.entries) result (ground_of written.now) }
{
    let known = with_station(alloc, written.station.name)?;
    let known = with_names(known, TableName::Section, &written.sections)?;
    let tracks = track_names(alloc, &written.tracks)?;
    let known = with_names(known, TableName::Track, &tracks)?;
    let points = point_names(alloc, &written.points)?;
    let known = with_names(known, TableName::Point, &points)?;
    with_names(known, TableName::Border, &written.borders)
}

/// All names, each with its place.
#[tactic(auto, unfolding(crate::specs::Doubles::directory_of))]
pub(crate) fn directory(
    alloc: Global,
    written: &WrittenLayout,
) -> Result<IndexMap<Name, Place>, LayoutFault>
    ensures { Gives (λ m. m.entries) result (directory_of written.now) }
{
    let known = ground(alloc, written)?;
    let signals = signal_names(alloc, &written.signals)?;
    let known = with_names(known, TableName::Signal, &signals)?;
    let detectors = detector_names(alloc, &written.detectors)?;
    let known = with_names(known, TableName::Detector, &detectors)?;
    let routes = route_names(alloc, &written.routes)?;
    with_names(known, TableName::Route, &routes)
}

/// The identity of the station, at its place.
fn with_station_id(alloc: Global, id: u32) -> Result<IndexMap<u32, Place>, LayoutFault>
    ensures { Gives (λ m. m.entries) result (note_key same_id double.Name [] id (record { table = named.Station; entry = 1 })) }
{
    let mut known = IndexMap::new(alloc);
    note_key(&mut known, Double::Name, id, STATION)?;
    Ok(known)
}

/// The identities that are known, with those of a table.
fn with_ids(
    mut known: IndexMap<u32, Place>,
    table: TableName,
    ids: &[u32],
) -> Result<IndexMap<u32, Place>, LayoutFault>
    ensures { Gives (λ m. m.entries) result (note_each same_id double.Name table 1 ids.now known.entries) }
{
    note_each(&mut known, Double::Name, table, ids)?;
    Ok(known)
}

/// All identities of nodes, each with its place.
#[tactic(auto, unfolding(crate::specs::Doubles::ids_of))]
pub(crate) fn ids(
    alloc: Global,
    written: &WrittenLayout,
) -> Result<IndexMap<u32, Place>, LayoutFault>
    ensures { Gives (λ m. m.entries) result (ids_of written.now) }
{
    let known = with_station_id(alloc, written.station.id)?;
    let points = point_ids(alloc, &written.points)?;
    let known = with_ids(known, TableName::Point, &points)?;
    let signals = signal_ids(alloc, &written.signals)?;
    let known = with_ids(known, TableName::Signal, &signals)?;
    let detectors = detector_ids(alloc, &written.detectors)?;
    with_ids(known, TableName::Detector, &detectors)
}

/// All sections that detectors report, each with the place of its detector.
#[tactic(auto, unfolding(crate::specs::Doubles::reported_of))]
pub(crate) fn reported(
    alloc: Global,
    detectors: &[WrittenDetector],
) -> Result<IndexMap<Name, Place>, LayoutFault>
    ensures { Gives (λ m. m.entries) result (reported_of detectors.now) }
{
    let mut known = IndexMap::new(alloc);
    for (before, detector) in detectors.iter().enumerate() {
        let place = Place {
            table: TableName::Detector,
            entry: before + 1,
        };
        note_all(&mut known, Double::Name, place, detector.sections())?;
    }
    Ok(known)
}

/// All ports that are joined, each with the place of its joint.
#[tactic(auto, unfolding(crate::specs::Doubles::joined_of))]
pub(crate) fn joined(alloc: Global, joints: &[Joint]) -> Result<IndexMap<Port, Place>, LayoutFault>
    ensures { Gives (λ m. m.entries) result (joined_of joints.now) }
{
    let mut known = IndexMap::new(alloc);
    for (before, joint) in joints.iter().enumerate() {
        let place = Place {
            table: TableName::Joint,
            entry: before + 1,
        };
        note_all(
            &mut known,
            Double::Joint,
            place,
            &[joint.first, joint.second],
        )?;
    }
    Ok(known)
}

/// The ports of a table, each at its place.
fn with_ports(
    alloc: Global,
    table: TableName,
    ports: &[Port],
) -> Result<IndexMap<Port, Place>, LayoutFault>
    ensures { Gives (λ m. m.entries) result (note_each same_port double.Joint table 1 ports.now []) }
{
    let mut known = IndexMap::new(alloc);
    note_each(&mut known, Double::Joint, table, ports)?;
    Ok(known)
}

/// All ports at which signals stand, each with the place of its signal.
#[tactic(auto, unfolding(crate::specs::Doubles::signalled_of))]
pub(crate) fn signalled(
    alloc: Global,
    signals: &[Signal],
) -> Result<IndexMap<Port, Place>, LayoutFault>
    ensures { Gives (λ m. m.entries) result (signalled_of signals.now) }
{
    let ports = signal_ports(alloc, signals)?;
    with_ports(alloc, TableName::Signal, &ports)
}
