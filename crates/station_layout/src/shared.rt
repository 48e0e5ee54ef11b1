//! Which earlier entry has what a later one has too.

ghost use Rattle.std.specs.Prelude.{◌≡◌, slice_get};
ghost use Rattle.station_layout.specs.Search.{first_of};
ghost use Rattle.station_layout.specs.declared.advice.Common.TheVariants as common;
ghost use Rattle.station_layout.specs.SharedAdvice.{detector_shared, double_told, entries, has, id_in, id_shared, joins, name_in, name_shared, place_having, port_told, same_port_name, shared_with};

use crate::advice::{Common, EntryAdvice};
use control_table::Name;
use layout_text::{Place, PortName, TableName, WrittenJoint, WrittenLayout};

/// Whether two ports are the same.
#[tactic(auto, unfolding(crate::specs::SharedAdvice::same_port_name))]
fn same_port_name(one: &PortName, other: &PortName) -> bool
    ensures { result ≡ same_port_name one.now other.now }
{
    one.element == other.element && one.end == other.end
}

/// Whether a joint joins a port.
#[tactic(auto, unfolding(crate::specs::SharedAdvice::joins))]
fn joins(joint: &WrittenJoint, port: &PortName) -> bool
    ensures { result ≡ joins joint.now port.now }
{
    same_port_name(&joint.first, port) || same_port_name(&joint.second, port)
}

/// The entry of a list at a place, counted from 0.
pub(crate) fn entry_at<T: Copy>(entries: &Vec<T>, before: usize) -> Option<T>
    ensures { result ≡ slice_get entries.now.items before }
{
    entries.get(before).copied()
}

/// The name of an entry of a table, by its place counted from 0.
#[tactic(auto, unfolding(crate::specs::SharedAdvice::name_in))]
fn name_in(written: &WrittenLayout, table: TableName, before: usize) -> Option<Name>
    ensures { result ≡ name_in written.now table before }
{
    match table {
        TableName::Station => Some(written.station.name),
        TableName::Section => entry_at(&written.sections, before),
        TableName::Track => match entry_at(&written.tracks, before) {
            Some(track) => Some(track.name),
            None => None,
        },
        TableName::Point => match entry_at(&written.points, before) {
            Some(point) => Some(point.name),
            None => None,
        },
        TableName::Border => entry_at(&written.borders, before),
        TableName::Joint => None,
        TableName::Signal => match entry_at(&written.signals, before) {
            Some(signal) => Some(signal.name),
            None => None,
        },
        TableName::Detector => match written.detectors.get(before) {
            Some(detector) => Some(detector.name),
            None => None,
        },
        TableName::Route => match written.routes.get(before) {
            Some(route) => Some(route.name),
            None => None,
        },
    }
}

/// The identity of an entry of a table.
#[tactic(auto, unfolding(crate::specs::SharedAdvice::id_in))]
fn id_in(written: &WrittenLayout, table: TableName, before: usize) -> Option<u32>
    ensures { result ≡ id_in written.now table before }
{
    match table {
        TableName::Station => Some(written.station.id),
        TableName::Point => match entry_at(&written.points, before) {
            Some(point) => Some(point.id),
            None => None,
        },
        TableName::Signal => match entry_at(&written.signals, before) {
            Some(signal) => Some(signal.id),
            None => None,
        },
        TableName::Detector => match written.detectors.get(before) {
            Some(detector) => Some(detector.id),
            None => None,
        },
        _ => None,
    }
}

/// How many entries of a table are written.
fn entries(written: &WrittenLayout, table: TableName) -> usize
    ensures { result ≡ entries written.now table }
{
    match table {
        TableName::Station => 1,
        TableName::Section => written.sections.len(),
        TableName::Track => written.tracks.len(),
        TableName::Point => written.points.len(),
        TableName::Border => written.borders.len(),
        TableName::Joint => written.joints.len(),
        TableName::Signal => written.signals.len(),
        TableName::Detector => written.detectors.len(),
        TableName::Route => written.routes.len(),
    }
}

/// Whether an entry of a table has something.
#[tactic(auto, unfolding(crate::specs::SharedAdvice::has, crate::specs::SharedAdvice::reports))]
fn has(written: &WrittenLayout, table: TableName, before: usize, what: &Common) -> bool
    ensures { result ≡ has written.now table before what.now }
{
    match (what, table) {
        (Common::Name(name), _) => name_in(written, table, before) == Some(*name),
        (Common::Id(id), _) => id_in(written, table, before) == Some(*id),
        (Common::Section(section), TableName::Detector) => match written.detectors.get(before) {
            Some(detector) => detector.sections().contains(section),
            None => false,
        },
        (Common::Joint(port), TableName::Joint) => match entry_at(&written.joints, before) {
            Some(joint) => joins(&joint, port),
            None => false,
        },
        (Common::Signal(port), TableName::Signal) => match entry_at(&written.signals, before) {
            Some(signal) => same_port_name(&signal.at, port),
            None => false,
        },
        _ => false,
    }
}

/// The first entry of a table that has something.
#[tactic(auto, using(crate::proofs::Entries::has_it, crate::proofs::Entries::goes_on, crate::proofs::Entries::has_none), unfolding(crate::specs::SharedAdvice::place_having))]
pub(crate) fn place_having(
    written: &WrittenLayout,
    what: &Common,
    table: TableName,
) -> Option<Place>
    ensures { result ≡ place_having written.now what.now table }
{
    for before in 0..entries(written, table) {
        if has(written, table, before, what) {
            return Some(Place {
                table,
                entry: before.saturating_add(1),
            });
        }
    }
    None
}

/// The tables, in the order in which they are read.
const TABLES: &[TableName] = &[
    TableName::Station,
    TableName::Section,
    TableName::Track,
    TableName::Point,
    TableName::Border,
    TableName::Joint,
    TableName::Signal,
    TableName::Detector,
    TableName::Route,
];

/// The first entry of these tables that has something.
fn first_having(written: &WrittenLayout, what: &Common, tables: &[TableName]) -> Option<Place>
    ensures { result ≡ first_of (place_having written.now what.now) tables.now }
{
    for table in tables {
        if let Some(found) = place_having(written, what, *table) {
            return Some(found);
        }
    }
    None
}

/// What an entry has, if an earlier one has it.
#[tactic(auto, unfolding(crate::specs::SharedAdvice::same_place, crate::specs::SharedAdvice::shared_with))]
fn shared_with(written: &WrittenLayout, place: Place, what: &Common) -> Option<EntryAdvice>
    ensures { result ≡ shared_with written.now place what.now }
{
    let first = first_having(written, what, TABLES)?;
    if first.table == place.table && first.entry == place.entry {
        return None;
    }
    Some(EntryAdvice::Shared(place, *what, first))
}

/// The name of an entry, if an earlier one has it.
fn name_shared(written: &WrittenLayout, place: Place) -> Option<EntryAdvice>
    ensures { result ≡ name_shared written.now place }
{
    let before = place.entry.saturating_sub(1);
    let name = name_in(written, place.table, before)?;
    shared_with(written, place, &Common::Name(name))
}

/// The identity of an entry, if an earlier one has it.
fn id_shared(written: &WrittenLayout, place: Place) -> Option<EntryAdvice>
    ensures { result ≡ id_shared written.now place }
{
    let before = place.entry.saturating_sub(1);
    let id = id_in(written, place.table, before)?;
    shared_with(written, place, &Common::Id(id))
}

/// The first of these sections of a detection controller that an earlier one reports too.
fn first_shared(written: &WrittenLayout, place: Place, sections: &[Name]) -> Option<EntryAdvice>
    ensures { result ≡ first_of (λ section. shared_with written.now place (common.Section section)) sections.now }
{
    for section in sections {
        if let Some(found) = shared_with(written, place, &Common::Section(*section)) {
            return Some(found);
        }
    }
    None
}

/// The first section of a detection controller that an earlier one reports too.
fn detector_shared(written: &WrittenLayout, place: Place) -> Option<EntryAdvice>
    ensures { result ≡ detector_shared written.now place }
{
    let detector = written.detectors.get(place.entry.saturating_sub(1))?;
    first_shared(written, place, detector.sections())
}

/// The advice where an entry has a name, an identity or a section that an earlier one has.
pub(crate) fn double_told(written: &WrittenLayout, place: Place) -> Option<EntryAdvice>
    ensures { result ≡ double_told written.now place }
{
    if let Some(found) = name_shared(written, place) {
        return Some(found);
    }
    if let Some(found) = id_shared(written, place) {
        return Some(found);
    }
    detector_shared(written, place)
}

/// The advice where an entry stands at a port at which an earlier one stands.
pub(crate) fn port_told(written: &WrittenLayout, place: Place) -> Option<EntryAdvice>
    ensures { result ≡ port_told written.now place }
{
    let before = place.entry.saturating_sub(1);
    match place.table {
        TableName::Joint => {
            let joint = entry_at(&written.joints, before)?;
            if let Some(found) = shared_with(written, place, &Common::Joint(joint.first)) {
                return Some(found);
            }
            shared_with(written, place, &Common::Joint(joint.second))
        }
        TableName::Signal => {
            let signal = entry_at(&written.signals, before)?;
            shared_with(written, place, &Common::Signal(signal.at))
        }
        _ => None,
    }
}
