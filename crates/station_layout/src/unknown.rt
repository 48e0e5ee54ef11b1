//! Which name of an entry isn't that of an entry of the kind that is wanted.

ghost use Rattle.std.specs.Prelude.{◌≡◌};
ghost use Rattle.station_layout.specs.declared.advice.Missed.TheVariants as missing;
ghost use Rattle.station_layout.specs.UnknownAdvice.{detector_missed, first_missed, is_entry, is_there, joint_missed, missed, name_missed, named_by, points_missed, route_missed, spot_of, table_of, unknown_told};

use crate::advice::{Common, EntryAdvice, Missed, Spot};
use crate::field_key::FieldKey;
use crate::shared::{entry_at, place_having};
use control_table::{Name, Side};
use layout_text::{End, Place, PortName, TableName, WrittenJoint, WrittenLayout, WrittenRoute};

/// The table in which an element stands that has a port of this word.
fn table_of(end: End) -> TableName
    ensures { result ≡ table_of end }
{
    match end {
        End::A | End::B => TableName::Track,
        End::Tip | End::Left | End::Right => TableName::Point,
        End::End => TableName::Border,
    }
}

/// Whether a table has an entry of this name.
fn is_entry(written: &WrittenLayout, table: TableName, name: Name) -> bool
    ensures { result ≡ is_entry written.now table name }
{
    place_having(written, &Common::Name(name), table).is_some()
}

/// Whether what is named is there, and of the kind that is wanted.
#[tactic(auto, unfolding(crate::specs::UnknownAdvice::is_there))]
fn is_there(written: &WrittenLayout, what: &Missed) -> bool
    ensures { result ≡ is_there written.now what.now }
{
    match what {
        Missed::Section(name) => is_entry(written, TableName::Section, *name),
        Missed::Port(port) => is_entry(written, table_of(port.end), port.element),
        Missed::Point(name) => is_entry(written, TableName::Point, *name),
        Missed::Signal(name) => is_entry(written, TableName::Signal, *name),
        Missed::Exit(name) => {
            is_entry(written, TableName::Signal, *name)
                || is_entry(written, TableName::Border, *name)
        }
        Missed::Route(name) => is_entry(written, TableName::Route, *name),
        Missed::Unreported(_) => false,
    }
}

/// The advice where something is named, unless it is there.
#[tactic(auto, unfolding(crate::specs::UnknownAdvice::missed))]
fn missed(written: &WrittenLayout, at: Spot, what: &Missed) -> Option<EntryAdvice>
    ensures { result ≡ missed written.now at what.now }
{
    if is_there(written, what) {
        return None;
    }
    Some(EntryAdvice::Unknown(at, *what))
}

/// Where an item under a key of an entry stands. A table has no items.
fn spot_of(place: Place, key: FieldKey, item: usize) -> Spot
    ensures { result ≡ spot_of place key item }
{
    match key.of_items() {
        Some(_) => Spot::Item(place, key, item),
        None => Spot::Entry(place),
    }
}

/// An item of an array or a table, which names something.
trait Naming: Copy {
    ghost use Rattle.station_layout.specs.declared.advice.Missed.{Missed};
    ghost use Rattle.station_layout.specs.declared.field_key.FieldKey.{FieldKey};

    /// What it names under a key, if that isn't there.
    ghost named: { FieldKey → Self → Missed };

    /// What it names under a key, if that isn't there.
    fn named(self, key: FieldKey) -> Missed
        ensures { result ≡ named key self };
}

// Under `extra` a name is that of a route.
impl Naming for Name {
    ghost named = { name_missed };

    fn named(self, key: FieldKey) -> Missed {
        match key {
            FieldKey::Extra => Missed::Route(self),
            _ => Missed::Section(self),
        }
    }
}

impl Naming for PortName {
    ghost named = { λ _ port. missing.Port port };

    fn named(self, _key: FieldKey) -> Missed {
        Missed::Port(self)
    }
}

// A point with its side.
impl Naming for (Name, Side) {
    ghost named = { λ _ point. missing.Point point.0 };

    fn named(self, _key: FieldKey) -> Missed {
        Missed::Point(self.0)
    }
}

/// The advice for the first of these items under a key of an entry that names what isn't there.
fn first_missed<T: Naming>(
    written: &WrittenLayout,
    place: Place,
    key: FieldKey,
    items: &[T],
) -> Option<EntryAdvice>
    ensures { result ≡ first_missed written.now place key (T.named key) 0 items.now }
{
    let mut at: usize = 0;
    for item in items {
        at = at.saturating_add(1);
        if let Some(found) = missed(written, spot_of(place, key, at), &item.named(key)) {
            return Some(found);
        }
    }
    None
}

/// The advice for the first point of a route that isn't there: of those on its path, or of its flank.
#[tactic(auto, unfolding(crate::specs::UnknownAdvice::points_missed))]
fn points_missed(written: &WrittenLayout, place: Place, route: &WrittenRoute) -> Option<EntryAdvice>
    ensures { result ≡ points_missed written.now place route.now }
{
    if let Some(found) = first_missed(written, place, FieldKey::Points, &route.points) {
        return Some(found);
    }
    first_missed(written, place, FieldKey::Flank, &route.flank)
}

/// The advice for the first name of a route that isn't that of an entry of the kind that is wanted.
#[tactic(auto, unfolding(crate::specs::UnknownAdvice::route_missed))]
fn route_missed(written: &WrittenLayout, place: Place, route: &WrittenRoute) -> Option<EntryAdvice>
    ensures { result ≡ route_missed written.now place route.now }
{
    let itself = Spot::Entry(place);
    if let Some(found) = missed(written, itself, &Missed::Signal(route.entry)) {
        return Some(found);
    }
    if let Some(found) = missed(written, itself, &Missed::Exit(route.exit)) {
        return Some(found);
    }
    if let Some(found) = first_missed(written, place, FieldKey::Path, &route.path) {
        return Some(found);
    }
    if let Some(found) = points_missed(written, place, route) {
        return Some(found);
    }
    if let Some(found) = first_missed(written, place, FieldKey::Approach, &route.approach) {
        return Some(found);
    }
    first_missed(written, place, FieldKey::Extra, &route.extra)
}

/// The advice for the first port of a joint that isn't there.
fn joint_missed(written: &WrittenLayout, place: Place, joint: WrittenJoint) -> Option<EntryAdvice>
    ensures { result ≡ joint_missed written.now place joint }
{
    let itself = Spot::Entry(place);
    if let Some(found) = missed(written, itself, &Missed::Port(joint.first)) {
        return Some(found);
    }
    missed(written, itself, &Missed::Port(joint.second))
}

/// The advice for the first section of a detection controller that isn't there.
fn detector_missed(written: &WrittenLayout, place: Place, before: usize) -> Option<EntryAdvice>
    ensures { result ≡ detector_missed written.now place before }
{
    let sections = written.detectors.get(before)?.sections();
    first_missed(written, place, FieldKey::Sections, sections)
}

/// What an entry names that names one thing; of a section its own name.
fn named_by(written: &WrittenLayout, table: TableName, before: usize) -> Option<Missed>
    ensures { result ≡ named_by written.now table before }
{
    match table {
        TableName::Section => match entry_at(&written.sections, before) {
            Some(name) => Some(Missed::Unreported(name)),
            None => None,
        },
        TableName::Track => match entry_at(&written.tracks, before) {
            Some(track) => Some(Missed::Section(track.section)),
            None => None,
        },
        TableName::Point => match entry_at(&written.points, before) {
            Some(point) => Some(Missed::Section(point.section)),
            None => None,
        },
        TableName::Signal => match entry_at(&written.signals, before) {
            Some(signal) => Some(Missed::Port(signal.at)),
            None => None,
        },
        _ => None,
    }
}

/// The advice for the first name of the entry at a place that isn't that of an entry of the kind that is wanted; of a section for
/// its own name, since no detection controller reports it.
pub(crate) fn unknown_told(written: &WrittenLayout, place: Place) -> Option<EntryAdvice>
    ensures { result ≡ unknown_told written.now place }
{
    let before = place.entry.saturating_sub(1);
    match place.table {
        TableName::Joint => joint_missed(written, place, entry_at(&written.joints, before)?),
        TableName::Detector => detector_missed(written, place, before),
        TableName::Route => route_missed(written, place, written.routes.get(before)?),
        table => missed(
            written,
            Spot::Entry(place),
            &named_by(written, table, before)?,
        ),
    }
}
