//! The entries of a TOML text: missing keys and wrong kinds, in reading order.

ghost use Rattle.std.specs.Prelude.{◌≡◌, option_map};
ghost use Rattle.toml.specs.Data.{get_member};
ghost use Rattle.toml.specs.View.{view, table_view};
ghost use Rattle.layout_text.specs.FirstFault.{Gives};
ghost use Rattle.layout_text.specs.Values.{name_at};
ghost use Rattle.layout_text.specs.Text.{name_field, id_field, port_field, names_field, ports_field, sides_field, names_at, ports_at, sides_of, sides_at, list_or_empty, aspect_or_proceed, key_or_none, station_at, track_at, point_at, joint_at, signal_at, detector_at, route_at};

use crate::entries::{
    PortName, Station, WrittenDetector, WrittenJoint, WrittenPoint, WrittenRoute, WrittenSignal,
    WrittenTrack,
};
use crate::fault::{LayoutFault, Place};
use crate::steps::{Step, all};
use crate::values::{array, aspect, field, id, key, name, name_in, port, side, table};
use sci_telegram::{Aspect, Name, Side};
use std::alloc::Global;
use toml::{Table, Value};

/// Reads a name.
pub(crate) struct ReadName;

impl Step for ReadName {
    ghost use Rattle.toml.specs.View.{view};
    ghost use Rattle.layout_text.specs.Values.{name_at};

    type From = Value;

    type To = Name;

    ghost gives = { λ _ place v. name_at place (view v) };

    fn step(&self, _alloc: Global, place: Place, from: &Value) -> Result<Name, LayoutFault> {
        name(from, place)
    }
}

/// Reads a port.
pub(crate) struct ReadPort;

impl Step for ReadPort {
    ghost use Rattle.toml.specs.View.{view};
    ghost use Rattle.layout_text.specs.Values.{port_at};

    type From = Value;

    type To = PortName;

    ghost gives = { λ _ place v. port_at place (view v) };

    fn step(&self, _alloc: Global, place: Place, from: &Value) -> Result<PortName, LayoutFault> {
        port(from, place)
    }
}

/// The names of a list.
#[tactic(auto, unfolding(crate::specs::Text::names_at))]
fn names(alloc: Global, value: &Value, place: Place) -> Result<Vec<Name>, LayoutFault>
    ensures { Gives (λ v. v.items) result (names_at place (view value.now)) }
{
    let items = array(value, place)?;
    all(alloc, &ReadName, place, items)
}

/// The ports of a list.
#[tactic(auto, unfolding(crate::specs::Text::ports_at))]
fn ports(alloc: Global, value: &Value, place: Place) -> Result<Vec<PortName>, LayoutFault>
    ensures { Gives (λ v. v.items) result (ports_at place (view value.now)) }
{
    let items = array(value, place)?;
    all(alloc, &ReadPort, place, items)
}

/// The points of a table, and the side that it has for each.
fn sides_in(alloc: Global, members: &Table, place: Place) -> Result<Vec<(Name, Side)>, LayoutFault>
    ensures { Gives (λ v. v.items) result (sides_of place (table_view members.now)) }
{
    let mut sides = Vec::new(alloc);
    for (point, word) in members {
        let point = name_in(point.as_str(), place)?;
        let side = side(word, place)?;
        sides.push((point, side))?;
    }
    Ok(sides)
}

/// The points of a table, and the side that it has for each.
#[tactic(auto, unfolding(crate::specs::Text::sides_at))]
fn sides(alloc: Global, value: &Value, place: Place) -> Result<Vec<(Name, Side)>, LayoutFault>
    ensures { Gives (λ v. v.items) result (sides_at place (view value.now)) }
{
    let members = table(value, place)?;
    sides_in(alloc, members, place)
}

/// The names of a list that may be left out.
fn optional_names(
    alloc: Global,
    value: Option<&Value>,
    place: Place,
) -> Result<Vec<Name>, LayoutFault>
    ensures { Gives (λ v. v.items) result (list_or_empty (names_at place) (option_map (λ v. view v.now) value.entry)) }
{
    match value {
        Some(value) => names(alloc, value, place),
        None => Ok(Vec::new(alloc)),
    }
}

/// The sides of a table that may be left out.
fn optional_sides(
    alloc: Global,
    value: Option<&Value>,
    place: Place,
) -> Result<Vec<(Name, Side)>, LayoutFault>
    ensures { Gives (λ v. v.items) result (list_or_empty (sides_at place) (option_map (λ v. view v.now) value.entry)) }
{
    match value {
        Some(value) => sides(alloc, value, place),
        None => Ok(Vec::new(alloc)),
    }
}

/// An aspect that may be left out.
fn optional_aspect(value: Option<&Value>, place: Place) -> Result<Aspect, LayoutFault>
    ensures { Gives (λ a. a) result (aspect_or_proceed place (option_map (λ v. view v.now) value.entry)) }
{
    match value {
        Some(value) => aspect(value, place),
        None => Ok(Aspect::Proceed),
    }
}

/// A key that may be left out.
fn optional_key(value: Option<&Value>, place: Place) -> Result<Option<[u32; 4]>, LayoutFault>
    ensures { Gives (λ k. k) result (key_or_none place (option_map (λ v. view v.now) value.entry)) }
{
    match value {
        Some(value) => Ok(Some(key(value, place)?)),
        None => Ok(None),
    }
}

/// The value under a key, if there is one.
fn optional_field<'a>(table: &'a Table, key: &str) -> Option<&'a Value>
    ensures { option_map (λ v. view v.now) result ≡ get_member key.now (table_view table.now) }
{
    table.get(key)
}

/// A name under a key that has to be there.
#[tactic(auto, unfolding(crate::specs::Text::name_field))]
fn name_field(table: &Table, key: &str, place: Place) -> Result<Name, LayoutFault>
    ensures { Gives (λ n. n) result (name_field key.now place (table_view table.now)) }
{
    let value = field(table, key, place)?;
    name(value, place)
}

/// An identity under a key that has to be there.
#[tactic(auto, unfolding(crate::specs::Text::id_field))]
fn id_field(table: &Table, key: &str, place: Place) -> Result<u32, LayoutFault>
    ensures { Gives (λ n. n) result (id_field key.now place (table_view table.now)) }
{
    let value = field(table, key, place)?;
    id(value, place)
}

/// A port under a key that has to be there.
#[tactic(auto, unfolding(crate::specs::Text::port_field))]
fn port_field(table: &Table, key: &str, place: Place) -> Result<PortName, LayoutFault>
    ensures { Gives (λ p. p) result (port_field key.now place (table_view table.now)) }
{
    let value = field(table, key, place)?;
    port(value, place)
}

/// A list of names under a key that has to be there.
#[tactic(auto, unfolding(crate::specs::Text::names_field))]
fn names_field(
    alloc: Global,
    table: &Table,
    key: &str,
    place: Place,
) -> Result<Vec<Name>, LayoutFault>
    ensures { Gives (λ v. v.items) result (names_field key.now place (table_view table.now)) }
{
    let value = field(table, key, place)?;
    names(alloc, value, place)
}

/// A list of ports under a key that has to be there.
#[tactic(auto, unfolding(crate::specs::Text::ports_field))]
fn ports_field(
    alloc: Global,
    table: &Table,
    key: &str,
    place: Place,
) -> Result<Vec<PortName>, LayoutFault>
    ensures { Gives (λ v. v.items) result (ports_field key.now place (table_view table.now)) }
{
    let value = field(table, key, place)?;
    ports(alloc, value, place)
}

/// The sides of points under a key that has to be there.
#[tactic(auto, unfolding(crate::specs::Text::sides_field))]
fn sides_field(
    alloc: Global,
    table: &Table,
    key: &str,
    place: Place,
) -> Result<Vec<(Name, Side)>, LayoutFault>
    ensures { Gives (λ v. v.items) result (sides_field key.now place (table_view table.now)) }
{
    let value = field(table, key, place)?;
    sides(alloc, value, place)
}

/// The station.
#[tactic(auto, unfolding(crate::specs::Text::station_at))]
pub(crate) fn station(value: &Value, place: Place) -> Result<Station, LayoutFault>
    ensures { Gives (λ s. s) result (station_at place (view value.now)) }
{
    let fields = table(value, place)?;
    let name = name_field(fields, "name", place)?;
    let id = id_field(fields, "id", place)?;
    let key = optional_key(optional_field(fields, "key"), place)?;
    Ok(Station { name, id, key })
}

/// Reads a track.
pub(crate) struct ReadTrack;

impl Step for ReadTrack {
    ghost use Rattle.toml.specs.View.{view};
    ghost use Rattle.layout_text.specs.Text.{track_at};

    type From = Value;

    type To = WrittenTrack;

    ghost gives = { λ _ place v. track_at place (view v) };

    #[tactic(auto, unfolding(crate::specs::Text::track_at))]
    fn step(
        &self,
        _alloc: Global,
        place: Place,
        from: &Value,
    ) -> Result<WrittenTrack, LayoutFault> {
        let fields = table(from, place)?;
        let name = name_field(fields, "name", place)?;
        let section = name_field(fields, "section", place)?;
        Ok(WrittenTrack { name, section })
    }
}

/// Reads a point.
pub(crate) struct ReadPoint;

impl Step for ReadPoint {
    ghost use Rattle.toml.specs.View.{view};
    ghost use Rattle.layout_text.specs.Text.{point_at};

    type From = Value;

    type To = WrittenPoint;

    ghost gives = { λ _ place v. point_at place (view v) };

    #[tactic(auto, unfolding(crate::specs::Text::point_at))]
    fn step(
        &self,
        _alloc: Global,
        place: Place,
        from: &Value,
    ) -> Result<WrittenPoint, LayoutFault> {
        let fields = table(from, place)?;
        let name = name_field(fields, "name", place)?;
        let id = id_field(fields, "id", place)?;
        let section = name_field(fields, "section", place)?;
        Ok(WrittenPoint { name, id, section })
    }
}

/// Reads a joint: two ports, and no more.
pub(crate) struct ReadJoint;

impl Step for ReadJoint {
    ghost use Rattle.toml.specs.View.{view};
    ghost use Rattle.layout_text.specs.Text.{joint_at};

    type From = Value;

    type To = WrittenJoint;

    ghost gives = { λ _ place v. joint_at place (view v) };

    #[tactic(auto, unfolding(crate::specs::Text::joint_at))]
    fn step(
        &self,
        _alloc: Global,
        place: Place,
        from: &Value,
    ) -> Result<WrittenJoint, LayoutFault> {
        match array(from, place)? {
            [first, second] => {
                let first = port(first, place)?;
                let second = port(second, place)?;
                Ok(WrittenJoint { first, second })
            }
            _ => Err(LayoutFault::WrongKind(place)),
        }
    }
}

/// Reads a signal.
pub(crate) struct ReadSignal;

impl Step for ReadSignal {
    ghost use Rattle.toml.specs.View.{view};
    ghost use Rattle.layout_text.specs.Text.{signal_at};

    type From = Value;

    type To = WrittenSignal;

    ghost gives = { λ _ place v. signal_at place (view v) };

    #[tactic(auto, unfolding(crate::specs::Text::signal_at))]
    fn step(
        &self,
        _alloc: Global,
        place: Place,
        from: &Value,
    ) -> Result<WrittenSignal, LayoutFault> {
        let fields = table(from, place)?;
        let name = name_field(fields, "name", place)?;
        let id = id_field(fields, "id", place)?;
        let at = port_field(fields, "at", place)?;
        Ok(WrittenSignal { name, id, at })
    }
}

/// Reads a detection controller.
pub(crate) struct ReadDetector;

impl Step for ReadDetector {
    ghost use Rattle.toml.specs.View.{view};
    ghost use Rattle.layout_text.specs.Text.{detector_at};

    type From = Value;

    type To = WrittenDetector;

    ghost gives = { λ _ place v. detector_at place (view v) };

    #[tactic(auto, unfolding(crate::specs::Text::detector_at))]
    fn step(
        &self,
        alloc: Global,
        place: Place,
        from: &Value,
    ) -> Result<WrittenDetector, LayoutFault> {
        let fields = table(from, place)?;
        let name = name_field(fields, "name", place)?;
        let id = id_field(fields, "id", place)?;
        let sections = names_field(alloc, fields, "sections", place)?;
        Ok(WrittenDetector { name, id, sections })
    }
}

/// Reads a route.
pub(crate) struct ReadRoute;

impl Step for ReadRoute {
    ghost use Rattle.toml.specs.View.{view};
    ghost use Rattle.layout_text.specs.Text.{route_at};

    type From = Value;

    type To = WrittenRoute;

    ghost gives = { λ _ place v. route_at place (view v) };

    #[tactic(auto, unfolding(crate::specs::Text::route_at))]
    fn step(&self, alloc: Global, place: Place, from: &Value) -> Result<WrittenRoute, LayoutFault> {
        let fields = table(from, place)?;
        let name = name_field(fields, "name", place)?;
        let entry = name_field(fields, "entry", place)?;
        let exit = name_field(fields, "exit", place)?;
        let path = ports_field(alloc, fields, "path", place)?;
        let points = sides_field(alloc, fields, "points", place)?;
        let flank = optional_sides(alloc, optional_field(fields, "flank"), place)?;
        let approach = optional_names(alloc, optional_field(fields, "approach"), place)?;
        let extra = optional_names(alloc, optional_field(fields, "extra"), place)?;
        let aspect = optional_aspect(optional_field(fields, "aspect"), place)?;
        Ok(WrittenRoute {
            name,
            entry,
            exit,
            path,
            points,
            flank,
            approach,
            extra,
            aspect,
        })
    }
}
