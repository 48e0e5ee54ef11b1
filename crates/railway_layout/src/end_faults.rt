//! All that is wrong with an end of a line.

ghost use Rattle.std.specs.Prelude.{◌≡◌, ◌<◌, ◌++◌, OnOk, length};
ghost use Rattle.railway_layout.specs.Faults.{end_faults, is_missing, is_name_among, layout_faults, names_faults, part_fault, part_faults, place_faults, route_fault, route_faults, rule_faults, rule_faults_if, section_faults, site_faults};
ghost use Rattle.railway_layout.specs.Stations.{site_at};

use crate::ends::{border_named, end_in, lock_named, section_named};
use crate::fault::{Place, RailwayFault, tell};
use crate::found::{RailwayStation, site_at, station_named};
use crate::ids::StationId;
use crate::line::LineEnd;
use crate::rules::{
    has_route_in, has_track, is_alone, is_elsewhere, is_lost, lacks_left, lacks_right,
};
use crate::way::way;
use crate::written::WrittenEnd;
use control_table::layout::Route;
use control_table::{Layout, Name};
use std::alloc::{AllocError, Global};

/// Whether there is nothing.
fn is_missing<T>(found: &Option<T>) -> bool
    ensures { result ≡ is_missing found.now }
{
    match found {
        Some(_) => false,
        None => true,
    }
}

/// Whether a name is one of these.
pub(crate) fn is_name_among(names: &[Name], name: &Name) -> bool
    ensures { result ≡ is_name_among names.now name.now }
{
    names.iter().any(|other| other.bytes() == name.bytes())
}

/// Adds what is wrong with a name of a part.
#[tactic(auto, using(crate::proofs::Added::two_added))]
fn add_part_name(
    faults: &mut Vec<RailwayFault>,
    place: Place,
    layout: &Layout,
    part: &[Name],
    number: usize,
    name: &Name,
) -> Result<(), AllocError>
    requires { number < length part.now }
    ensures { OnOk result (faults.new.items ≡ faults.old.items ++ part_fault place layout.now part.now number name.now) }
{
    let unknown = is_missing(&section_named(layout, name));
    tell(faults, unknown, RailwayFault::UnknownName(place, *name))?;
    let twice = is_name_among(&part[..number], name);
    tell(faults, twice, RailwayFault::DoubleName(place, *name))
}

/// Adds what is wrong with the names of a part.
fn add_part(
    faults: &mut Vec<RailwayFault>,
    place: Place,
    layout: &Layout,
    part: &[Name],
) -> Result<(), AllocError>
    ensures { OnOk result (faults.new.items ≡ faults.old.items ++ part_faults place layout.now part.now) }
{
    for (number, name) in part.iter().enumerate() {
        add_part_name(faults, place, layout, part, number, name)?;
    }
    Ok(())
}

/// Adds what is wrong with the names of an end.
#[tactic(auto, using(crate::proofs::Added::four_added))]
fn add_names(
    faults: &mut Vec<RailwayFault>,
    place: Place,
    layout: &Layout,
    end: &WrittenEnd,
) -> Result<(), AllocError>
    ensures { OnOk result (faults.new.items ≡ faults.old.items ++ names_faults place layout.now end.now) }
{
    let no_border = is_missing(&border_named(layout, &end.border));
    tell(
        faults,
        no_border,
        RailwayFault::UnknownName(place, end.border),
    )?;
    let no_lock = is_missing(&lock_named(layout, &end.lock));
    tell(faults, no_lock, RailwayFault::UnknownName(place, end.lock))?;
    let no_clear = is_missing(&section_named(layout, &end.clear));
    tell(
        faults,
        no_clear,
        RailwayFault::UnknownName(place, end.clear),
    )?;
    add_part(faults, place, layout, &end.part)
}

/// Adds what is wrong with a route.
#[tactic(auto, using(crate::proofs::Added::two_added))]
fn add_route(
    faults: &mut Vec<RailwayFault>,
    place: Place,
    end: &LineEnd,
    route: &Route,
) -> Result<(), AllocError>
    ensures { OnOk result (faults.new.items ≡ faults.old.items ++ route_fault place end.now route.now) }
{
    let name = *route.name();
    tell(
        faults,
        lacks_right(end, route),
        RailwayFault::LockNotRight(place, name),
    )?;
    tell(
        faults,
        lacks_left(end, route),
        RailwayFault::LockNotLeft(place, name),
    )
}

/// Adds what is wrong with the routes.
fn add_routes(
    faults: &mut Vec<RailwayFault>,
    place: Place,
    end: &LineEnd,
    routes: &[Route],
) -> Result<(), AllocError>
    ensures { OnOk result (faults.new.items ≡ faults.old.items ++ route_faults place end.now routes.now) }
{
    for route in routes {
        add_route(faults, place, end, route)?;
    }
    Ok(())
}

/// Adds what is wrong with the section that an end tells, and with its part.
#[tactic(auto, using(crate::proofs::Added::two_added))]
fn add_sections(
    faults: &mut Vec<RailwayFault>,
    place: Place,
    layout: &Layout,
    end: &LineEnd,
) -> Result<(), AllocError>
    ensures { OnOk result (faults.new.items ≡ faults.old.items ++ section_faults place layout.now end.now) }
{
    let shared = !is_alone(end.clear, layout.detectors());
    tell(faults, shared, RailwayFault::ClearNotAlone(place))?;
    tell(
        faults,
        !has_track(layout, end),
        RailwayFault::PartLacksTrack(place),
    )
}

/// Adds what is wrong with an end whose names are there.
#[tactic(auto, using(crate::proofs::Added::five_added))]
fn add_rules(
    alloc: Global,
    faults: &mut Vec<RailwayFault>,
    place: Place,
    layout: &Layout,
    end: &LineEnd,
) -> Result<(), AllocError>
    ensures { OnOk result (faults.new.items ≡ faults.old.items ++ rule_faults place layout.now end.now) }
{
    let way = way(alloc, layout, end.border, end.lock)?;
    tell(faults, is_lost(&way), RailwayFault::NotJoined(place))?;
    add_routes(faults, place, end, layout.routes())?;
    let no_route = !has_route_in(end.lock, layout.routes());
    tell(faults, no_route, RailwayFault::NoRouteIn(place))?;
    let elsewhere = is_elsewhere(layout, end.clear, &way);
    tell(faults, elsewhere, RailwayFault::ClearElsewhere(place))?;
    add_sections(faults, place, layout, end)
}

/// Adds what is wrong with an end, where what it names is there.
fn add_rules_if(
    alloc: Global,
    faults: &mut Vec<RailwayFault>,
    place: Place,
    layout: &Layout,
    end: &Option<LineEnd>,
) -> Result<(), AllocError>
    ensures { OnOk result (faults.new.items ≡ faults.old.items ++ rule_faults_if place layout.now end.now) }
{
    match end {
        Some(end) => add_rules(alloc, faults, place, layout, end),
        None => Ok(()),
    }
}

/// Adds what is wrong with an end at a station with this layout.
#[tactic(auto, using(crate::proofs::Added::two_added))]
fn add_end_in(
    alloc: Global,
    faults: &mut Vec<RailwayFault>,
    place: Place,
    layout: &Layout,
    station: StationId,
    end: &WrittenEnd,
) -> Result<(), AllocError>
    ensures { OnOk result (faults.new.items ≡ faults.old.items ++ layout_faults place layout.now station end.now) }
{
    let named = end_in(alloc, layout, station, end)?;
    add_names(faults, place, layout, end)?;
    add_rules_if(alloc, faults, place, layout, &named)
}

/// Adds what is wrong with an end at the station of this number.
fn add_end_at(
    alloc: Global,
    faults: &mut Vec<RailwayFault>,
    stations: &[RailwayStation],
    place: Place,
    station: usize,
    end: &WrittenEnd,
) -> Result<(), AllocError>
    ensures { OnOk result (faults.new.items ≡ faults.old.items ++ site_faults place (record { 0 = station }) end.now (site_at stations.now station)) }
{
    match site_at(stations, station) {
        Some(layout) => add_end_in(alloc, faults, place, layout, StationId(station), end),
        None => tell(faults, true, RailwayFault::Unseen(place)),
    }
}

/// Adds what is wrong with an end.
#[tactic(auto, unfolding(crate::specs::Faults::end_faults))]
pub(crate) fn add_end(
    alloc: Global,
    faults: &mut Vec<RailwayFault>,
    stations: &[RailwayStation],
    place: Place,
    end: &WrittenEnd,
) -> Result<(), AllocError>
    ensures { OnOk result (faults.new.items ≡ faults.old.items ++ end_faults stations.now place end.now) }
{
    match station_named(stations, &end.station) {
        Some(station) => add_end_at(alloc, faults, stations, place, station, end),
        None => tell(faults, true, RailwayFault::UnknownName(place, end.station)),
    }
}
