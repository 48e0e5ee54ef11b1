//! What the names of a line's end stand for.

ghost use Rattle.std.specs.Prelude.{◌≡◌, IfOk};
ghost use Rattle.std.specs.Option.{option_map};
ghost use Rattle.railway_layout.specs.Ends.{border_named, end_at, end_in, end_of, line_of, lock_named, made, named_in, part_in, place_of, point_place, section_named};

use crate::found::{RailwayStation, site_at, station_named};
use crate::ids::StationId;
use crate::line::{Line, LineEnd};
use crate::written::{WrittenEnd, WrittenLine};
use control_table::layout::Point;
use control_table::{BorderId, Layout, Name, PointId, SectionId};
use std::alloc::{AllocError, Global};

/// The place of a name among others.
fn place_of(names: &[Name], name: &Name) -> Option<usize>
    ensures { result ≡ place_of names.now name.now }
{
    names.iter().position(|other| other.bytes() == name.bytes())
}

/// The place of a name among those of points.
fn point_place(points: &[Point], name: &Name) -> Option<usize>
    ensures { result ≡ point_place points.now name.now }
{
    points
        .iter()
        .position(|point| point.name.bytes() == name.bytes())
}

/// The border of a name.
pub(crate) fn border_named(layout: &Layout, name: &Name) -> Option<BorderId>
    ensures { result ≡ border_named layout.now name.now }
{
    Some(BorderId(place_of(layout.borders(), name)?))
}

/// The point of a name.
pub(crate) fn lock_named(layout: &Layout, name: &Name) -> Option<PointId>
    ensures { result ≡ lock_named layout.now name.now }
{
    Some(PointId(point_place(layout.points(), name)?))
}

/// The section of a name.
pub(crate) fn section_named(layout: &Layout, name: &Name) -> Option<SectionId>
    ensures { result ≡ section_named layout.now name.now }
{
    Some(SectionId(place_of(layout.sections(), name)?))
}

/// The sections of a part that are there.
fn part_in(alloc: Global, layout: &Layout, names: &[Name]) -> Result<Vec<SectionId>, AllocError>
    ensures { IfOk result (λ v. v.items ≡ part_in layout.now names.now) }
{
    names
        .iter()
        .filter_map(|name| section_named(layout, name))
        .collect(alloc)
}

/// An end of these, with the part that it names.
fn made(
    alloc: Global,
    layout: &Layout,
    station: StationId,
    written: &WrittenEnd,
    named: (BorderId, PointId, SectionId),
) -> Result<LineEnd, AllocError>
    ensures { IfOk result (λ e. e ≡ made layout.now station written.now named.0 named.1 named.2) }
{
    let part = part_in(alloc, layout, &written.part)?;
    Ok(LineEnd {
        station,
        border: named.0,
        lock: named.1,
        clear: named.2,
        part,
        id: written.id,
    })
}

/// The border, the lock and the section that an end names, where they are there.
fn named_in(layout: &Layout, written: &WrittenEnd) -> Option<(BorderId, PointId, SectionId)>
    ensures { result ≡ named_in layout.now written.now }
{
    let border = border_named(layout, &written.border)?;
    let lock = lock_named(layout, &written.lock)?;
    let clear = section_named(layout, &written.clear)?;
    Some((border, lock, clear))
}

/// An end at a station with this layout, where its border, its lock and the section that it tells are there.
#[tactic(auto, unfolding(crate::specs::Ends::end_in))]
pub(crate) fn end_in(
    alloc: Global,
    layout: &Layout,
    station: StationId,
    written: &WrittenEnd,
) -> Result<Option<LineEnd>, AllocError>
    ensures { IfOk result (λ e. e ≡ end_in layout.now station written.now) }
{
    match named_in(layout, written) {
        Some(named) => Ok(Some(made(alloc, layout, station, written, named)?)),
        None => Ok(None),
    }
}

/// An end at the station of a place.
fn end_at(
    alloc: Global,
    stations: &[RailwayStation],
    place: usize,
    written: &WrittenEnd,
) -> Result<Option<LineEnd>, AllocError>
    ensures { IfOk result (λ e. e ≡ end_at stations.now place written.now) }
{
    match site_at(stations, place) {
        Some(layout) => end_in(alloc, layout, StationId(place), written),
        None => Ok(None),
    }
}

/// An end, where its station is there and has a sound table, and what else it names is there.
#[tactic(auto, unfolding(crate::specs::Ends::end_of))]
fn end_of(
    alloc: Global,
    stations: &[RailwayStation],
    written: &WrittenEnd,
) -> Result<Option<LineEnd>, AllocError>
    ensures { IfOk result (λ e. e ≡ end_of stations.now written.now) }
{
    match station_named(stations, &written.station) {
        Some(place) => end_at(alloc, stations, place, written),
        None => Ok(None),
    }
}

/// A line, where both its ends are.
#[tactic(auto, unfolding(crate::specs::Ends::line_of))]
pub(crate) fn line_of(
    alloc: Global,
    stations: &[RailwayStation],
    written: &WrittenLine,
) -> Result<Option<Line>, AllocError>
    ensures { IfOk result (λ l. l ≡ line_of stations.now written.now) }
{
    let Some(first) = end_of(alloc, stations, &written.first)? else {
        return Ok(None);
    };
    let Some(second) = end_of(alloc, stations, &written.second)? else {
        return Ok(None);
    };
    Ok(Some(Line {
        name: written.name,
        first,
        second,
    }))
}
