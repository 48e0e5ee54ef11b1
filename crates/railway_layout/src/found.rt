//! What the texts of the stations' layouts are found to be.

ghost use Rattle.std.specs.Prelude.{◌≡◌, IfOk, Ok, length, map, string_bytes};
ghost use Rattle.std.specs.Option.{option_map};
ghost use Rattle.control_table.specs.layout.Entries.{Site};
ghost use Rattle.layout_text.specs.FirstFault.{Fails, Read};
ghost use Rattle.railway_layout.specs.Stations.{AreStations, IsFound, IsOf, IsStationOf, layout_of, site_at, station_named};

use crate::written::WrittenStation;
use control_table::layout::LayoutFault;
use control_table::{Checked, Layout, Name, TableFault, check};
use std::alloc::{AllocError, Global};

/// What the text of a station's layout is.
#[derive(Drop)]
pub enum Found {
    /// A layout whose table is sound.
    Table(Checked),
    /// No layout.
    NoLayout(LayoutFault),
    /// A layout whose table isn't sound.
    Unsound(TableFault),
}

/// A station of a railway.
#[derive(Drop)]
pub struct RailwayStation {
    /// Its name among the stations and lines of the railway.
    pub name: Name,
    /// What the text of its layout is.
    pub found: Found,
}

/// What a text is that gives this layout.
fn judged(alloc: Global, layout: Layout) -> Result<Found, AllocError>
    ensures { IfOk result (IsOf (Ok layout)) }
{
    match check(alloc, layout) {
        Ok(table) => Ok(Found::Table(table)),
        Err(TableFault::OutOfMemory) => Err(AllocError),
        Err(fault) => Ok(Found::Unsound(fault)),
    }
}

/// What a text is that gives this fault, unless memory was lacking.
fn faulty(fault: LayoutFault) -> Result<Found, AllocError>
    ensures { IfOk result (λ found. (read : Read Site) → Fails fault read → IsOf read found) }
{
    match fault {
        LayoutFault::OutOfMemory => Err(AllocError),
        other => Ok(Found::NoLayout(other)),
    }
}

/// What a text is.
fn found_in(alloc: Global, text: &str) -> Result<Found, AllocError>
    ensures { IfOk result (IsFound text.now) }
{
    match Layout::read(alloc, text) {
        Ok(layout) => judged(alloc, layout),
        Err(fault) => faulty(fault),
    }
}

/// A station, and what its text is.
fn station(
    alloc: Global,
    written: &WrittenStation,
    text: &str,
) -> Result<RailwayStation, AllocError>
    ensures { IfOk result (IsStationOf written.now text.now) }
{
    let found = found_in(alloc, text)?;
    Ok(RailwayStation {
        name: written.name,
        found,
    })
}

/// All stations, each with its text.
pub(crate) fn stations(
    alloc: Global,
    written: &[WrittenStation],
    layouts: &[String],
) -> Result<Vec<RailwayStation>, AllocError>
    requires { length layouts.now ≡ length written.now }
    ensures { IfOk result (λ v. AreStations written.now (map string_bytes layouts.now) v.items) }
{
    let mut stations = Vec::new(alloc);
    for (place, entry) in written.iter().enumerate() {
        stations.push(station(alloc, entry, layouts[place].as_str())?)?;
    }
    Ok(stations)
}

/// The station of a name, by its place among all.
pub(crate) fn station_named(all: &[RailwayStation], name: &Name) -> Option<usize>
    ensures { result ≡ station_named all.now name.now }
{
    all.iter()
        .position(|station| station.name.bytes() == name.bytes())
}

/// The layout, where its table is sound.
fn layout_of(found: &Found) -> Option<&Layout>
    ensures { option_map (λ l. l.now) result ≡ layout_of found.now }
{
    match found {
        Found::Table(table) => Some(table.layout()),
        _ => None,
    }
}

/// The layout of the station at a place, where its table is sound.
pub(crate) fn site_at(all: &[RailwayStation], place: usize) -> Option<&Layout>
    ensures { option_map (λ l. l.now) result ≡ site_at all.now place }
{
    match all.get(place) {
        Some(station) => layout_of(&station.found),
        None => None,
    }
}
