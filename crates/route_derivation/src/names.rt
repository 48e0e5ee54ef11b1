//! The names of routes.

use crate::fault::NameFault;
use crate::lacking::same_path;
use control_table::layout::{Detector, Exit, Layout, Point, Port, Route, Signal, SignalId, Track};
use control_table::sci_telegram::Name;
use std::alloc::{AllocError, Global};

/// How many names are tried of each form: more than there are other names.
const MOST_NAMES: usize = 512;

/// Adds the names of tracks, points and signals.
fn add_elements(
    names: &mut Vec<Name>,
    tracks: &[Track],
    points: &[Point],
    signals: &[Signal],
) -> Result<(), AllocError> {
    for track in tracks {
        names.push(track.name)?;
    }
    for point in points {
        names.push(point.name)?;
    }
    for signal in signals {
        names.push(signal.name)?;
    }
    Ok(())
}

/// Adds the names of detection controllers and routes.
fn add_lists(
    names: &mut Vec<Name>,
    detectors: &[Detector],
    routes: &[Route],
) -> Result<(), AllocError> {
    for detector in detectors {
        names.push(*detector.name())?;
    }
    for route in routes {
        names.push(*route.name())?;
    }
    Ok(())
}

/// All names of a layout.
pub(crate) fn names_of(alloc: Global, layout: &Layout) -> Result<Vec<Name>, AllocError> {
    let mut names = Vec::new(alloc);
    names.push(layout.station().name)?;
    names.extend_from_slice(layout.sections())?;
    names.extend_from_slice(layout.borders())?;
    add_elements(
        &mut names,
        layout.tracks(),
        layout.points(),
        layout.signals(),
    )?;
    add_lists(&mut names, layout.detectors(), layout.routes())?;
    Ok(names)
}

/// Whether a name stands in a list.
fn is_taken(taken: &[Name], name: &Name) -> bool {
    taken.iter().any(|one| one == name)
}

/// The name after the entry and the exit of a route, the number-th of its kind, if it is a name.
fn named_by_ends(
    alloc: Global,
    entry: &Name,
    exit: &Name,
    number: usize,
) -> Result<Option<Name>, AllocError> {
    let entry = entry.as_str();
    let exit = exit.as_str();
    if number == 1 {
        let text = format!(in alloc; "{entry}-{exit}")?;
        return Ok(Name::of(text.as_bytes()));
    }
    let text = format!(in alloc; "{entry}-{exit}-{number}")?;
    Ok(Name::of(text.as_bytes()))
}

/// The first name after the entry and the exit that isn't taken, if there is one.
fn free_by_ends(
    alloc: Global,
    taken: &[Name],
    entry: &Name,
    exit: &Name,
) -> Result<Option<Name>, AllocError> {
    for number in 1..=MOST_NAMES {
        match named_by_ends(alloc, entry, exit, number)? {
            Some(name) if is_taken(taken, &name) => (),
            found => return Ok(found),
        }
    }
    Ok(None)
}

/// The first of R1, R2 and so on that isn't taken, if there is one.
fn free_by_number(alloc: Global, taken: &[Name]) -> Result<Option<Name>, AllocError> {
    for number in 1..=MOST_NAMES {
        let text = format!(in alloc; "R{number}")?;
        match Name::of(text.as_bytes()) {
            Some(name) if is_taken(taken, &name) => (),
            found => return Ok(found),
        }
    }
    Ok(None)
}

/// A name for a route from a signal to an exit, which isn't taken.
pub(crate) fn free_name(
    alloc: Global,
    taken: &[Name],
    entry: &Name,
    exit: &Name,
) -> Result<Name, NameFault> {
    if let Some(name) = free_by_ends(alloc, taken, entry, exit)? {
        return Ok(name);
    }
    match free_by_number(alloc, taken)? {
        Some(name) => Ok(name),
        None => Err(NameFault::NoName),
    }
}

/// The name of a signal.
fn signal_name(layout: &Layout, signal: SignalId) -> Option<Name> {
    layout.signals().get(signal.0).map(|entry| entry.name)
}

/// The name of an exit.
fn exit_name(layout: &Layout, exit: Exit) -> Option<Name> {
    match exit {
        Exit::Signal(signal) => signal_name(layout, signal),
        Exit::Border(border) => layout.borders().get(border.0).copied(),
    }
}

/// The names of the entry and the exit of a route.
pub(crate) fn end_names(layout: &Layout, entry: SignalId, exit: Exit) -> Option<(Name, Name)> {
    let entry = signal_name(layout, entry)?;
    let exit = exit_name(layout, exit)?;
    Some((entry, exit))
}

/// The name that the table has for a route of this way, if it has one.
pub(crate) fn name_in_table(routes: &[Route], entry: SignalId, path: &[Port]) -> Option<Name> {
    for route in routes {
        if route.entry().0 == entry.0 && same_path(route.path(), path) {
            return Some(*route.name());
        }
    }
    None
}
